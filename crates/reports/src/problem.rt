//! The question of the tasks on a formula: whether there is a table of some size that keeps a
//! separation or solves a problem.

use ring_problems::Demand;

/// The numbers of identifiers and rounds, the maximum number of channels, and what is asked of the
/// channels of a table.
#[derive(Drop)]
pub struct ProblemNumbers {
    pub ids: u32,
    pub rounds: u32,
    pub channels: u32,
    pub demand: Demand,
}

/// Why there is no formula of these numbers.
#[derive(Clone, Copy, Debug, PartialEq, Eq)]
pub enum ProblemFault {
    /// The number of identifiers is too small for a ring, or above `MAX_IDS`.
    IdsOutOfRange,
    /// There are more than `MAX_WINDOWS` windows.
    TooManyWindows,
    /// The formula would have more than `MAX_VARIABLES` variables.
    TooManyVariables,
    /// The formula would have more than `MAX_CLAUSES` clauses.
    TooManyClauses,
}
