//! The limits of formulas and of their refutations.

/// The maximum number of variables of a formula: of its windows times its channels.
pub const MAX_VARIABLES: u64 = 1 << 22;

/// The maximum number of clauses of a formula.
pub const MAX_CLAUSES: u64 = 1 << 24;

/// The maximum length of the text of a refutation in bytes.
pub const LONGEST_REFUTATION: usize = 1 << 27;
