//! The tasks of the program.

ghost use Rattle.std.specs.Prelude.{◌↔◌, IsTrue};
ghost use Rattle.task_words.specs.Counts.{IsCount, IsNear, AreFormulaNumbers};
ghost use Rattle.task_words.specs.Task.{HasFewPatterns, IsDemandInRange};

use crate::limits::{MAX_CHANNELS, MAX_COUNT, MAX_DISTANCE, MAX_PATTERNS, MAX_ROUNDS};
use numerals::Base;
use ring_problems::{Demand, Problem};

/// A task that the words of a command request.
#[derive(Drop)]
pub enum Task {
    /// Checks the program text of the input for identifiers below `ids`.
    Check {
        /// The number of identifiers.
        ids: u32,
    },
    /// Prints the printed form of the program text of the input.
    Print,
    /// Makes the table of the program text of the input for identifiers below `ids`. Its text also
    /// gives the separation.
    Table {
        /// The number of identifiers.
        ids: u32,
        /// The number of workers, 1 to `MAX_COUNT`.
        workers: u32,
        /// The minimum difference of neighbours' channels, 1 to `MAX_DISTANCE`.
        near: u32,
        /// The minimum difference of the channels of places at distance two, 0 to `MAX_DISTANCE`.
        far: u32,
    },
    /// Judges whether the channels are as demanded on every ring of identifiers below `ids`, by the
    /// program text of the input.
    Judge {
        /// The number of identifiers.
        ids: u32,
        /// The number of workers, 1 to `MAX_COUNT`.
        workers: u32,
        /// What is demanded of the channels.
        demand: Demand,
    },
    /// Runs the program text of the input on a ring, for identifiers below `ids`.
    Run {
        /// The number of identifiers.
        ids: u32,
        /// The identifiers of the ring's places, from place 0 on.
        ring: Vec<u32>,
        /// The number of segments in which the ring is run. The task is reported as refused if this
        /// is not 1 to `MAX_COUNT` or is above the number of the ring's places.
        segments: u32,
    },
    /// Reports the registers and the messages of a ring's places in each round of the program text
    /// of the input, for identifiers below `ids`.
    Trace {
        /// The number of identifiers.
        ids: u32,
        /// The identifiers of the ring's places, from place 0 on.
        ring: Vec<u32>,
        /// The base of all numbers in the lines.
        base: Base,
    },
    /// Reports how one place of a ring computes by the program text of the input: the value of each
    /// part of each expression, for identifiers below `ids`.
    Explain {
        /// The number of identifiers.
        ids: u32,
        /// The identifiers of the ring's places, from place 0 on.
        ring: Vec<u32>,
        /// The place. The task is reported as refused if the ring has no such place.
        place: u32,
        /// The base of all values.
        base: Base,
    },
    /// Looks up the channels of a ring's places in the table of the program text of the input, for
    /// identifiers below `ids`.
    Plan {
        /// The number of identifiers.
        ids: u32,
        /// The identifiers of the ring's places, from place 0 on.
        ring: Vec<u32>,
        /// The number of workers, 1 to `MAX_COUNT`.
        workers: u32,
    },
    /// Judges the channels on every ring by the table text of the input: whether they solve the
    /// problem, or, without one, whether those of near places are far enough apart, as the text says.
    Audit {
        /// The problem, if there is one.
        problem: Option<Problem>,
    },
    /// Looks up the channels of a ring's places in the table of the table text of the input.
    Apply {
        /// The identifiers of the ring's places, from place 0 on.
        ring: Vec<u32>,
    },
    /// Writes the table and the separation of the table text of the input in the newest version.
    Migrate,
    /// Prints the formula that asks for a table of this many identifiers, rounds and channels whose
    /// channels are as demanded, in DIMACS. Reads no input.
    Formula {
        /// The number of identifiers.
        ids: u32,
        /// The number of rounds, at most `MAX_ROUNDS`.
        rounds: u32,
        /// The number of channels, 1 to `MAX_CHANNELS`.
        channels: u32,
        /// What is demanded of the channels.
        demand: Demand,
    },
    /// Checks whether the text of the input refutes that formula, so that there is no such table.
    Refute {
        /// The number of identifiers.
        ids: u32,
        /// The number of rounds, at most `MAX_ROUNDS`.
        rounds: u32,
        /// The number of channels, 1 to `MAX_CHANNELS`.
        channels: u32,
        /// What is demanded of the channels.
        demand: Demand,
    },
}

impl Task {
    ghost use Rattle.std.specs.Prelude.{◌↔◌, IsTrue};
    ghost use Rattle.task_words.specs.Task.{IsRunnable};

    /// Returns whether the task can be done: its number of workers, if it has one, is 1 to
    /// `MAX_COUNT`, its minimum differences of channels, if it has any, are at most `MAX_DISTANCE`,
    /// and at least 1 for neighbours, its problem, if it has one, has 1 to `MAX_PATTERNS` patterns,
    /// and the numbers of rounds and of channels of a formula are at most `MAX_ROUNDS` and 1 to
    /// `MAX_CHANNELS`.
    pub fn is_runnable(&self) -> bool
        ensures { IsTrue result ↔ IsRunnable self.now }
    {
        match self {
            Task::Table {
                workers,
                near,
                far,
                ..
            } => is_count(*workers) && is_near(*near) && *far <= MAX_DISTANCE,
            Task::Judge {
                workers,
                demand,
                ..
            } => is_count(*workers) && is_in_range(demand),
            Task::Plan { workers, .. } => is_count(*workers),
            Task::Audit {
                problem: Some(problem),
            } => has_few_patterns(problem),
            Task::Formula {
                rounds,
                channels,
                demand,
                ..
            }
            | Task::Refute {
                rounds,
                channels,
                demand,
                ..
            } => are_formula_numbers(*rounds, *channels) && is_in_range(demand),
            _ => true,
        }
    }
}

// Returns whether the words can request this number of workers or of segments.
fn is_count(count: u32) -> bool
    ensures { IsTrue result ↔ IsCount count }
{
    1 <= count && count <= MAX_COUNT
}

// Returns whether the words can request a formula with these numbers of rounds and channels.
fn are_formula_numbers(rounds: u32, channels: u32) -> bool
    ensures { IsTrue result ↔ AreFormulaNumbers rounds channels }
{
    rounds <= MAX_ROUNDS && 1 <= channels && channels <= MAX_CHANNELS
}

// Returns whether the words can request this demand.
fn is_in_range(demand: &Demand) -> bool
    ensures { IsTrue result ↔ IsDemandInRange demand.now }
{
    match demand {
        Demand::Apart(separation) => is_near(separation.near) && separation.far <= MAX_DISTANCE,
        Demand::Solve(problem) => has_few_patterns(problem),
    }
}

// Returns whether the problem has as many patterns as the words can request.
fn has_few_patterns(problem: &Problem) -> bool
    ensures { IsTrue result ↔ HasFewPatterns problem.now }
{
    let count = problem.patterns().len();
    1 <= count && count <= MAX_PATTERNS
}

// Returns whether the words can request this minimum difference of neighbours' channels.
fn is_near(near: u32) -> bool
    ensures { IsTrue result ↔ IsNear near }
{
    1 <= near && near <= MAX_DISTANCE
}
