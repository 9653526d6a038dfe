//! What is asked of the channels of a table.
ghost use Rattle.std.specs.Prelude.{◌≡◌};
ghost use Rattle.ring_problems.specs.Demands.{known_in, patterns_of, forbidden_of, separation_of};

use crate::known::KnownProblem;
use crate::pattern::Pattern;
use channel_tables::Separation;

/// A problem: a list of patterns that the channels of no place and of the two places after it may
/// match. These are the locally checkable labellings of radius 1 (Naor and Stockmeyer 1995) on
/// oriented rings.
#[derive(Drop)]
pub enum Problem {
    /// A problem with a name.
    Known(KnownProblem),
    /// These patterns.
    Listed(Vec<Pattern>),
}

impl Problem {
    /// Returns the forbidden patterns.
    pub fn patterns(&self) -> &[Pattern]
        ensures { result.now ≡ patterns_of self.now }
    {
        match self {
            Problem::Known(known) => known.patterns(),
            Problem::Listed(patterns) => patterns,
        }
    }

    /// Returns the problem's name, if it has one.
    pub fn known(&self) -> Option<KnownProblem>
        ensures { result ≡ known_in self.now }
    {
        match self {
            Problem::Known(known) => Some(*known),
            Problem::Listed(_) => None,
        }
    }
}

/// What is asked of the channels of a table.
#[derive(Drop)]
pub enum Demand {
    /// The channels of near places are far enough apart.
    Apart(Separation),
    /// They solve a problem.
    Solve(Problem),
}

impl Demand {
    /// Returns the separation that is asked for: near and far are 0 if a problem is.
    pub fn separation(&self) -> Separation
        ensures { result ≡ separation_of self.now }
    {
        match self {
            Demand::Apart(separation) => *separation,
            Demand::Solve(_) => Separation { near: 0, far: 0 },
        }
    }

    /// Returns the forbidden patterns, none if a separation is asked for.
    pub fn forbidden(&self) -> &[Pattern]
        ensures { result.now ≡ forbidden_of self.now }
    {
        match self {
            Demand::Apart(_) => &[],
            Demand::Solve(problem) => problem.patterns(),
        }
    }
}
