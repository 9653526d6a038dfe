//! The problems that courses on local algorithms have.
ghost use Rattle.std.specs.Prelude.{◌≡◌};
ghost use Rattle.ring_problems.specs.Known.{known_patterns};

use crate::pattern::{Entry, Pattern};

/// A problem of most courses on local algorithms.
#[derive(Clone, Copy, Debug, PartialEq, Eq)]
pub enum KnownProblem {
    /// A maximal independent set: channel 1 in the set, 0 not in it.
    IndependentSet,
    /// A maximal matching: channel 1 matched to the right neighbour, 2 to the left one, 0 single.
    Matching,
    /// A weak colouring with two channels: each node has a neighbour with the other channel.
    WeakColouring,
}

impl KnownProblem {
    /// Returns the forbidden patterns of the problem.
    pub fn patterns(self) -> &'static [Pattern]
        ensures { result.now ≡ known_patterns self }
    {
        match self {
            KnownProblem::IndependentSet => &INDEPENDENT_SET,
            KnownProblem::Matching => &MATCHING,
            KnownProblem::WeakColouring => &WEAK_COLOURING,
        }
    }
}

// The pattern of two or three channels in a row.
macro_rules! row {
    ($first:literal, $second:literal) => {
        Pattern {
            first: Entry::Channel($first),
            second: Entry::Channel($second),
            third: Entry::Wildcard,
        }
    };
    ($first:literal, $second:literal, $third:literal) => {
        Pattern {
            first: Entry::Channel($first),
            second: Entry::Channel($second),
            third: Entry::Channel($third),
        }
    };
}

const INDEPENDENT_SET: [Pattern; 2] = [row!(0, 0, 0), row!(1, 1)];

const MATCHING: [Pattern; 5] = [row!(0, 0), row!(1, 0), row!(1, 1), row!(0, 2), row!(2, 2)];

const WEAK_COLOURING: [Pattern; 2] = [row!(0, 0, 0), row!(1, 1, 1)];
