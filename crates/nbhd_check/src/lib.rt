//! The judge, which decides whether the channels of near places are far enough apart on every ring,
//! and whether a table solves a problem on every ring.
#![tactic(auto)]

mod before;
mod bucket_search;
mod channel_sets;
mod counts;
mod far;
mod far_counts;
mod far_masks;
mod gaps;
mod laws;
mod least;
mod masks;
mod middle_buckets;
mod near;
mod parallel;
mod pattern_bits;
mod patterns;
mod problem_least;
mod problem_verdict;
mod search;
mod verdict;

pub use channel_tables::{Separation, Tuples, Witness, judge_part};
pub use laws::pairs_that_avoid_two;
pub use problem_verdict::{ProblemVerdict, judge_problem, judge_problem_with_workers};
pub use ring_problems::{Pattern, PatternWitness, ProblemTuples};
pub use verdict::{Verdict, judge, judge_with_workers};
