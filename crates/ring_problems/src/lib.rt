//! Problems on oriented rings as forbidden patterns of channels: maximal independent sets, maximal
//! matchings, weak colourings and the like; the tuples of a table that a pattern matches, and the laws
//! of them: no tuple does exactly if the table solves the problem on every ring.
#![tactic(auto)]

mod idle;
mod known;
mod laws;
mod pairs;
mod pattern;
mod pattern_text;
mod patterns;
mod problem;
mod tuple_lists;
mod tuples;
mod witness;

pub use idle::{IdlePattern, first_idle};
pub use known::KnownProblem;
pub use laws::{one_witness, separations_are_problems, tuples_suffice};
pub use pairs::may_begin;
pub use pattern::{Entry, Pattern};
pub use pattern_text::patterns_text;
pub use patterns::{first_match, tuple_extra};
pub use problem::{Demand, Problem};
pub use tuple_lists::{tuple_count, write_tuple};
pub use tuples::ProblemTuples;
pub use witness::PatternWitness;
