//! A ring on one thread: its trace, and how one of its places computes, with each expression of a
//! program as a tree that has the value of every part that counts.
#![tactic(auto)]

mod explanation;
mod laws;
mod parts;
mod trace;
mod trace_lines;
mod tree;
mod trees;

pub use explanation::explanation_text;
pub use laws::{explanations_show_traces, roots_are_traced};
pub use parts::TreePart;
pub use trace::{RoundTrace, Trace, trace_of};
pub use trace_lines::trace_text;
pub use trees::{Given, ValueTree, trees_of};
