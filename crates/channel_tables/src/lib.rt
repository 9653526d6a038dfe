//! Tables: a channel for each window of the last level of a shape; how far apart the channels of near
//! places shall be; the tuples of a table that break such a separation, and the laws of them: no tuple
//! does exactly if no ring does.
#![tactic(auto)]

mod laws;
mod maker;
mod separation;
mod table;
mod tuple_lists;
mod tuples;
mod windows;
mod witness;

pub use laws::{less_is_apart, one_apart_differs, one_witness, tuples_suffice};
pub use maker::TableMaker;
pub use separation::Separation;
pub use table::Table;
pub use tuple_lists::TupleLists;
pub use tuples::{Tuples, judge_part};
pub use windows::Windows;
pub use witness::Witness;
