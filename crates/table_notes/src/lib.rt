//! Notes on rings and on table texts that are refused, and on the verdicts of tables.
#![tactic(auto)]

mod headers;
mod lines;
mod patterns;
mod rings;
mod tables;
mod verdicts;

pub use patterns::{broken_note, idle_note};
pub use rings::{place_note, ring_note, segments_note};
pub use tables::table_note;
pub use verdicts::{no_tuples_note, verdict_note};
