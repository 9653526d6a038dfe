//! Findings as JSON (RFC 8259).
#![tactic(auto)]

mod answers;
mod entries;
mod faults;
mod fields;
mod noes;
mod tables;
mod traces;
mod trees;
mod writing;

pub use writing::{Report, write_json};
