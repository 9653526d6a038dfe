//! Findings: what tasks find on texts, tables, rings and formulas, the bytes and the exit status of each,
//! and how one is written.
#![tactic(auto)]

mod codes;
pub mod fault;
mod fault_line;
pub mod finding;
mod formula_lines;
pub mod formulas;
pub mod judgement;
mod lines;
pub mod pattern_places;
pub mod problem;
pub mod problem_judgement;
pub mod ring_channels;
pub mod rings;
pub mod status;
pub mod texts;
pub mod writing;
