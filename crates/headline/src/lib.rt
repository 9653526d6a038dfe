//! The headline in one contract: compiling, running and judging an accepted program agree.
#![tactic(auto)]

mod findings;
mod laws;

pub use findings::{Findings, FindingsFault, compile_run_and_judge};
pub use laws::{program_tables_are_apart, program_tables_solve, tables_are_apart_on_rings};
