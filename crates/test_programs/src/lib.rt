//! Program texts that the tests of several crates use, and their plans; messages of borders. `CV1`,
//! `LDB`, `ID0` and `RED` are files of the folder `programs/`.
#![tactic(auto)]

mod notes;
mod plans;
mod texts;

pub use notes::Note;
pub use plans::plan_of;
pub use texts::{CV1, CV1_OF_12, EIGHT_REGISTERS, ID0, LDB, RED, TWO_REGISTERS};
