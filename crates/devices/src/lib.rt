//! The reader of the input and the writer of the report, with a note of their calls and failures.
#![tactic(auto)]

pub mod buffered;
pub mod chunk;
pub mod fault;
pub mod input;
pub mod output;
pub mod watched;
