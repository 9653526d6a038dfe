//! The report of a task, the engine, and the process of the program `nbhd`.
#![tactic(auto)]

mod answer;
pub mod engine;
mod first_broken;
mod first_tuples;
mod found;
pub mod note;
pub mod process;
mod report;
mod ring_channels;

pub use devices::{fault, input, output, watched};
pub use reports::{finding, status};
pub use table_text::{TableFault, read_table, write_table};
pub use task_words::{format, request, ring_text, task, words};
