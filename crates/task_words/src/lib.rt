//! The words of the command line, the tasks that they request, and tips on refused ones.
#![tactic(auto)]

mod command_line;
mod commands;
pub mod demand_fault;
mod demands;
mod drafts;
pub mod format;
mod help;
pub mod limits;
mod mended;
mod option_rows;
mod options;
mod other_names;
mod parsing;
pub mod pattern_text;
mod pattern_tips;
mod process;
pub mod request;
pub mod ring_text;
mod ring_tips;
pub mod task;
pub mod words;

pub use mended::mended_words;
pub use pattern_tips::pattern_tip;
pub use process::{parse_request, print_words_fault};
pub use ring_tips::{ring_tip, ring_word};
