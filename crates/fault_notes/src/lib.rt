//! Notes on program texts and programs that are refused: the cause and its location, what can stand there, a fact on
//! the language, and an edit that has been tried.
#![tactic(auto)]

mod bound_lines;
mod candidates;
mod cause_tokens;
mod edits;
mod facts;
mod forms;
mod located;
mod program_notes;
mod repair;
mod rewrites;
mod rows;
mod text_notes;
mod tokens;
mod word_texts;

pub use cause_tokens::offset_of_cause;
pub use program_notes::{check_note, ids_note};
pub use text_notes::text_note;
