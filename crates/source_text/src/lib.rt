//! What notes are made of: the bytes and the parts of a text, the location of a byte in it (its line and its
//! column, and its line with a mark below it), lists of numbers, and advice on a text that is given instead of
//! another one.
#![tactic(auto)]

mod byte_sets;
mod first_lines;
mod kinds;
mod lines;
mod lists;
mod shown;

pub use byte_sets::{contains_part, has_any_of, is_made_of, is_one_of, len_before};
pub use first_lines::line_kind;
pub use kinds::{TextKind, kind_advice};
pub use lines::{
    after_line, column_of, first_line, first_line_len, from_line, last_line_len, line_of,
    write_note_head,
};
pub use lists::write_joined;
pub use shown::{SHOWN_BYTES, first_of, write_escaped, write_marked_line, write_shown};
