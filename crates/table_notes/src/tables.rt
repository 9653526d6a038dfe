//! The notes on a text that is not the text of a table.

ghost use Rattle.std.specs.Prelude.{◌≡◌, ◌≢◌, ◌≤◌, ℕ, List, length, IfOk, IfSome, IfNone, string_bytes};
ghost use Rattle.table_text.specs.Faults.{IsFault};
ghost use Rattle.table_notes.specs.TableNotes as notes;
ghost use Rattle.table_notes.specs.TableNotes.{IsFormNote, IsDue, IsTableNote, IsWindowNote, line_note, doubled_text};

use crate::lines::form_advice;
use node_program::OutOfMemory;
use source_text::{first_line, from_line, write_joined, write_marked_line, write_note_head};
use std::alloc::{AllocError, Global};
use std::fmt::Write;
use table_text::{LONGEST_TABLE_TEXT, TableFault, shape_in};

// Returns the note on the line at this offset, which does not have its form. Fails if memory was
// refused.
fn form_note(alloc: Global, text: &[u8], offset: usize) -> Result<String, OutOfMemory>
    requires { offset ≤ length text.now }
    ensures { IfOk result (λ note. IsFormNote text.now offset (string_bytes note)) }
{
    let mut note = String::new(alloc);
    write_note_head(&mut note, text, offset)?;
    note.push_str("this line does not have the form that `nbhd table` writes")?;
    note.push_str(form_advice(text, offset))?;
    note.push_str("\n")?;
    write_marked_line(&mut note, text, offset)?;
    Ok(note)
}

// Returns the window that a line of a table text is to have.
fn due_window(alloc: Global, text: &[u8], line: u32) -> Result<Option<Vec<u32>>, AllocError>
    ensures window { IfOk result (λ due. IfSome due (λ window. IsDue text.now line window.items)) }
    ensures none { IfOk result (λ due. IfNone due ((window : List ℕ) → ¬ IsDue text.now line window)) }
{
    let Some(shape) = shape_in(text) else {
        return Ok(None);
    };
    let rounds = shape.rounds();
    if line < 3 {
        return Ok(None);
    }
    if line - 3 >= shape.count(rounds) {
        return Ok(None);
    }
    let mut window = vec![in alloc; 0u32; 2 * rounds as usize + 1]?;
    shape.window(rounds, line - 3, &mut window);
    Ok(Some(window))
}

// Returns the note on a line of a table text that does not have its window, which follows from the
// second line. Lines are counted from 1. Fails if memory was refused.
fn window_note(alloc: Global, text: &[u8], line: u32) -> Result<String, OutOfMemory>
    ensures { IfOk result (λ note. IsWindowNote text.now line (string_bytes note)) }
{
    match due_window(alloc, text, line)? {
        Some(window) => line_note(alloc, line, &window, doubled_text(text, line)),
        None => Ok(format!(in alloc;
            "nbhd: line {line} is not the line of the window that follows there\n"
        )?),
    }
}

// Returns the line of a text with this number, without its end.
fn line_at(text: &[u8], line: u64) -> &[u8]
    ensures { result.now ≡ notes.line_at text.entry.now line }
{
    first_line(from_line(text, line))
}

// Returns what the note on a line says if it is the line before it once more.
fn doubled_text(text: &[u8], line: u32) -> &'static str
    ensures { result.now ≡ doubled_text text.now line }
{
    let number = u64::from(line);
    if line_at(text, number) == line_at(text, number.saturating_sub(1)) {
        return "; the same line stands right before it";
    }
    ""
}

// Returns the note on the line that should have this window, with an end.
fn line_note(alloc: Global, line: u32, window: &[u32], end: &str) -> Result<String, OutOfMemory>
    ensures { IfOk result (λ note. string_bytes note ≡ line_note line window.now end.now) }
{
    let mut note = String::new(alloc);
    write!(note, "nbhd: line {line} is not the line of window ")?;
    write_joined(&mut note, window, " ")?;
    note.push_str(", which comes there by line 2; windows stand in lexicographic order")?;
    note.push_str(end)?;
    note.push_str("\n")?;
    Ok(note)
}

/// Returns the note on the fault of a table text. Fails if memory was refused.
pub fn table_note(alloc: Global, text: &[u8], fault: TableFault) -> Result<String, OutOfMemory>
    requires own { fault ≢ TableFault.OutOfMemory }
    requires fault { IsFault text.now fault }
    ensures { IfOk result (λ note. IsTableNote text.now fault (string_bytes note)) }
{
    match fault {
        TableFault::Syntax(_) if text.len() > LONGEST_TABLE_TEXT => {
            Ok(format!(in alloc; "nbhd: the text of a table has at most 134217728 bytes\n")?)
        }
        TableFault::Syntax(offset) => form_note(alloc, text, offset as usize),
        TableFault::WrongWindow(line) => window_note(alloc, text, line),
        TableFault::ChannelTooLarge(line) => Ok(format!(in alloc;
            "nbhd: line {line} has a channel that is not below the number of channels of line 2\n"
        )?),
        TableFault::OutOfMemory => unreachable!(),
    }
}
