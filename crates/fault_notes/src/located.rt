//! Notes with the location of the cause in a text.

ghost use Rattle.std.specs.Prelude.{◌≡◌, IfOk, string_bytes};
ghost use Rattle.fault_notes.specs.FaultTokens.{offset_of_cause};
ghost use Rattle.fault_notes.specs.Located.{located_note};

use crate::cause_tokens::offset_of_cause;
use lang_check::CheckFault;
use node_program::OutOfMemory;
use source_text::{write_marked_line, write_note_head};
use std::alloc::Global;

// Returns the note on the cause of a refusal, with the location of the first lexeme that is the cause.
pub(crate) fn located_note(
    alloc: Global,
    text: &[u8],
    fault: CheckFault,
    cause: &str,
) -> Result<String, OutOfMemory>
    ensures { IfOk result (λ note. string_bytes note
        ≡ located_note text.now cause.now (offset_of_cause text.now fault)) }
{
    let Some(offset) = offset_of_cause(text, fault) else {
        return Ok(format!(in alloc; "nbhd: {cause}\n")?);
    };
    let mut note = String::new(alloc);
    write_note_head(&mut note, text, offset)?;
    note.push_str(cause)?;
    note.push_str("\n")?;
    write_marked_line(&mut note, text, offset)?;
    Ok(note)
}
