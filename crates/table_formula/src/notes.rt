//! The note on a text that is no refutation.

ghost use Rattle.std.specs.Prelude.{◌≡◌, ◌++◌, IfOk, OnOk, string_bytes};
ghost use Rattle.table_formula.specs.RefutationNotes as notes;

pub(crate) mod advice;

use crate::notes::advice::line_advice;
use crate::refutation::fault::{LineFault, RefuteError};
use node_program::OutOfMemory;
use source_text::{from_line, write_marked_line};
use std::alloc::{AllocError, Global};
use std::fmt::Write;

/// Returns the note on a text that is no refutation, an empty one for `OutOfMemory`. Fails if memory
/// was refused.
pub fn refutation_note(
    alloc: Global,
    text: &[u8],
    fault: RefuteError,
) -> Result<String, OutOfMemory>
    ensures { IfOk result (λ note. notes.IsRefutationNote text.now fault (string_bytes note)) }
{
    match fault {
        RefuteError::TooLong => Ok(String::from_str(
            alloc,
            "nbhd: the text of a refutation has at most 134217728 bytes; `tools/lrat` leaves out what is not needed\n",
        )?),
        RefuteError::At { line, fault } => line_note(alloc, text, line, fault),
        RefuteError::OutOfMemory => Ok(String::new(alloc)),
    }
}

// Returns the note on a line of a text, counted from 1: what is wrong with it, advice, and the line.
fn line_note(alloc: Global, text: &[u8], line: u64, fault: LineFault) -> Result<String, OutOfMemory>
    ensures { IfOk result (λ note. notes.IsLineNote text.now line fault (string_bytes note)) }
{
    let rest = from_line(text, line);
    let mut note = line_head(alloc, line, fault)?;
    note.push_str(line_advice(text, rest, fault))?;
    note.push_str("\n")?;
    write_marked_line(&mut note, rest, 0)?;
    Ok(note)
}

// Returns the start of the note on a line: its number, and what is wrong with it.
fn line_head(alloc: Global, line: u64, fault: LineFault) -> Result<String, AllocError>
    ensures { IfOk result (λ head. string_bytes head ≡ notes.line_head line fault) }
{
    let mut head = format!(in alloc; "nbhd: line {line}: ")?;
    write_cause(&mut head, fault)?;
    Ok(head)
}

// What is written for the case of a fault.
macro_rules! told {
    ($fault:ident to $out:ident: $($case:pat => $text:literal;)+) => {
        match $fault { $($case => write!($out, $text)),+ }
    };
}

// Writes what is wrong with a line of a refutation.
fn write_cause(out: &mut String, fault: LineFault) -> Result<(), AllocError>
    ensures { OnOk result (string_bytes out.new ≡ string_bytes out.old ++ notes.line_cause fault) }
{
    told! { fault to out:
        LineFault::Form =>
            "this line is not a step of LRAT, as `5 -1 2 0 3 4 0`, a deletion, as `5 d 3 4 0`, or a comment";
        LineFault::NumberNotAscending =>
            "the number of this step is not above those of the steps before it, or not above those of the formula's clauses: then the options may be those of another formula";
        LineFault::UnknownVariable =>
            "this clause has a variable that the formula lacks; the numbers may be those of another formula";
        LineFault::Exchange =>
            "tables need not stay right by this exchange: identifiers are below `--ids` and channels below `--channels`, and two channels are exchanged only if near and far are at most 1";
        LineFault::NoHints =>
            "this step has no hints: behind the 0 of its clause stand the numbers of the clauses from which it follows, and then 0";
        LineFault::NoEmptyClause => "the text ends here, before the empty clause";
        LineFault::UnknownHint(hint) =>
            "hint {hint} names no clause: there is none of its number yet, or it was deleted; the options may be those of another formula";
        LineFault::SeveralLeft(hint) =>
            "several literals of the clause of hint {hint}, or one twice, are not yet known to be false, where at most one may be: a hint is missing before it or stands behind it, or the options may be those of another formula";
        LineFault::EarlyConflict(hint) =>
            "all literals of the clause of hint {hint} are known to be false, so it has to be the last one: leave out those behind it; the options may be those of another formula";
        LineFault::OneLeft(hint) =>
            "the clause of hint {hint}, the last one, has a literal that is not known to be false: a hint is missing or wrong, or the options may be those of another formula";
    }
}
