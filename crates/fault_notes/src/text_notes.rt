//! The note on a fault of a program text.

ghost use Rattle.fault_notes.specs.Words.{wanted_part, first_word as word};
ghost use Rattle.std.specs.Prelude.{◌≡◌, ◌≢◌, ◌≤◌, ◌++◌, codes, ℕ, List, ◌∷◌, Option, length, take, drop, IfOk, IfSome};
ghost use Rattle.std.specs.Prelude.{IfNone, OnOk, string_bytes};
ghost use Rattle.node_lang.specs.declared.fault.FaultKind.TheVariants as kind;
ghost use Rattle.node_lang.specs.declared.expected.Expected.{Expected};
ghost use Rattle.node_lang.specs.Faults.{FaultsAt};
ghost use Rattle.source_text.specs.Heads.{note_head};
ghost use Rattle.source_text.specs.Shown.{marked_line};
ghost use Rattle.fault_notes.specs.TextNotes.{quoted, cause_of, IsAdvice, IsTextNote, IsLongNote};
ghost use Rattle.fault_notes.specs.Repairs.{optional_text};

use crate::edits::{Misread, text_from, write_repair};
use crate::repair::{Advice, advice_on};
use crate::word_texts::{first_word, write_wanted_part};
use node_lang::{Expected, FaultKind, TextFault, expected_in};
use node_program::OutOfMemory;
use source_text::{TextKind, kind_advice, write_marked_line, write_note_head, write_shown};
use std::alloc::{AllocError, Global};
use std::fmt::Write;

/// Returns the note on a fault of a program text: its line and its column, the cause and what can
/// follow there, advice, and the line with a mark below the location. The note on a text that is too
/// long has no location, and advice only if the text looks like one of another kind. Fails if memory was
/// refused.
pub fn text_note(alloc: Global, text: &[u8], fault: TextFault) -> Result<String, OutOfMemory>
    requires within { fault.offset ≤ length text.now }
    ensures too_long { fault.kind ≡ kind.TooLong → IfOk result (λ note. IsLongNote text.now (string_bytes note)) }
    ensures note { fault.kind ≢ kind.TooLong → FaultsAt text.now fault.kind fault.offset
        → IfOk result (λ note. IsTextNote text.now fault.kind fault.offset (string_bytes note)) }
{
    if fault.kind == FaultKind::TooLong {
        return long_note(alloc, text);
    }
    let expected = expected_in(alloc, text)?;
    let mut note = String::new(alloc);
    write_note(alloc, &mut note, text, Misread { fault, expected })?;
    Ok(note)
}

// Returns the note on a text that is too long.
fn long_note(alloc: Global, text: &[u8]) -> Result<String, OutOfMemory>
    ensures { IfOk result (λ note. IsLongNote text.now (string_bytes note)) }
{
    match kind_advice(text, TextKind::Program) {
        Some(advice) => Ok(format!(in alloc;
            "nbhd: a program text has at most 65536 bytes{advice}\n"
        )?),
        None => Ok(format!(in alloc; "nbhd: a program text has at most 65536 bytes\n")?),
    }
}

// Writes the note on a fault that has a location.
fn write_note(
    alloc: Global,
    out: &mut String,
    text: &[u8],
    misread: Misread,
) -> Result<(), OutOfMemory>
    requires { misread.fault.offset ≤ length text.now }
    ensures { OnOk result ((advice : List ℕ) × IsAdvice text.now misread.fault.offset advice
        × (string_bytes out.new ≡ string_bytes out.old ++ (note_head text.now misread.fault.offset
        ++ (cause_of misread.fault.kind (word (drop misread.fault.offset text.now)) misread.expected
        ++ (advice ++ 10 ∷ marked_line text.now misread.fault.offset))))) }
{
    let offset = misread.fault.offset;
    let word = word_at(text, offset);
    write_note_head(out, text, offset)?;
    write_cause(out, misread.fault.kind, word, misread.expected)?;
    write_advice(alloc, out, text, misread)?;
    out.push_str("\n")?;
    write_marked_line(out, text, offset)?;
    Ok(())
}

// Writes advice.
fn write_advice(
    alloc: Global,
    out: &mut String,
    text: &[u8],
    misread: Misread,
) -> Result<(), OutOfMemory>
    requires { misread.fault.offset ≤ length text.now }
    ensures { OnOk result ((advice : List ℕ) × IsAdvice text.now misread.fault.offset advice
        × (string_bytes out.new ≡ string_bytes out.old ++ advice)) }
{
    if let Some(advice) = fixed_advice(text, misread.fault.kind) {
        return Ok(out.push_str(advice)?);
    }
    let advice = advice_on(alloc, text, misread)?;
    Ok(write_told(out, text, &advice)?)
}

// Writes a fact and what an edit tells one to do.
fn write_told(out: &mut String, text: &[u8], advice: &Advice) -> Result<(), AllocError>
    requires { IfSome advice.now.repair (λ e. (e.from ≤ e.to) × (e.to ≤ length text.now)) }
    ensures { OnOk result (string_bytes out.new
        ≡ string_bytes out.old ++ (string_bytes advice.now.fact ++ optional_text text.now advice.now.repair)) }
{
    out.push_str(advice.fact.as_str())?;
    match &advice.repair {
        Some(edit) => write_repair(out, text, edit),
        None => Ok(()),
    }
}

// Returns advice that names no edit: on a text of another kind, or on a limit.
fn fixed_advice(text: &[u8], fault: FaultKind) -> Option<&'static str> {
    if let Some(advice) = kind_advice(text, TextKind::Program) {
        return Some(advice);
    }
    match fault {
        FaultKind::TooDeep => {
            Some(
                "; nest `if` as a tree, or keep a part in a register, which the next round or `finish` reads",
            )
        }
        FaultKind::TooManyNodes => {
            Some(
                "; a part that is repeated is computed once, in a register that the next round or `finish` reads",
            )
        }
        FaultKind::HeaderRange | FaultKind::NumberTooLarge => Some(""),
        FaultKind::EndOfText if text.is_empty() => {
            Some("; the text is empty, so no file was given, or an empty one")
        }
        _ => None,
    }
}

// Returns the word at an offset, or the byte there.
fn word_at(text: &[u8], offset: usize) -> &[u8]
    requires { offset ≤ length text.now }
    ensures { result.now ≡ word (drop offset text.entry.now) }
{
    first_word(text_from(text, offset))
}

// Writes a word in quotes.
fn write_quoted(out: &mut String, word: &[u8]) -> Result<(), AllocError>
    ensures { OnOk result (string_bytes out.new ≡ string_bytes out.old ++ quoted word.now) }
{
    out.push_str("`")?;
    write_shown(out, word)?;
    out.push_str("`")
}

// Returns a cause that does not depend on the word there or on what can follow there.
fn fixed_cause(fault: FaultKind) -> &'static str
    requires no_word { fault ≢ kind.BadWord }
    requires no_location { fault ≢ kind.Unexpected }
    requires no_end { fault ≢ kind.EndOfText }
    ensures { (word : List ℕ) (wanted : Option Expected) → result.now ≡ cause_of fault word wanted }
{
    match fault {
        FaultKind::NotAscii => "a byte over 127; a program text is ASCII, in its comments too",
        FaultKind::NumberTooLarge => "a number is at most 4294967295",
        FaultKind::HeaderRange => {
            "a number out of its range: `rounds` is 0 to 4, `channels` 1 to 4096, `registers` 1 to 8"
        }
        FaultKind::TooDeep => "an expression is at most 64 deep",
        FaultKind::TooManyNodes => {
            "the expressions of a program have at most 4096 numbers, words and operations"
        }
        FaultKind::BadWord | FaultKind::Unexpected | FaultKind::EndOfText => unreachable!(),
        FaultKind::TooLong | FaultKind::OutOfMemory => "",
    }
}

// Writes the cause.
fn write_cause(
    out: &mut String,
    fault: FaultKind,
    word: &[u8],
    wanted: Option<Expected>,
) -> Result<(), AllocError>
    ensures { OnOk result (string_bytes out.new ≡ string_bytes out.old ++ cause_of fault word.now wanted) }
{
    match fault {
        FaultKind::BadWord => write_word(out, "unknown word ", word, wanted),
        FaultKind::Unexpected => write_word(out, "unexpected ", word, wanted),
        FaultKind::EndOfText => {
            out.push_str("unexpected end of the text")?;
            write_wanted_part(out, wanted)
        }
        _ => out.push_str(fixed_cause(fault)),
    }
}

// Writes a word behind `head`, and what is expected there.
fn write_word(
    out: &mut String,
    head: &str,
    word: &[u8],
    wanted: Option<Expected>,
) -> Result<(), AllocError>
    ensures { OnOk result (string_bytes out.new
        ≡ string_bytes out.old ++ (head.now ++ (quoted word.now ++ wanted_part wanted))) }
{
    out.push_str(head)?;
    write_quoted(out, word)?;
    write_wanted_part(out, wanted)
}
