//! Edits of a program text, and whether they help.

ghost use Rattle.std.specs.Prelude.{◌≡◌, ◌≢◌, ◌≤◌, ◌-◌, true, ◌++◌, length, map, drop, codes, IfOk, IfSome, IfNone};
ghost use Rattle.std.specs.Prelude.{OnOk, string_bytes};
ghost use Rattle.node_lang.specs.declared.fault.FaultKind.TheVariants as kind;
ghost use Rattle.node_program.specs.Term.{ProgramTree};
ghost use Rattle.node_lang.specs.Grammar.{Reads};
ghost use Rattle.node_lang.specs.Faults.{FaultsAt};
ghost use Rattle.fault_notes.specs.Repairs as repair;

use node_lang::{Expected, FaultKind, TextFault, parse};
use node_program::OutOfMemory;
use source_text::{first_of, write_shown};
use std::alloc::{AllocError, Global};

/// An edit of a text: `put` is written instead of the bytes from `from` up to `to`. A byte 0 in
/// `put` stands for an expression that is still to be written, and a byte 1 for a number of the header;
/// the numbers 0 and 1 are tried there.
#[derive(Drop)]
pub struct Edit {
    pub from: usize,
    pub to: usize,
    pub put: Vec<u8>,
}

// A fault, and what is expected there: nothing in a text that is too long or not ASCII.
#[derive(Clone, Copy)]
pub(crate) struct Misread {
    pub(crate) fault: TextFault,
    pub(crate) expected: Option<Expected>,
}

// Returns the edit of a part of a text that puts these pieces there.
pub(crate) fn edit_of(
    alloc: Global,
    from: usize,
    to: usize,
    pieces: &[&[u8]],
) -> Result<Edit, AllocError> {
    let mut put = Vec::new(alloc);
    for piece in pieces {
        put.extend_from_slice(piece)?;
    }
    Ok(Edit { from, to, put })
}

// Returns a byte of an edit as it is tried.
fn tried_byte(byte: u8) -> u8
    ensures { result ≡ repair.tried_byte byte }
{
    if byte < 2 { byte + b'0' } else { byte }
}

// Writes the bytes of an edit as they are tried.
fn push_tried(out: &mut Vec<u8>, put: &[u8]) -> Result<(), AllocError>
    ensures { OnOk result (out.new.items ≡ out.old.items ++ map repair.tried_byte put.now) }
{
    'bytes: for byte in put {
        out.push(tried_byte(*byte))?;
    }
    Ok(())
}

// Returns a text after an edit.
fn edited(alloc: Global, text: &[u8], edit: &Edit) -> Result<Vec<u8>, AllocError>
    requires ordered { edit.now.from ≤ edit.now.to }
    requires within { edit.now.to ≤ length text.now }
    ensures { IfOk result (λ new. new.items ≡ repair.edited text.now edit.now) }
{
    let mut new = Vec::new(alloc);
    new.extend_from_slice(&text[..edit.from])?;
    new.push(b' ')?;
    push_tried(&mut new, &edit.put)?;
    new.push(b' ')?;
    new.extend_from_slice(&text[edit.to..])?;
    Ok(new)
}

// Returns the part of a text from an offset on.
#[tactic(auto, using(std::proofs::lemmas::List::take_rest))]
pub(crate) fn text_from(text: &[u8], offset: usize) -> &[u8]
    requires { offset ≤ length text.now }
    ensures { result.now ≡ drop offset text.entry.now }
{
    &text[offset..]
}

// Returns how many bytes are left from the fault of an edited text on if the edit helps, counted from
// 1, or 0 if it makes a program.
pub(crate) fn left_after(
    alloc: Global,
    text: &[u8],
    offset: usize,
    edit: &Edit,
) -> Result<Option<usize>, OutOfMemory>
    requires { offset ≤ length text.now }
    ensures { IfOk result (λ left. IfSome left (λ _. repair.IsRepair text.now offset edit.now)) }
{
    if edit.from > edit.to || edit.to > text.len() {
        return Ok(None);
    }
    if edit.from == edit.to && edit.from != offset {
        return Ok(None);
    }
    let behind = text_from(text, offset.max(edit.to));
    let new = edited(alloc, text, edit)?;
    match fault_in(alloc, &new)? {
        Some(fault) => Ok(left_behind(&new, fault, behind)),
        None => Ok(Some(0)),
    }
}

// Returns the fault of a text, or `None` if it is a program.
pub(crate) fn fault_in(alloc: Global, text: &[u8]) -> Result<Option<TextFault>, OutOfMemory>
    ensures fault { IfOk result (λ found. IfSome found (λ f. FaultsAt text.now f.kind f.offset)) }
    ensures none { IfOk result (λ found. IfNone found ((p : ProgramTree) × Reads text.now p)) }
{
    match parse(alloc, text) {
        Ok(_) => Ok(None),
        Err(fault) => match fault.kind {
            FaultKind::OutOfMemory => Err(OutOfMemory),
            _ => Ok(Some(fault)),
        },
    }
}

// Returns the number of bytes from a fault on, counted from 1, if a line ends before it in the text that is behind
// an edit.
fn left_behind(new: &[u8], fault: TextFault, behind: &[u8]) -> Option<usize>
    ensures { IfSome result (λ _. (fault.kind ≢ kind.TooLong)
        × (repair.ends_line behind.now (length new.now - fault.offset) ≡ true)) }
{
    let left = new.len().saturating_sub(fault.offset);
    let passed = &behind[..behind.len().saturating_sub(left)];
    if fault.kind == FaultKind::TooLong || !passed.contains(&b'\n') {
        return None;
    }
    Some(left + 1)
}

// Writes what is to be written, with dots for an expression.
fn write_put(out: &mut String, put: &[u8]) -> Result<(), AllocError>
    ensures { OnOk result (string_bytes out.new ≡ string_bytes out.old ++ repair.written put.now) }
{
    'bytes: for byte in put {
        write_put_byte(out, *byte)?;
    }
    Ok(())
}

fn write_put_byte(out: &mut String, byte: u8) -> Result<(), AllocError>
    ensures { OnOk result (string_bytes out.new ≡ string_bytes out.old ++ repair.written_byte byte) }
{
    if byte < 2 {
        return out.push_str("..");
    }
    if byte == b'\n' {
        return out.push_str(" ");
    }
    write_shown(out, &[byte])
}

// Writes a part of a text, or how it begins.
fn write_abridged(out: &mut String, part: &[u8]) -> Result<(), AllocError>
    ensures { OnOk result (string_bytes out.new ≡ string_bytes out.old ++ repair.abridged part.now) }
{
    if part.len() <= 60 {
        return write_put(out, part);
    }
    write_put(out, first_of(part, 50))?;
    out.push_str(" ..")
}

// Writes a part of a text behind a head, and the end of the quotation.
fn write_quoted(out: &mut String, head: &str, part: &[u8]) -> Result<(), AllocError>
    ensures { OnOk result (string_bytes out.new
        ≡ string_bytes out.old ++ (head.now ++ (repair.abridged part.now ++ codes "`"))) }
{
    out.push_str(head)?;
    write_abridged(out, part)?;
    out.push_str("`")
}

// Writes where something is to be written.
fn write_where(out: &mut String, old: &[u8], rest: &[u8]) -> Result<(), AllocError>
    ensures { OnOk result (string_bytes out.new ≡ string_bytes out.old ++ repair.where_text old.now rest.now) }
{
    if !old.is_empty() {
        return write_quoted(out, " in the place of `", old);
    }
    out.push_str(if rest.is_empty() {
        " at the end"
    } else {
        " before it"
    })
}

// Writes what is to be written.
fn write_what(out: &mut String, put: &[u8]) -> Result<(), AllocError>
    ensures { OnOk result (string_bytes out.new ≡ string_bytes out.old ++ repair.what_text put.now) }
{
    if put.len() == 1 && put[0] == 0 {
        return out.push_str("; write an expression");
    }
    if put.len() == 1 && put[0] == 1 {
        return out.push_str("; write a number");
    }
    out.push_str("; write `")?;
    write_put(out, put)?;
    out.push_str("`")
}

// Writes what is to be done.
fn write_told(out: &mut String, old: &[u8], put: &[u8], rest: &[u8]) -> Result<(), AllocError>
    ensures { OnOk result (string_bytes out.new ≡ string_bytes out.old ++ repair.told old.now put.now rest.now) }
{
    if put.is_empty() {
        return write_quoted(out, "; leave out `", old);
    }
    write_what(out, put)?;
    write_where(out, old, rest)
}

/// Writes what an edit of a text tells one to do. Fails if memory was refused.
pub(crate) fn write_repair(out: &mut String, text: &[u8], edit: &Edit) -> Result<(), AllocError>
    requires ordered { edit.now.from ≤ edit.now.to }
    requires within { edit.now.to ≤ length text.now }
    ensures { OnOk result (string_bytes out.new ≡ string_bytes out.old ++ repair.repair_text text.now edit.now) }
{
    write_told(out, &text[edit.from..edit.to], &edit.put, &text[edit.to..])
}
