//! Advice on a fault of a program text: a fact on the language, and an edit that has been tried.

ghost use Rattle.std.specs.Prelude.{◌≤◌, length, IfOk, IfSome};
ghost use Rattle.fault_notes.specs.Repairs as repair;

use crate::candidates::Edits;
use crate::edits::{Edit, Misread, edit_of, fault_in, left_after};
use crate::facts::{Fact, fact_on_sign};
use crate::rewrites::rewrite;
use crate::rows::Told;
use crate::tokens::{Spot, before, is_known, part, tokens_in};
use node_lang::{FaultKind, TextFault, expected_in};
use node_program::OutOfMemory;
use source_text::write_shown;
use std::alloc::{AllocError, Global};

/// Advice on a fault: a fact on the language, which may be empty, and an edit.
#[derive(Drop)]
pub(crate) struct Advice {
    pub(crate) fact: String,
    pub(crate) repair: Option<Edit>,
}

// The most steps of a text in another notation.
const MOST_STEPS: usize = 16;

/// Returns advice on the fault of a program text. An edit has been tried: the edited text is a program,
/// or has its first fault on a later line. Fails if memory was refused.
pub(crate) fn advice_on(alloc: Global, text: &[u8], misread: Misread) -> Result<Advice, OutOfMemory>
    requires { misread.fault.offset ≤ length text.now }
    ensures { IfOk result (λ advice. IfSome advice.repair (repair.IsRepair text.now misread.fault.offset)) }
{
    let offset = misread.fault.offset;
    let all = tokens_in(alloc, text)?;
    let mut edits = rewritten(alloc, text, misread)?;
    let mut fact = Some(fact_on_sign(part(text, offset, text.len())));
    if let Some(expected) = misread.expected {
        let spot = Spot::new(alloc, text, &all, offset, expected);
        fact = spot.fact();
        let mut tried = Edits { spot, all: edits };
        if !matches!(
            fact,
            Some(Fact {
                told: Told::Alone,
                ..
            })
        ) {
            tried.put_all()?;
        }
        edits = tried.all;
    }
    let repair = best_of(alloc, text, offset, edits)?;
    let fact = told(alloc, fact, repair.is_some())?;
    Ok(Advice { fact, repair })
}

// Returns the text of a fact, an empty one if it is not told beside an edit.
fn told(alloc: Global, fact: Option<Fact>, is_mended: bool) -> Result<String, AllocError> {
    let mut out = String::new(alloc);
    match fact {
        Some(fact) if !is_mended || !matches!(fact.told, Told::Without) => match fact
            .text
            .split_once("{}")
        {
            Some((head, tail)) => {
                out.push_str(head)?;
                write_shown(&mut out, fact.word)?;
                out.push_str(tail)?;
            }
            None => out.push_str(fact.text)?,
        },
        _ => {}
    }
    Ok(out)
}

// Returns the first edit after which the least is left, if one helps.
fn best_of(
    alloc: Global,
    text: &[u8],
    offset: usize,
    edits: Vec<Edit>,
) -> Result<Option<Edit>, OutOfMemory>
    requires { offset ≤ length text.now }
    ensures { IfOk result (λ found. IfSome found (repair.IsRepair text.now offset)) }
{
    let mut best = None;
    let mut least = usize::MAX;
    'edits: for edit in edits {
        let most = most_left(text, &edit);
        let left = left_after(alloc, text, offset, &edit)?;
        match left {
            Some(left) if left < least && left <= most => {
                least = left;
                best = Some(edit);
            }
            _ => {}
        }
    }
    Ok(best)
}

// Returns how much may be left behind an edit: nothing if it leaves out a known word, a line or several words that
// do not stand twice.
fn most_left(text: &[u8], edit: &Edit) -> usize {
    let old = part(text, edit.from, edit.to);
    let last = part(text, before(edit.from, 1), edit.from);
    let next = part(text, edit.to, edit.to.saturating_add(1));
    let is_line = matches!((last, next), (b"" | b"\n", b"" | b"\n"))
        && matches!(old, [b'A'..=b'Z' | b'a'..=b'z', ..]);
    let is_long = old.contains(&b' ') || old.contains(&b'\n') || is_line;
    let front = part(text, 0, edit.from).trim_ascii_end();
    if !edit.put.is_empty() || !is_long && !is_known(old) || front.ends_with(old) {
        return usize::MAX;
    }
    0
}

// Returns whether a fault stands on a line behind what was edited. A sign over 127 is no such fault, since those of a
// text are met first.
fn is_behind(now: &[u8], fault: TextFault, tail: usize) -> bool {
    let end = now.len().saturating_sub(tail);
    fault.kind != FaultKind::NotAscii && part(now, end, fault.offset).contains(&b'\n')
}

// Returns the edit that several steps make, if there is one.
fn rewritten(alloc: Global, text: &[u8], misread: Misread) -> Result<Vec<Edit>, OutOfMemory> {
    let mut all = Vec::new(alloc);
    let mut now = Vec::from_slice(alloc, text)?;
    let mut stop = misread;
    let mut from = text.len();
    let mut tail = text.len();
    for _ in 0..MOST_STEPS {
        let Some(edit) = rewrite(alloc, &now, stop)? else {
            break;
        };
        from = from.min(edit.from);
        tail = tail.min(now.len().saturating_sub(edit.to));
        let (front, back) = (part(&now, 0, edit.from), part(&now, edit.to, now.len()));
        now = edit_of(alloc, 0, 0, &[front, &edit.put, back])?.put;
        let Some(fault) = fault_in(alloc, &now)? else {
            break;
        };
        if is_behind(&now, fault, tail) {
            break;
        }
        let expected = expected_in(alloc, &now)?;
        stop = Misread { fault, expected };
    }
    if from < text.len() {
        let put = part(&now, from, now.len().saturating_sub(tail));
        all.push(edit_of(alloc, from, text.len().saturating_sub(tail), &[put])?)?;
    }
    Ok(all)
}
