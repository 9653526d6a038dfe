//! Lines and columns, and the start of a note on a location.

ghost use Rattle.std.specs.Prelude.{◌≡◌, ◌≤◌, ◌-◌, ◌++◌, length, OnOk, string_bytes};
ghost use Rattle.std.specs.List.{after_first, prefix_len, suffix_len};
ghost use Rattle.source_text.specs.Heads.{note_head};
ghost use Rattle.source_text.specs.Kinds as texts;
ghost use Rattle.source_text.specs.Lines.{after_lines, in_line, is_feed, line_number, column};
ghost use Rattle.source_text.specs.Lines.{line_before as before, line_from as from};

use crate::byte_sets::len_before;
use std::alloc::AllocError;
use std::fmt::Write;

/// Returns the line of the byte at this offset, counted from 1. The offset can be the text's
/// length.
pub fn line_of(text: &[u8], offset: usize) -> usize
    requires { offset ≤ length text.now }
    ensures { result ≡ line_number text.now offset }
{
    text[..offset].iter().filter(|byte| **byte == b'\n').count() + 1
}

/// Returns the column of the byte at this offset, counted from 1. Each byte of a line is one
/// column. The offset can be the text's length.
pub fn column_of(text: &[u8], offset: usize) -> usize
    requires { offset ≤ length text.now }
    ensures { result ≡ column text.now offset }
{
    line_before(text, offset).len() + 1
}

/// Returns the number of bytes after the last line feed, or of all if there is none.
pub fn last_line_len(text: &[u8]) -> usize
    ensures value { result ≡ suffix_len in_line text.now }
    ensures within { result ≤ length text.now }
{
    text.iter().rev().take_while(|byte| **byte != b'\n').count()
}

/// Returns the number of bytes before the first line feed, or of all if there is none.
pub fn first_line_len(text: &[u8]) -> usize
    ensures value { result ≡ prefix_len in_line text.now }
    ensures within { result ≤ length text.now }
{
    len_before(text, b'\n')
}

/// Returns the first line of a text, without its line feed.
#[tactic(auto, using(crate::proofs::LineParts::first_is))]
pub fn first_line(text: &[u8]) -> &[u8]
    ensures { result.now ≡ texts.first_line text.entry.now }
{
    &text[..first_line_len(text)]
}

/// Returns the text after the first line, an empty one if there is no other line.
#[tactic(auto, using(std::proofs::lemmas::List::take_rest, std::proofs::lemmas::List::drop_min))]
pub fn after_line(text: &[u8]) -> &[u8]
    ensures { result.now ≡ after_first is_feed text.entry.now }
{
    let start = (first_line_len(text) + 1).min(text.len());
    &text[start..]
}

/// Returns the text from the line with this number on, an empty one if there are fewer lines. Lines
/// are counted from 1.
pub fn from_line(text: &[u8], number: u64) -> &[u8]
    ensures { result.now ≡ after_lines (number - 1) text.entry.now }
{
    let before = number.saturating_sub(1);
    let mut rest = text;
    'lines: for _line in 0..before {
        rest = after_line(rest);
    }
    rest
}

// Returns the bytes before this offset that are on its line.
#[tactic(auto, using(crate::proofs::LineParts::before_is))]
pub(crate) fn line_before(text: &[u8], offset: usize) -> &[u8]
    requires { offset ≤ length text.now }
    ensures { result.now ≡ before text.entry.now offset }
{
    let front = &text[..offset];
    &front[front.len() - last_line_len(front)..]
}

// Returns the bytes from this offset on that are on its line.
#[tactic(auto, using(crate::proofs::LineParts::from_is))]
pub(crate) fn line_from(text: &[u8], offset: usize) -> &[u8]
    requires { offset ≤ length text.now }
    ensures { result.now ≡ from text.entry.now offset }
{
    let rest = &text[offset..];
    &rest[..first_line_len(rest)]
}

/// Writes the start of a note on the byte at this offset: `nbhd: line`, its line, `column` and its
/// column. The offset can be the text's length.
///
/// Fails if memory was refused; `out` can then have a part of it.
pub fn write_note_head(out: &mut String, text: &[u8], offset: usize) -> Result<(), AllocError>
    requires { offset ≤ length text.now }
    ensures { OnOk result (string_bytes out.new ≡ string_bytes out.old ++ note_head text.now offset) }
{
    let line = line_of(text, offset);
    let column = column_of(text, offset);
    write!(out, "nbhd: line {line}, column {column}: ")
}
