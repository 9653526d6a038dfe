//! What a text is, told from its first line.

ghost use Rattle.std.specs.Prelude.{◌≡◌, map, option_map};
ghost use Rattle.std.specs.List.{find, list_any};
ghost use Rattle.source_text.specs.ByteSets.{begins, ends};
ghost use Rattle.source_text.specs.Kinds as texts;

use crate::byte_sets::{contains_part, has_any_of, is_made_of};
use crate::kinds::TextKind;
use crate::lines::{after_line, first_line};

// Rows of beginnings and what a text is that has one of them.
macro_rules! beginnings {
    ($($kind:ident: $($beginning:literal)+;)+) => { [$($(($beginning, TextKind::$kind)),+),+] };
}

// How the first line of a text begins that is neither blank nor a comment.
const BEGINNINGS: [(&[u8], TextKind); 49] = beginnings! {
    Table: b"nbhd-table";
    Formula: b"p cnf";
    Answer: b"s SATISFIABLE" b"s UNSATISFIABLE" b"SAT" b"UNSAT" b"v ";
    Report: b"accepted ids " b"yes: " b"no: ring " b"refuted: " b"nbhd: " b"text fault " b"check fault " b"ring fault ";
    Report: b"segments fault " b"table fault " b"formula fault " b"refutation fault ";
    Command: b"./nbhd " b"$ nbhd " b"$ ./nbhd " b"nbhd check --" b"nbhd judge --" b"nbhd table --" b"nbhd run --";
    Command: b"nbhd audit <" b"nbhd apply --" b"nbhd refute --";
    Page: b"<svg" b"<?xml" b"<!DOCTYPE" b"<!doctype" b"<html" b"<head" b"<body" b"<pre";
    Wide: b"\xff\xfe" b"\xfe\xff" b"\xef\xbb\xbf";
    NoText: b"\x1f\x8b" b"\xfd7zXZ" b"PK\x03\x04" b"BZh" b"%PDF-" b"{\\rtf" b"\x89PNG" b"\xff\xd8\xff" b"GIF8";
};

// How the line of the place 0 of a ring begins, as `nbhd plan` and `nbhd apply` print it.
const FIRST_PLACE: &[u8] = b"   0 ";

// How names of files end.
const ENDINGS: [&[u8]; 6] = [b".txt", b".table", b".cnf", b".lrat", b".drat", b".nbhd"];

// Returns what stands in a table beside the first beginning that a line has.
fn beside_beginning(table: &[(&[u8], TextKind)], line: &[u8]) -> Option<TextKind>
    ensures { result ≡ option_map (λ row. row.1) (find (λ row. begins line.now row.0.now) table.now) }
{
    table
        .iter()
        .find(|row| line.starts_with(row.0))
        .map(|row| row.1)
}

// The same, by the beginnings themselves.
fn by_beginning(table: &[(&[u8], TextKind)], line: &[u8]) -> Option<TextKind>
    ensures { result ≡ texts.by_beginning (map (λ row. (row.0.now, row.1)) table.now) line.now }
{
    beside_beginning(table, line)
}

// Returns the kind of a text whose first line has one of the beginnings.
fn kind_by_beginning(line: &[u8]) -> Option<TextKind>
    ensures { result ≡ texts.kind_by_beginning line.now }
{
    by_beginning(&BEGINNINGS, line)
}

// Returns a line without the blanks at its start.
fn trimmed(line: &[u8]) -> &[u8]
    ensures { result.now ≡ texts.trimmed line.entry.now }
{
    line.trim_ascii_start()
}

// Returns whether a line is blank, or a comment of a program or of a solver's file.
fn is_skipped(line: &[u8]) -> bool
    ensures { result ≡ texts.is_skipped line.now }
{
    let said = trimmed(line);
    said.is_empty() || said.starts_with(b"#") || said == b"c".as_slice() || said.starts_with(b"c ")
}

// Returns the first line of a text that is neither blank nor a comment.
fn first_told(text: &[u8]) -> Option<&[u8]>
    ensures { option_map (λ line. line.now) result ≡ texts.first_told text.entry.now }
{
    text.split(|byte| *byte == b'\n')
        .find(|line| !is_skipped(line))
}

// Returns whether a line is of numbers, of which the last one is 0, and no 0 has a minus sign.
fn is_list(line: &[u8]) -> bool
    ensures { result ≡ texts.is_list line.now }
{
    is_made_of(line, b"0123456789 -cdim")
        && (line.ends_with(b" 0") || line == b"0".as_slice())
        && !contains_part(line, b" -0")
}

// Returns the kind of a list of numbers.
fn list_kind(line: &[u8]) -> Option<TextKind>
    ensures { result ≡ texts.list_kind line.now }
{
    let has_zero_within = line.starts_with(b"0 ") || contains_part(line, b" 0 ");
    if matches!(line, [b'1'..=b'9', ..]) && (has_zero_within || line.contains(&b'd')) {
        return Some(TextKind::Refutation);
    }
    if !has_zero_within && has_any_of(line, b"-d") {
        return Some(TextKind::Proof);
    }
    None
}

// Returns a line without a carriage return at its end.
fn without_return(line: &[u8]) -> &[u8]
    ensures { result.now ≡ texts.without_return line.entry.now }
{
    match line.strip_suffix(b"\r") {
        Some(rest) => rest,
        None => line,
    }
}

/// Returns what a line of numbers looks like that ends a list with 0: a step or a deletion of a
/// refutation, which begin with a number, or a clause or a deletion of a proof without hints.
#[tactic(auto, unfolding(crate::specs::Kinds::line_kind))]
pub fn line_kind(line: &[u8]) -> Option<TextKind>
    ensures { result ≡ texts.line_kind line.now }
{
    let line = without_return(line);
    if !is_list(line) {
        return None;
    }
    list_kind(line)
}

// Returns whether a line ends as one of these.
fn has_ending(line: &[u8], endings: &[&[u8]]) -> bool
    ensures { result ≡ list_any (λ ending. ends line.now ending.now) endings.now }
{
    endings.iter().any(|ending| line.ends_with(ending))
}

// Returns whether a whole text is one word that ends as names of files do.
#[tactic(auto, unfolding(crate::specs::Kinds::is_file_name))]
fn is_file_name(text: &[u8]) -> bool
    ensures { result ≡ texts.is_file_name text.now }
{
    let line = first_line(text);
    after_line(text).is_empty() && !has_any_of(line, b" \t:") && has_ending(line, &ENDINGS)
}

// Returns whether a line is one of a program that begins with `rounds`; that of a table goes on with the
// number of identifiers.
fn is_of_program(line: &[u8]) -> bool
    ensures { result ≡ texts.is_of_program line.now }
{
    line.starts_with(b"rounds") && !contains_part(line, b" ids ")
}

// Returns the kind of a text by its first line that is neither blank nor a comment.
#[tactic(auto, unfolding(crate::specs::Kinds::kind_of_line))]
fn kind_of_line(line: &[u8]) -> Option<TextKind>
    ensures { result ≡ texts.kind_of_line line.now }
{
    if is_of_program(line) {
        return Some(TextKind::Program);
    }
    kind_by_beginning(line).or(line_kind(line))
}

// Returns whether a text is of pairs of bytes, one of them 0, as the ASCII of a file in UTF-16 is.
fn is_wide(text: &[u8]) -> bool
    ensures { result ≡ texts.is_wide text.now }
{
    match text {
        [first, 0, second, 0, ..] => *first != 0 && *second != 0,
        [0, first, 0, second, ..] => *first != 0 && *second != 0,
        _ => false,
    }
}

// Returns what a text looks like.
#[tactic(auto, unfolding(crate::specs::Kinds::text_kind))]
pub(crate) fn text_kind(text: &[u8]) -> Option<TextKind>
    ensures { result ≡ texts.text_kind text.now }
{
    if is_wide(text) {
        return Some(TextKind::Wide);
    }
    if text.starts_with(FIRST_PLACE) {
        return Some(TextKind::Report);
    }
    if is_file_name(text) {
        return Some(TextKind::FileName);
    }
    match first_told(text) {
        Some(line) => kind_of_line(trimmed(line)),
        None => None,
    }
}
