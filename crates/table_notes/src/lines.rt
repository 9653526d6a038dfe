//! Advice on a text that is no table, by the line that does not have its form. It promises nothing.

ghost use Rattle.std.specs.Prelude.{◌≤◌, length};

use crate::headers::header_advice;
use source_text::{
    TextKind, after_line, contains_part, first_line, has_any_of, is_made_of, kind_advice,
    len_before,
};
use table_text::shape_in;

// What stands beside the first condition that holds, or else behind `else`.
macro_rules! first {
    ($($holds:expr => $advice:expr;)+ else $rest:expr) => {{ $(if $holds { return $advice; })+ $rest }};
}

const WINDOW: &str = "; a line is the identifiers of a window, ` : ` and a channel";

// Returns advice on a text whose line at this offset does not have its form.
pub(crate) fn form_advice(text: &[u8], offset: usize) -> &'static str
    requires { offset ≤ length text.now }
{
    let (before, rest) = text.split_at(offset);
    let line = first_line(rest);
    first! {
        text.is_empty() => "; the text is empty, so no file was given, or an empty one";
        text.contains(&b'\r') && kind_advice(text, TextKind::Table).is_none() =>
            "; lines end with a carriage return: save them with line feeds alone";
        offset == 0 => first_advice(text);
        before.ends_with(b"\nend\n") && !rest.starts_with(b"\n") => "; nothing follows the line `end`";
        rest == b"end".as_slice() => "; the last line has no line end";
        line.len() == rest.len() => "; the text stops before its end, which is a line `end`: lines are missing";
        line.contains(&b'#') => "; a table has no comments";
        layout_advice(line).is_some() => layout_advice(line).unwrap_or("");
        after_line(before).is_empty() => header_advice(text.starts_with(b"nbhd-table 1\n"), rest);
        else line_advice(text, rest)
    }
}

// Returns advice on a text that does not begin like a table text.
fn first_advice(text: &[u8]) -> &'static str {
    let line = first_line(text);
    let kind = kind_advice(text, TextKind::Table);
    first! {
        line.starts_with(b"rounds ") && contains_part(line, b" ids ") =>
            "; its first line, `nbhd-table 2` or `nbhd-table 1`, is missing";
        kind.is_some() => kind.unwrap_or("");
        is_of_window(line) => "; its first two lines are missing";
        line.starts_with(b"{") => "; this looks like JSON: without `--format json` nbhd prints the text of a table";
        contains_part(line, b"nbhd-table") && layout_advice(line).is_some() => layout_advice(line).unwrap_or("");
        else "; its first line is `nbhd-table 2`, or `nbhd-table 1`"
    }
}

// Returns whether a line is that of a window: numbers, a colon and a number.
fn is_of_window(line: &[u8]) -> bool {
    is_made_of(line, b"0123456789 :") && line.split(|byte| *byte == b':').count() == 2
}

// Returns advice on the blanks of a line.
fn layout_advice(line: &[u8]) -> Option<&'static str> {
    first! {
        is_made_of(line, b" \t") => Some("; the line is blank");
        line.starts_with(b" ") => Some("; it begins with a blank");
        line.ends_with(b" ") && !line.ends_with(b": ") => Some("; it ends with a blank");
        line.contains(&b'\t') => Some("; words are parted by single blanks, and this line has a tab");
        contains_part(line, b"  ") => Some("; words are parted by single blanks");
        line.contains(&b',') => Some("; words are parted by single blanks, without commas");
        else None
    }
}

// Returns advice on the line with which `rest` begins, one of those from the third line of a text on.
fn line_advice(text: &[u8], rest: &[u8]) -> &'static str {
    let line = first_line(rest);
    let window = &line[..len_before(line, b':')];
    let mut numbers = line.split(|byte| !byte.is_ascii_digit());
    first! {
        line == b"end".as_slice() => "; lines are missing before it";
        matches!(line, [b'e' | b'E', b'n' | b'N', b'd' | b'D', ..]) => "; the last line is `end`";
        has_any_of(line, b"+-.") => "; a number has only digits";
        !is_of_window(line) || !contains_part(line, b" : ") || line.ends_with(b" ") => WINDOW;
        numbers.any(|number| number.len() > 9 || matches!(number, [b'0', _, ..])) =>
            "; numbers have no zeros before them, and are at most 4294967295";
        else count_advice(text, window)
    }
}

// Returns advice on a line of a window with these identifiers, each with a blank behind it. If they are
// as many as line 2 asks for, the line is one too many.
fn count_advice(text: &[u8], window: &[u8]) -> &'static str {
    let identifiers = window.iter().filter(|byte| **byte == b' ').count();
    let rounds = shape_in(text).map_or(0, |shape| shape.rounds() as usize);
    if rounds.saturating_mul(2).saturating_add(1) == identifiers {
        return "; line 2 asks for as many windows as there are before this line: here comes `end`, or `ids` there is too small";
    }
    "; with 0, 1, 2, 3 or 4 `rounds` in line 2, a window has 1, 3, 5, 7 or 9 identifiers"
}
