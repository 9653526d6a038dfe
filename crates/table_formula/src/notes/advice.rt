//! Advice on a line of a text that is no refutation. It promises nothing.

ghost use Rattle.std.specs.Prelude.{◌≡◌, []};
ghost use Rattle.table_formula.specs.RefutationNotes.{MayHaveAdvice};

use crate::refutation::fault::LineFault;
use source_text::{
    TextKind, contains_part, first_line, is_made_of, kind_advice, len_before, line_kind,
};

// What stands beside the first condition that holds, or else behind `else`.
macro_rules! first {
    ($($holds:expr => $advice:expr;)+ else $rest:expr) => {{ $(if $holds { return $advice; })+ $rest }};
}

// Returns whether a step or a deletion of a refutation stands in a text, which no proof in DRAT has.
fn has_step(text: &[u8]) -> bool {
    text.split(|byte| *byte == b'\n')
        .any(|line| line_kind(line) == Some(TextKind::Refutation))
}

// Returns advice on the first line of a text, which is no step, no deletion and no comment.
fn form_advice(text: &[u8], rest: &[u8]) -> &'static str {
    let line = first_line(rest);
    let kind = kind_advice(text, TextKind::Refutation);
    let is_list = line == b"0".as_slice() || line_kind(line) == Some(TextKind::Proof);
    let has_control = line.iter().any(|byte| *byte < b' ' || *byte > 126);
    let is_proof = !has_step(rest);
    first! {
        kind.is_some() && (is_proof || !is_list) => kind.unwrap_or("");
        line.ends_with(b"\r") => "; lines end with a carriage return: save them with line feeds alone";
        is_list && is_proof => "; `tools/lrat` adds the hints that a proof in DRAT lacks";
        contains_part(line, b"  ") || line.contains(&b'\t') => "; words are parted by single blanks";
        matches!(line, [b'#', ..]) || contains_part(line, b" 0 c") =>
            "; a comment is a line of its own, which begins with `c`";
        matches!(line, [b'd', b' ', b'1'..=b'9', ..]) =>
            "; a deletion begins with a number, as in `5 d 3 4 0`, which one of DRAT lacks";
        matches!(line, [b'a' | b'd', ..]) && has_control =>
            "; this may be a proof in binary: `cadical --no-binary` writes text";
        matches!(line, [b'1'..=b'9', ..]) => step_advice(line);
        else "; a line begins with the number of its clause"
    }
}

// Returns advice on a line that begins with a number.
fn step_advice(line: &[u8]) -> &'static str {
    let count = line
        .split(|byte| *byte == b' ')
        .filter(|word| *word == b"0".as_slice())
        .count();
    let mut numbers = line.split(|byte| !byte.is_ascii_digit());
    let step = &line[len_before(line, b' ')..];
    first! {
        matches!(step, [b' ', b'i' | b'c' | b'm', b' ', ..]) =>
            "; behind `i` stand two identifiers, behind `c` two channels, behind `m` none, and then two lists, each ended by 0";
        !is_made_of(line, b"0123456789 -d") => "; nothing but numbers follows there, and behind the first one `d`, `i`, `c` or `m`";
        contains_part(line, b"- ") => "; a minus stands right before its number";
        line.contains(&b'd') => "; behind `d` stand the numbers of clauses, and then one 0";
        !line.ends_with(b" 0") => "; each list ends with 0, and nothing follows the second one";
        count != 2 => "; a step has two lists, and each ends with 0";
        numbers.any(|number| number.len() > 9) =>
            "; literals are at most 2147483648, and numbers of clauses at most 18446744073709551615";
        else "; hints have no minus sign, and steps by RAT are not taken"
    }
}

// Returns advice on the fault of a line of a text, with which `rest` begins.
pub(crate) fn line_advice(text: &[u8], rest: &[u8], fault: LineFault) -> &'static str
    ensures none { ¬ MayHaveAdvice fault → result.now ≡ [] }
{
    match fault {
        LineFault::Form => form_advice(text, rest),
        LineFault::NoEmptyClause if text.is_empty() =>
            "; the text is empty, so no file was given, or an empty one",
        LineFault::NoEmptyClause => kind_advice(text, TextKind::Refutation).unwrap_or(
            "; a refutation ends with a step without literals, as in `22 0 20 21 10 0`",
        ),
        _ => "",
    }
}
