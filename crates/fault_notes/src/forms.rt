//! Forms of other notations, and how they are written in a program, in rows.

use crate::edits::Edit;
use crate::rows::Part;
use crate::tokens::{Spot, before};
use node_lang::Token;
use source_text::is_one_of;
use std::alloc::AllocError;

// An edit, if there is one.
pub(crate) type Found = Result<Option<Edit>, AllocError>;

// How tight comparisons bind.
const COMPARED: u8 = 3;

// A piece of what is written: a text, or what the part of a form with this index stands for.
pub(crate) enum Piece {
    Text(&'static str),
    Nth(usize),
}

// A form of another notation: how tight its operator binds, 0 if it has none, what stands there, and what is
// written instead of it.
pub(crate) struct Form {
    level: u8,
    parts: &'static [Part],
    put: &'static [Piece],
}

macro_rules! forms {
    ($($level:literal, [$($part:expr),+] => $put:expr;)+) =>
        { [$(Form { level: $level, parts: &[$($part),+], put: $put }),+] };
}

// An operation of two operands.
macro_rules! call {
    ($name:literal, $first:expr, $second:expr) => { &[Text(concat!($name,
        "(")), $first, Text(", "), $second, Text(")")] };
}

use Part::{Message, Number, One, Operand, Operands, Register, Thousand};
use Piece::{Nth, Text};

static LOOSE: [Form; 18] = forms! {
    0, [Operand, One("--")] => call!("sub", Nth(0), Text("1"));
    0, [Operand, One("?"), Operands, One(":"), Operands] =>
        &[Text("if("), Nth(0), Text(", "), Nth(2), Text(", "), Nth(4), Text(")")];
    0, [Operand, One("if"), Operands, One("else"), Operands] =>
        &[Text("if("), Nth(2), Text(", "), Nth(0), Text(", "), Nth(4), Text(")")];
    0, [Message, One(". -> _ ::"), Part::Any] => &[Nth(0)];
    0, [Register, One("+=")] => &[Nth(0), Text(" = "), Nth(0), Text(" +")];
    1, [Operand, One("|| or"), Operand] => call!("or", Nth(0), Nth(2));
    2, [Operand, One("&& and"), Operand] => call!("and", Nth(0), Nth(2));
    3, [Operand, One("= == === is equals eq"), Operand] => call!("eq", Nth(0), Nth(2));
    3, [Operand, One("!= /= ~= <> ne"), Operand] => call!("ne", Nth(0), Nth(2));
    3, [Operand, One("<= =< le"), Operand] => call!("le", Nth(0), Nth(2));
    3, [Operand, One("< lt"), Operand] => call!("lt", Nth(0), Nth(2));
    3, [Operand, One(">= => ge geq"), Operand] => call!("le", Nth(2), Nth(0));
    3, [Operand, One("> gt"), Operand] => call!("lt", Nth(2), Nth(0));
    4, [Operand, One("|"), Operand] => call!("or", Nth(0), Nth(2));
    5, [Operand, One("^ xor"), Operand] => call!("xor", Nth(0), Nth(2));
    6, [Operand, One("&"), Operand] => call!("and", Nth(0), Nth(2));
    7, [Operand, One("<< bsl lsl shl"), Operand] => call!("shl", Nth(0), Nth(2));
    7, [Operand, One(">> shr"), Operand] => call!("shr", Nth(0), Nth(2));
};

static TIGHT: [Form; 12] = forms! {
    8, [Operand, One("`"), Part::Any, One("`"), Operand] => &[Nth(2), Text("("), Nth(0), Text(", "), Nth(4), Text(")")];
    8, [Operand, One("+ plus add"), Operand] => call!("add", Nth(0), Nth(2));
    8, [Operand, One("- minus sub"), Operand] => call!("sub", Nth(0), Nth(2));
    8, [Operand, One("min"), Operand] => call!("min", Nth(0), Nth(2));
    8, [Operand, One("max"), Operand] => call!("max", Nth(0), Nth(2));
    9, [Operand, One("* times"), One("2")] => call!("shl", Nth(0), Text("1"));
    9, [Operand, One("* times"), One("8")] => call!("shl", Nth(0), Text("3"));
    9, [One("2"), One("* times"), Operand] => call!("shl", Nth(2), Text("1"));
    9, [Operand, One("/ // div"), One("2")] => call!("shr", Nth(0), Text("1"));
    9, [Operand, One("/ // div"), One("4")] => call!("shr", Nth(0), Text("2"));
    9, [Operand, One("% mod rem"), One("2")] => call!("and", Nth(0), Text("1"));
    9, [Operand, One("% mod rem"), One("4")] => call!("and", Nth(0), Text("3"));
};

static PREFIX: [Form; 5] = forms! {
    0, [One("( [ {"), Operand, One(") ] }")] => &[Nth(1)];
    0, [One("!"), Operand] => call!("eq", Nth(1), Text("0"));
    0, [One("~"), Operand] => &[Text("not("), Nth(1), Text(")")];
    0, [One("gt greater"), One("("), Operands, One(","), Operands, One(")")] => call!("lt", Nth(4), Nth(2));
    0, [One("ge geq gte"), One("("), Operands, One(","), Operands, One(")")] => call!("le", Nth(4), Nth(2));
};

static THOUSANDS: [Form; 1] = forms! {
    0, [Number, One(","), Thousand] => &[Nth(0), Nth(2)];
};

static EARLIER: [Form; 4] = forms! {
    0, [Number, One(","), Thousand] => &[Nth(0), Nth(2)];
    0, [Part::Any, One("_"), Part::Any] => &[Nth(0), Nth(2)];
    0, [Number, Number] => &[Nth(0), Nth(1)];
    0, [Part::Any, Part::Any] => &[Nth(1), Text(" "), Nth(0)];
};

static TRIED: [Form; 12] = forms! {
    0, [One("r"), Number] => &[Nth(0), Nth(1)];
    0, [One("r"), One("_"), Number] => &[Nth(0), Nth(2)];
    0, [One("r"), One("_{ [ ( {"), Number, One("] ) }")] => &[Nth(0), Nth(2)];
    0, [One("r")] => &[Text("R")];
    0, [Operand] => &[Text("("), Nth(0), Text(")")];
    0, [Operand, Operand] => call!("", Nth(0), Nth(1));
    0, [One(",")] => &[Text(")")];
    0, [One(",")] => &[Text("send")];
    0, [Operands, One("left")] => &[Text("left "), Nth(0)];
    0, [Operands, One("right")] => &[Text("right "), Nth(0)];
    0, [One("("), One(")")] => &[Text("")];
    0, [Part::Any, Part::Any] => &[Nth(1), Text(" "), Nth(0)];
};

// Forms that begin with an operand, whose operators bind loosely.
pub(crate) fn loose() -> &'static [Form] {
    &LOOSE
}

// Forms that begin with an operand, whose operators bind tightly.
pub(crate) fn tight() -> &'static [Form] {
    &TIGHT
}

// Forms where an expression can begin.
pub(crate) fn prefix() -> &'static [Form] {
    &PREFIX
}

// A number with a comma, of whose second part the last token is the one before that at which a text cannot go on.
pub(crate) fn thousands() -> &'static [Form] {
    &THOUSANDS
}

// Forms that begin with the token before that at which a text cannot go on, which are tried.
pub(crate) fn earlier() -> &'static [Form] {
    &EARLIER
}

// Forms at the token at which a text cannot go on, which are tried.
pub(crate) fn tried() -> &'static [Form] {
    &TRIED
}

// The most operators that are looked at in a row.
const MOST_OPERATORS: usize = 16;

// Returns how tight an operator binds that is among these forms, 0 if there is none.
fn level_in(forms: &[Form], marks: &[u8]) -> u8 {
    for form in forms {
        if let Some(One(words)) = form.parts.get(1)
            && is_one_of(words, marks)
        {
            return form.level;
        }
    }
    0
}

impl<'a> Spot<'a> {
    // Returns the number of the token after a part that stands at a token, if it does.
    pub(crate) fn part_end(self, number: usize, part: &Part) -> Option<usize> {
        let (token, next) = (self.token(number), self.after_marks(number));
        let is_number = matches!(token, Some(Token::Number(_)));
        let (end, is_there) = match part {
            Part::One(words) => (next, is_one_of(words, self.marks(number))),
            Part::LineEnd => (number, self.begins_line(number) || token.is_none()),
            Part::Operand => (self.operand_end(number), self.begins_operand(number)),
            Part::Operands => (self.chain_end(number), self.begins_operand(number)),
            Part::Number => (next, is_number),
            Part::Thousand => (next, is_number && self.word(number).len() == 3),
            Part::Register => (next, matches!(token, Some(Token::Register(_)))),
            Part::Message => (
                next,
                matches!(token, Some(Token::FromLeft | Token::FromRight)),
            ),
            Part::Operation => (
                next,
                matches!(token, Some(Token::One(_) | Token::Two(_) | Token::If)),
            ),
            Part::Strange => (next, self.is_strange(number)),
            Part::StrangeNumber => {
                let is_digit = matches!(self.word(number), [b'0'..=b'9', ..]);
                (next, is_digit && self.is_strange(number))
            }
            Part::Mark => (next, self.is_mark(number)),
            Part::Any => (next, token.is_some()),
        };
        if is_there { Some(end) } else { None }
    }

    // Returns the number of the token after parts that stand at a token one after another, if they do.
    pub(crate) fn form_end(self, start: usize, parts: &[Part]) -> Option<usize> {
        let mut at = start;
        for part in parts {
            at = self.part_end(at, part)?;
        }
        Some(at)
    }

    // Returns what the part with this index stands for, of a form at a token.
    fn nth_part(self, start: usize, parts: &[Part], index: usize) -> Option<&'a [u8]> {
        let mut at = start;
        for (number, part) in parts.iter().enumerate() {
            let end = self.part_end(at, part)?;
            if number == index {
                return Some(self.words(at, end));
            }
            at = end;
        }
        None
    }

    // Returns the edit that writes a form at a token as one of a program, if it stands there.
    pub(crate) fn formed(self, start: usize, form: &Form) -> Found {
        let Some(end) = self.form_end(start, form.parts) else {
            return Ok(None);
        };
        let mut put = Vec::new(self.alloc);
        for piece in form.put {
            put.extend_from_slice(match piece {
                Text(text) => text.as_bytes(),
                Nth(index) => self.nth_part(start, form.parts, *index).unwrap_or(b""),
            })?;
        }
        let (from, to) = (self.span(start).0, self.span(before(end, 1)).1);
        Ok(Some(Edit { from, to, put }))
    }

    // Returns the edit of the first of these forms that stands at a token.
    pub(crate) fn first_form(self, forms: &[Form], start: usize) -> Found {
        for form in forms {
            if let Some(edit) = self.formed(start, form)? {
                return Ok(Some(edit));
            }
        }
        Ok(None)
    }

    // Returns the edit of the first form at a token that begins with an operand.
    pub(crate) fn infix_form(self, start: usize) -> Found {
        if let Some(edit) = self.first_form(loose(), start)? {
            return Ok(Some(edit));
        }
        self.first_form(tight(), start)
    }

    // Returns how tight the operator at a token binds that stands before an operand, 0 if there is none.
    fn level(self, number: usize) -> u8 {
        let marks = self.marks(number);
        if self.begins_operand(self.after_marks(number)) {
            return level_in(loose(), marks).max(level_in(tight(), marks));
        }
        0
    }

    // Returns the number of the first token after operands with operators between them.
    fn chain_end(self, number: usize) -> usize {
        let mut end = self.operand_end(number);
        for _ in 0..MOST_OPERATORS {
            if self.level(end) == 0 {
                return end;
            }
            end = self.operand_end(self.after_marks(end));
        }
        end
    }

    // Returns the number of the operator that is applied first: this one, or a later one that binds tighter.
    pub(crate) fn tightest(self, number: usize) -> usize {
        let mut at = number;
        for _ in 0..MOST_OPERATORS {
            let next = self.operand_end(self.after_marks(at));
            if self.level(next) <= self.level(at) {
                return at;
            }
            at = next;
        }
        at
    }

    // Returns whether another comparison follows the second operand of one.
    pub(crate) fn is_chained(self, number: usize) -> bool {
        let next = self.operand_end(self.after_marks(number));
        self.level(number) == COMPARED && self.level(next) == COMPARED
    }
}
