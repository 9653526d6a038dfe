//! Facts on the language, by what is met and where it cannot stand.

use crate::rows::{
    Context, Part, Row, Sign, Told, behind, expression_marks, line_beginnings, marks_behind,
    other_values, signs, values, words,
};
use crate::tokens::{Spot, after, before, part};
use node_lang::Expected::{self, This};
use node_lang::Token;

// The fact of the first row whose condition holds, or what stands behind `else`.
macro_rules! first {
    ($($holds:expr => $told:ident $fact:expr;)+ else $rest:expr) => {{
        $(if $holds { return Some(Fact { told: Told::$told, text: $fact, word: b"" }); })+ $rest
    }};
}

// A fact, where `{}` stands for a word if it has one.
#[derive(Clone, Copy)]
pub(crate) struct Fact<'a> {
    pub(crate) told: Told,
    pub(crate) text: &'static str,
    pub(crate) word: &'a [u8],
}

// Returns the row of the sign with which a text begins, and the number of its bytes.
pub(crate) fn sign_of(text: &[u8]) -> Option<(&'static Sign, usize)> {
    for row in signs() {
        for sign in row.signs.split(' ') {
            if text.starts_with(sign.as_bytes()) {
                return Some((row, sign.len()));
            }
        }
    }
    None
}

// Returns the fact on the byte over 127 with which a text begins.
pub(crate) fn fact_on_sign(text: &[u8]) -> Fact<'static> {
    let (told, word) = (Told::Beside, b"".as_slice());
    let text = match sign_of(text) {
        Some((sign, _)) => sign.fact,
        None => "; letters and marks are those of ASCII",
    };
    Fact { told, text, word }
}

impl<'a> Spot<'a> {
    // Returns whether the token stands in a context.
    fn is_at(self, context: &Context) -> bool {
        let is_register = matches!(self.expected, This(Token::Register(_)));
        match context {
            Context::Any => true,
            Context::Expression => matches!(self.expected, Expected::Expression),
            Context::Number => matches!(self.expected, Expected::Number),
            Context::End => matches!(self.expected, Expected::End),
            Context::First => is_register && self.is_early(),
            Context::Register => is_register && !self.is_early(),
            Context::Behind => self.is_behind(),
            Context::At(token) => self.expects(*token),
        }
    }

    // Returns whether the token stands in one of these contexts.
    pub(crate) fn is_among(self, contexts: &[Context]) -> bool {
        for context in contexts {
            if self.is_at(context) {
                return true;
            }
        }
        false
    }

    // Returns whether no round stands before the token.
    fn is_early(self) -> bool {
        !self.has_before(self.number, Some(Token::Round))
    }

    // Returns whether the token stands behind an expression on its line.
    pub(crate) fn is_behind(self) -> bool {
        let is_before = matches!(
            self.expected,
            Expected::Expression | This(Token::Channels | Token::Registers | Token::Start)
        );
        !is_before && self.ends_operand(before(self.number, 1)) && !self.begins_line(self.number)
    }

    // Returns what is known of the token where it stands.
    pub(crate) fn row(self) -> Option<&'static Row> {
        for rows in [
            values(),
            expression_marks(),
            words(),
            other_values(),
            marks_behind(),
            behind(),
            line_beginnings(),
        ] {
            if let Some(row) = self.row_in(rows) {
                return Some(row);
            }
        }
        None
    }

    // Returns the first of these rows that the token has.
    fn row_in(self, rows: &'static [Row]) -> Option<&'static Row> {
        for row in rows {
            let is_after = match &row.last {
                Some(part) => self.part_end(before(self.number, 1), part).is_some(),
                None => true,
            };
            let is_there = self.form_end(self.number, row.parts).is_some();
            if is_after && is_there && self.is_among(row.contexts) {
                return Some(row);
            }
        }
        None
    }

    // Returns whether the token is a register that was met before, but does not begin an assignment that is doubled.
    fn is_second(self) -> bool {
        let number = self.number;
        let assigned = self.words(number, self.operand_end(after(number, 2)));
        let front = part(self.text, 0, self.span(number).0).trim_ascii_end();
        matches!(self.expected, This(Token::Round | Token::Finish))
            && self.begins_line(number)
            && self.part_end(number, &Part::Register).is_some()
            && self.has_before(number, self.token(number))
            && !front.ends_with(assigned)
    }

    // Returns whether the token is a register that was not met before, where all are assigned.
    fn is_extra(self) -> bool {
        self.expects(Token::Finish)
            && self.part_end(self.number, &Part::Register).is_some()
            && !self.has_before(self.number, self.token(self.number))
    }

    // Returns whether registers are counted from 1.
    fn counts_from_1(self) -> bool {
        self.expects(Token::Register(0))
            && self.has(self.number, Token::Register(1))
            && !self.has_before(self.all.len(), Some(Token::Register(0)))
    }

    // Returns the fact on the token, if there is one.
    pub(crate) fn fact(self) -> Option<Fact<'a>> {
        let number = self.number;
        let marks = self.marks(number);
        let is_end = marks == b";".as_slice() && self.open_operation(number).is_none();
        let is_early = self.has(number, Token::Send) && self.is_early();
        first! {
            matches!(marks, [0..=31 | 127, ..]) => Alone "; this byte does not belong in a text";
            self.begins_comment() => Beside "; a comment begins with `#`";
            is_end => Beside "; lines end without a mark";
            self.assigns() && self.begins_line(before(number, 1)) => Beside
                "; the register before it was read as the expression that is missing";
            self.assigns() => Alone
                "; an assignment has one register, and a branch of `if` has none: `eq(a, b)` compares";
            is_early => Beside "; messages are sent only in rounds";
            self.counts_from_1() => Alone "; registers are `r0` to `r7`";
            self.is_extra() => Alone "; `registers` says how many registers there are, and `start` and each round assign all of them";
            self.is_second() => Alone "; each register is assigned once in a block, by one expression";
            else match self.arity() {
                Some(fact) => Some(fact),
                None => self.fact_of_row(),
            }
        }
    }

    // Returns the fact of the row that the token has, with its word, or with the one before it if that is what is
    // wrong.
    fn fact_of_row(self) -> Option<Fact<'a>> {
        let row = self.row()?;
        let (told, text) = (row.told, row.fact);
        let mut word = self.word(self.number);
        if self.is_behind() || self.expects(Token::Open) {
            word = self.word(before(self.number, 1));
        }
        Some(Fact { told, text, word })
    }

    // Returns how many operands the operation takes whose bracket is open before the token, if a comma or a bracket
    // stands there that cannot, or nothing.
    fn arity(self) -> Option<Fact<'a>> {
        let is_known = match self.token(self.number) {
            Some(Token::Comma) => matches!(
                self.expected,
                Expected::Expression | This(Token::Close)
            ),
            Some(Token::Close) => matches!(
                self.expected,
                Expected::Expression | This(Token::Comma)
            ),
            met => met.is_none() && matches!(self.expected, This(Token::Comma | Token::Close)),
        };
        let operation = self.open_operation(self.number)?;
        let text = match self.token(operation)? {
            _ if !is_known => return None,
            Token::One(_) => "; `{}` takes 1 operand",
            Token::Two(_) => "; `{}` takes 2 operands",
            Token::If => "; `{}` takes 3 operands",
            _ => return None,
        };
        let (told, word) = (Told::Beside, self.word(operation));
        Some(Fact { told, text, word })
    }
}
