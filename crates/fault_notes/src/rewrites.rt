//! Texts in other notations at a fault, written as those of a program: one step of an edit.

use crate::edits::{Edit, Misread, edit_of};
use crate::facts::sign_of;
use crate::forms::{Found, prefix};
use crate::tokens::{Spot, after, before, is_known, part, tokens_in};
use node_lang::Expected::{self, This};
use node_lang::{Token, token_from};
use source_text::is_one_of;
use std::alloc::{AllocError, Global};

// Returns an edit that is a step towards a text of a program, if there is one.
pub(crate) fn rewrite(alloc: Global, text: &[u8], misread: Misread) -> Found {
    let offset = misread.fault.offset;
    match (misread.expected, sign_written(alloc, text, offset)?) {
        (Some(expected), None) => {
            let all = tokens_in(alloc, text)?;
            Spot::new(alloc, text, &all, offset, expected).written()
        }
        (_, sign) => Ok(sign),
    }
}

// Writes what stands for a sign.
fn sign_written(alloc: Global, text: &[u8], offset: usize) -> Found {
    let Some((row, len)) = sign_of(part(text, offset, text.len())) else {
        return Ok(None);
    };
    let put = [row.put.as_bytes()];
    Ok(Some(edit_of(alloc, offset, after(offset, len), &put)?))
}

impl Spot<'_> {
    // Returns the edit of the tokens from one up to another, or before the first if both are one, that puts these
    // pieces there.
    pub(crate) fn put(self, first: usize, to: usize, pieces: &[&[u8]]) -> Result<Edit, AllocError> {
        let (from, last) = (self.span(first).0, self.span(before(to, 1)).1);
        let end = if first < to { last } else { from };
        edit_of(self.alloc, from, end, pieces)
    }

    // Returns whether the token is an `=` behind an expression that assigns a register: one at the start of a line,
    // one that stands behind another `=`, or one in a branch of `if`.
    pub(crate) fn assigns(self) -> bool {
        let register = before(self.number, 1);
        let is_register = matches!(self.token(register), Some(Token::Register(_)));
        let operation = self.open_operation(self.number).unwrap_or(usize::MAX);
        if !is_register || !self.is_behind() || self.marks(self.number) != b"=".as_slice() {
            return false;
        }
        match self.token(before(register, 1)) {
            _ if self.begins_line(register) => true,
            Some(Token::Comma) => self.has(operation, Token::If),
            Some(Token::Equals) => true,
            _ => false,
        }
    }

    // Returns a step at the token.
    fn written(self) -> Found {
        let word = self.word(self.number);
        let is_twice = word == self.word(before(self.number, 1)) && word != b"(".as_slice();
        if is_twice && !self.is_mark(self.number) {
            return Ok(None);
        }
        if let Some(edit) = self.word_written()? {
            return Ok(Some(edit));
        }
        match self.expected {
            Expected::Expression => self.expression_written(),
            This(Token::Equals) => self.infix_form(before(self.number, 1)),
            This(Token::Open) | Expected::Number => Ok(None),
            _ => self.joined(self.number),
        }
    }

    // Returns what the token stands for: a word for an operation, or one for a value that no bracket follows.
    fn reads_as(self) -> Option<&'static [u8]> {
        let put = self.row()?.put.as_bytes();
        match token_from(put, 0)?.token {
            Token::One(_) | Token::Two(_) | Token::If => Some(put),
            _ if self.has(after(self.number, 1), Token::Open) => None,
            _ => Some(put),
        }
    }

    // Writes the word that stands for the token, or the token with small letters.
    fn word_written(self) -> Found {
        if let Some(put) = self.reads_as() {
            return Ok(Some(self.put(self.number, self.after_marks(self.number), &[put])?));
        }
        let next = after(self.number, 1);
        let mut small = self.put(self.number, next, &[self.word(self.number)])?;
        small.put.make_ascii_lowercase();
        if self.is_strange(self.number) && is_known(&small.put) {
            return Ok(Some(small));
        }
        Ok(None)
    }

    // Writes a form that begins with an operand before a token, by the operator that binds tightest. A chain of
    // comparisons is none.
    fn joined(self, number: usize) -> Found {
        let here = Spot { number, ..self };
        if self.operand_start(number).is_none() || self.begins_line(number) || here.assigns() {
            return Ok(None);
        }
        let sign = sign_written(self.alloc, self.text, self.span(number).0)?;
        let operator = self.tightest(number);
        match self.operand_start(operator) {
            Some(first) if sign.is_none() && !self.is_chained(operator) => {
                self.infix_form(first)
            }
            _ => Ok(sign),
        }
    }

    // Writes what stands where an expression can begin: an operand with a name, a form, or operands in brackets.
    fn expression_written(self) -> Found {
        let next = after(self.number, 1);
        let is_inside = is_one_of("( ,", self.word(before(self.number, 1)));
        if is_inside && self.is_strange(self.number) && is_one_of("= :", self.marks(next)) {
            return Ok(Some(self.put(self.number, after(next, 1), &[])?));
        }
        let form = self.first_form(prefix(), self.number)?;
        if form.is_some() || !is_one_of("( [ {", self.word(self.number)) {
            return Ok(form);
        }
        self.joined(self.operand_end(next))
    }
}
