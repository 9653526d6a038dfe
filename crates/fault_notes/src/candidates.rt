//! Edits that can mend a fault of a program text.

use crate::edits::{Edit, edit_of};
use crate::forms::{Form, earlier, thousands, tried};
use crate::tokens::{Spot, after, before, is_known, part};
use node_lang::Expected::{self, This};
use node_lang::Token;
use source_text::{first_line_len, is_one_of, last_line_len};
use std::alloc::AllocError;

// The registers, and the digits.
const REGISTERS: &[u8] = b"r0r1r2r3r4r5r6r7";

const DIGITS: &[u8] = b"0123456789";

// The longest word that is tried in two parts, and the longest line that is exchanged with the next one.
const LONGEST_PART: usize = 60;

// Returns texts that can be missing where this is expected. A byte 0 stands for an expression, a byte 1
// for a number of the header.
fn missing(expected: Expected) -> &'static [&'static [u8]] {
    match expected {
        This(Token::Rounds) => &[b"rounds", b"rounds \x01"],
        This(Token::Channels) => &[b"channels", b"channels \x01"],
        This(Token::Registers) => &[b"registers", b"registers \x01"],
        This(Token::Start) => &[b"start", b"start r0 = \0"],
        This(Token::Round) => &[b"round"],
        This(Token::Send) => &[b"send", b"send right \0", b"send left \0 send right \0"],
        This(Token::Left) => &[b"left", b"left \0 send"],
        This(Token::Right) => &[b"right"],
        This(Token::Finish) => &[b"finish", b"finish \0"],
        This(Token::Open) => &[b"("],
        This(Token::Close) => &[b")", b"))", b")))", b"))))"],
        This(Token::Comma) => &[b",", b", \0", b", \0, \0", b", \0)", b", \0))"],
        This(Token::Equals) => &[b"=", b"= \0"],
        Expected::Number => &[b"\x01"],
        Expected::Expression => &[b"\0", b"\0, \0", b"\0, \0, \0", b"\0)", b"\0))"],
        _ => &[],
    }
}

// Returns the text of a register.
fn register_text(register: u32) -> &'static [u8] {
    let at = after(register as usize, register as usize);
    part(REGISTERS, at, after(at, 2))
}

// Returns whether a word of three letters differs from a name by one letter, or by two that are exchanged.
fn is_alike(word: &[u8], name: &[u8]) -> bool {
    let ([first, second, third], [one, two, three]) = (word, name) else {
        return false;
    };
    match (first == one, second == two, third == three) {
        (true, false, false) => second == three && third == two,
        (false, true, false) => first == three && third == one,
        (false, false, true) => first == two && second == one,
        (false, false, false) | (true, true, true) => false,
        _ => true,
    }
}

impl Spot<'_> {
    // Returns what can stand instead of a word that is not of the language, an empty text if nothing can, or if it
    // stands behind the word.
    fn instead(self) -> &'static [u8] {
        let next = after(self.number, 1);
        let is_assigned = self.has(next, Token::Equals);
        let is_none = self.is_inside()
            || matches!(self.expected, Expected::Expression | Expected::Number)
            || matches!(self.expected, This(token) if self.has(next, token));
        match self.expected {
            _ if is_none || !self.is_strange(self.number) => b"",
            This(Token::Register(register)) if is_assigned => register_text(register),
            expected => missing(expected).first().copied().unwrap_or(b""),
        }
    }

    // Returns how often a token is in the text.
    fn count(self, token: Token) -> usize {
        let mut count = 0;
        for at in 0..self.all.len() {
            if self.has(at, token) {
                count = after(count, 1);
            }
        }
        count
    }

    // Returns whether a mark within a line is expected.
    fn is_inside(self) -> bool {
        let token = match self.expected {
            This(token) => token,
            _ => return false,
        };
        matches!(
            token,
            Token::Open | Token::Close | Token::Comma | Token::Equals
        )
    }

    // Returns whether an operand of the language stands behind another one on its line.
    fn is_operand_behind(self) -> bool {
        !matches!(self.token(self.number), Some(Token::Unknown | Token::Open))
            && self.begins_operand(self.number)
            && self.ends_operand(before(self.number, 1))
            && !self.begins_line(self.number)
    }

    // Returns whether marks begin a comment in another language, at the start of a line, before a word, or behind
    // `start` or `round`.
    pub(crate) fn begins_comment(self) -> bool {
        let marks = self.marks(self.number);
        let is_word = self.is_strange(self.after_marks(self.number));
        let last = self.token(before(self.number, 1));
        if self.begins_line(self.number) && is_one_of("; ' ''' ! \" \"\"\" // /* -- % %%", marks) {
            return true;
        }
        is_one_of("// /* -- ; ;; % %% {- <!--", marks)
            && (is_word || matches!(last, Some(Token::Start | Token::Round)))
    }
}

// Edits at a token of a text.
#[derive(Drop)]
pub(crate) struct Edits<'a> {
    pub(crate) spot: Spot<'a>,
    pub(crate) all: Vec<Edit>,
}

impl<'a> Edits<'a> {
    // Adds that pieces are put instead of the tokens from one up to another, before the first if both are one.
    fn put(&mut self, first: usize, end: usize, pieces: &[&[u8]]) -> Result<(), AllocError> {
        self.all.push(self.spot.put(first, end, pieces)?)?;
        Ok(())
    }

    // Adds forms at a token.
    fn put_forms(&mut self, start: usize, forms: &[Form]) -> Result<(), AllocError> {
        for form in forms {
            if let Some(edit) = self.spot.formed(start, form)? {
                self.all.push(edit)?;
            }
        }
        Ok(())
    }

    // Adds that each of these pieces is put instead of the tokens from one up to the token, between a front
    // and a back.
    fn put_each(
        &mut self,
        first: usize,
        front: &[u8],
        pieces: &[&[u8]],
        back: &[u8],
    ) -> Result<(), AllocError> {
        for piece in pieces {
            self.put(first, self.spot.number, &[front, piece, back])?;
        }
        Ok(())
    }

    // Adds what can be missing before the token, or before the register that was read as an expression.
    fn put_missing(&mut self) -> Result<(), AllocError> {
        let (spot, number) = (self.spot, self.spot.number);
        let previous = before(number, 1);
        if spot.has(number, Token::Equals) && spot.begins_line(previous) {
            let pieces = [b"\0 ".as_slice(), b") ", b")) "];
            self.put_each(previous, b"", &pieces, spot.word(previous))?;
        }
        if spot.is_inside() || !spot.is_operand_behind() {
            self.put_each(number, b"", missing(spot.expected), b"")?;
        }
        if let This(Token::Register(register)) = spot.expected {
            let pieces = [b"".as_slice(), b" =", b" = \0"];
            self.put_each(number, register_text(register), &pieces, b"")?;
        }
        Ok(())
    }

    // Adds what can stand instead of the token, and that it is left out.
    fn put_instead(&mut self) -> Result<(), AllocError> {
        let (spot, number) = (self.spot, self.spot.number);
        let next = spot.after_marks(number);
        let is_last = spot.is_strange(number) && spot.begins_line(next);
        let is_value = is_last && matches!(spot.expected, Expected::Expression | Expected::Number);
        let is_twice = spot.word(number) == spot.word(before(number, 1));
        if !is_value && (is_twice || !spot.is_operand_behind()) {
            self.put(number, next, &[])?;
        }
        let instead = spot.instead();
        if !instead.is_empty() {
            self.put(number, next, &[instead])?;
        }
        if spot.expects(Token::Finish) && spot.has(next, Token::Equals) {
            self.put(number, after(next, 1), &[b"finish"])?;
        }
        if spot.begins_comment() {
            self.put(number, next, &[b"#"])?;
        }
        Ok(())
    }

    // Adds the words that a word can be: two words, or an operation and its first operand.
    fn put_parted(&mut self) -> Result<(), AllocError> {
        let (spot, number) = (self.spot, self.spot.number);
        let (word, next) = (spot.word(number), after(number, 1));
        if !spot.is_strange(number) || word.len() > LONGEST_PART {
            return Ok(());
        }
        for len in 1..word.len() {
            let (front, back) = (part(word, 0, len), part(word, len, word.len()));
            if is_known(front) && is_known(back) {
                self.put(number, next, &[front, b" ", back])?;
                self.put(number, next, &[front, b"(", back])?;
            }
        }
        Ok(())
    }

    // Adds the operation of three letters with a name alike, instead of a word before a bracket.
    fn put_alike(&mut self) -> Result<(), AllocError> {
        let (spot, number) = (self.spot, self.spot.number);
        let (word, next) = (spot.word(number), after(number, 1));
        if !spot.is_strange(number) || !spot.has(next, Token::Open) {
            return Ok(());
        }
        for name in "not and xor shl shr add sub min max ldb bit".split(' ') {
            if is_alike(word, name.as_bytes()) {
                return self.put(number, next, &[name.as_bytes()]);
            }
        }
        Ok(())
    }

    // Adds that the operands before the token are those of one more operation of the same name.
    fn put_joined(&mut self) -> Result<(), AllocError> {
        let (spot, number) = (self.spot, self.spot.number);
        let Some(operation) = spot.open_operation(number) else {
            return Ok(());
        };
        let (first, name) = (after(operation, 2), spot.word(operation));
        if is_one_of("and or xor add min max", name) {
            let operands = spot.words(first, number);
            self.put(first, number, &[name, b"(", operands, b")"])?;
        }
        Ok(())
    }

    // Adds that a line is left out, or that it is exchanged with the next one.
    fn put_line(&mut self) -> Result<(), AllocError> {
        let (text, from) = (self.spot.text, self.spot.span(self.spot.number).0);
        let line = before(from, last_line_len(part(text, 0, from)));
        let end = after(from, first_line_len(part(text, from, text.len())));
        if before(end, line) > LONGEST_PART {
            return Ok(());
        }
        let stop = after(end, 1);
        let next = after(stop, first_line_len(part(text, stop, text.len())));
        let lines = [part(text, stop, next), b"\n", part(text, line, end)];
        let alloc = self.spot.alloc;
        self.all.push(edit_of(alloc, line, next, &lines)?)?;
        self.all.push(edit_of(alloc, line, end, &[])?)?;
        Ok(())
    }

    // Adds other numbers of rounds and of registers in the header.
    fn put_counts(&mut self) -> Result<(), AllocError> {
        let spot = self.spot;
        if spot.number < 7 {
            return Ok(());
        }
        let rounds = spot.count(Token::Round);
        self.put(0, 2, &[b"rounds ", part(DIGITS, rounds, after(rounds, 1))])?;
        let count = match (spot.expected, spot.token(spot.number)) {
            (This(Token::Register(register)), _) => register as usize,
            (_, Some(Token::Register(register))) => after(register as usize, 1),
            _ => return Ok(()),
        };
        self.put(4, 6, &[b"registers ", part(DIGITS, count, after(count, 1))])
    }

    // Adds all edits. Of two that help as much the earlier one is told.
    pub(crate) fn put_all(&mut self) -> Result<(), AllocError> {
        let number = self.spot.number;
        self.put_missing()?;
        self.put_forms(before(number, 3), thousands())?;
        self.put_forms(number, tried())?;
        self.put_instead()?;
        self.put_forms(before(number, 1), earlier())?;
        self.put_parted()?;
        self.put_alike()?;
        self.put_joined()?;
        self.put_line()?;
        self.put_counts()
    }
}
