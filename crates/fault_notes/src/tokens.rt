//! The tokens of a text by their numbers, and the operands among them.

use node_lang::{Expected, Spanned, Token, is_word_byte, token_from};
use source_text::is_one_of;
use std::alloc::{AllocError, Global};

// Returns the tokens of a text.
pub(crate) fn tokens_in(alloc: Global, text: &[u8]) -> Result<Vec<Spanned>, AllocError> {
    let mut all = Vec::new(alloc);
    let mut at = 0;
    'tokens: while let Some(spanned) = token_from(text, at) {
        all.push(spanned)?;
        at = spanned.end;
    }
    Ok(all)
}

// Returns the part of a text between two offsets, an empty one if there is none.
pub(crate) fn part(text: &[u8], from: usize, to: usize) -> &[u8] {
    if from <= to && to <= text.len() {
        return &text[from..to];
    }
    &text[..0]
}

// Returns the number of the token so many before this one, or one that no token has.
pub(crate) fn before(number: usize, count: usize) -> usize {
    if number < count {
        return usize::MAX;
    }
    number - count
}

// Returns the number of the token so many after this one.
pub(crate) fn after(number: usize, count: usize) -> usize {
    number.saturating_add(count)
}

// Returns whether bytes are one word or mark of the language.
pub(crate) fn is_known(bytes: &[u8]) -> bool {
    match token_from(bytes, 0) {
        Some(spanned) => spanned.end == bytes.len() && spanned.token != Token::Unknown,
        None => false,
    }
}

// A text with its tokens, and the number of the token at which it cannot go on, with what is expected there. A
// number that no token has stands for the end of the text.
#[derive(Clone, Copy)]
pub(crate) struct Spot<'a> {
    pub(crate) alloc: Global,
    pub(crate) text: &'a [u8],
    pub(crate) all: &'a [Spanned],
    pub(crate) number: usize,
    pub(crate) expected: Expected,
}

impl<'a> Spot<'a> {
    // Returns a token.
    pub(crate) fn token(self, number: usize) -> Option<Token> {
        match self.all.get(number) {
            Some(spanned) => Some(spanned.token),
            None => None,
        }
    }

    // Returns whether a token is this one.
    pub(crate) fn has(self, number: usize, token: Token) -> bool {
        self.token(number) == Some(token)
    }

    // Returns whether this token is expected.
    pub(crate) fn expects(self, token: Token) -> bool {
        self.expected == Expected::This(token)
    }

    // Returns where a token begins and where it ends.
    pub(crate) fn span(self, number: usize) -> (usize, usize) {
        match self.all.get(number) {
            Some(spanned) => (spanned.start, spanned.end),
            None => (self.text.len(), self.text.len()),
        }
    }

    // Returns the bytes of a token, an empty text if there is none.
    pub(crate) fn word(self, number: usize) -> &'a [u8] {
        let (start, end) = self.span(number);
        part(self.text, start, end)
    }

    // Returns the text of the tokens from one up to another.
    pub(crate) fn words(self, from: usize, to: usize) -> &'a [u8] {
        part(self.text, self.span(from).0, self.span(before(to, 1)).1)
    }

    // Returns what stands between a token and the one before it.
    pub(crate) fn gap(self, number: usize) -> &'a [u8] {
        let from = self.span(before(number, 1)).1;
        part(self.text, from, self.span(number).0)
    }

    // Returns whether a token begins a line.
    pub(crate) fn begins_line(self, number: usize) -> bool {
        number == 0 || self.gap(number).contains(&b'\n')
    }

    // Returns whether a token stands before another one.
    pub(crate) fn has_before(self, number: usize, token: Option<Token>) -> bool {
        for at in 0..number.min(self.all.len()) {
            if self.token(at) == token {
                return true;
            }
        }
        false
    }

    // Returns this text at its first token at or after an offset.
    pub(crate) fn new(
        alloc: Global,
        text: &'a [u8],
        all: &'a [Spanned],
        offset: usize,
        expected: Expected,
    ) -> Self {
        let mut number = all.len();
        for (at, spanned) in all.iter().enumerate() {
            if spanned.start >= offset {
                number = at;
                break;
            }
        }
        Spot {
            alloc,
            text,
            all,
            number,
            expected,
        }
    }

    // Returns whether a token is a mark other than `(`, `)` and `,`.
    pub(crate) fn is_mark(self, number: usize) -> bool {
        match self.word(number) {
            [byte] => !is_word_byte(*byte) && !b"(),".contains(byte),
            _ => false,
        }
    }

    // Returns whether a token is a word that is not of the language.
    pub(crate) fn is_strange(self, number: usize) -> bool {
        self.has(number, Token::Unknown) && !self.is_mark(number)
    }

    // Returns the number of the first token after the marks that begin here and touch one another, or
    // after this token if it is no mark.
    pub(crate) fn after_marks(self, number: usize) -> usize {
        if !self.is_mark(number) {
            return after(number, 1);
        }
        for next in after(number, 1)..self.all.len() {
            if !self.is_mark(next) || self.span(next).0 != self.span(before(next, 1)).1 {
                return next;
            }
        }
        self.all.len()
    }

    // Returns the marks that begin here, or the token if it is no mark.
    pub(crate) fn marks(self, number: usize) -> &'a [u8] {
        self.words(number, self.after_marks(number))
    }

    // Returns whether a token is a word that can stand before operands in brackets.
    fn names_operation(self, number: usize) -> bool {
        use Token::{If, One, Two};
        self.is_strange(number) || matches!(self.token(number), Some(One(_) | Two(_) | If))
    }

    // Returns whether an operand can begin with a token.
    pub(crate) fn begins_operand(self, number: usize) -> bool {
        self.names_operation(number)
            || !self.has(number, Token::Close) && self.ends_operand(number)
            || is_one_of("( !", self.word(number))
    }

    // Returns whether an operand can end with a token.
    pub(crate) fn ends_operand(self, number: usize) -> bool {
        use Token::{Close, FromLeft, FromRight, Id, Number, Register};
        matches!(
            self.token(number),
            Some(Number(_) | Register(_) | Id | FromLeft | FromRight | Close)
        ) || self.is_strange(number)
    }

    // Returns the number of the first token after the operand that begins here.
    pub(crate) fn operand_end(self, number: usize) -> usize {
        let mut depth = 0usize;
        for at in number..self.all.len() {
            match self.token(at) {
                Some(Token::Open) => depth = after(depth, 1),
                Some(Token::Close) => depth = depth.saturating_sub(1),
                _ => {}
            }
            if depth == 0 && !self.has(after(at, 1), Token::Open) {
                return after(at, 1);
            }
        }
        self.all.len()
    }

    // Returns the number of the bracket that is open before a token.
    fn open_bracket(self, number: usize) -> Option<usize> {
        let mut depth = 0usize;
        for count in 1..after(self.all.len(), 1) {
            let at = before(number, count);
            match self.token(at)? {
                Token::Close => depth = after(depth, 1),
                Token::Open if depth == 0 => return Some(at),
                Token::Open => depth = depth.saturating_sub(1),
                _ => {}
            }
        }
        None
    }

    // Returns the number of the operation whose bracket is open before a token.
    pub(crate) fn open_operation(self, number: usize) -> Option<usize> {
        Some(before(self.open_bracket(number)?, 1))
    }

    // Returns the number of the token with which the operand begins that ends before this token.
    pub(crate) fn operand_start(self, number: usize) -> Option<usize> {
        let last = before(number, 1);
        if !self.has(last, Token::Close) {
            return if self.ends_operand(last) {
                Some(last)
            } else {
                None
            };
        }
        let bracket = self.open_bracket(last)?;
        let name = before(bracket, 1);
        let is_named = self.names_operation(name);
        Some(if is_named { name } else { bracket })
    }
}
