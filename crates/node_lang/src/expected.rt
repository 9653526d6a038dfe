//! What can follow a part of a program text.
use crate::token::Token;

/// What can follow the tokens before an offset of a program text.
#[derive(Clone, Copy, PartialEq, Eq)]
pub enum Expected {
    /// This token alone.
    This(Token),
    /// Any number.
    Number,
    /// A number, a register, `id`, `L`, `R` or the name of an operation.
    Expression,
    /// The end of the text.
    End,
}
