//! Tokens.
use node_program::{BinOp, UnOp};

/// A token of a program text, or an error in the place of one.
#[derive(Clone, Copy, PartialEq, Eq)]
pub enum Token {
    Number(u32),
    Register(u32),
    One(UnOp),
    Two(BinOp),
    If,
    Rounds,
    Channels,
    Registers,
    Start,
    Round,
    Send,
    Left,
    Right,
    Finish,
    Id,
    FromLeft,
    FromRight,
    Open,
    Close,
    Comma,
    Equals,
    /// A number over 4,294,967,295.
    LargeNumber,
    /// A byte or a word that is not a token.
    Unknown,
}
