//! Texts of the node language: parsing and printing, and the definitions of what a text reads as.
//! Programs as trees are in `node_program`.
#![tactic(auto)]

mod expected;
mod fault;
mod laws;
mod lexer;
mod limits;
mod parser;
mod printing;
mod text;
mod token;
mod word_tokens;

pub use expected::Expected;
pub use fault::{FaultKind, TextFault};
pub use laws::{first_fault, one_reading, one_text_fault, printed_is_read_back, reading_is_exact};
pub use lexer::{Spanned, token_from, word_len};
pub use limits::LONGEST_TEXT;
pub use node_program::{
    BinOp, Expr, MAX_CHANNELS, MAX_DEPTH, MAX_NODES, MAX_REGISTERS, MAX_ROUNDS, MAX_THREADS,
    OutOfMemory, Program, Round, UnOp,
};
pub use printing::{print, write_word};
pub use text::{expected_in, parse};
pub use token::Token;
pub use word_tokens::is_word_byte;
