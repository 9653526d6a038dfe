//! The bytes of words and numbers, and the words of operations.
ghost use Rattle.std.specs.Prelude.{◌≡◌, ◌^◌, ◌<◌, length};
ghost use Rattle.std.specs.List.{list_all};
ghost use Rattle.std.specs.Option.{SomeIff};
ghost use Rattle.node_program.specs.Term.{term_of};
ghost use Rattle.node_lang.specs.Printed.{operation_name as name_of};
ghost use Rattle.node_lang.specs.Words.{is_blank as blank, is_digit as digit, is_word_byte as word_byte};
ghost use Rattle.node_lang.specs.Words.{mark_token as mark, register_named, named, keywords, operations, read_on};
ghost use Rattle.node_lang.specs.Words.{token_in, word_token};

use crate::token::Token;
use node_program::{BinOp, Expr, UnOp};

pub(crate) fn is_blank(byte: u8) -> bool
    ensures { result ≡ blank byte }
{
    matches!(byte, b'\n' | b'\t' | b'\r' | b' ')
}

/// Returns whether this byte can stand in a word: an ASCII letter or digit.
pub fn is_word_byte(byte: u8) -> bool
    ensures { result ≡ word_byte byte }
{
    matches!(byte, b'0'..=b'9' | b'A'..=b'Z' | b'a'..=b'z')
}

fn is_digit(byte: u8) -> bool
    ensures { result ≡ digit byte }
{
    matches!(byte, b'0'..=b'9')
}

fn is_number(word: &[u8]) -> bool
    ensures { result ≡ list_all digit word.now }
{
    word.iter().all(|byte| is_digit(*byte))
}

// The other words, and their tokens.
const KEYWORDS: [(&str, Token); 12] = [
    ("rounds", Token::Rounds),
    ("channels", Token::Channels),
    ("registers", Token::Registers),
    ("start", Token::Start),
    ("round", Token::Round),
    ("send", Token::Send),
    ("left", Token::Left),
    ("right", Token::Right),
    ("finish", Token::Finish),
    ("id", Token::Id),
    ("L", Token::FromLeft),
    ("R", Token::FromRight),
];

// Returns the token of a word by the row that has it.
fn token_in(rows: &[(&str, Token)], word: &[u8]) -> Option<Token>
    ensures { result ≡ token_in rows.now word.now }
{
    'rows: for row in rows {
        if word == row.0.as_bytes() {
            return Some(row.1);
        }
    }
    None
}

// The token of each operation's name, one line each.
macro_rules! tokens {
    (
        $word:expr;
        one { $($one:ident => $one_name:literal,)* }
        two { $($two:ident => $two_name:literal,)* }
        choose => $choose_name:literal
    ) => {
        match $word {
            $($one_name => Some(Token::One(UnOp::$one)),)*
            $($two_name => Some(Token::Two(BinOp::$two)),)*
            $choose_name => Some(Token::If),
            _ => None,
        }
    };
}

// Returns the token of the operation with this name.
fn operation(word: &[u8]) -> Option<Token>
    ensures { result ≡ named operations word.now }
{
    tokens! { word;
        one {
            Not => b"not",
        }
        two {
            And => b"and",
            Or => b"or",
            Xor => b"xor",
            Shl => b"shl",
            Shr => b"shr",
            Add => b"add",
            Sub => b"sub",
            Min => b"min",
            Max => b"max",
            Ldb => b"ldb",
            Bit => b"bit",
            Eq => b"eq",
            Ne => b"ne",
            Lt => b"lt",
            Le => b"le",
        }
        choose => b"if"
    }
}

// Returns the token of any other fixed word.
fn keyword(word: &[u8]) -> Option<Token>
    ensures { result ≡ named keywords word.now }
{
    token_in(&KEYWORDS, word)
}

// The name of each operation, one line each.
macro_rules! names {
    (
        $expression:expr;
        one { $($one:ident => $one_name:literal,)* }
        two { $($two:ident => $two_name:literal,)* }
        choose => $choose_name:literal
    ) => {
        match $expression {
            Expr::One(op, _) => match op {
                $(UnOp::$one => $one_name,)*
            },
            Expr::Two(op, _, _) => match op {
                $(BinOp::$two => $two_name,)*
            },
            Expr::Choose(_, _, _) => $choose_name,
            _ => "",
        }
    };
}

// Returns the name of the expression's operation, or an empty string if it has none.
pub(crate) fn operation_name(expression: &Expr) -> &'static str
    ensures { result.now ≡ name_of (term_of expression.now) }
{
    names! { expression;
        one {
            Not => "not",
        }
        two {
            And => "and",
            Or => "or",
            Xor => "xor",
            Shl => "shl",
            Shr => "shr",
            Add => "add",
            Sub => "sub",
            Min => "min",
            Max => "max",
            Ldb => "ldb",
            Bit => "bit",
            Eq => "eq",
            Ne => "ne",
            Lt => "lt",
            Le => "le",
        }
        choose => "if"
    }
}

// Returns a register: `r` and one digit.
fn register(word: &[u8]) -> Option<Token>
    ensures { result ≡ register_named word.now }
{
    match word {
        [b'r', number] if is_digit(*number) => Some(Token::Register(u32::from(*number - b'0'))),
        _ => None,
    }
}

// Returns the value of a decimal number, or `None` if it is 2^32 or more.
#[tactic(auto, using(crate::proofs::Numbers::read_more, crate::proofs::Numbers::too_large, crate::proofs::Numbers::all_read))]
fn number(digits: &[u8]) -> Option<u32>
    ensures { SomeIff result (read_on 0 digits.now < 2 ^ 32) (read_on 0 digits.now) }
{
    let mut number = 0u32;
    'digits: for byte in digits {
        let digit = u64::from(byte.saturating_sub(b'0'));
        let grown = 10 * u64::from(number) + digit;
        if grown > u64::from(u32::MAX) {
            return None;
        }
        number = grown as u32;
    }
    Some(number)
}

#[tactic(auto, unfolding(crate::specs::Words::word_token))]
pub(crate) fn token_of(word: &[u8]) -> Token
    ensures { result ≡ word_token word.now }
{
    if is_number(word) {
        return number(word).map_or(Token::LargeNumber, Token::Number);
    }
    register(word)
        .or_else(|| keyword(word))
        .or_else(|| operation(word))
        .unwrap_or(Token::Unknown)
}

// Returns the token of a byte that is neither blank nor part of a word.
pub(crate) fn mark_token(byte: u8) -> Token
    ensures { result ≡ mark byte }
{
    match byte {
        b'(' => Token::Open,
        b')' => Token::Close,
        b',' => Token::Comma,
        b'=' => Token::Equals,
        _ => Token::Unknown,
    }
}
