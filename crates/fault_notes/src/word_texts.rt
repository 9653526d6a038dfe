//! The texts of notes for the word at an offset, and for what can follow there.

ghost use Rattle.std.specs.Prelude.{◌≡◌, ◌++◌, OnOk, string_bytes};
ghost use Rattle.fault_notes.specs.Words.{spelled, wanted_text, wanted_part, first_word as first};

use node_lang::{Expected, Token, word_len};
use source_text::first_of;
use std::alloc::AllocError;
use std::fmt::Write;

// Returns the word at the start of a text, or its first byte if it does not begin with a word.
pub(crate) fn first_word(text: &[u8]) -> &[u8]
    ensures { result.now ≡ first text.entry.now }
{
    let len = word_len(text);
    if len == 0 {
        return first_of(text, 1);
    }
    first_of(text, len)
}

// Returns the text for a word or a mark that can follow.
pub(crate) fn token_text(token: Token) -> &'static str
    ensures { result.now ≡ spelled token }
{
    match token {
        Token::Rounds => "`rounds`",
        Token::Channels => "`channels`",
        Token::Registers => "`registers`",
        Token::Start => "`start`",
        Token::Round => "`round`",
        Token::Send => "`send`",
        Token::Left => "`left`",
        Token::Right => "`right`",
        Token::Finish => "`finish`",
        Token::Open => "`(`",
        Token::Close => "`)`",
        Token::Comma => "`,`",
        Token::Equals => "`=`",
        _ => "",
    }
}

// Writes the text for what can follow.
fn write_wanted(out: &mut String, wanted: Expected) -> Result<(), AllocError>
    ensures { OnOk result (string_bytes out.new ≡ string_bytes out.old ++ wanted_text wanted) }
{
    match wanted {
        Expected::This(Token::Register(register)) => write!(out, "the assignment of r{register}"),
        Expected::This(token) => out.push_str(token_text(token)),
        Expected::Number => out.push_str("a number"),
        Expected::Expression => out.push_str("an expression"),
        Expected::End => out.push_str("the end of the text"),
    }
}

// Writes the part of a note for what can follow, if it is known.
pub(crate) fn write_wanted_part(
    out: &mut String,
    wanted: Option<Expected>,
) -> Result<(), AllocError>
    ensures { OnOk result (string_bytes out.new ≡ string_bytes out.old ++ wanted_part wanted) }
{
    let Some(wanted) = wanted else {
        return Ok(());
    };
    out.push_str("; expected ")?;
    write_wanted(out, wanted)
}
