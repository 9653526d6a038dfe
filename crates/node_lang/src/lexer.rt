//! The tokens of a text, with their spans.
ghost use Rattle.std.specs.Prelude.{◌≡◌, ◌==◌, not, ◌+◌, ◌-◌, ◌<◌, ◌≤◌, [], ◌∷◌, length, slice_index, drop, false};
ghost use Rattle.std.specs.Prelude.{IfSome, IfNone};
ghost use Rattle.std.specs.List.{prefix_len};
ghost use Rattle.node_lang.specs.Words.{is_blank as blank, is_word_byte as word_byte};
ghost use Rattle.node_lang.specs.Lexemes.{lexemes_of, lexemes_from, token_len, BeginsWithToken};

use crate::token::Token;
use crate::word_tokens::{is_blank, is_word_byte, mark_token, token_of};

/// A token, with the offsets at which it starts and ends in its text.
#[derive(Clone, Copy)]
pub struct Spanned {
    pub token: Token,
    pub start: usize,
    pub end: usize,
}

/// Returns the length of the word at the start of the text, its letters and digits; 0 if there is none.
pub fn word_len(text: &[u8]) -> usize
    ensures value { result ≡ prefix_len word_byte text.now }
    ensures within { result ≤ length text.now }
{
    text.iter().take_while(|byte| is_word_byte(**byte)).count()
}

// Returns the number of bytes before the next line feed, or before the end.
fn line_len(text: &[u8]) -> usize
    ensures value { result ≡ prefix_len (λ b. not (b == 10)) text.now }
    ensures within { result ≤ length text.now }
{
    text.iter().take_while(|byte| **byte != b'\n').count()
}

// Returns the offset of the first token, after blanks and comments, or the text's length.
#[tactic(auto, using(crate::proofs::Spans::after_blank, crate::proofs::Spans::after_comment, std::proofs::lemmas::List::take_rest))]
fn token_start(text: &[u8]) -> usize
    ensures within { result ≤ length text.now }
    ensures same { lexemes_of (drop result text.now) ≡ lexemes_of text.now }
    ensures no_blank { result < length text.now → blank (slice_index text.now result) ≡ false }
    ensures no_comment { result < length text.now → slice_index text.now result ≡ 35 → ⊥ }
{
    let mut at = 0;
    'skips: while at < text.len() {
        let byte = text[at];
        if byte == b'#' {
            at += 1 + line_len(&text[at + 1..]);
        } else if is_blank(byte) {
            at += 1;
        } else {
            break;
        }
    }
    at
}

// Returns the token at the start of the text, and its length.
#[tactic(auto, using(crate::proofs::Spans::word_token_first, crate::proofs::Spans::mark_token_first))]
fn token_at(text: &[u8]) -> (Token, usize)
    requires { BeginsWithToken text.now }
    ensures token { lexemes_of text.now ≡ record { from = length text.now; token = result.0 }
        ∷ lexemes_of (drop result.1 text.now) }
    ensures len { result.1 ≡ token_len text.now }
    ensures within { result.1 ≤ length text.now }
{
    let len = word_len(text);
    if len == 0 {
        return (mark_token(text[0]), 1);
    }
    (token_of(&text[..len]), len)
}

// Returns the first token, or `None` if only blanks and comments are left.
#[tactic(auto, using(crate::proofs::Spans::all_skipped))]
fn first_token(text: &[u8]) -> Option<Spanned>
    ensures token { IfSome result (λ f. lexemes_of text.now
        ≡ record { from = length text.now - f.start; token = f.token } ∷ lexemes_of (drop f.end text.now)) }
    ensures end { IfSome result (λ f. f.end ≡ f.start + token_len (drop f.start text.now)) }
    ensures within { IfSome result (λ f. f.end ≤ length text.now) }
    ensures none { IfNone result (lexemes_of text.now ≡ []) }
{
    let start = token_start(text);
    if start == text.len() {
        return None;
    }
    let (token, len) = token_at(&text[start..]);
    Some(Spanned {
        token,
        start,
        end: start + len,
    })
}

/// Returns the first token of a text from the offset `at` on, or `None` if only blanks and comments
/// are left. A byte or a word that is not a token is `Token::Unknown`.
#[tactic(auto, using(crate::proofs::Spans::spanned_after, crate::proofs::Spans::none_after))]
pub fn token_from(text: &[u8], at: usize) -> Option<Spanned>
    requires { at ≤ length text.now }
    ensures token { IfSome result (λ f. lexemes_from text.now at
        ≡ record { from = length text.now - f.start; token = f.token } ∷ lexemes_from text.now f.end) }
    ensures span { IfSome result (λ f. (at ≤ f.start) × (f.start < f.end) × (f.end ≤ length text.now)) }
    ensures end { IfSome result (λ f. f.end ≡ f.start + token_len (drop f.start text.now)) }
    ensures none { IfNone result (lexemes_from text.now at ≡ []) }
{
    let spanned = first_token(&text[at..])?;
    Some(Spanned {
        token: spanned.token,
        start: at + spanned.start,
        end: at + spanned.end,
    })
}
