//! Numbers and literals in words.
ghost use Rattle.std.specs.Prelude.{◌≡◌, ◌==◌, ℕ, List, Option};
ghost use Rattle.std.specs.List.{list_all};
ghost use Rattle.table_formula.specs.Words as spelled;

use crate::literal::Literal;
use numerals::decimal_value;

/// An item of a list, which a word spells.
pub(crate) trait Spelled: Copy {
    /// The item that a word spells, if it spells one.
    ghost item_in: { List ℕ → Option Self };

    /// Returns the item that a word spells.
    fn of_word(word: &[u8]) -> Option<Self>
        ensures { result ≡ item_in word.now };
}

impl Spelled for u64 {
    ghost item_in = { spelled.number_in };

    fn of_word(word: &[u8]) -> Option<u64> {
        number_in(word)
    }
}

impl Spelled for Literal {
    ghost item_in = { spelled.literal_in };

    fn of_word(word: &[u8]) -> Option<Literal> {
        literal_in(word)
    }
}

/// Returns the number that a word spells in decimal digits.
pub(crate) fn number_in(word: &[u8]) -> Option<u64>
    ensures { result ≡ spelled.number_in word.now }
{
    decimal_value(word)
}

// Returns the literal that a word spells: a number, with a minus in front for a negation.
fn literal_in(word: &[u8]) -> Option<Literal>
    ensures { result ≡ spelled.literal_in word.now }
{
    match word {
        [b'-', digits @ ..] => literal_of(false, number_in(digits)),
        _ => literal_of(true, number_in(word)),
    }
}

// Returns the literal with this number and this sign.
fn literal_of(is_positive: bool, number: Option<u64>) -> Option<Literal>
    ensures { result ≡ spelled.literal_of is_positive number }
{
    let number = number?;
    if number < 1 || number > 1 << 31 {
        return None;
    }
    Some(Literal::new((number - 1) as u32, is_positive))
}

/// Returns whether a word ends a list: it is digits 0.
pub(crate) fn is_end(word: &[u8]) -> bool
    ensures { result ≡ spelled.is_end word.now }
{
    !word.is_empty() && are_zeros(word)
}

// Returns whether all bytes are digits 0.
fn are_zeros(word: &[u8]) -> bool
    ensures { result ≡ list_all (λ byte. byte == 48) word.now }
{
    for byte in word {
        if *byte != b'0' {
            return false;
        }
    }
    true
}
