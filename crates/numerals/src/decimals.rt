//! Numbers at the start of a text.

ghost use Rattle.std.specs.Prelude.{◌≡◌, ◌==◌, ◌<◌, ◌&&◌, ◌^◌, ℕ, List, ◌∷◌, ◌++◌, nat_lt, length, slice_index};
ghost use Rattle.std.specs.Prelude.{MatchOption, IfSome, IfNone};
ghost use Rattle.std.specs.Fmt.{decimal};
ghost use Rattle.std.specs.Option.{SomeIff};
ghost use Rattle.std.specs.Str.Parse.{IsNumeral, digits_value};
ghost use Rattle.numerals.specs.Bytes.{Lacks, IsFirstByte};

// Returns the index of the first byte of this value.
fn index_of(text: &[u8], end: u8) -> Option<usize>
    ensures { MatchOption result (Lacks end text.now) (λ index. IsFirstByte text.now index end) }
{
    text.iter().position(|byte| *byte == end)
}

// Returns the parts of a text before and after the first byte of this value.
fn cut_at(text: &[u8], end: u8) -> Option<(&[u8], &[u8])>
    ensures cut { IfSome result (λ parts. text.now ≡ parts.0.now ++ end ∷ parts.1.now) }
    ensures first { IfSome result (λ parts. Lacks end parts.0.now) }
    ensures none { IfNone result (Lacks end text.now) }
{
    let index = index_of(text, end)?;
    Some((&text[..index], &text[index + 1..]))
}

fn is_padded(word: &[u8]) -> bool
    ensures { result ≡ (nat_lt 1 (length word.now) && (slice_index word.now 0 == 48)) }
{
    word.len() > 1 && word[0] == b'0'
}

/// Returns the value of one or more decimal digits, which may begin with zeros. The answer is `None`
/// if the word has no digit or another byte, or if the value is 2^64 or more.
pub fn decimal_value(word: &[u8]) -> Option<u64>
    ensures { SomeIff result (IsNumeral 10 word.now × (digits_value 10 word.now < 2 ^ 64)) (digits_value 10 word.now) }
{
    let Ok(digits) = str::from_utf8(word) else {
        return None;
    };
    match word {
        [b'+', ..] => None,
        _ => digits.parse::<u64>().ok(),
    }
}

// Returns the number with these decimal digits: `0`, or digits that do not begin with 0.
fn number_of(word: &[u8]) -> Option<u32>
    ensures number { IfSome result (λ number. word.now ≡ decimal number) }
    ensures none { IfNone result ((number : ℕ) → number < 2 ^ 32 → word.now ≡ decimal number → ⊥) }
{
    if is_padded(word) {
        return None;
    }
    let Ok(number) = u32::try_from(decimal_value(word)?) else {
        return None;
    };
    Some(number)
}

/// Returns the number at the start of a text, before the byte `end`, and the text after that byte.
///
/// The number is below 2^32, in decimal without a sign and without leading zeros. The answer is
/// `None` if the text begins with no such number that is followed by `end`, which is below the
/// digits.
pub fn number_before(text: &[u8], end: u8) -> Option<(u32, &[u8])>
    requires { end < 48 }
    ensures number { IfSome result (λ read. text.now ≡ decimal read.0 ++ end ∷ read.1.now) }
    ensures fits { IfSome result (λ read. read.0 < 2 ^ 32) }
    ensures none { IfNone result ((number : ℕ) (rest : List ℕ) → number < 2 ^ 32
        → text.now ≡ decimal number ++ end ∷ rest → ⊥) }
{
    let (word, rest) = cut_at(text, end)?;
    let number = number_of(word)?;
    Some((number, rest))
}
