//! Numbers after their names.

ghost use Rattle.std.specs.Prelude.{◌≡◌, ◌≢◌, ◌<◌, ◌^◌, ℕ, List, ◌∷◌, ◌++◌, MatchOption, IfSome, IfNone};
ghost use Rattle.std.specs.Fmt.{decimal};

use crate::decimals::number_before;

/// Returns the text after this prefix, or `None` if the text does not begin with it.
pub fn after<'a>(text: &'a [u8], beginning: &[u8]) -> Option<&'a [u8]>
    ensures { MatchOption result ((rest : List ℕ) → text.entry.now ≢ beginning.now ++ rest)
        (λ rest. text.entry.now ≡ beginning.now ++ rest.now) }
{
    text.strip_prefix(beginning)
}

/// Returns the number between a name and the byte `end`, and the text after that byte.
///
/// The number is read as by `number_before`. The answer is `None` if the text does not begin with
/// the name, or no such number follows it.
pub fn field<'a>(text: &'a [u8], name: &[u8], end: u8) -> Option<(u32, &'a [u8])>
    requires { end < 48 }
    ensures field { IfSome result (λ read. text.entry.now ≡ name.now ++ (decimal read.0 ++ end ∷ read.1.now)) }
    ensures fits { IfSome result (λ read. read.0 < 2 ^ 32) }
    ensures none { IfNone result ((number : ℕ) (rest : List ℕ) → number < 2 ^ 32
        → text.entry.now ≡ name.now ++ (decimal number ++ end ∷ rest) → ⊥) }
{
    let number = after(text, name)?;
    number_before(number, end)
}
