//! Numbers at the start of a text.

ghost use Rattle.std.specs.Prelude.{◌≡◌, ◌<◌, ◌^◌, ℕ, List, All, length, IfSome, IfNone};
ghost use Rattle.table_text.specs.TableText.{ids_then};

use numerals::number_before;

// Fills `numbers` with the numbers at the start of a text, each followed by a blank, and returns
// the text after them.
pub(crate) fn numbers_in<'a>(text: &'a [u8], numbers: &mut [u32]) -> Option<&'a [u8]>
    ensures numbers { IfSome result (λ rest. text.entry.now ≡ ids_then numbers.new rest.now) }
    ensures fit { IfSome result (λ _. All (λ number. number < 2 ^ 32) numbers.new) }
    ensures none { IfNone result ((ids : List ℕ) (rest : List ℕ) → length ids ≡ length numbers.old
        → All (λ id. id < 2 ^ 32) ids → text.entry.now ≡ ids_then ids rest → ⊥) }
{
    let mut rest = text;
    'numbers: for number in numbers.iter_mut() {
        let (value, after) = number_before(rest, b' ')?;
        *number = value;
        rest = after;
    }
    Some(rest)
}
