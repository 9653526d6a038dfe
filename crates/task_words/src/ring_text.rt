//! Ring texts: decimal numbers separated by single commas.

ghost use Rattle.std.specs.Prelude.{◌≡◌, ◌⊎◌, ◌↔◌, map, All, IsOk, IsErrOf, IfOk, IfErr};
ghost use Rattle.std.specs.Option.{SomeIff};
ghost use Rattle.task_words.specs.Decimal.{IsNumber, number_in};
ghost use Rattle.task_words.specs.RingText.{parts_of, IsRingText, ring_in};
ghost use Rattle.task_words.specs.WordsFault.{FailsBy, MemoryAside};

use crate::words::WordsFault;
use std::alloc::{AllocError, Global};

/// Returns the numbers of a ring text, in order. A ring text is one or more numbers, separated by
/// single commas. Each is a sequence of decimal digits, with leading zeros allowed, and has a value
/// of at most 4294967295.
///
/// Fails with `BadRing` if the text is not a ring text, and with `OutOfMemory` if memory was
/// refused.
pub fn ring_of(alloc: Global, text: &str) -> Result<Vec<u32>, WordsFault>
    ensures ring { IfOk result (λ ring. IsRingText text.now × (ring.items ≡ ring_in text.now)) }
    ensures ok { MemoryAside result (IsOk result ↔ IsRingText text.now) }
    ensures bad_ring { MemoryAside result (IsErrOf result WordsFault.BadRing ↔ (¬ IsRingText text.now)) }
    ensures faults { IfErr result (λ fault. (fault ≡ WordsFault.BadRing) ⊎ (fault ≡ WordsFault.OutOfMemory)) }
{
    let parts = parts(alloc, text)?;
    numbers(alloc, &parts)
}

// Splits a text at its commas.
pub(crate) fn parts(alloc: Global, text: &str) -> Result<Vec<&str>, AllocError>
    ensures { IfOk result (λ parts. map (λ part. part.now) parts.items ≡ parts_of text.now) }
{
    text.split(',').collect(alloc)
}

// Returns the values of the parts, in order. Fails with `BadRing` if a part is not a number.
fn numbers(alloc: Global, parts: &[&str]) -> Result<Vec<u32>, WordsFault>
    ensures numbers { IfOk result (λ numbers. All (λ part. IsNumber part.now) parts.now
        × (numbers.items ≡ map (λ part. number_in part.now) parts.now)) }
    ensures refused { FailsBy result (¬ (All (λ part. IsNumber part.now) parts.now)) }
{
    let mut numbers = Vec::with_capacity(alloc, parts.len())?;
    for part in parts {
        let Some(number) = number_of(part) else {
            return Err(WordsFault::BadRing);
        };
        numbers.push(number)?;
    }
    Ok(numbers)
}

// Returns the value of a text of one or more decimal digits, with leading zeros allowed. Returns
// `None` if the text has any other byte or no digit, or if its value is above 4294967295.
pub(crate) fn number_of(text: &str) -> Option<u32>
    ensures { SomeIff result (IsNumber text.now) (number_in text.now) }
{
    match text.as_bytes() {
        [b'+', ..] => None,
        _ => text.parse::<u32>().ok(),
    }
}
