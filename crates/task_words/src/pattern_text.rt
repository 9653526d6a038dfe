//! Pattern texts: one to three entries separated by single commas.

ghost use Rattle.std.specs.Prelude.{◌≡◌, ◌↔◌, None, Some, map, IsOk, IfOk, IfErr, OnOk};
ghost use Rattle.std.specs.Char.{is_ascii_digit};
ghost use Rattle.std.specs.List.{list_all};
ghost use Rattle.task_words.specs.PatternText.{IsPatternText, entry_at, entry_fault, entry_in, fault_at, has_blank};
ghost use Rattle.task_words.specs.PatternText.{is_numeral, parts_fault, pattern_fault, pattern_in};
ghost use Rattle.task_words.specs.PatternText.{pattern_of_parts, word_fault};
ghost use Rattle.task_words.specs.WordsFault.{IsPatternRefusal, MemoryAside};

use crate::demand_fault::{DemandFault, PatternFault};
use crate::ring_text::{number_of, parts};
use crate::words::WordsFault;
use ring_problems::{Entry, Pattern};
use std::alloc::{AllocError, Global};

/// Returns the pattern of a pattern text. A pattern text is one to three entries, separated by single
/// commas. Each is `*`, for any channel, or a channel as a sequence of decimal digits, with leading
/// zeros allowed and a value of at most 4294967295. A pattern has wildcards for entries that the text
/// lacks.
///
/// Fails with `BadDemand` and the cause if the text is not a pattern text, and with `OutOfMemory` if
/// memory was refused.
pub fn pattern_of(alloc: Global, text: &str) -> Result<Pattern, WordsFault>
    ensures pattern { IfOk result (λ pattern. IsPatternText text.now × (pattern ≡ pattern_in text.now)) }
    ensures ok { MemoryAside result (IsOk result ↔ IsPatternText text.now) }
    ensures good { OnOk result (pattern_fault text.now ≡ None) }
    ensures refused { IfErr result (IsPatternRefusal (pattern_fault text.now)) }
{
    let parts = parts(alloc, text)?;
    match pattern_of_parts(&parts) {
        Ok(pattern) => Ok(pattern),
        Err(cause) => Err(WordsFault::BadDemand(DemandFault::BadPattern(cause))),
    }
}

// Returns why a text is not a pattern text, or `None` if it is one. Fails if memory was refused.
pub(crate) fn pattern_fault(alloc: Global, text: &str) -> Result<Option<PatternFault>, AllocError>
    ensures { IfOk result (λ cause. cause ≡ pattern_fault text.now) }
{
    let parts = parts(alloc, text)?;
    match pattern_of_parts(&parts) {
        Ok(_) => Ok(None),
        Err(cause) => Ok(Some(cause)),
    }
}

// Returns the pattern of these parts. Fails if they are not one to three entries.
fn pattern_of_parts(parts: &[&str]) -> Result<Pattern, PatternFault>
    ensures pattern { IfOk result (λ pattern. pattern ≡ pattern_of_parts (map (λ part. part.now) parts.now)) }
    ensures good { OnOk result (parts_fault (map (λ part. part.now) parts.now) ≡ None) }
    ensures bad { IfErr result (λ cause. parts_fault (map (λ part. part.now) parts.now) ≡ Some cause) }
{
    if parts.len() > 3 {
        return Err(PatternFault::ManyEntries);
    }
    let first = entry_at(parts, 0)?;
    let second = entry_at(parts, 1)?;
    let third = entry_at(parts, 2)?;
    Ok(Pattern {
        first,
        second,
        third,
    })
}

// Returns the entry of the part with this index, and a wildcard if there is no such part. Fails if the
// part is not an entry.
fn entry_at(parts: &[&str], index: usize) -> Result<Entry, PatternFault>
    ensures entry { IfOk result (λ entry. entry ≡ entry_at (map (λ part. part.now) parts.now) index) }
    ensures good { OnOk result (fault_at (map (λ part. part.now) parts.now) index ≡ None) }
    ensures bad { IfErr result (λ cause. fault_at (map (λ part. part.now) parts.now) index ≡ Some cause) }
{
    match parts.get(index) {
        Some(part) => entry_of(part),
        None => Ok(Entry::Wildcard),
    }
}

// Returns the entry of a part. Fails if it is neither `*` nor a number.
fn entry_of(part: &str) -> Result<Entry, PatternFault>
    ensures entry { IfOk result (λ entry. entry ≡ entry_in part.now) }
    ensures good { OnOk result (entry_fault part.now ≡ None) }
    ensures bad { IfErr result (λ cause. entry_fault part.now ≡ Some cause) }
{
    if part == "*" {
        return Ok(Entry::Wildcard);
    }
    if !is_numeral(part) {
        return Err(word_fault(part));
    }
    match number_of(part) {
        Some(channel) => Ok(Entry::Channel(channel)),
        None => Err(PatternFault::LargeChannel),
    }
}

// Returns why a part that is neither `*` nor decimal digits is no entry.
fn word_fault(part: &str) -> PatternFault
    ensures { result ≡ word_fault part.now }
{
    if part.is_empty() {
        PatternFault::NoEntry
    } else if has_blank(part) {
        PatternFault::Blank
    } else {
        PatternFault::NoChannel
    }
}

// Returns whether a text is one or more decimal digits.
fn is_numeral(text: &str) -> bool
    ensures { result ≡ is_numeral text.now }
{
    text.len() > 0 && are_digits(text)
}

// Returns whether each byte of a text is a decimal digit.
pub(crate) fn are_digits(text: &str) -> bool
    ensures { result ≡ list_all is_ascii_digit text.now }
{
    text.bytes().all(|byte| byte.is_ascii_digit())
}

// Returns whether a text has a blank.
fn has_blank(text: &str) -> bool
    ensures { result ≡ has_blank text.now }
{
    text.bytes().any(|byte| byte == b' ')
}
