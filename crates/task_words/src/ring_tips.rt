//! The tip on a text that is no ring text, and the values of an option among words.

ghost use Rattle.std.specs.Prelude.{◌≡◌, map, All, IfOk, IfSome, IfNone, option_map, string_bytes};
ghost use Rattle.source_text.specs.Shown.{escaped_bytes};
ghost use Rattle.task_words.specs.Decimal.{IsNumber};
ghost use Rattle.task_words.specs.OptionWords as values;
ghost use Rattle.task_words.specs.RingText.{IsRingText};
ghost use Rattle.task_words.specs.RingTips as texts;
ghost use Rattle.task_words.specs.RingTips.{IsFirstBad, IsRingTip};

use crate::ring_text::{number_of, parts};
use source_text::write_escaped;
use std::alloc::{AllocError, Global};

/// Returns a line that names the first part of a text that is not a number, or `None` if it is a ring
/// text. A byte of the part that is not printable ASCII is shown as `\x` and two hexadecimal digits.
/// Fails if memory was refused.
pub fn ring_tip(alloc: Global, text: &str) -> Result<Option<String>, AllocError>
    ensures tip { IfOk result (λ found. IfSome found (λ tip. IsRingTip text.now (string_bytes tip))) }
    ensures none { IfOk result (λ found. IfNone found (IsRingText text.now)) }
{
    let parts = parts(alloc, text)?;
    let Some((index, part)) = first_bad(&parts) else {
        return Ok(None);
    };
    let number = index + 1;
    Ok(Some(part_tip(alloc, number, part)?))
}

// Returns a text so that each of its bytes is seen.
pub(crate) fn seen(alloc: Global, part: &str) -> Result<String, AllocError>
    ensures { IfOk result (λ text. string_bytes text ≡ escaped_bytes part.now) }
{
    let mut text = String::new(alloc);
    write_escaped(&mut text, part.as_bytes())?;
    Ok(text)
}

// Returns the line on a part that is not a number; `number` is its place, counted from 1.
fn part_tip(alloc: Global, number: usize, part: &str) -> Result<String, AllocError>
    ensures { IfOk result (λ tip. string_bytes tip ≡ texts.part_tip number part.now) }
{
    let part = seen(alloc, part)?;
    format!(in alloc;
        "nbhd: part {number} of the ring text, `{part}`, is not a number from 0 to 4294967295; a ring is numbers with single commas, as 5,1,3,7"
    )
}

// Returns the first part that is not a number, with its index.
fn first_bad<'a>(parts: &[&'a str]) -> Option<(usize, &'a str)>
    ensures some { IfSome result (λ found. IsFirstBad (map (λ part. part.now) parts.now) found.0 found.1.now) }
    ensures none { IfNone result (All IsNumber (map (λ part. part.now) parts.now)) }
{
    'parts: for (index, part) in parts.iter().enumerate() {
        if number_of(part).is_none() {
            return Some((index, *part));
        }
    }
    None
}

/// Returns the first value of `--ring` among words: the word after it, or the rest of a word that
/// begins with `--ring=`.
pub fn ring_word(words: &[String]) -> Option<&str>
    ensures { option_map (λ word. word.now) result ≡ texts.ring_word (map string_bytes words.now) }
{
    let mut last = "";
    for word in words {
        let word = word.as_str();
        if let Some(text) = option_value("--ring", "--ring=", last, word) {
            return Some(text);
        }
        last = word;
    }
    None
}

// Returns the value of an option that a word is or has, by the word before it. `beginning` is the name
// of the option and `=`.
pub(crate) fn option_value<'a>(
    name: &str,
    beginning: &str,
    last: &str,
    word: &'a str,
) -> Option<&'a str>
    ensures { option_map (λ text. text.now) result ≡ values.option_value name.now beginning.now last.now word.now }
{
    if last == name {
        return Some(word);
    }
    word.strip_prefix(beginning)
}
