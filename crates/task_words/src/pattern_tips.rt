//! The tip on words whose options are no demand.

ghost use Rattle.std.specs.Prelude.{◌≡◌, IfOk, map, option_map, string_bytes};
ghost use Rattle.task_words.specs.PatternTips as texts;

use crate::demand_fault::PatternFault;
use crate::pattern_text::pattern_fault;
use crate::ring_tips::{option_value, seen};
use std::alloc::{AllocError, Global};

/// Returns a line on the first value of `--forbid` among words that is not a pattern text, or `None` if
/// there is none. It shows the value and says what is wrong with it. A byte of the value that is not
/// printable ASCII is shown as `\x` and two hexadecimal digits. Fails if memory was refused.
pub fn pattern_tip(alloc: Global, words: &[String]) -> Result<Option<String>, AllocError>
    ensures { IfOk result (λ tip. option_map string_bytes tip ≡ texts.pattern_tip (map string_bytes words.now)) }
{
    let mut last = "";
    for word in words {
        let word = word.as_str();
        if let Some(tip) = word_tip(alloc, last, word)? {
            return Ok(Some(tip));
        }
        last = word;
    }
    Ok(None)
}

// Returns the line on the value of `--forbid` that a word is or has, by the word before it, if it is not
// a pattern text.
fn word_tip(alloc: Global, last: &str, word: &str) -> Result<Option<String>, AllocError>
    ensures { IfOk result (λ tip. option_map string_bytes tip ≡ texts.word_tip last.now word.now) }
{
    let Some(text) = option_value("--forbid", "--forbid=", last, word) else {
        return Ok(None);
    };
    match pattern_fault(alloc, text)? {
        Some(cause) => Ok(Some(text_line(alloc, text, cause)?)),
        None => Ok(None),
    }
}

// Returns the line on a text that is not a pattern text for this cause.
fn text_line(alloc: Global, text: &str, cause: PatternFault) -> Result<String, AllocError>
    ensures { IfOk result (λ tip. string_bytes tip ≡ texts.text_line text.now cause) }
{
    let text = seen(alloc, text)?;
    let cause = cause.text();
    format!(in alloc;
        "nbhd: `{text}` is no pattern: {cause}; a pattern is one to three channels, or `*` for any, with single commas, as 1,1 or '0,*,0'"
    )
}
