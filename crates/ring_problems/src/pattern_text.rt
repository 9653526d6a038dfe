//! The texts of patterns.
ghost use Rattle.std.specs.Prelude.{◌≡◌, ◌++◌, IfOk, OnOk, string_bytes};
ghost use Rattle.ring_problems.specs.PatternTexts.{entry_text, pattern_text, patterns_text, span};

use crate::pattern::{Entry, Pattern};
use std::alloc::{AllocError, Global};
use std::fmt::Write;

/// Returns the texts of patterns, each after a blank: the entries up to the last one that asks for a
/// channel, separated by commas, a channel in decimal and any channel as `*`. Fails if memory was
/// refused.
pub fn patterns_text(alloc: Global, patterns: &[Pattern]) -> Result<String, AllocError>
    ensures { IfOk result (λ text. string_bytes text ≡ patterns_text patterns.now) }
{
    let mut text = String::new(alloc);
    for pattern in patterns {
        text.push_str(" ")?;
        write_pattern(&mut text, *pattern)?;
    }
    Ok(text)
}

// Appends the text of a pattern.
fn write_pattern(text: &mut String, pattern: Pattern) -> Result<(), AllocError>
    ensures { OnOk result (string_bytes text.new ≡ string_bytes text.old ++ pattern_text pattern) }
{
    let span = pattern.span();
    write_entry(text, pattern.first)?;
    if span > 1 {
        text.push_str(",")?;
        write_entry(text, pattern.second)?;
    }
    if span > 2 {
        text.push_str(",")?;
        write_entry(text, pattern.third)?;
    }
    Ok(())
}

// Appends the text of an entry.
fn write_entry(text: &mut String, entry: Entry) -> Result<(), AllocError>
    ensures { OnOk result (string_bytes text.new ≡ string_bytes text.old ++ entry_text entry) }
{
    match entry {
        Entry::Wildcard => text.push_str("*"),
        Entry::Channel(channel) => write!(text, "{channel}"),
    }
}
