//! Advice on refused words: a fact, and corrected words.

ghost use Rattle.std.specs.List.{list_any};
ghost use Rattle.std.specs.Prelude.{◌≡◌, IfOk, IfSome, bytes_eq, is_ok, map, string_bytes, true};
ghost use Rattle.task_words.specs.Mended.{IsMended, IsRequest, is_command_name, is_of_command};

use crate::commands::{COMMANDS, CommandRow};
use crate::drafts::{Draft, Given, draft_of, is_list};
use crate::option_rows::{FAR, NEAR, OptionRow, Values};
use crate::other_names::{Meaning, option_in, write_fact};
use crate::pattern_text::are_digits;
use crate::request::Request;
use crate::words::{WordsFault, request_of};
use source_text::write_escaped;
use std::alloc::{AllocError, Global};
use std::fmt::Write;

/// Returns corrected words in place of refused ones, or `None` if none are found: words that request a
/// task, of the same command where the first word is the name of one. Fails if memory was refused.
pub fn mended_words(alloc: Global, words: &[String]) -> Result<Option<Vec<String>>, AllocError>
    ensures { IfOk result (λ found. IfSome found
        (λ mended. IsMended (map string_bytes words.now) (map string_bytes mended.items))) }
{
    let Some(mended) = meant_words(alloc, words)? else {
        return Ok(None);
    };
    if is_of_command(words, &mended) && is_request(alloc, &mended)? {
        return Ok(Some(mended));
    }
    Ok(None)
}

// Returns whether words request a task. Fails if memory was refused.
fn is_request(alloc: Global, words: &[String]) -> Result<bool, AllocError>
    ensures { IfOk result (λ is. is ≡ true → IsRequest (map string_bytes words.now)) }
{
    let parsed = request_of(alloc, words);
    is_parsed(&parsed)
}

// Returns whether words were parsed. Fails if memory was refused.
fn is_parsed(parsed: &Result<Request, WordsFault>) -> Result<bool, AllocError>
    ensures { IfOk result (λ is. is ≡ is_ok parsed.now) }
{
    match parsed {
        Ok(_) => Ok(true),
        Err(WordsFault::OutOfMemory) => Err(AllocError),
        Err(_) => Ok(false),
    }
}

// Returns whether the first of the mended words is that of the words, if that is the name of a command.
fn is_of_command(words: &[String], mended: &[String]) -> bool
    ensures { result ≡ is_of_command (map string_bytes words.now) (map string_bytes mended.now) }
{
    match (words, mended) {
        ([first, ..], [own, ..]) => !is_command_name(first.as_str()) || first == own,
        ([first, ..], []) => !is_command_name(first.as_str()),
        ([], _) => true,
    }
}

// Returns whether this is the name of a command.
fn is_command_name(name: &str) -> bool
    ensures { result ≡ is_command_name name.now }
{
    has_name(&COMMANDS, name)
}

// Returns whether one of the commands has this name.
fn has_name(rows: &[CommandRow], name: &str) -> bool
    ensures { result ≡ list_any (λ row. bytes_eq row.name.now name.now) rows.now }
{
    rows.iter().any(|row| row.name == name)
}

// Returns the words that were probably meant, if each word was understood, and if they are at most 40.
fn meant_words(alloc: Global, words: &[String]) -> Result<Option<Vec<String>>, AllocError> {
    let draft = draft_of(alloc, words)?;
    let mut meant = Vec::new(alloc);
    meant.push(String::from_str(alloc, draft.command.name)?)?;
    let mut is_whole = draft.is_whole;
    for given in &draft.given {
        if let Some(option) = option_given(&draft, given) {
            is_whole = push_given(&mut meant, &option, given.text.as_str().trim())? && is_whole;
        }
    }
    if is_whole && meant.len() <= 40 {
        return Ok(Some(meant));
    }
    Ok(None)
}

// Returns the option of the command that is given, if one is.
fn option_given(draft: &Draft, given: &Given) -> Option<OptionRow> {
    match given.meaning {
        Meaning::Option(name, _) => option_in(draft.command.options, name),
        _ => None,
    }
}

// Returns the numbers and wildcards of a text, with commas, or `None` if it has others or none.
fn list_in(alloc: Global, text: &str) -> Result<Option<String>, AllocError> {
    let mut list = String::new(alloc);
    if text.contains(',') && (text.contains(';') || text.contains('_')) {
        return Ok(None);
    }
    for part in text.split(is_separator) {
        let part = part.trim_end_matches('-');
        if part != "*" && !are_digits(part) {
            return Ok(None);
        }
        if !part.is_empty() {
            list.push_str(if list.is_empty() { "" } else { "," })?;
            list.push_str(part)?;
        }
    }
    Ok(if list.is_empty() { None } else { Some(list) })
}

// Returns whether a letter stands between or around the parts of a list.
fn is_separator(letter: char) -> bool {
    letter.is_control()
        || matches!(
            letter,
            ' ' | ',' | ';' | ':' | '|' | '_' | '>' | '(' | ')' | '{' | '}' | '+'
        )
}

// Appends an option and its value to words.
fn push_option(words: &mut Vec<String>, option: &OptionRow, value: &str) -> Result<(), AllocError> {
    let alloc = *words.allocator();
    let name = option.name;
    words.push(format!(in alloc; "--{name}")?)?;
    words.push(String::from_str(alloc, value)?)?;
    Ok(())
}

// Appends an option with the value that was probably meant, and returns whether it is known.
fn push_given(words: &mut Vec<String>, option: &OptionRow, text: &str) -> Result<bool, AllocError> {
    let alloc = *words.allocator();
    let value = match option.values {
        Values::Text if !is_list(option.name) => Some(text.to_ascii_lowercase(alloc)?),
        Values::Text => list_in(alloc, text)?,
        Values::Numbers(_, _) => list_in(alloc, text.trim_start_matches('-'))?,
    };
    let Some(value) = value else {
        return Ok(false);
    };
    match value.as_str().split_once(',') {
        // `--near` with two numbers is `--near` and `--far`.
        Some((near, far)) if option.name == NEAR.name => {
            push_option(words, &NEAR, near)?;
            push_option(words, &FAR, far)?;
        }
        _ => push_option(words, option, value.as_str())?,
    }
    Ok(true)
}

/// Returns the advice on refused words, a fact and the corrected words, which is empty if there is
/// neither. Fails if memory was refused.
pub(crate) fn advice_on(alloc: Global, words: &[String]) -> Result<String, AllocError> {
    let draft = draft_of(alloc, words)?;
    let mut advice = String::new(alloc);
    if let Some(fact) = draft.fact {
        write_fact(&mut advice, fact)?;
    }
    match mended_words(alloc, words)? {
        Some(mended) => write_words(&mut advice, &draft, &mended)?,
        None if advice.is_empty() => write_number_fact(&mut advice, &draft)?,
        None => {}
    }
    if words.iter().any(|word| word.ends_with('\r')) {
        advice.push_str(if advice.is_empty() { "" } else { "\nnbhd: " })?;
        advice.push_str(
            "a word ends with a carriage return: save the script with line feeds alone",
        )?;
    }
    Ok(advice)
}

// Writes to write these words, behind a fact if there is one.
fn write_words(out: &mut String, draft: &Draft, words: &[String]) -> Result<(), AllocError> {
    out.push_str(if out.is_empty() { "" } else { "; " })?;
    out.push_str("write `nbhd")?;
    for word in words {
        let quote = if word.contains('*') { "'" } else { "" };
        write!(out, " {quote}{word}{quote}")?;
    }
    write_files(out, draft)?;
    out.push('`')
}

// Writes the names of files behind the signs of the shell.
fn write_files(out: &mut String, draft: &Draft) -> Result<(), AllocError> {
    for given in &draft.given {
        let sign = match given.meaning {
            Meaning::Input => " < ",
            Meaning::Output => " > ",
            _ => continue,
        };
        out.push_str(sign)?;
        match given.text.as_str().trim() {
            "" | "-" => out.push_str("FILE")?,
            name => write_escaped(out, name.as_bytes())?,
        }
    }
    Ok(())
}

// Writes what the first value has to be that has to be a number and is none.
fn write_number_fact(out: &mut String, draft: &Draft) -> Result<(), AllocError> {
    for given in &draft.given {
        let text = given.text.as_str();
        if let Some(option) = option_given(draft, given)
            && let Values::Numbers(low, high) = option.values
            && !are_digits(text.trim_matches(|letter| matches!(letter, ' ' | ',' | '-')))
        {
            let name = option.name;
            write!(out, "`--{name}` takes a number in digits")?;
            return match high {
                u32::MAX => Ok(()),
                _ => write!(out, ", from {low} to {high}"),
            };
        }
    }
    Ok(())
}
