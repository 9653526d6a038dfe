//! The words of the process.
ghost use Rattle.std.specs.Prelude.{◌≡◌, map, drop, IfOk, IfErr, string_bytes};
ghost use Rattle.task_words.specs.ParsedWords.{IsCauseLine, IsParsed, IsUnread};
ghost use Rattle.task_words.specs.Task.{IsRunnable};
ghost use Rattle.task_words.specs.WordsFault.{words_fault_code};

use crate::demand_fault::DemandFault;
use crate::mended::advice_on;
use crate::pattern_tips::pattern_tip;
use crate::request::Request;
use crate::ring_tips::{ring_tip, ring_word};
use crate::words::{WordsFault, request_of, words_fault};
use std::alloc::{AllocError, Global};
use std::env;
use std::fmt::Write;
use std::rt::Env;

/// Returns what the words after the program's name request, as `request_of` does, or the fault of the
/// words.
pub fn parse_request<T: AllocGlobal + Env>(rt: &T) -> Result<Request, WordsFault>
    ensures parsed { IsParsed result }
    ensures runnable { IfOk result (λ request. IsRunnable request.task) }
{
    let words = words(rt)?;
    request_of(rt.alloc(), after_name(&words))
}

// Returns the words of the process, from the program's name on.
fn words<T: AllocGlobal + Env>(rt: &T) -> Result<Vec<String>, WordsFault>
    ensures { IfErr result IsUnread }
{
    let alloc = rt.alloc();
    match env::args(rt) {
        Ok(args) => Ok(args.collect::<Vec<_>>(alloc)?),
        Err(error) => Err(words_fault(alloc, error)?),
    }
}

// Returns the words after the first one, which is the program's name.
fn after_name(words: &[String]) -> &[String]
    ensures { map string_bytes result.now ≡ drop 1 (map string_bytes words.now) }
{
    match words {
        [_name, rest @ ..] => rest,
        [] => words,
    }
}

/// Prints the fault of the words to standard error, with its cause, and advice: a fact, and the corrected
/// words if they are known. Control characters of the words are escaped.
/// Returns the exit status.
pub fn print_words_fault<T: AllocGlobal + Env + Eprint>(rt: &T, fault: &WordsFault) -> u8
    ensures { result ≡ words_fault_code fault.now }
{
    match words(rt) {
        Ok(words) => print_with_advice(rt, fault, after_name(&words)),
        Err(_) => print_fault(rt, fault, false),
    }
    fault.code()
}

// Prints the fault of these words, with its cause and advice.
fn print_with_advice<T: AllocGlobal + Eprint>(rt: &T, fault: &WordsFault, words: &[String]) {
    let alloc = rt.alloc();
    let advice = match fault {
        WordsFault::Help(_) | WordsFault::OutOfMemory => String::new(alloc),
        _ => advice_on(alloc, words).unwrap_or(String::new(alloc)),
    };
    print_fault(rt, fault, !advice.is_empty());
    if let Ok(Some(cause)) = cause_line(alloc, words, fault) {
        let _ = eprintln!(rt; "{cause}");
    }
    if !advice.is_empty() {
        let _ = eprintln!(rt; "nbhd: {advice}");
    }
}

// Prints the fault of the words; with advice on them, without what `clap` says is alike.
fn print_fault<T: AllocGlobal + Eprint>(rt: &T, fault: &WordsFault, has_advice: bool) {
    let _ = match fault {
        WordsFault::Usage(text) => match usage_text(rt.alloc(), text, has_advice) {
            Ok(shown) => eprint!(rt; "{shown}"),
            Err(_) => eprint!(rt; "{text}"),
        },
        WordsFault::Help(text) => eprint!(rt; "{text}"),
        WordsFault::BadRing | WordsFault::BadDemand(_) | WordsFault::OutOfMemory => {
            eprintln!(rt; "{fault}")
        }
    };
}

// Writes a text with each control character but line feeds as `\x` and two hexadecimal digits.
fn write_visible(out: &mut String, text: &str) -> Result<(), AllocError> {
    for letter in text.chars() {
        if letter.is_control() && letter != '\n' {
            let code = letter as u32;
            write!(out, "\\x{code:02x}")?;
        } else {
            out.push(letter)?;
        }
    }
    Ok(())
}

// Returns a text of `clap` on refused words as it is printed: without control characters, and where
// there is advice without the paragraph on what is alike. Fails if memory was refused.
fn usage_text(alloc: Global, text: &str, has_advice: bool) -> Result<String, AllocError> {
    let mut shown = String::new(alloc);
    for part in text.split("\n\n") {
        if !has_advice || !part.starts_with("  tip: ") {
            shown.push_str(if shown.is_empty() { "" } else { "\n\n" })?;
            write_visible(&mut shown, part)?;
        }
    }
    Ok(shown)
}

// Returns the line on the cause of the fault of words that are a command, if it has one. Fails if
// memory was refused.
fn cause_line(
    alloc: Global,
    words: &[String],
    fault: &WordsFault,
) -> Result<Option<String>, AllocError>
    ensures { IfOk result (IsCauseLine (map string_bytes words.now) fault.now) }
{
    match fault {
        WordsFault::BadRing => match ring_word(words) {
            Some(text) => ring_tip(alloc, text),
            None => Ok(None),
        },
        WordsFault::BadDemand(DemandFault::BadPattern(_)) => pattern_tip(alloc, words),
        WordsFault::BadDemand(cause) => Ok(Some(String::from_str(alloc, cause.line())?)),
        WordsFault::Usage(_) | WordsFault::Help(_) | WordsFault::OutOfMemory => Ok(None),
    }
}
