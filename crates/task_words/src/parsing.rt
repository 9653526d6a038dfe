//! Parsing the words with `clap`.

ghost use Rattle.std.specs.Prelude.{◌≡◌, map, IfOk, IfErr, string_bytes};
ghost use Rattle.clap.specs.Words.{kind_of, subcommand_of, subcommand_rows_of};
ghost use Rattle.task_words.specs.CommandLine.{command_line};
ghost use Rattle.task_words.specs.Options.{IsRefusalOf, IsRefusalIn};
ghost use Rattle.task_words.specs.Words.{IsAccepted};

use crate::command_line::command_line;
use crate::words::WordsFault;
use clap::error::ErrorKind;
use clap::{ArgMatches, Error};
use std::alloc::Global;

// Returns the matches of the words. Fails if `clap` refuses them, if they ask for help or if memory
// was refused.
pub(crate) fn parsed<'a>(alloc: Global, words: &'a [String]) -> Result<ArgMatches<'a>, WordsFault>
    ensures taken { IfOk result (λ _. IsAccepted (map string_bytes words.entry.now)) }
    ensures rows { IfOk result (λ matches.
        subcommand_rows_of matches ≡ subcommand_of command_line (map string_bytes words.entry.now)) }
    ensures refused { IfErr result (IsRefusalIn (map string_bytes words.entry.now)) }
{
    match command_line(alloc)?.try_get_matches_from(words) {
        Ok(matches) => Ok(matches),
        Err(error) => Err(refusal(alloc, &error)),
    }
}

// Returns the fault of the words for an error of `clap`, or `OutOfMemory` if memory was refused.
fn refusal(alloc: Global, error: &Error) -> WordsFault
    ensures { IsRefusalOf (kind_of error.now) result }
{
    let Ok(text) = error.to_string(alloc) else {
        return WordsFault::OutOfMemory;
    };
    match error.kind() {
        ErrorKind::OutOfMemory => WordsFault::OutOfMemory,
        ErrorKind::DisplayHelp => WordsFault::Help(text),
        _ => WordsFault::Usage(text),
    }
}
