//! The words of the command line.

ghost use Rattle.std.specs.Prelude.{◌≡◌, ◌≢◌, map, IfOk, string_bytes};
ghost use Rattle.task_words.specs.ParsedWords.{IsParsedFrom, IsRequestFrom, IsUnread};
ghost use Rattle.task_words.specs.WordsFault.{IsNotUtf8};
ghost use Rattle.task_words.specs.declared.words.WordsFault.TheVariants.{OutOfMemory};
ghost use Rattle.std.specs.IoError.{error_kind};

use crate::demand_fault::DemandFault;
use crate::options::Call;
use crate::parsing::parsed;
use crate::request::Request;
use crate::task::Task;
use std::alloc::{AllocError, AllocFailed, Global};
use std::io;
use std::io::ErrorKind;
use thiserror::Error;

/// Why words give no request.
#[derive(Debug, Drop, Error)]
pub enum WordsFault {
    /// The words are not a command. The text describes their fault, and ends with a line feed.
    #[error("{0}")]
    Usage(String),
    /// The words are a command, but the value of `--ring` is not a ring text.
    #[error("nbhd: bad ring")]
    BadRing,
    /// The words are a command, but the values of its options are no demand, for this cause.
    #[error("nbhd: {0}")]
    BadDemand(DemandFault),
    /// Memory was refused.
    #[error("nbhd: out of memory")]
    OutOfMemory,
    /// The words ask for help. This is the help text, which ends with a line feed.
    #[error("{0}")]
    Help(String),
}

impl WordsFault {
    ghost use Rattle.task_words.specs.WordsFault.{words_fault_code};

    /// Returns the exit status of the process: 2 for refused words, 6 for refused memory, 0 after
    /// help.
    pub fn code(&self) -> u8
        ensures { result ≡ words_fault_code self.now }
    {
        match self {
            WordsFault::Usage(_) | WordsFault::BadRing | WordsFault::BadDemand(_) => 2,
            WordsFault::OutOfMemory => 6,
            WordsFault::Help(_) => 0,
        }
    }
}

impl From<AllocError> for WordsFault {
    ghost from_gives = { λ _ fault. fault ≡ OutOfMemory };

    fn from(_refused: AllocError) -> WordsFault {
        WordsFault::OutOfMemory
    }
}

impl<T: Drop> From<AllocFailed<T>> for WordsFault {
    ghost from_gives = { λ _ fault. fault ≡ OutOfMemory };

    fn from(_refused: AllocFailed<T>) -> WordsFault {
        WordsFault::OutOfMemory
    }
}

/// Returns the fault for an error in reading the words from the environment: `OutOfMemory` if
/// memory was refused, else `Usage` with a text of one line, which says that a word is not UTF-8.
/// Fails if memory for the text was refused.
pub fn words_fault(alloc: Global, error: io::Error) -> Result<WordsFault, AllocError>
    ensures memory { error_kind error ≡ ErrorKind.OutOfMemory → result ≡ Ok WordsFault.OutOfMemory }
    ensures not_utf8 { error_kind error ≢ ErrorKind.OutOfMemory → IfOk result IsNotUtf8 }
    ensures unread { IfOk result IsUnread }
{
    match error.kind() {
        ErrorKind::OutOfMemory => Ok(WordsFault::OutOfMemory),
        _ => {
            let text = String::from_str(alloc, "nbhd: words are not UTF-8\n")?;
            Ok(WordsFault::Usage(text))
        }
    }
}

/// Returns what the words after the program's name request, a task and the form of its report, by the
/// rules of `clap`: the name of a command, and its options in any order, each use with one value. The
/// table of commands is in `commands.rt`. The value of `--ring` is a ring text, those of `--forbid` are
/// pattern texts, that of `--problem` is the name of a problem, that of `--format` is `lines` or `json`,
/// and any other one is a decimal number in the range of its option. Patterns, a problem by its name, and
/// `--near` or `--far` exclude one another.
///
/// The report is in JSON exactly if the value of `--format` is `json`, so a command without that option
/// has lines.
///
/// Fails with `Usage` if `clap` refuses the words, or if it accepts them but the value of `--format` is
/// neither `lines` nor `json`. Of words that are a command by this it fails with `BadRing` if the value of
/// `--ring` is not a ring text, and with `BadDemand` and the cause if the values of the options that demand
/// something are no demand. It fails with `Help` if the words ask for help, and with `OutOfMemory` if
/// memory was refused.
pub fn request_of(alloc: Global, words: &[String]) -> Result<Request, WordsFault>
    ensures { IsRequestFrom (map string_bytes words.now) result }
{
    let matches = parsed(alloc, words)?;
    match matches.subcommand() {
        Some((name, options)) => Call { name, options }.request(alloc),
        None => unreachable!(),
    }
}

/// Returns the task that the words after the program's name request. Fails as `request_of` does.
pub fn task_of(alloc: Global, words: &[String]) -> Result<Task, WordsFault>
    ensures { IsParsedFrom (map string_bytes words.now) result }
{
    match request_of(alloc, words) {
        Ok(request) => Ok(request.task),
        Err(fault) => Err(fault),
    }
}
