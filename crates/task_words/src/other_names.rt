//! Names that other programs have for commands and options, and what they mean here, in rows.

use crate::commands::{COMMANDS, CommandRow};
use crate::option_rows::OptionRow;
use std::alloc::AllocError;
use std::fmt::Write;

/// What a name means.
#[derive(Clone, Copy)]
pub(crate) enum Meaning {
    /// The option of this name, with this value if it is not empty.
    Option(&'static str, &'static str),
    /// The command of this name.
    Command(&'static str),
    /// The file from which the text is read.
    Input,
    /// The file to which the report is written.
    Output,
    /// Nothing: it is left out, with its value.
    Nothing,
    /// Nothing, and neither do the words behind it.
    End,
}

/// A fact that explains refused words.
#[derive(Clone, Copy)]
pub(crate) enum Fact {
    Text(&'static str),
    /// Of which commands this is an option.
    OptionOf(&'static str),
}

/// What a word without a name is.
#[derive(Clone, Copy)]
pub(crate) enum Kind {
    Ids,
    Ring,
    Pattern,
    Place,
    File,
    Command,
    /// A number or a list that the command does not take.
    Number,
}

/// What a word means, and a fact, if there is one.
#[derive(Clone, Copy)]
pub(crate) struct Meant {
    pub(crate) meaning: Meaning,
    pub(crate) fact: Option<Fact>,
}

// Names with blanks between them, without minus signs and in small letters, the commands at which they count (none
// if at each), what they mean, and a fact, which can be empty.
struct OtherName {
    names: &'static str,
    commands: &'static str,
    meaning: Meaning,
    fact: &'static str,
}

// Rows of names.
macro_rules! names {
    ($($names:literal $(at $commands:literal)? => $meaning:expr, $fact:expr;)+) => {
        [$(OtherName { names: $names, commands: concat!("" $(, $commands)?), meaning: $meaning, fact: $fact }),+]
    };
}

const PROBLEMS: &str =
    "a problem is given by its name, as in `--problem mis`, or by its patterns, as in `--forbid 1,1`";

const SHELL: &str = "`<` and `>` are read by the shell, outside of quotes";

// Names in place of a command.
static COMMAND_NAMES: [OtherName; 9] = names! {
    "version v" => Meaning::Nothing, "the first line of `nbhd --help` has the version";
    "simulate simulat simulation exec execute sim colour color" => Meaning::Command("run"),
        "`nbhd run` runs a program on a ring, and `nbhd trace` prints each round";
    "verify validate test prove correct" => Meaning::Command("judge"),
        "`nbhd judge` judges a program on every ring, and `nbhd audit` a table";
    "compile build make" => Meaning::Command("table"), "`nbhd table` prints the table of a program";
    "format fmt lint parse" => Meaning::Command("print"),
        "`nbhd print` prints a program in its one printed form, and `nbhd check` tells whether it is accepted";
    "solve sat cnf" => Meaning::Command("formula"), "`nbhd formula` prints a formula for a solver";
    "show draw visualize graph plot" => Meaning::Command("trace"),
        "`nbhd trace` and `nbhd explain` print a run, and `nbhd-page` draws it";
    "convert upgrade" => Meaning::Command("migrate"), "`nbhd migrate` prints a table in the newest version";
    "debug why step" => Meaning::Command("explain"),
        "`nbhd trace` prints each round of a run, and `nbhd explain` how one node computes";
};

// Other names. The first row that fits counts.
static NAMES: [OtherName; 31] = names! {
    "nbhd ./nbhd" => Meaning::Nothing, "the name of the program stands twice";
    "help man info usage manual options commands ?" => Meaning::Nothing,
        "`nbhd --help` tells of the program, and `nbhd run --help` of a command";
    "version to" at "migrate" => Meaning::Nothing, "`nbhd migrate` writes the newest version only";
    "version" => Meaning::Nothing, "the first line of `nbhd --help` has the version";
    "| || ; & && 2>&1" => Meaning::End, "`|`, `;` and `&` are read by the shell, outside of quotes";
    "<" => Meaning::Input, SHELL;
    "> >>" => Meaning::Output, SHELL;
    "f i file input program table text" => Meaning::Input, "a text is read from standard input";
    "o output out" => Meaning::Output, "the answer is on the standard output";
    "ids rounds channels near far n m" at "audit apply migrate" => Meaning::Nothing,
        "the numbers of a table are in its text";
    "ids" at "print" => Meaning::Nothing, "`nbhd check` tells whether a program is accepted for M identifiers";
    "node id" at "explain" => Meaning::Nothing,
        "the node that is explained is given by its place in the ring, as in `--place 0`";
    "pos position index p" at "explain" => Meaning::Option("place", ""),
        "the node that is explained is given by its place in the ring";
    "n m size max count number id identifiers nodes" => Meaning::Option("ids", ""),
        "the number of identifiers is given by `--ids`";
    "r cycle" => Meaning::Option("ring", ""), "a ring is given by `--ring`";
    "segments" at "table judge plan" => Meaning::Option("workers", ""), "the number of threads is given by `--workers`";
    "workers w j threads jobs cores" at "run" => Meaning::Option("segments", ""), "a run has a thread for each segment";
    "w j threads jobs cores" => Meaning::Option("workers", ""),
        "the number of threads is given by `--workers`, of `table`, `judge` and `plan`";
    "forbid problem" at "table" => Meaning::Nothing,
        "a table does not say what its channels have to be but for near and far; `nbhd audit --problem mis` judges it";
    "mis independent-set maximal-independent-set" => Meaning::Option("problem", "mis"), PROBLEMS;
    "matching maximal-matching" => Meaning::Option("problem", "matching"), PROBLEMS;
    "pattern patterns forbidden avoid" => Meaning::Option("forbid", ""), "a pattern of channels is given by `--forbid`";
    "bits binary bin" => Meaning::Option("base", "2"), "numbers are printed in another base by `--base`";
    "json csv format" at "formula" => Meaning::Nothing,
        "`nbhd formula` prints DIMACS, which solvers read, and has no other form";
    "json" => Meaning::Option("format", "json"), "a report is in JSON by `--format json`";
    "fmt" => Meaning::Option("format", ""), "a report is in JSON by `--format json`";
    "v q quiet verbose" => Meaning::Nothing,
        "a report is on the standard output, a note on the standard error; there is no option for more or less";
    "t steps round rounds" at "trace explain" => Meaning::Nothing,
        "`nbhd trace` and `nbhd explain` print every round; a program says how many they are";
    "t steps" at "formula refute" => Meaning::Option("rounds", ""), "";
    "c k colors colours" at "formula refute" => Meaning::Option("channels", ""), "";
    "t steps round rounds c k colors colours channels" => Meaning::Nothing,
        "a program says its rounds and channels; those of a formula are given by `--rounds` and `--channels`";
};

/// Returns the command with this name.
pub(crate) fn own_command(name: &str) -> Option<CommandRow> {
    command_in(&COMMANDS, name)
}

// Returns the row of the command with this name.
fn command_in(rows: &[CommandRow], name: &str) -> Option<CommandRow> {
    let mut rows = rows.iter();
    let row = rows.find(|row| row.name.eq_ignore_ascii_case(name));
    row.copied()
}

/// Returns what a name in place of a command means.
pub(crate) fn other_command(name: &str) -> Option<Meant> {
    meant_in(&COMMAND_NAMES, "nbhd", name)
}

/// Returns what a name means at a command: an option whose name it begins, that of a row, or an option of other
/// commands.
pub(crate) fn meaning_of(command: &CommandRow, name: &str) -> Option<Meant> {
    if let Some(option) = option_in(command.options, name) {
        return Some(option_meant(option.name, None));
    }
    match meant_in(&NAMES, command.name, name) {
        Some(meant) => Some(meant),
        None => {
            let option = own_option(&COMMANDS, name)?;
            Some(option_meant(option.name, Some(Fact::OptionOf(option.name))))
        }
    }
}

// Returns that an option is meant.
fn option_meant(name: &'static str, fact: Option<Fact>) -> Meant {
    Meant {
        meaning: Meaning::Option(name, ""),
        fact,
    }
}

// Returns the option of one of these commands with this name.
fn own_option(rows: &[CommandRow], name: &str) -> Option<OptionRow> {
    for row in rows {
        for option in row.options {
            if option.name.eq_ignore_ascii_case(name) {
                return Some(*option);
            }
        }
    }
    None
}

// Returns that nothing is meant.
fn nothing(fact: &'static str) -> Meant {
    Meant {
        meaning: Meaning::Nothing,
        fact: Some(Fact::Text(fact)),
    }
}

/// Returns what a word without a name means at a command.
pub(crate) fn meaning_of_kind(command: &CommandRow, kind: Kind) -> Meant {
    match kind {
        Kind::Ids => option_meant("ids", None),
        Kind::Place => option_meant("place", None),
        Kind::Ring => option_meant("ring", Some(Fact::Text("a ring is given by `--ring`"))),
        Kind::Pattern => {
            let fact = Fact::Text("a pattern of channels is given by `--forbid`");
            option_meant("forbid", Some(fact))
        }
        Kind::File if command.name == "formula" => nothing("`nbhd formula` reads no file"),
        Kind::File => Meant {
            meaning: Meaning::Input,
            fact: Some(Fact::Text("a text is read from standard input")),
        },
        Kind::Command => nothing("one command is given at a time"),
        Kind::Number => nothing("each number is the value of an option, as in `--ids 8`"),
    }
}

/// Returns the option with this name, or whose name begins with it.
pub(crate) fn option_in(options: &[OptionRow], name: &str) -> Option<OptionRow> {
    for option in options {
        let begins = name.len() > 1 && option.name.starts_with(name);
        if begins || option.name.eq_ignore_ascii_case(name) {
            return Some(*option);
        }
    }
    None
}

// Returns what a name means by the first row that counts at this command.
fn meant_in(rows: &[OtherName], command: &str, name: &str) -> Option<Meant> {
    for row in rows {
        let mut names = row.names.split(' ');
        let counts = row.commands.is_empty() || row.commands.contains(command);
        if counts && names.any(|other| other.eq_ignore_ascii_case(name)) {
            let fact = if row.fact.is_empty() {
                None
            } else {
                Some(Fact::Text(row.fact))
            };
            return Some(Meant {
                meaning: row.meaning,
                fact,
            });
        }
    }
    None
}

/// Writes a fact.
pub(crate) fn write_fact(out: &mut String, fact: Fact) -> Result<(), AllocError> {
    match fact {
        Fact::Text(text) => out.push_str(text),
        Fact::OptionOf(name) => {
            write!(out, "`--{name}` is an option of")?;
            write_commands(out, &COMMANDS, name)
        }
    }
}

// Writes the names of the commands that have an option.
fn write_commands(out: &mut String, rows: &[CommandRow], name: &str) -> Result<(), AllocError> {
    let mut left = count_with(rows, name);
    let mut between = "";
    for row in rows {
        if has_option(row, name) {
            let command = row.name;
            write!(out, "{between} `{command}`")?;
            left = left.saturating_sub(1);
            between = if left == 1 { " and" } else { "," };
        }
    }
    Ok(())
}

// Returns the number of commands that have an option.
fn count_with(rows: &[CommandRow], name: &str) -> usize {
    rows.iter().filter(|row| has_option(row, name)).count()
}

// Returns whether a command has an option with this name.
fn has_option(command: &CommandRow, name: &str) -> bool {
    command.options.iter().any(|option| option.name == name)
}
