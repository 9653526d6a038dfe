//! The command line of the program: its commands and their options, with the help texts.

ghost use Rattle.std.specs.Prelude.{◌≡◌, IfOk, false, map};
ghost use Rattle.clap.specs.Words.{app_of, new_app, rule_of};
ghost use Rattle.clap.specs.declared.builder.command.Command.TheViews.{out-Command};
ghost use Rattle.task_words.specs.CommandLine.{IsCommandOf, command_line, program};
ghost use Rattle.task_words.specs.Rows.{AreCommandsOf, AreOptionsOf, action_in, command_in, parser_in};
ghost use Rattle.task_words.specs.Rows.{rule_in, with_commands};

use crate::commands::{COMMANDS, CommandRow};
use crate::help;
use crate::option_rows::{Given, OptionRow, Values};
use clap::builder::ValueParser;
use clap::{Arg, ArgAction, Command};
use std::alloc::{AllocError, Global};

// Returns the command line of the words after the program's name: one of the thirteen commands, and its
// options.
pub(crate) fn command_line<'a>(alloc: Global) -> Result<Command<'a>, AllocError>
    ensures { IfOk result (λ line. app_of line ≡ command_line) }
{
    with_commands(alloc, &COMMANDS)
}

// Returns the program with the commands of these rows.
fn with_commands<'a>(alloc: Global, rows: &[CommandRow]) -> Result<Command<'a>, AllocError>
    ensures { IfOk result (λ line. app_of line ≡ with_commands program (map command_in rows.now)) }
{
    let commands = commands(alloc, rows)?;
    program(alloc)?.subcommands(commands)
}

// Returns the program without its commands.
fn program<'a>(alloc: Global) -> Result<Command<'a>, AllocError>
    ensures { IfOk result (λ line. app_of line ≡ program) }
{
    described(alloc, "nbhd", help::PROGRAM, help::EXAMPLE)
        .no_binary_name(true)
        .subcommand_required(true)
        .bin_name("nbhd")
}

// Returns the commands of these rows.
fn commands<'a>(alloc: Global, rows: &[CommandRow]) -> Result<Vec<Command<'a>>, AllocError>
    ensures { IfOk result (λ commands. AreCommandsOf rows.now commands.items) }
{
    let mut commands = Vec::new(alloc);
    'commands: for row in rows {
        commands.push(command(alloc, row)?)?;
    }
    Ok(commands)
}

// Returns the command of this row.
fn command<'a>(alloc: Global, row: &CommandRow) -> Result<Command<'a>, AllocError>
    ensures { IfOk result (IsCommandOf (command_in row.now)) }
{
    let options = options(alloc, row.options)?;
    described(alloc, row.name, row.about, row.details).args(options)
}

// Returns a command with the texts of its help.
fn described<'a>(alloc: Global, name: &'a str, about: &'a str, details: &'a str) -> Command<'a>
    ensures app { app_of result ≡ new_app name.entry.now }
    ensures local { (out-Command result).has_globals ≡ false }
{
    Command::new(alloc, name).about(about).after_help(details)
}

// Returns the options of these rows.
fn options<'a>(alloc: Global, rows: &[OptionRow]) -> Result<Vec<Arg<'a>>, AllocError>
    ensures { IfOk result (λ options. AreOptionsOf rows.now options.items) }
{
    let mut options = Vec::new(alloc);
    'options: for row in rows {
        options.push(option(alloc, row))?;
    }
    Ok(options)
}

// Returns the option of this row, each use of which has one value.
fn option<'a>(alloc: Global, row: &OptionRow) -> Arg<'a>
    ensures rule { rule_of result ≡ rule_in row.now }
    ensures local { result.global ≡ false }
{
    let option = Arg::new(alloc, row.name)
        .long(row.name)
        .action(action(row.given))
        .value_parser(parser(row.values))
        .value_name(row.value_name)
        .help(row.help);
    match row.given {
        Given::Once => option.required(true),
        Given::ByDefault(value) => option.default_value(value),
        Given::AtMostOnce | Given::AnyNumber => option,
    }
}

// Returns what a use of an option does that is given as often as this: it has a value, or one more.
fn action(given: Given) -> ArgAction
    ensures { result ≡ action_in given }
{
    match given {
        Given::Once | Given::ByDefault(_) | Given::AtMostOnce => ArgAction::Set,
        Given::AnyNumber => ArgAction::Append,
    }
}

// Returns the parser of these values.
fn parser<'a>(values: Values) -> ValueParser<'a>
    ensures { result ≡ parser_in values }
{
    match values {
        Values::Text => ValueParser::String,
        Values::Numbers(low, high) => ValueParser::signed(i64::from(low), i64::from(high)),
    }
}
