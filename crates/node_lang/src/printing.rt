//! Writes a program in its printed form.
ghost use Rattle.std.specs.Prelude.{◌≡◌, ◌++◌, length, map, IfOk, IfErr, OnOk, codes, string_bytes};
ghost use Rattle.std.specs.List.{flat_map};
ghost use Rattle.node_lang.specs.declared.fault.FaultKind.TheVariants as kind;
ghost use Rattle.node_program.specs.Term.{step_of, term_of};
ghost use Rattle.node_lang.specs.Printed.{operation_name as name_of, own_word, printed_expression, assignment_lines};
ghost use Rattle.node_lang.specs.Printed.{header_lines, round_lines, printed};

use crate::fault::TextFault;
use crate::word_tokens::operation_name;
use node_program::{Expr, Program, Round};
use std::alloc::{AllocError, Global};
use std::fmt::Write;

// Appends the name of an operation and the parenthesis that opens its operands.
fn write_opening(text: &mut String, operation: &Expr) -> Result<(), AllocError>
    ensures { OnOk result (string_bytes text.new
        ≡ string_bytes text.old ++ (name_of (term_of operation.now) ++ codes "(")) }
{
    write!(text, "{}(", operation_name(operation))
}

/// Appends the word that an expression is printed with, without its operands.
pub fn write_word(text: &mut String, expression: &Expr) -> Result<(), AllocError>
    ensures { OnOk result (string_bytes text.new ≡ string_bytes text.old ++ own_word (term_of expression.now)) }
{
    match expression {
        Expr::Number(number) => write!(text, "{number}"),
        Expr::Id => text.push_str("id"),
        Expr::FromLeft => text.push_str("L"),
        Expr::FromRight => text.push_str("R"),
        Expr::Register(register) => write!(text, "r{register}"),
        Expr::One(_, _) | Expr::Two(_, _, _) | Expr::Choose(_, _, _) => {
            text.push_str(operation_name(expression))
        }
    }
}

#[cycle(expression)]
fn write_expression(text: &mut String, expression: &Expr) -> Result<(), AllocError>
    ensures { OnOk result (string_bytes text.new
        ≡ string_bytes text.old ++ printed_expression (term_of expression.now)) }
{
    match expression {
        Expr::Number(_) | Expr::Id | Expr::FromLeft | Expr::FromRight | Expr::Register(_) => {
            write_word(text, expression)
        }
        Expr::One(_, a) => {
            write_opening(text, expression)?;
            write_operand(text, a, ")")
        }
        Expr::Two(_, a, b) => {
            write_opening(text, expression)?;
            write_operand(text, a, ", ")?;
            write_operand(text, b, ")")
        }
        Expr::Choose(c, a, b) => {
            write_opening(text, expression)?;
            write_operand(text, c, ", ")?;
            write_operand(text, a, ", ")?;
            write_operand(text, b, ")")
        }
    }
}

// Appends an operand and the mark after it.
#[cycle(expression)]
fn write_operand(text: &mut String, operand: &Expr, mark: &str) -> Result<(), AllocError>
    ensures { OnOk result (string_bytes text.new
        ≡ string_bytes text.old ++ (printed_expression (term_of operand.now) ++ mark.now)) }
{
    write_expression(text, operand)?;
    text.push_str(mark)
}

// Appends an expression after these words, and ends its line.
fn write_line(text: &mut String, words: &str, expression: &Expr) -> Result<(), AllocError>
    ensures { OnOk result (string_bytes text.new
        ≡ string_bytes text.old ++ (words.now ++ (printed_expression (term_of expression.now) ++ codes "\n"))) }
{
    text.push_str(words)?;
    write_expression(text, expression)?;
    text.push_str("\n")
}

// Appends an assignment to each register.
#[tactic(auto, using(crate::proofs::Writing::next_item, std::proofs::Common::append_assoc))]
fn write_assignments(text: &mut String, expressions: &[Expr]) -> Result<(), AllocError>
    ensures { OnOk result (string_bytes text.new
        ≡ string_bytes text.old ++ assignment_lines 0 (map term_of expressions.now)) }
{
    'registers: for (register, expression) in expressions.iter().enumerate() {
        write!(text, "r{register}")?;
        write_line(text, " = ", expression)?;
    }
    Ok(())
}

fn write_round(text: &mut String, round: &Round) -> Result<(), AllocError>
    ensures { OnOk result (string_bytes text.new ≡ string_bytes text.old ++ round_lines (step_of round.now)) }
{
    write_line(text, "round\nsend left ", &round.left)?;
    write_line(text, "send right ", &round.right)?;
    write_assignments(text, &round.next)
}

#[tactic(auto, using(crate::proofs::Writing::next_item, std::proofs::Common::append_assoc))]
fn write_rounds(text: &mut String, rounds: &[Round]) -> Result<(), AllocError>
    ensures { OnOk result (string_bytes text.new
        ≡ string_bytes text.old ++ flat_map round_lines (map step_of rounds.now)) }
{
    'rounds: for round in rounds {
        write_round(text, round)?;
    }
    Ok(())
}

// Appends the lines of the header.
fn write_header(text: &mut String, program: &Program) -> Result<(), AllocError>
    ensures { OnOk result (string_bytes text.new ≡ string_bytes text.old ++ header_lines program.now) }
{
    let rounds = program.rounds();
    let channels = program.channels();
    let registers = program.registers();
    write!(
        text,
        "rounds {rounds}\nchannels {channels}\nregisters {registers}\nstart\n"
    )
}

fn write_program(text: &mut String, program: &Program) -> Result<(), AllocError>
    ensures { OnOk result (string_bytes text.new ≡ string_bytes text.old ++ printed program.now) }
{
    write_header(text, program)?;
    write_assignments(text, program.start())?;
    write_rounds(text, program.steps())?;
    write_line(text, "finish ", program.finish())
}

/// Prints a program in its canonical form, in lines that end with a line feed: `rounds T`,
/// `channels C`, `registers K`, `start` and the lines `rJ = e`; per round `round`, `send left e`,
/// `send right e` and the lines `rJ = e`; then `finish e`. Numbers are decimal without leading
/// zeros, and the operands in an expression are separated by a comma and one blank, with no other
/// blanks in it.
///
/// Fails only if memory is refused, with `OutOfMemory` at offset 0.
pub fn print(alloc: Global, program: &Program) -> Result<String, TextFault>
    ensures text { IfOk result (λ text. string_bytes text ≡ printed program.now) }
    ensures fault { IfErr result (λ f. f ≡ record { kind = kind.OutOfMemory; offset = 0 }) }
{
    let mut text = String::new(alloc);
    write_program(&mut text, program)?;
    Ok(text)
}
