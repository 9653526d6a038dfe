//! The text of a trace: the identifiers of the ring, and its rows round by round.

ghost use Rattle.std.specs.Prelude.{◌≡◌, ◌++◌, map, IfOk, OnOk, string_bytes};
ghost use Rattle.value_trees.specs.Rows.{items_of, rows_of_round, rows_of};
ghost use Rattle.value_trees.specs.Trace.{told_registers, told_round, told_rounds, told_trace, trace_lines};

use crate::explanation::write_phase;
use crate::trace::{RoundTrace, Trace, trace_of};
use lang_check::Plan;
use node_program::OutOfMemory;
use numerals::{Base, write_row};
use std::alloc::{AllocError, Global};
use std::fmt::Write;
use win_index::Ring;

/// Returns the trace of a ring by a plan, with its numbers in this base. Fails with `OutOfMemory` if
/// memory was refused.
pub fn trace_text(
    alloc: Global,
    base: Base,
    plan: &Plan,
    ring: &Ring,
) -> Result<String, OutOfMemory>
    requires { ring.now.ids ≡ plan.now.ids }
    ensures { IfOk result (λ text. string_bytes text ≡ trace_lines base plan.now.program ring.now.places) }
{
    let trace = trace_of(alloc, plan, ring)?;
    let mut text = String::new(alloc);
    text.push_str("ring")?;
    write_row(&mut text, base, ring.ids())?;
    write_trace(&mut text, base, &trace)?;
    Ok(text)
}

// Writes the registers of a ring before its first round, all rounds and the channels.
fn write_trace(text: &mut String, base: Base, trace: &Trace) -> Result<(), AllocError>
    ensures { OnOk result (string_bytes text.new ≡ string_bytes text.old ++ told_trace base (rows_of trace.now)) }
{
    write_registers(text, base, 0, &trace.start)?;
    write_rounds(text, base, &trace.rounds)?;
    text.push_str("finish")?;
    write_row(text, base, &trace.finish)
}

// Writes the lines of all rounds.
fn write_rounds(text: &mut String, base: Base, rounds: &[RoundTrace]) -> Result<(), AllocError>
    ensures { OnOk result (string_bytes text.new
        ≡ string_bytes text.old ++ told_rounds base 0 (map rows_of_round rounds.now)) }
{
    'rounds: for (done, round) in rounds.iter().enumerate() {
        write_round(text, base, done + 1, round)?;
    }
    Ok(())
}

// Writes the lines of the round with this number: its messages, and the registers after it.
fn write_round(
    text: &mut String,
    base: Base,
    number: usize,
    round: &RoundTrace,
) -> Result<(), AllocError>
    ensures { OnOk result (string_bytes text.new
        ≡ string_bytes text.old ++ told_round base number (rows_of_round round.now)) }
{
    write_phase(text, number)?;
    text.push_str(" left")?;
    write_row(text, base, &round.left)?;
    write_phase(text, number)?;
    text.push_str(" right")?;
    write_row(text, base, &round.right)?;
    write_registers(text, base, number, &round.registers)
}

// Writes a line for each register after this many rounds.
fn write_registers(
    text: &mut String,
    base: Base,
    rounds: usize,
    rows: &[Vec<u32>],
) -> Result<(), AllocError>
    ensures { OnOk result (string_bytes text.new
        ≡ string_bytes text.old ++ told_registers base rounds 0 (items_of rows.now)) }
{
    'registers: for (register, row) in rows.iter().enumerate() {
        write_phase(text, rounds)?;
        write!(text, " r{register}")?;
        write_row(text, base, row)?;
    }
    Ok(())
}
