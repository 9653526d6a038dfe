//! The members of a trace. Each call fails only if memory was refused.

ghost use Rattle.json_reports.specs.Json.{round_fields, round_value, trace_fields};
ghost use Rattle.json_reports.specs.Puts.{PutsFields, PutsValues};
ghost use Rattle.json_reports.specs.Values.{array_of};
ghost use Rattle.std.specs.Prelude.{[], ◌∷◌, map};
ghost use Rattle.value_trees.specs.Rows.{rows_of, rows_of_round, trace_rows};

use crate::fields::{put_numbers, put_rows, put_text};
use json::Writer;
use node_program::OutOfMemory;
use reports::finding::RingTrace;
use std::alloc::{AllocError, Global};
use value_trees::{RoundTrace, Trace, trace_of};

// Appends the members of the trace of a program on a ring.
pub(crate) fn put_trace(
    alloc: Global,
    writer: &mut Writer,
    trace: &RingTrace,
) -> Result<(), OutOfMemory>
    ensures { PutsFields result writer.old writer.new
        (trace_fields trace.now.ring.places (trace_rows trace.now.plan.program trace.now.ring.places)) }
{
    let rows = trace_of(alloc, &trace.plan, &trace.ring)?;
    put_trace_rows(writer, trace.ring.ids(), &rows)?;
    Ok(())
}

// Appends the members of a trace on a ring of these identifiers.
fn put_trace_rows(writer: &mut Writer, ids: &[u32], trace: &Trace) -> Result<(), AllocError>
    ensures { PutsFields result writer.old writer.new (trace_fields ids.now (rows_of trace.now)) }
{
    put_text(writer, "kind", "trace")?;
    put_numbers(writer, "ring", ids)?;
    put_rows(writer, "start", &trace.start)?;
    writer.key("rounds")?;
    put_round_array(writer, &trace.rounds)?;
    put_numbers(writer, "finish", &trace.finish)
}

// Appends an array of rounds.
fn put_round_array(writer: &mut Writer, rounds: &[RoundTrace]) -> Result<(), AllocError>
    ensures { PutsValues result writer.old writer.new (array_of (map round_value (map rows_of_round rounds.now)) ∷ []) }
{
    writer.begin_array()?;
    put_each_round(writer, rounds)?;
    writer.end_array()
}

// Appends rounds.
fn put_each_round(writer: &mut Writer, rounds: &[RoundTrace]) -> Result<(), AllocError>
    ensures { PutsValues result writer.old writer.new (map round_value (map rows_of_round rounds.now)) }
{
    for round in rounds {
        put_round(writer, round)?;
    }
    Ok(())
}

// Appends a round.
fn put_round(writer: &mut Writer, round: &RoundTrace) -> Result<(), AllocError>
    ensures { PutsValues result writer.old writer.new (round_value (rows_of_round round.now) ∷ []) }
{
    writer.begin_object()?;
    put_round_fields(writer, round)?;
    writer.end_object()
}

// Appends the members of a round.
fn put_round_fields(writer: &mut Writer, round: &RoundTrace) -> Result<(), AllocError>
    ensures { PutsFields result writer.old writer.new (round_fields (rows_of_round round.now)) }
{
    put_numbers(writer, "left", &round.left)?;
    put_numbers(writer, "right", &round.right)?;
    put_rows(writer, "registers", &round.registers)
}
