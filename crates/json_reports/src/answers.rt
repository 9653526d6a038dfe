//! The members of answers. Each call fails only if memory was refused.

ghost use Rattle.json_reports.specs.Json.{answer_fields, demand_fields, kind, numbered, separation_fields, size_fields};
ghost use Rattle.json_reports.specs.Puts.{PutsFields};
ghost use Rattle.json_reports.specs.Values.{numbers};
ghost use Rattle.std.specs.Prelude.{[], ◌∷◌, ◌++◌, codes};
ghost use Rattle.reports.specs.Findings as value;
ghost use Rattle.reports.specs.Findings.{answer_of};
ghost use Rattle.reports.specs.ProblemFaults.{problem_of};
ghost use Rattle.ring_problems.specs.Demands.{forbidden_of, separation_of};

use crate::fields::{put_count, put_number, put_numbers, put_text};
use crate::noes::{put_broken, put_no, put_patterns};
use crate::traces::put_trace;
use crate::trees::put_explanation;
use channel_tables::Separation;
use json::Writer;
use node_lang::{Program, print};
use node_program::OutOfMemory;
use reports::finding::Answer;
use reports::problem::ProblemNumbers;
use ring_problems::Demand;
use std::alloc::{AllocError, Global};
use win_index::Ring;

// Appends the members of an answer.
pub(crate) fn put_answer(
    alloc: Global,
    writer: &mut Writer,
    answer: &Answer,
) -> Result<(), OutOfMemory>
    ensures { PutsFields result writer.old writer.new (answer_fields (answer_of answer.now)) }
{
    match answer {
        Answer::Accepted {
            ids,
            rounds,
            channels,
            bound,
            windows,
        } => {
            put_text(writer, "kind", "accepted")?;
            put_sizes(writer, *ids, *rounds, *channels)?;
            put_bounds(writer, *bound, *windows)?;
        }
        Answer::Program(program) => put_program(alloc, writer, program)?,
        Answer::Yes { tuples, .. } | Answer::Solved { tuples, .. } => put_yes(writer, *tuples)?,
        Answer::No(separation, witness) => put_no(writer, *separation, witness)?,
        Answer::Broken { witness, .. } => put_broken(writer, witness)?,
        Answer::Channels(channels) => put_channels(writer, channels)?,
        Answer::Trace(trace) => put_trace(alloc, writer, trace)?,
        Answer::Tree(tree) => put_explanation(alloc, writer, tree)?,
        Answer::Places(ring, channels) => put_places(writer, ring, channels)?,
        Answer::Refuted(numbers) => put_refuted(writer, numbers)?,
    }
    Ok(())
}

// Appends numbers of identifiers, rounds and channels.
pub(crate) fn put_sizes(
    writer: &mut Writer,
    ids: u32,
    rounds: u32,
    channels: u32,
) -> Result<(), AllocError>
    ensures { PutsFields result writer.old writer.new (size_fields ids rounds channels) }
{
    put_number(writer, "ids", ids)?;
    put_number(writer, "rounds", rounds)?;
    put_number(writer, "channels", channels)
}

// Appends the bound of the channels of a program, and the number of windows.
fn put_bounds(writer: &mut Writer, bound: u32, windows: u32) -> Result<(), AllocError>
    ensures { PutsFields result writer.old writer.new
        (numbered (codes "bound") bound ∷ numbered (codes "windows") windows ∷ []) }
{
    put_number(writer, "bound", bound)?;
    put_number(writer, "windows", windows)
}

// Appends the members of a separation.
pub(crate) fn put_separation(writer: &mut Writer, separation: Separation) -> Result<(), AllocError>
    ensures { PutsFields result writer.old writer.new (separation_fields separation) }
{
    put_number(writer, "near", separation.near)?;
    put_number(writer, "far", separation.far)
}

// Appends the members of a program.
fn put_program(alloc: Global, writer: &mut Writer, program: &Program) -> Result<(), OutOfMemory>
    ensures { PutsFields result writer.old writer.new (answer_fields (value.program program.now)) }
{
    put_text(writer, "kind", "program")?;
    match print(alloc, program) {
        Ok(text) => Ok(put_text(writer, "text", &text)?),
        Err(_) => Err(OutOfMemory),
    }
}

// Appends the members of a yes.
fn put_yes(writer: &mut Writer, tuples: u64) -> Result<(), AllocError>
    ensures { PutsFields result writer.old writer.new (kind (codes "yes") ∷ numbered (codes "tuples") tuples ∷ []) }
{
    put_text(writer, "kind", "yes")?;
    put_count(writer, "tuples", tuples)
}

// Appends the members of the channels of a ring.
fn put_channels(writer: &mut Writer, channels: &[u32]) -> Result<(), AllocError>
    ensures { PutsFields result writer.old writer.new (answer_fields (value.channels channels.now)) }
{
    put_text(writer, "kind", "channels")?;
    put_numbers(writer, "channels", channels)
}

// Appends the members of a ring with the channels of its places.
fn put_places(writer: &mut Writer, ring: &Ring, channels: &[u32]) -> Result<(), AllocError>
    ensures { PutsFields result writer.old writer.new (answer_fields (value.places ring.now.places channels.now)) }
{
    put_text(writer, "kind", "places")?;
    put_numbers(writer, "ring", ring.ids())?;
    put_numbers(writer, "channels", channels)
}

// Appends the members of a formula that is refuted.
fn put_refuted(writer: &mut Writer, numbers: &ProblemNumbers) -> Result<(), AllocError>
    ensures { PutsFields result writer.old writer.new (answer_fields (value.refuted (problem_of numbers.now))) }
{
    put_text(writer, "kind", "refuted")?;
    put_sizes(writer, numbers.ids, numbers.rounds, numbers.channels)?;
    put_demand(writer, &numbers.demand)
}

// Appends the members of a demand.
fn put_demand(writer: &mut Writer, demand: &Demand) -> Result<(), AllocError>
    ensures { PutsFields result writer.old writer.new
        (demand_fields (separation_of demand.now) (forbidden_of demand.now)) }
{
    let forbidden = demand.forbidden();
    if forbidden.is_empty() {
        return put_separation(writer, demand.separation());
    }
    put_patterns(writer, "forbid", forbidden)
}
