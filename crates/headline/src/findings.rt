//! Compiling, running and judging in one call.
ghost use Rattle.std.specs.Prelude.{◌≡◌, ◌↔◌, IfOk, IfErr, OnOk, length};
ghost use Rattle.round_eval.specs.Shapes.{IsOfShape};
ghost use Rattle.table_fill.specs.ProgramTables.{table_of};
ghost use Rattle.shared_memo.specs.Workers.{IsWorkerCount};
ghost use Rattle.border_exchange.specs.SegmentCounts.{IsSegmentCount};
ghost use Rattle.headline.specs.Headline.{IsHeadline, TableAgrees};
ghost use Rattle.ring_exec.specs.declared.fault.RunFault.{RunFault};

use channel_tables::Table;
use lang_check::Plan;
use nbhd_check::{Separation, Verdict, judge};
use node_program::MAX_THREADS;
use ring_exec::{MAX_SEGMENTS, RunFault, run};
use round_eval::Gate;
use shared_memo::Memo;
use std::alloc::Global;
use std::sync::Wait;
use std::thread::Threads;
use table_fill::{FillFault, compile};
use win_index::Ring;

/// The results of compiling, running and judging a plan's program.
#[derive(Drop)]
pub struct Findings {
    /// The table of the program: a channel for each window.
    pub table: Table,
    /// The channels of the ring's places, from place 0 on, from the run by messages.
    pub channels: Vec<u32>,
    /// Whether channels are far enough apart on every ring, judged by the table.
    pub verdict: Verdict,
}

/// Why there are no findings.
#[derive(Clone, Copy, Debug, PartialEq, Eq)]
pub enum FindingsFault {
    /// The table was not compiled.
    Table(FillFault),
    /// The ring was not run.
    Run(RunFault),
    /// Memory for the memo or for the judge's ring was refused.
    OutOfMemory,
}

/// Compiles a plan's program to its table, runs it on a ring by messages, and judges the table. Its
/// contract is the headline: for every accepted program, every ring, every separation and every
/// number of workers and segments, the channel of the table at each window of every ring, and the
/// channel of the run at each place, are the channel of synchronous rounds (Linial 1992); and the
/// judge says yes exactly if channels differ by at least near at neighbours and far at distance two
/// on every ring, of `2t+3` and more nodes where far is not 0. The ring must have the plan's shape.
///
/// Fails with `Table` and `WorkersOutOfRange` exactly if `workers` is not 1 to `MAX_THREADS`, which
/// is checked first, and with `Run` and `SegmentsOutOfRange` exactly if else `segments` is not 1 to
/// `MAX_SEGMENTS` or is above the number of places. After these checks it fails with `Table` if the
/// table was not compiled, with `Run` if the ring was not run, and with `OutOfMemory` if memory for
/// the memo or for the judge's ring was refused.
pub fn compile_run_and_judge<'a, R: Threads + Wait + Sync, G: Gate + Sync>(
    rt: &'a R,
    alloc: Global,
    plan: &'a Plan,
    ring: &'a Ring,
    separation: Separation,
    workers: u32,
    segments: u32,
    gate: &'a G,
) -> Result<Findings, FindingsFault>
    requires shape { IsOfShape ring.now plan.now }
    ensures headline { IfOk result
        (λ found. IsHeadline plan.now.program plan.now.ids separation ring.now.places found.channels.items
        found.table found.verdict) }
    ensures in_range { OnOk result (IsWorkerCount workers × IsSegmentCount segments (length ring.now.places)) }
    ensures workers { IfErr result (λ fault. (fault ≡ FindingsFault.Table FillFault.WorkersOutOfRange)
        ↔ (¬ IsWorkerCount workers)) }
    ensures segments { IfErr result (λ fault. (fault ≡ FindingsFault.Run RunFault.SegmentsOutOfRange)
        ↔ (IsWorkerCount workers × ¬ IsSegmentCount segments (length ring.now.places))) }
{
    in_range(ring, workers, segments)?;
    let table = compiled(rt, alloc, plan, workers, gate)?;
    let channels = match run(rt, alloc, plan, ring, segments, gate) {
        Ok(channels) => channels,
        Err(fault) => return Err(FindingsFault::Run(fault)),
    };
    let Ok(verdict) = judge(rt, alloc, &table, separation) else {
        return Err(FindingsFault::OutOfMemory);
    };
    Ok(Findings {
        table,
        channels,
        verdict,
    })
}

// Checks that a table can be compiled by this many workers, and the ring be run in this many
// segments.
fn in_range(ring: &Ring, workers: u32, segments: u32) -> Result<(), FindingsFault>
    ensures ok { OnOk result (IsWorkerCount workers × IsSegmentCount segments (length ring.now.places)) }
    ensures workers { IfErr result (λ fault. (fault ≡ FindingsFault.Table FillFault.WorkersOutOfRange)
        ↔ (¬ IsWorkerCount workers)) }
    ensures segments { IfErr result (λ fault. (fault ≡ FindingsFault.Run RunFault.SegmentsOutOfRange)
        ↔ (IsWorkerCount workers × ¬ IsSegmentCount segments (length ring.now.places))) }
{
    if workers < 1 || workers > MAX_THREADS {
        return Err(FindingsFault::Table(FillFault::WorkersOutOfRange));
    }
    if segments < 1 || segments > MAX_SEGMENTS || segments > ring.len() {
        return Err(FindingsFault::Run(RunFault::SegmentsOutOfRange));
    }
    Ok(())
}

// Returns the table of a plan's program, from a memo of its own.
fn compiled<R: Threads + Wait + Sync, G: Gate + Sync>(
    rt: &R,
    alloc: Global,
    plan: &Plan,
    workers: u32,
    gate: &G,
) -> Result<Table, FindingsFault>
    ensures table { IfOk result (λ table. table ≡ table_of plan.now.program plan.now.ids) }
    ensures agrees { IfOk result (TableAgrees plan.now.program plan.now.ids) }
    ensures in_range { OnOk result (IsWorkerCount workers) }
    ensures workers { IfErr result (λ fault. fault ≡ FindingsFault.Table FillFault.WorkersOutOfRange
        → ¬ IsWorkerCount workers) }
    ensures no_run { IfErr result (λ fault. (why : RunFault) → ¬ fault ≡ FindingsFault.Run why) }
{
    let Ok(memo) = Memo::new(alloc, plan) else {
        return Err(FindingsFault::OutOfMemory);
    };
    let Ok(mut pass) = memo.pass(alloc) else {
        return Err(FindingsFault::OutOfMemory);
    };
    match compile(rt, alloc, plan, &memo, &mut pass, workers, gate) {
        Ok(table) => Ok(table),
        Err(fault) => Err(FindingsFault::Table(fault)),
    }
}
