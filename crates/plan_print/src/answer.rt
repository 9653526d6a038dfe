//! The reports of the tasks on a program that need its table or a run.

ghost use Rattle.std.specs.Prelude.{◌≡◌, length, IfOk, IfErr};
ghost use Rattle.round_eval.specs.Shapes.{IsOfShape};
ghost use Rattle.table_fill.specs.ProgramTables.{table_of};
ghost use Rattle.task_words.specs.Counts.{IsCount};
ghost use Rattle.plan_print.specs.Engine.{IsTaskFault};
ghost use Rattle.plan_print.specs.ReportedFaults.{reported_fill_fault, reported_run_fault};
ghost use Rattle.node_program.specs.GlobalRounds.{channels_of};
ghost use Rattle.reports.specs.Findings as value;
ghost use Rattle.reports.specs.Findings.{value_of};
ghost use Rattle.reports.specs.Report.{Finds, IsAnswerOnRing, IsDemandJudgement, IsJudgement};
ghost use Rattle.reports.specs.Report.{IsProblemJudgement, IsRunAnswer};

use crate::first_broken::first_broken;
use crate::first_tuples::first_witness;
use crate::ring_channels::plan_channels;
use channel_tables::Table;
use devices::fault::EngineFault;
use lang_check::Plan;
use nbhd_check::{Separation, judge_problem_with_workers, judge_with_workers};
use reports::finding::{Answer, Finding};
use reports::judgement::verdict_answer;
use reports::problem_judgement::{broken_answer, problem_answer};
use reports::rings::{ring_in, segments_refusal};
use ring_exec::{RunFault, run};
use ring_problems::{Demand, Problem};
use round_eval::OpenGate;
use shared_memo::Memo;
use std::alloc::Global;
use std::sync::Wait;
use std::thread::Threads;
use table_fill::{FillFault, compile};
use win_index::Ring;

// Returns the report of a run on a list of identifiers in this many segments.
pub(crate) fn run_answer<T: Threads + Wait + Sync>(
    rt: &T,
    alloc: Global,
    plan: &Plan,
    ids: Vec<u32>,
    segments: u32,
) -> Result<Finding, EngineFault>
    ensures answer { IfOk result (λ f. IsAnswerOnRing plan.now.ids (length plan.now.program.steps) ids.items
        (IsRunAnswer plan.now.program ids.items segments) (value_of f)) }
    ensures fault { IfErr result (IsTaskFault segments) }
{
    match ring_in(plan, ids) {
        Ok(ring) => channels_answer(rt, alloc, plan, &ring, segments),
        Err(fault) => Ok(Finding::Refused(fault)),
    }
}

// Returns the report of a run on a ring in this many segments.
fn channels_answer<T: Threads + Wait + Sync>(
    rt: &T,
    alloc: Global,
    plan: &Plan,
    ring: &Ring,
    segments: u32,
) -> Result<Finding, EngineFault>
    requires shape { IsOfShape ring.now plan.now }
    ensures answer { IfOk result (λ f. IsRunAnswer plan.now.program ring.now.places segments (value_of f)) }
    ensures fault { IfErr result (IsTaskFault segments) }
{
    match run(rt, alloc, plan, ring, segments, &OpenGate) {
        Ok(channels) => Ok(Finding::Answer(Answer::Channels(channels))),
        Err(fault) => match fault_of_run(fault) {
            Some(fault) => Err(fault),
            None => Ok(segments_refusal(segments, ring)),
        },
    }
}

// Returns the engine's fault for this fault of a run, or `None` if the report covers it.
fn fault_of_run(fault: RunFault) -> Option<EngineFault>
    ensures { result ≡ reported_run_fault fault }
{
    match fault {
        RunFault::SegmentsOutOfRange => None,
        RunFault::OutOfMemory => Some(EngineFault::Memory),
        RunFault::Stranger => Some(EngineFault::Stranger),
        RunFault::NoThread => Some(EngineFault::Thread),
    }
}

// Returns the report of a plan for a list of identifiers, by the table that this many workers fill.
pub(crate) fn plan_answer<T: Threads + Wait + Sync>(
    rt: &T,
    alloc: Global,
    plan: &Plan,
    ids: Vec<u32>,
    workers: u32,
) -> Result<Finding, EngineFault>
    requires { IsCount workers }
    ensures answer { IfOk result (λ f. IsAnswerOnRing plan.now.ids (length plan.now.program.steps) ids.items
        (Finds (value.places ids.items (channels_of plan.now.program ids.items))) (value_of f)) }
    ensures fault { IfErr result (IsTaskFault workers) }
{
    match ring_in(plan, ids) {
        Ok(ring) => {
            let table = filled_table(rt, alloc, plan, workers)?;
            let channels = plan_channels(alloc, plan, &table, &ring)?;
            Ok(Finding::Answer(Answer::Places(ring, channels)))
        }
        Err(fault) => Ok(Finding::Refused(fault)),
    }
}

// Returns the report of the judge on the table of an accepted program. If one of its first tuples is
// bad, no table is made; else this many workers fill and judge the table.
pub(crate) fn judge_report<T: Threads + Wait + Sync>(
    rt: &T,
    alloc: Global,
    plan: &Plan,
    demand: Demand,
    workers: u32,
) -> Result<Finding, EngineFault>
    requires { IsCount workers }
    ensures answer { IfOk result (λ f. IsDemandJudgement (table_of plan.now.program plan.now.ids) demand (value_of f)) }
    ensures fault { IfErr result (IsTaskFault workers) }
{
    match demand {
        Demand::Apart(separation) => apart_report(rt, alloc, plan, separation, workers),
        Demand::Solve(problem) => problem_report(rt, alloc, plan, &problem, workers),
    }
}

// Like `judge_report`, on a problem.
fn problem_report<T: Threads + Wait + Sync>(
    rt: &T,
    alloc: Global,
    plan: &Plan,
    problem: &Problem,
    workers: u32,
) -> Result<Finding, EngineFault>
    requires { IsCount workers }
    ensures answer { IfOk result
        (λ f. IsProblemJudgement (table_of plan.now.program plan.now.ids) problem.now (value_of f)) }
    ensures fault { IfErr result (IsTaskFault workers) }
{
    if let Some(witness) = first_broken(alloc, plan, problem.patterns())? {
        return Ok(broken_answer(plan.channels(), problem, witness));
    }
    let table = filled_table(rt, alloc, plan, workers)?;
    let verdict = judge_problem_with_workers(rt, alloc, &table, problem.patterns(), workers)?;
    Ok(problem_answer(&table, problem, verdict))
}

// Like `judge_report`, on a separation.
fn apart_report<T: Threads + Wait + Sync>(
    rt: &T,
    alloc: Global,
    plan: &Plan,
    separation: Separation,
    workers: u32,
) -> Result<Finding, EngineFault>
    requires { IsCount workers }
    ensures answer { IfOk result (λ f. IsJudgement (table_of plan.now.program plan.now.ids) separation (value_of f)) }
    ensures fault { IfErr result (IsTaskFault workers) }
{
    if let Some(witness) = first_witness(alloc, plan, separation)? {
        return Ok(Finding::Answer(Answer::No(separation, witness)));
    }
    let table = filled_table(rt, alloc, plan, workers)?;
    let verdict = judge_with_workers(rt, alloc, &table, separation, workers)?;
    Ok(verdict_answer(&table, separation, verdict))
}

// Returns the table of an accepted program, which this many workers fill. The memo that it is filled
// from is dropped.
#[tactic(auto, using(crate::proofs::Workers::worker_count))]
pub(crate) fn filled_table<T: Threads + Wait + Sync>(
    rt: &T,
    alloc: Global,
    plan: &Plan,
    workers: u32,
) -> Result<Table, EngineFault>
    requires { IsCount workers }
    ensures table { IfOk result (λ table. table ≡ table_of plan.now.program plan.now.ids) }
    ensures fault { IfErr result (IsTaskFault workers) }
{
    let memo = Memo::new(alloc, plan)?;
    let mut pass = memo.pass(alloc)?;
    match compile(rt, alloc, plan, &memo, &mut pass, workers, &OpenGate) {
        Ok(table) => Ok(table),
        Err(fault) => match fault_of_filling(fault) {
            Some(fault) => Err(fault),
            None => unreachable!(),
        },
    }
}

// Returns the engine's fault for this fault of a filling, or `None` if the number of workers is out
// of range.
fn fault_of_filling(fault: FillFault) -> Option<EngineFault>
    ensures { result ≡ reported_fill_fault fault }
{
    match fault {
        FillFault::WorkersOutOfRange => None,
        FillFault::OutOfMemory => Some(EngineFault::Memory),
        FillFault::Stranger => Some(EngineFault::Stranger),
        FillFault::NoThread => Some(EngineFault::Thread),
    }
}
