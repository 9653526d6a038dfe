//! The report of a task. The task is done on the program of a program text, if the program is
//! accepted, on the table and the separation of a table text, or on a formula.

ghost use Rattle.std.specs.Prelude.{◌≡◌, IfOk, IfErr, Some, None};
ghost use Rattle.plan_print.specs.TaskReport.{program_ids, IsAnswerTo, IsReport, IsTextReport};
ghost use Rattle.plan_print.specs.Engine.{thread_count_of, IsTaskFault};
ghost use Rattle.reports.specs.Findings.{value_of};
ghost use Rattle.reports.specs.Report.{IsProgramReport};
ghost use Rattle.task_words.specs.Task.{IsRunnable};

use crate::answer::{filled_table, judge_report, plan_answer, run_answer};
use devices::fault::EngineFault;
use lang_check::Plan;
use nbhd_check::Separation;
use node_program::OutOfMemory;
use reports::finding::{Finding, TableReport};
use reports::formulas::{formula_report, refute_report};
use reports::problem::ProblemNumbers;
use reports::rings::{explain_answer, trace_answer};
use reports::texts::{
    apply_report, audit_text_report, check_answer, migrate_report, plan_in, print_report,
};
use std::alloc::Global;
use std::sync::Wait;
use std::thread::Threads;
use task_words::task::Task;

// Returns the report of a task on an input.
pub(crate) fn report_of<T: Threads + Wait + Sync>(
    rt: &T,
    alloc: Global,
    task: Task,
    input: &[u8],
) -> Result<Finding, EngineFault>
    requires { IsRunnable task }
    ensures report { IfOk result (λ f. IsReport task input.now (value_of f)) }
    ensures fault { IfErr result (IsTaskFault (thread_count_of task)) }
{
    match program_ids(&task) {
        Some(ids) => program_report(rt, alloc, task, ids, input),
        None => Ok(text_report(rt, alloc, task, input)?),
    }
}

// Returns the number of identifiers for which the task asks about an accepted program, or `None` if
// it asks about none.
fn program_ids(task: &Task) -> Option<u32>
    ensures { result ≡ program_ids task.now }
{
    match task {
        Task::Check { ids }
        | Task::Table { ids, .. }
        | Task::Judge { ids, .. }
        | Task::Run { ids, .. }
        | Task::Trace { ids, .. }
        | Task::Explain { ids, .. }
        | Task::Plan { ids, .. } => Some(*ids),
        Task::Print
        | Task::Audit { .. }
        | Task::Apply { .. }
        | Task::Migrate
        | Task::Formula { .. }
        | Task::Refute { .. } => None,
    }
}

// Returns the report of a task that asks about an accepted program: the refusal of the program text
// for `ids` identifiers, or the answer.
fn program_report<T: Threads + Wait + Sync>(
    rt: &T,
    alloc: Global,
    task: Task,
    ids: u32,
    input: &[u8],
) -> Result<Finding, EngineFault>
    requires runnable { IsRunnable task }
    requires ids { program_ids task ≡ Some ids }
    ensures report { IfOk result (λ f. IsProgramReport ids (IsAnswerTo task ids) input.now (value_of f)) }
    ensures fault { IfErr result (IsTaskFault (thread_count_of task)) }
{
    match plan_in(alloc, input, ids)? {
        Ok(plan) => program_answer(rt, alloc, task, plan),
        Err(fault) => Ok(Finding::Refused(fault)),
    }
}

// Returns the answer of a task about an accepted program, by its plan.
fn program_answer<T: Threads + Wait + Sync>(
    rt: &T,
    alloc: Global,
    task: Task,
    plan: Plan,
) -> Result<Finding, EngineFault>
    requires runnable { IsRunnable task }
    requires ids { program_ids task ≡ Some plan.ids }
    ensures answer { IfOk result (λ f. IsAnswerTo task plan.ids plan.program (value_of f)) }
    ensures fault { IfErr result (IsTaskFault (thread_count_of task)) }
{
    match task {
        Task::Check { .. } => Ok(check_answer(&plan)),
        Task::Table {
            workers,
            near,
            far,
            ..
        } => {
            let table = filled_table(rt, alloc, &plan, workers)?;
            let separation = Separation { near, far };
            Ok(Finding::Table(TableReport {
                table,
                separation,
                workers,
            }))
        }
        Task::Judge {
            workers,
            demand,
            ..
        } => judge_report(rt, alloc, &plan, demand, workers),
        Task::Run { ring, segments, .. } => run_answer(rt, alloc, &plan, ring, segments),
        Task::Trace { ring, base, .. } => Ok(trace_answer(base, plan, ring)),
        Task::Explain {
            ring,
            place,
            base,
            ..
        } => Ok(explain_answer(base, plan, ring, place)),
        Task::Plan { ring, workers, .. } => plan_answer(rt, alloc, &plan, ring, workers),
        _ => unreachable!(),
    }
}

// Returns the report of a task that asks about no accepted program.
fn text_report<T: Threads + Sync>(
    rt: &T,
    alloc: Global,
    task: Task,
    input: &[u8],
) -> Result<Finding, OutOfMemory>
    requires runnable { IsRunnable task }
    requires none { program_ids task ≡ None }
    ensures { IfOk result (λ f. IsTextReport task input.now (value_of f)) }
{
    match task {
        Task::Print => print_report(alloc, input),
        Task::Audit { problem } => audit_text_report(rt, alloc, problem, input),
        Task::Apply { ring } => apply_report(alloc, input, ring),
        Task::Migrate => migrate_report(alloc, input),
        Task::Formula {
            ids,
            rounds,
            channels,
            demand,
        } => formula_report(
            alloc,
            ProblemNumbers {
                ids,
                rounds,
                channels,
                demand,
            },
        ),
        Task::Refute {
            ids,
            rounds,
            channels,
            demand,
        } => refute_report(
            alloc,
            ProblemNumbers {
                ids,
                rounds,
                channels,
                demand,
            },
            input,
        ),
        _ => unreachable!(),
    }
}
