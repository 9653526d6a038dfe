//! What is found on program texts and on table texts. Each call fails only if memory was refused.

ghost use Rattle.std.specs.Prelude.{◌≡◌, IfOk, MatchResult};
ghost use Rattle.node_lang.specs.Grammar.{Reads};
ghost use Rattle.lang_check.specs.Acceptance.{IsAccepted};
ghost use Rattle.table_text.specs.LineForms.{IsSeparation};
ghost use Rattle.table_text.specs.Texts.{IsTextOf};
ghost use Rattle.reports.specs.Findings.{fault_of, value_of};
ghost use Rattle.reports.specs.Report.{numbers_of, IsApplyAnswer, IsAudit, IsPrintReport, IsProgramRefusal};
ghost use Rattle.reports.specs.Report.{IsTableRefusal, IsTableReport, IsTableText, IsTextRefusal};

use crate::fault::Fault;
use crate::finding::{Answer, Finding, TableReport};
use crate::judgement::audit_report;
use crate::problem_judgement::audit_problem_report;
use crate::rings::apply_answer;
use channel_tables::Table;
use lang_check::{Plan, accept};
use nbhd_check::Separation;
use node_lang::{FaultKind, Program, parse};
use node_program::OutOfMemory;
use ring_problems::Problem;
use std::alloc::Global;
use std::thread::Threads;
use table_text::{TableFault, read_table};

/// Returns what a check finds.
pub fn check_answer(plan: &Plan) -> Finding
    ensures { value_of result ≡ numbers_of plan.now.ids plan.now.program }
{
    let shape = plan.shape();
    let rounds = shape.rounds();
    Finding::Answer(Answer::Accepted {
        ids: shape.ids(),
        rounds,
        channels: plan.channels(),
        bound: plan.bound(),
        windows: shape.count(rounds),
    })
}

/// Returns the program of a program text.
pub fn print_report(alloc: Global, input: &[u8]) -> Result<Finding, OutOfMemory>
    ensures { IfOk result (λ f. IsPrintReport input.now (value_of f)) }
{
    match program_in(alloc, input)? {
        Ok(program) => Ok(Finding::Answer(Answer::Program(program))),
        Err(fault) => Ok(Finding::Refused(fault)),
    }
}

/// Returns what the judge finds on a table text: on the problem, or if there is none, on the text's
/// separation.
pub fn audit_text_report<T: Threads + Sync>(
    rt: &T,
    alloc: Global,
    problem: Option<Problem>,
    input: &[u8],
) -> Result<Finding, OutOfMemory>
    ensures { IfOk result (λ f. IsTableReport (IsAudit problem) input.now (value_of f)) }
{
    match table_in(alloc, input)? {
        Ok((table, separation)) => audit_answer(rt, alloc, &table, separation, problem),
        Err(fault) => Ok(Finding::Refused(fault)),
    }
}

// Returns what the judge finds on a table: on the problem, or if there is none, on the separation.
fn audit_answer<T: Threads + Sync>(
    rt: &T,
    alloc: Global,
    table: &Table,
    separation: Separation,
    problem: Option<Problem>,
) -> Result<Finding, OutOfMemory>
    ensures { IfOk result (λ f. IsAudit problem table.now separation (value_of f)) }
{
    match problem {
        None => audit_report(rt, alloc, table, separation),
        Some(problem) => audit_problem_report(rt, alloc, table, &problem),
    }
}

/// Returns the channels of a list of identifiers by the table of a table text.
pub fn apply_report(alloc: Global, input: &[u8], ids: Vec<u32>) -> Result<Finding, OutOfMemory>
    ensures { IfOk result (λ f. IsTableReport (IsApplyAnswer ids.items) input.now (value_of f)) }
{
    match table_in(alloc, input)? {
        Ok((table, _separation)) => apply_answer(alloc, &table, ids),
        Err(fault) => Ok(Finding::Refused(fault)),
    }
}

/// Returns the table and the separation of a table text.
pub fn migrate_report(alloc: Global, input: &[u8]) -> Result<Finding, OutOfMemory>
    ensures { IfOk result (λ f. IsTableReport IsTableText input.now (value_of f)) }
{
    match table_in(alloc, input)? {
        Ok((table, separation)) => Ok(Finding::Table(TableReport {
            table,
            separation,
            workers: 1,
        })),
        Err(fault) => Ok(Finding::Refused(fault)),
    }
}

/// Returns the plan of the program text for `ids` identifiers, or why it is refused.
pub fn plan_in(alloc: Global, input: &[u8], ids: u32) -> Result<Result<Plan, Fault>, OutOfMemory>
    ensures { IfOk result (λ r. MatchResult r
        (λ plan. (plan.ids ≡ ids) × Reads input.now plan.program × IsAccepted ids plan.program)
        (λ fault. IsProgramRefusal ids input.now (fault_of fault))) }
{
    match program_in(alloc, input)? {
        Ok(program) => match accept(program, ids) {
            Ok(plan) => Ok(Ok(plan)),
            Err((program, fault)) => Ok(Err(Fault::Program {
                program,
                ids,
                fault,
            })),
        },
        Err(fault) => Ok(Err(fault)),
    }
}

// Returns the program of the program text, or why it is refused.
fn program_in(alloc: Global, input: &[u8]) -> Result<Result<Program, Fault>, OutOfMemory>
    ensures { IfOk result (λ r. MatchResult r (Reads input.now) (λ fault. IsTextRefusal input.now (fault_of fault))) }
{
    match parse(alloc, input) {
        Ok(program) => Ok(Ok(program)),
        Err(fault) => match fault.kind {
            FaultKind::OutOfMemory => Err(OutOfMemory),
            _ => Ok(Err(Fault::Text(fault))),
        },
    }
}

// Returns the table and the separation of the table text, or why it is refused.
fn table_in(alloc: Global, input: &[u8]) -> Result<Result<(Table, Separation), Fault>, OutOfMemory>
    ensures { IfOk result (λ r. MatchResult r
        (λ read. IsTextOf input.now read.0 read.1 × IsSeparation read.1)
        (λ fault. IsTableRefusal input.now (fault_of fault))) }
{
    match read_table(alloc, input) {
        Ok(read) => Ok(Ok(read)),
        Err(TableFault::OutOfMemory) => Err(OutOfMemory),
        Err(fault) => Ok(Err(Fault::TableText(fault))),
    }
}
