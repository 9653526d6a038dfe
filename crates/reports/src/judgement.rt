//! What the judge finds on a table. Each call fails only if memory was refused.

ghost use Rattle.std.specs.Prelude.{◌≡◌, IfOk};
ghost use Rattle.nbhd_check.specs.Verdicts.{IsVerdict};
ghost use Rattle.reports.specs.Findings.{value_of};
ghost use Rattle.reports.specs.Report.{yes_of, IsJudgement};

use crate::finding::{Answer, Finding};
use channel_tables::Table;
use nbhd_check::{Separation, Tuples, Verdict, judge};
use node_program::OutOfMemory;
use std::alloc::Global;
use std::thread::Threads;

/// Returns the finding of this verdict on the table.
pub fn verdict_answer(table: &Table, separation: Separation, verdict: Verdict) -> Finding
    requires { IsVerdict table.now separation verdict }
    ensures { IsJudgement table.now separation (value_of result) }
{
    match verdict {
        Verdict::Yes => yes_answer(table, separation),
        Verdict::No(witness) => Finding::Answer(Answer::No(separation, witness)),
    }
}

// Returns the finding of a yes on the table.
fn yes_answer(table: &Table, separation: Separation) -> Finding
    ensures { value_of result ≡ yes_of table.now separation }
{
    let tuples = Tuples {
        windows: table,
        separation,
    };
    Finding::Answer(Answer::Yes {
        tuples: tuples.count(),
        nodes: tuples.len(),
        ids: table.shape().ids(),
    })
}

// Returns what the judge finds on a table, by at most as many threads as there are processors.
pub(crate) fn audit_report<T: Threads + Sync>(
    rt: &T,
    alloc: Global,
    table: &Table,
    separation: Separation,
) -> Result<Finding, OutOfMemory>
    ensures { IfOk result (λ f. IsJudgement table.now separation (value_of f)) }
{
    let verdict = judge(rt, alloc, table, separation)?;
    Ok(verdict_answer(table, separation, verdict))
}
