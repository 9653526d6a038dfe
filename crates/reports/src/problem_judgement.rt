//! What the judge finds on a table and a problem.

ghost use Rattle.std.specs.Prelude.{◌≡◌, IfOk, length};
ghost use Rattle.ring_problems.specs.Demands.{patterns_of};
ghost use Rattle.ring_problems.specs.Idle.{idle_in};
ghost use Rattle.ring_problems.specs.Problems.{tuples};
ghost use Rattle.nbhd_check.specs.ProblemVerdicts.{IsVerdict};
ghost use Rattle.reports.specs.Findings as value;
ghost use Rattle.reports.specs.Findings.{value_of};
ghost use Rattle.reports.specs.Report.{IsProblemJudgement, broken_of};

use crate::finding::{Answer, Finding};
use channel_tables::Table;
use nbhd_check::{PatternWitness, ProblemTuples, ProblemVerdict, judge_problem};
use node_program::OutOfMemory;
use ring_problems::{Problem, first_idle};
use std::alloc::Global;
use std::thread::Threads;

/// Returns the finding of this verdict on the table.
pub fn problem_answer(table: &Table, problem: &Problem, verdict: ProblemVerdict) -> Finding
    requires { IsVerdict table.now (patterns_of problem.now) verdict }
    ensures { IsProblemJudgement table.now problem.now (value_of result) }
{
    match verdict {
        ProblemVerdict::Yes => solved_answer(table, problem),
        ProblemVerdict::No(witness) => broken_answer(table.channels(), problem, witness),
    }
}

/// Returns the finding of a no with this witness, for a table with this many channels.
pub fn broken_answer(channels: u32, problem: &Problem, witness: PatternWitness) -> Finding
    ensures { value_of result
        ≡ broken_of problem.now channels witness.ring.items witness.place witness.channels witness.pattern }
{
    Finding::Answer(Answer::Broken {
        witness,
        known: problem.known(),
        idle: first_idle(problem.patterns(), channels),
    })
}

// Returns the finding of a yes on the table.
fn solved_answer(table: &Table, problem: &Problem) -> Finding
    ensures { value_of result
        ≡ value.solved (length (tuples table.now (patterns_of problem.now)))
        (idle_in (patterns_of problem.now) table.now.channels) }
{
    let tuples = ProblemTuples {
        windows: table,
        problem: problem.patterns(),
    };
    Finding::Answer(Answer::Solved {
        tuples: tuples.count(),
        idle: first_idle(problem.patterns(), table.channels()),
    })
}

// Returns what the judge finds on a table and a problem, by at most as many threads as there are
// processors. Fails if memory was refused.
pub(crate) fn audit_problem_report<T: Threads + Sync>(
    rt: &T,
    alloc: Global,
    table: &Table,
    problem: &Problem,
) -> Result<Finding, OutOfMemory>
    ensures { IfOk result (λ f. IsProblemJudgement table.now problem.now (value_of f)) }
{
    let verdict = judge_problem(rt, alloc, table, problem.patterns())?;
    Ok(problem_answer(table, problem, verdict))
}
