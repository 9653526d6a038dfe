//! The judge's calls for problems, and its verdict.
use crate::problem_least::least_of_problem;
use channel_tables::Table;
use node_program::OutOfMemory;
use rayon::current_num_threads;
use ring_problems::{Pattern, PatternWitness, ProblemTuples};
use std::alloc::Global;
use std::thread::Threads;

/// The verdict of the judge on a problem.
#[derive(Debug, PartialEq, Eq, Drop)]
pub enum ProblemVerdict {
    /// The table solves the problem on every ring.
    Yes,
    /// It breaks it on a ring.
    No(PatternWitness),
}

ghost use Rattle.std.specs.Prelude.{◌≡◌, ◌↔◌, IfOk, OnErr};
ghost use Rattle.ring_problems.specs.Problems.{IsSolvedEverywhere};
ghost use Rattle.nbhd_check.specs.ProblemVerdicts.{IsVerdict};

/// Judges whether a table solves a problem on every ring of its shape: whether no pattern matches the
/// channels of any place and of the two after it. At most as many threads judge as there are
/// processors.
///
/// `No` has the ring of the least tuple that a pattern matches, with place `t` for `t` rounds, the
/// channels of this place and of the two after it, and the first pattern that they match.
///
/// Fails with `OutOfMemory` if memory for the ring was refused, which happens only if the verdict
/// is no.
pub fn judge_problem<'t, R: Threads + Sync>(
    rt: &R,
    alloc: Global,
    table: &'t Table,
    problem: &'t [Pattern],
) -> Result<ProblemVerdict, OutOfMemory>
    ensures verdict { IfOk result (IsVerdict table.now problem.now) }
    ensures yes { IfOk result (λ verdict. (verdict ≡ ProblemVerdict.Yes) ↔ IsSolvedEverywhere table.now problem.now) }
    ensures memory { OnErr result (¬ IsSolvedEverywhere table.now problem.now) }
{
    let workers = u32::try_from(current_num_threads(rt)).unwrap_or(u32::MAX);
    judge_problem_with_workers(rt, alloc, table, problem, workers)
}

/// Does the same as `judge_problem` with at most `workers` threads. If that is 0 or 1, only the
/// calling thread judges.
pub fn judge_problem_with_workers<'t, R: Threads + Sync>(
    rt: &R,
    alloc: Global,
    table: &'t Table,
    problem: &'t [Pattern],
    workers: u32,
) -> Result<ProblemVerdict, OutOfMemory>
    ensures verdict { IfOk result (IsVerdict table.now problem.now) }
    ensures yes { IfOk result (λ verdict. (verdict ≡ ProblemVerdict.Yes) ↔ IsSolvedEverywhere table.now problem.now) }
    ensures memory { OnErr result (¬ IsSolvedEverywhere table.now problem.now) }
{
    let tuples = ProblemTuples {
        windows: table,
        problem,
    };
    match least_of_problem(rt, alloc, tuples, workers) {
        None => Ok(ProblemVerdict::Yes),
        Some(number) => Ok(ProblemVerdict::No(tuples.witness(alloc, number)?)),
    }
}
