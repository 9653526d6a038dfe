//! The first tuples of a program's table that are tested for a problem, judged before the table is
//! filled: a program that fails at one of them is refused at once.
ghost use Rattle.std.specs.Prelude.{IfOk, IfSome, IfNone, OnErr};
ghost use Rattle.ring_problems.specs.Problems.{IsSolvedEverywhere, NoneIsBad};
ghost use Rattle.ring_problems.specs.Witnesses.{IsWitness};
ghost use Rattle.plan_print.specs.FirstTuples.{first_pattern_count, plan_table, IsFirstBroken};

use crate::first_tuples::FIRST_TUPLES;
use lang_check::Plan;
use node_program::OutOfMemory;
use ring_problems::{Pattern, PatternWitness, ProblemTuples};
use std::alloc::Global;
use table_fill::ProgramWindows;

/// Judges the first `FIRST_TUPLES` tuples of the table of a plan's program for a problem, in order, by
/// rounds on their windows. Returns the witness of the judge's no exactly if a pattern matches one of
/// them, else `None`.
///
/// Fails if memory for the witness was refused.
pub(crate) fn first_broken(
    alloc: Global,
    plan: &Plan,
    problem: &[Pattern],
) -> Result<Option<PatternWitness>, OutOfMemory>
    ensures witness { IfOk result (λ found. IfSome found (λ witness. IsWitness (plan_table plan.now) problem.now
        witness.ring.items witness.place witness.channels witness.pattern)) }
    ensures first { IfOk result
        (λ found. IfSome found (λ witness. IsFirstBroken plan.now problem.now witness.ring.items)) }
    ensures none { IfOk result
        (λ found. IfNone found (NoneIsBad (plan_table plan.now) problem.now 0
        (first_pattern_count plan.now problem.now))) }
    ensures memory { OnErr result (¬ IsSolvedEverywhere (plan_table plan.now) problem.now) }
{
    let windows = ProgramWindows { plan };
    let tuples = ProblemTuples {
        windows: &windows,
        problem,
    };
    let count = tuples.count().min(FIRST_TUPLES);
    match tuples.least_bad(0, count) {
        None => Ok(None),
        Some(number) => Ok(Some(tuples.witness(alloc, number)?)),
    }
}
