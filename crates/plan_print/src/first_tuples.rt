//! The first tuples of a program's table, judged before the table is filled: a program that fails at
//! one of them is refused at once.
use channel_tables::{Separation, Tuples, Witness};
use lang_check::Plan;
use node_program::OutOfMemory;
use std::alloc::Global;
use table_fill::ProgramWindows;

/// The number of tuples that are judged before a table is filled.
pub(crate) const FIRST_TUPLES: u64 = 64;

ghost use Rattle.std.specs.Prelude.{IfOk, IfSome, IfNone, OnErr};
ghost use Rattle.channel_tables.specs.Apart.{IsApartEverywhere, NoneIsBad};
ghost use Rattle.channel_tables.specs.Witnesses.{IsWitness};
ghost use Rattle.plan_print.specs.FirstTuples.{plan_table, first_count, IsFirstBad};

/// Judges the first `FIRST_TUPLES` tuples of the table of a plan's program, in order, by rounds on
/// their windows. Returns the witness of the judge's no exactly if one of them breaks the
/// separation, else `None`.
///
/// Fails if memory for the witness was refused.
pub(crate) fn first_witness(
    alloc: Global,
    plan: &Plan,
    separation: Separation,
) -> Result<Option<Witness>, OutOfMemory>
    ensures witness { IfOk result (λ found. IfSome found (λ witness. IsWitness (plan_table plan.now) separation
        witness.ring.items witness.places witness.channels)) }
    ensures first { IfOk result (λ found. IfSome found (λ witness. IsFirstBad plan.now separation witness.ring.items)) }
    ensures none { IfOk result
        (λ found. IfNone found (NoneIsBad (plan_table plan.now) separation 0 (first_count plan.now separation))) }
    ensures memory { OnErr result (¬ IsApartEverywhere (plan_table plan.now) separation) }
{
    let windows = ProgramWindows { plan };
    let tuples = Tuples {
        windows: &windows,
        separation,
    };
    let count = tuples.count().min(FIRST_TUPLES);
    match tuples.least_bad(0, count) {
        None => Ok(None),
        Some(number) => Ok(Some(tuples.witness(alloc, number)?)),
    }
}
