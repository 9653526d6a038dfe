//! The judge's calls, and its verdict.
use crate::least::least_of_all;
use channel_tables::{Separation, Table, Tuples, Witness};
use node_program::OutOfMemory;
use rayon::current_num_threads;
use std::alloc::Global;
use std::thread::Threads;

/// The verdict of the judge.
#[derive(Debug, PartialEq, Eq, Drop)]
pub enum Verdict {
    /// On every ring the channels are as far apart as the separation requires.
    Yes,
    /// The channels of two places of a ring are closer.
    No(Witness),
}

ghost use Rattle.std.specs.Prelude.{◌≡◌, ◌↔◌, IfOk, OnErr};
ghost use Rattle.channel_tables.specs.Apart.{IsApartEverywhere};
ghost use Rattle.nbhd_check.specs.Verdicts.{IsVerdict};

/// Judges whether channels are as far apart as the separation requires on every ring of the table's
/// shape, of at least `2t+3` nodes if far is not 0. At most as many threads judge as there are
/// processors.
///
/// `No` has the least tuple that breaks the separation, as a ring, and the places `t` and `t+1` for
/// `t` rounds if these are too close, else `t` and `t+2`, with their channels. The verdict is `Yes`
/// if there is no ring of that length.
///
/// Fails with `OutOfMemory` if memory for the ring was refused, which happens only if the verdict
/// is no.
pub fn judge<R: Threads + Sync>(
    rt: &R,
    alloc: Global,
    table: &Table,
    separation: Separation,
) -> Result<Verdict, OutOfMemory>
    ensures verdict { IfOk result (IsVerdict table.now separation) }
    ensures yes { IfOk result (λ verdict. (verdict ≡ Verdict.Yes) ↔ IsApartEverywhere table.now separation) }
    ensures memory { OnErr result (¬ IsApartEverywhere table.now separation) }
{
    let workers = u32::try_from(current_num_threads(rt)).unwrap_or(u32::MAX);
    judge_with_workers(rt, alloc, table, separation, workers)
}

/// Does the same as `judge` with at most `workers` threads. If that is 0 or 1, only the calling
/// thread judges.
pub fn judge_with_workers<R: Threads + Sync>(
    rt: &R,
    alloc: Global,
    table: &Table,
    separation: Separation,
    workers: u32,
) -> Result<Verdict, OutOfMemory>
    ensures verdict { IfOk result (IsVerdict table.now separation) }
    ensures yes { IfOk result (λ verdict. (verdict ≡ Verdict.Yes) ↔ IsApartEverywhere table.now separation) }
    ensures memory { OnErr result (¬ IsApartEverywhere table.now separation) }
{
    let tuples = Tuples {
        windows: table,
        separation,
    };
    match least_of_all(rt, alloc, tuples, workers) {
        None => Ok(Verdict::Yes),
        Some(number) => Ok(Verdict::No(tuples.witness(alloc, number)?)),
    }
}
