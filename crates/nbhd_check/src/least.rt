//! The least bad tuple of a table: that of the first window that begins one.
ghost use Rattle.std.specs.Prelude.{◌≡◌, ℕ, ◌+◌, ◌*◌, ◌≤◌, length};
ghost use Rattle.channel_tables.specs.Tables.{windows_of, IsTable};
ghost use Rattle.nbhd_check.specs.Buckets.{AreFree, BeginsBadTuple};
ghost use Rattle.channel_tables.specs.Searches.{IsLeastOfAll};

use crate::far::far_free_windows;
use crate::near::near_free_windows;
use channel_tables::{Separation, Table, Tuples};
use std::alloc::Global;
use std::thread::Threads;

/// Returns the least number of a bad tuple, by at most `threads` threads.
pub(crate) fn least_of_all<R: Threads + Sync>(
    rt: &R,
    alloc: Global,
    tuples: Tuples<'_, Table>,
    threads: u32,
) -> Option<u64>
    ensures { IsLeastOfAll tuples.entry.windows.now tuples.entry.separation result }
{
    let first = first_windows(rt, alloc, tuples, threads);
    let count = tuples.count();
    let low = u64::from(first) * tuples.per_window();
    tuples.least_bad(low.min(count), count)
}

// Returns a number of windows such that none of the windows below it begins a bad tuple. Neighbours
// are judged first, by their masks, which takes the least time.
fn first_windows<R: Threads + Sync>(
    rt: &R,
    alloc: Global,
    tuples: Tuples<'_, Table>,
    threads: u32,
) -> u32
    ensures { AreFree tuples.entry.windows.now
        (BeginsBadTuple tuples.entry.windows.now tuples.entry.separation) 0 result }
{
    let Tuples {
        windows: table,
        separation,
    } = tuples;
    if table.shape().rounds() == 0 {
        return single_windows(tuples);
    }
    let near = near_free_windows(rt, alloc, table, separation.near, threads);
    if separation.far == 0 {
        return near.windows;
    }
    far_free_windows(rt, alloc, tuples, near, threads)
}

// Like `first_windows`, for no rounds. A window is one identifier then, and each other one can be
// next to it and at distance two.
fn single_windows(tuples: Tuples<'_, Table>) -> u32
    requires { tuples.windows.now.rounds ≡ 0 }
    ensures { AreFree tuples.entry.windows.now
        (BeginsBadTuple tuples.entry.windows.now tuples.entry.separation) 0 result }
{
    let Tuples {
        windows,
        separation,
    } = tuples;
    let near = separation.near.max(separation.far);
    let separation = Separation { near, far: 0 };
    let nearest = Tuples {
        windows,
        separation,
    };
    let count = nearest.count();
    let first = nearest.least_bad(0, count).unwrap_or(count);
    let each = u64::from(windows.shape().ids()) - 1;
    (first / each) as u32
}
