//! Windows that begin a bad tuple, if the channels of places at distance two are judged too.
ghost use Rattle.std.specs.Prelude.{◌≡◌, IfSome, ◌+◌, ◌*◌, ◌^◌, ◌<◌, ◌≤◌, length};
ghost use Rattle.channel_tables.specs.Tables.{windows_of};
ghost use Rattle.nbhd_check.specs.Counts.{family_len};
ghost use Rattle.nbhd_check.specs.Masks.{AreMasks};
ghost use Rattle.nbhd_check.specs.Buckets.{AreFree, BeginsBadTuple, wide};
ghost use Rattle.nbhd_check.specs.FarSearch.{IsFarSearch};

use crate::bucket_search::{window_count, windows_per_bucket};
use crate::counts::channel_limit;
use crate::far_counts::FarCounts;
use crate::far_masks::FarMasks;
use crate::masks::{Grouping, group_masks, joined_masks, windows_per_family};
use crate::near::NearFree;
use crate::search::{Search, free_windows};
use channel_tables::{Table, Tuples};
use std::alloc::Global;
use std::thread::Threads;

// The maximum number of tuples that are tested before masks are made, so that an early no does not pay
// for them.
const TUPLES_BEFORE_MASKS: usize = 1 << 13;

/// Returns a number of windows such that none of the windows below it begins a bad tuple. `near` is the
/// result of the search of second windows. At most `threads` threads search.
///
/// The first tuples are tested one by one. Then masks of the channels of third windows often show that
/// no third window is too close. If they do not, third windows are counted. The number is 0 if one of
/// the first tuples is bad, if a test of all tuples takes less time, or if memory was refused.
pub(crate) fn far_free_windows<R: Threads + Sync>(
    rt: &R,
    alloc: Global,
    tuples: Tuples<'_, Table>,
    near: NearFree,
    threads: u32,
) -> u32
    requires search { IsFarSearch tuples.windows.now tuples.separation near.windows }
    requires masks { AreMasks tuples.windows.now.entries (wide tuples.windows.now) tuples.separation.near
        near.masks.items }
    ensures { AreFree tuples.entry.windows.now
        (BeginsBadTuple tuples.entry.windows.now tuples.entry.separation) 0 result }
{
    let most = near.windows;
    let few = windows_before_masks(tuples.windows).min(most);
    if !is_long_search(tuples.windows, most) || has_bad_tuple(tuples, 0, few) {
        return 0;
    }
    if let Some(free) = free_by_masks(rt, alloc, tuples, near, threads) {
        return free;
    }
    free_by_counts(rt, alloc, tuples, most, threads).unwrap_or(0)
}

// Returns the number of windows whose tuples are tested before masks are made: those of as many
// buckets as have at most `TUPLES_BEFORE_MASKS` tuples.
fn windows_before_masks(table: &Table) -> u32
    requires { 1 ≤ table.now.rounds }
{
    let bucket = windows_per_bucket(table);
    let buckets = TUPLES_BEFORE_MASKS / bucket.saturating_mul(windows_per_family(table)).max(1);
    buckets.saturating_mul(bucket).min(TUPLES_BEFORE_MASKS) as u32
}

// Returns a number as `far_free_windows` does, by masks of third windows, or `None` if they do not decide.
fn free_by_masks<R: Threads + Sync>(
    rt: &R,
    alloc: Global,
    tuples: Tuples<'_, Table>,
    near: NearFree,
    threads: u32,
) -> Option<u32>
    requires search { IsFarSearch tuples.windows.now tuples.separation near.windows }
    requires masks { AreMasks tuples.windows.now.entries (wide tuples.windows.now) tuples.separation.near
        near.masks.items }
    ensures { IfSome result (AreFree tuples.entry.windows.now
        (BeginsBadTuple tuples.entry.windows.now tuples.entry.separation) 0) }
{
    let Tuples {
        windows: table,
        separation,
    } = tuples;
    let distance = separation.far;
    let most = near.windows;
    let masks = family_masks(rt, alloc, tuples, near.masks, threads);
    if masks.is_empty() {
        return None;
    }
    let search = FarMasks {
        table,
        distance,
        masks,
    };
    let free = free_windows(rt, Search::FarMasks(&search), most, threads);
    if free == most || has_bad_tuple(tuples, free, 1) {
        return Some(free);
    }
    None
}

// Returns masks of families, of the masks of their buckets if these are for the same distance.
fn family_masks<R: Threads + Sync>(
    rt: &R,
    alloc: Global,
    tuples: Tuples<'_, Table>,
    buckets: Vec<u64>,
    threads: u32,
) -> Vec<u64>
    requires some { 1 ≤ tuples.windows.now.rounds }
    requires buckets { AreMasks tuples.windows.now.entries (wide tuples.windows.now)
        tuples.separation.near buckets.items }
    ensures { AreMasks tuples.entry.windows.now.entries (family_len tuples.entry.windows.now)
        tuples.entry.separation.far result.items }
{
    let Tuples {
        windows: table,
        separation,
    } = tuples;
    let distance = separation.far;
    if separation.near == distance && !buckets.is_empty() {
        let len = windows_per_bucket(table);
        return joined_masks(alloc, table, &buckets, len, len + 1);
    }
    let grouping = Grouping {
        len: windows_per_family(table),
        distance,
    };
    group_masks(rt, alloc, table, grouping, threads)
}

// Returns a number as `far_free_windows` does, by counts of third windows. Returns `None` if memory for
// counts was refused, or if it is estimated that counting a family takes more time than testing the
// tuples with third windows in it, one by one.
fn free_by_counts<R: Threads + Sync>(
    rt: &R,
    alloc: Global,
    tuples: Tuples<'_, Table>,
    most: u32,
    threads: u32,
) -> Option<u32>
    requires { IsFarSearch tuples.windows.now tuples.separation most }
    ensures { IfSome result (AreFree tuples.entry.windows.now
        (BeginsBadTuple tuples.entry.windows.now tuples.entry.separation) 0) }
{
    let Tuples {
        windows: table,
        separation,
    } = tuples;
    let distance = separation.far;
    let limit = channel_limit(table);
    let family = windows_per_family(table) as u64;
    if 8 * family * family <= 4 * family + cells_of_rows(table, limit) {
        return None;
    }
    let search = FarCounts {
        alloc,
        table,
        distance,
        limit,
    };
    let free = free_windows(rt, Search::FarCounts(search), most, threads);
    if free == 0 {
        return None;
    }
    Some(free)
}

// Returns whether one of the `count` windows from number `first` on begins a bad tuple.
fn has_bad_tuple(tuples: Tuples<'_, Table>, first: u32, count: u32) -> bool
    requires { first + count ≤ length (windows_of tuples.windows.now) }
{
    let each = tuples.per_window();
    let low = u64::from(first) * each;
    let high = low + u64::from(count) * each;
    tuples.least_bad(low, high).is_some()
}

// Estimates whether a test of all tuples that begin with one of the first `most` windows takes more
// time than a look at all windows.
fn is_long_search(table: &Table, most: u32) -> bool
    requires { 1 ≤ table.now.rounds }
{
    let family = windows_per_family(table) as u64;
    4 * u64::from(most) * family > u64::from(window_count(table))
}

// Returns the number of cells of this many rows of counts.
fn cells_of_rows(table: &Table, rows: u32) -> u64
    requires { rows < 2 ^ 17 }
    ensures { result < 2 ^ 28 }
{
    u64::from(rows) * (u64::from(table.shape().ids()) + 1)
}
