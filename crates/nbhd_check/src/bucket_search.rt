//! Searches of windows bucket by bucket. A bucket is the windows that begin with the same `2t` identifiers.
//!
ghost use Rattle.std.specs.Prelude.{◌≡◌, ℕ, List, ◌+◌, ◌-◌, ◌*◌, ◌^◌, ◌<◌, ◌≤◌, Some, length, slice_get, min};
ghost use Rattle.channel_tables.specs.Tables.{ChannelTable, windows_of, IsTable};
ghost use Rattle.nbhd_check.specs.Buckets.{AreFree, AreFreeUntil, wide};

use channel_tables::Table;
use std::sync::atomic::{AtomicU32, Ordering};
use win_index::MAX_WINDOW_LEN;

/// A search for the windows of a table that are bad in some sense, bucket by bucket.
pub(crate) trait BucketSearch {
    // The table.
    ghost searched: { Self → ChannelTable };

    // Whether a window is bad.
    ghost Bad: { Self → List ℕ → Type 0 };

    /// Returns the table.
    fn table(&self) -> &Table
        ensures { result.now ≡ searched self.now };

    /// Returns the number of a window of a bucket such that no window of the bucket before it is
    /// bad, or `None` if none of the bucket is. `window` is the first window of the bucket.
    fn first_in_bucket(&self, window: &[u32], bucket: u32) -> Option<u32>
        requires { slice_get (windows_of (searched self.now)) (bucket * wide (searched self.now)) ≡ Some window.now }
        ensures { AreFreeUntil (searched self.now) (Bad self.now) (bucket * wide (searched self.now))
            (bucket * wide (searched self.now) + wide (searched self.now)) result };
}

/// Returns a number such that none of the windows below it of the buckets from `low` on and below
/// `high` is bad. Gives up when `best`, the least such number that any thread has returned, is
/// less.
pub(crate) fn first_in_buckets<S: BucketSearch>(
    search: &S,
    low: u32,
    high: u32,
    best: &AtomicU32,
) -> u32
    requires { high * wide (S.searched search.now) ≤ length (windows_of (S.searched search.now)) }
    ensures { AreFree (S.searched search.now) (S.Bad search.now) (low * wide (S.searched search.now))
        (min result (high * wide (S.searched search.now))) }
{
    if low >= high {
        return u32::MAX;
    }
    let table = search.table();
    let shape = table.shape();
    let level = shape.rounds();
    let mut cells = [0; MAX_WINDOW_LEN];
    let window = &mut cells[..2 * level as usize + 1];
    shape.window(level, low * windows_per_bucket(table) as u32, window);
    scan_buckets(search, window, low, high, best)
}

// Like `first_in_buckets`. `window` is the first window of bucket `low`, and is advanced in place.
fn scan_buckets<S: BucketSearch>(
    search: &S,
    window: &mut [u32],
    low: u32,
    high: u32,
    best: &AtomicU32,
) -> u32
    requires order { low < high }
    requires within { high * wide (S.searched search.now) ≤ length (windows_of (S.searched search.now)) }
    requires item { slice_get (windows_of (S.searched search.now)) (low * wide (S.searched search.now))
        ≡ Some window.old }
    ensures { AreFree (S.searched search.now) (S.Bad search.now) (low * wide (S.searched search.now))
        (min result (high * wide (S.searched search.now))) }
{
    let table = search.table();
    let shape = table.shape();
    let each = windows_per_bucket(table) as u32;
    for bucket in low..high {
        let first = bucket * each;
        if best.load(Ordering::SeqCst) <= first {
            return first;
        }
        if let Some(number) = search.first_in_bucket(window, bucket) {
            best.fetch_min(number, Ordering::SeqCst);
            return number;
        }
        shape.next_bucket(shape.rounds(), window);
    }
    u32::MAX
}

/// Returns the number of windows of a bucket.
pub(crate) fn windows_per_bucket(table: &Table) -> usize
    ensures value { result ≡ wide table.now }
    ensures some { 1 ≤ result }
    ensures table { IsTable table.now }
{
    let shape = table.shape();
    shape.ids() as usize - 2 * shape.rounds() as usize
}

/// Returns the number of windows, which is the number of entries.
pub(crate) fn window_count(table: &Table) -> u32
    ensures value { result ≡ length (windows_of table.now) }
    ensures table { IsTable table.now }
{
    let shape = table.shape();
    shape.count(shape.rounds())
}
