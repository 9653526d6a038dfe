//! What the search for patterns knows of each bucket: the windows of a bucket are the second ones of three in a
//!  row.
ghost use Rattle.std.specs.Prelude.{◌≡◌, ℕ, ◌+◌, ◌*◌, ◌<◌, ◌≤◌, IfOk, Some, length, slice_get};
ghost use Rattle.channel_tables.specs.Tables.{windows_of, IsTable};
ghost use Rattle.nbhd_check.specs.Buckets.{wide};

use crate::bucket_search::{window_count, windows_per_bucket};
use crate::channel_sets::{Words, words_of};
use crate::near::{SecondBuckets, channels_of, second_buckets};
use crate::parallel::part_count;
use channel_tables::Table;
use node_program::OutOfMemory;
use std::alloc::Global;
use std::thread::{Threads, for_each_chunk_mut};
use win_index::MAX_WINDOW_LEN;

/// Where the next windows after those of a bucket are, and the words of its channels.
#[derive(Clone, Copy)]
pub(crate) struct MiddleBucket {
    first: u32,
    gap: u32,
    pub(crate) words: Words,
}

impl MiddleBucket {
    ghost use Rattle.nbhd_check.specs.MiddleBuckets.{next_buckets};

    /// Returns where the next windows are, if the bucket has this number.
    pub(crate) fn next(self, bucket: usize) -> SecondBuckets
        ensures { result ≡ next_buckets bucket self }
    {
        SecondBuckets {
            bucket,
            first: self.first as usize,
            gap: self.gap as usize,
        }
    }
}

ghost use Rattle.nbhd_check.specs.MiddleBuckets.{AreMiddleBuckets, IsMiddleBucket};

/// Returns this for each bucket. At most `threads` threads look at the windows. Fails if memory was
/// refused.
pub(crate) fn middle_buckets<R: Threads + Sync>(
    rt: &R,
    alloc: Global,
    table: &Table,
    threads: u32,
) -> Result<Vec<MiddleBucket>, OutOfMemory>
    requires { 1 ≤ table.now.rounds }
    ensures buckets { IfOk result (λ middles. AreMiddleBuckets table.now 0 middles.items) }
    ensures all { IfOk result (λ middles. length middles.items * wide table.now ≡ length (windows_of table.now)) }
{
    let windows = window_count(table);
    let buckets = windows as usize / windows_per_bucket(table);
    let words = Words { once: 0, more: 0 };
    let none = MiddleBucket {
        first: 0,
        gap: 0,
        words,
    };
    let mut middles = vec![in alloc; none; buckets]?;
    let size = buckets
        .div_ceil(part_count(windows, threads) as usize)
        .max(1);
    fill_buckets(rt, table, &mut middles, size);
    Ok(middles)
}

// Looks at all buckets, `size` at a time, each part on a thread of its own.
fn fill_buckets<R: Threads + Sync>(rt: &R, table: &Table, middles: &mut [MiddleBucket], size: usize)
    requires rounds { 1 ≤ table.now.rounds }
    requires some { 0 < size }
    requires room { length middles.old * wide table.now ≤ length (windows_of table.now) }
    ensures size { length middles.new ≡ length middles.old }
    ensures buckets { AreMiddleBuckets table.now 0 middles.new }
{
    for_each_chunk_mut(
        rt,
        middles,
        size,
        &|start: usize, part: &mut [MiddleBucket]|
            requires { (1 ≤ table.now.rounds)
                × ((start + length part.old) * wide table.now ≤ length (windows_of table.now)) }
            ensures { (length part.new ≡ length part.old) × AreMiddleBuckets table.entry.now start part.new }
        { fill_part(table, start, part) },
    );
}

// Looks at the buckets from number `start` on, on the calling thread.
fn fill_part(table: &Table, start: usize, part: &mut [MiddleBucket])
    requires rounds { 1 ≤ table.now.rounds }
    requires room { (start + length part.old) * wide table.now ≤ length (windows_of table.now) }
    ensures size { length part.new ≡ length part.old }
    ensures buckets { AreMiddleBuckets table.now start part.new }
{
    if part.is_empty() {
        return;
    }
    let shape = table.shape();
    let level = shape.rounds();
    let mut cells = [0; MAX_WINDOW_LEN];
    let window = &mut cells[..2 * level as usize + 1];
    shape.window(level, (start * windows_per_bucket(table)) as u32, window);
    fill_from(table, window, start, part);
}

// Like `fill_part`. `window` is the first window of bucket `start`, and is advanced in place.
fn fill_from(table: &Table, window: &mut [u32], start: usize, part: &mut [MiddleBucket])
    requires rounds { 1 ≤ table.now.rounds }
    requires some { 0 < length part.old }
    requires room { (start + length part.old) * wide table.now ≤ length (windows_of table.now) }
    requires item { slice_get (windows_of table.now) (start * wide table.now) ≡ Some window.old }
    ensures size { length part.new ≡ length part.old }
    ensures buckets { AreMiddleBuckets table.now start part.new }
{
    let shape = table.shape();
    for place in 0..part.len() {
        part[place] = middle_bucket(table, window, start + place);
        shape.next_bucket(shape.rounds(), window);
    }
}

// Returns what is known of a bucket. `window` is its first window.
fn middle_bucket(table: &Table, window: &[u32], bucket: usize) -> MiddleBucket
    requires table { IsTable table.now }
    requires rounds { 1 ≤ table.now.rounds }
    requires window { slice_get (windows_of table.now) (bucket * wide table.now) ≡ Some window.now }
    ensures { IsMiddleBucket table.now bucket result }
{
    let next = second_buckets(table, window, bucket);
    MiddleBucket {
        first: next.first as u32,
        gap: next.gap as u32,
        words: words_of(channels_of(table, bucket)),
    }
}
