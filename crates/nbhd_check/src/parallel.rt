//! A search in parts, each on a thread of its own.
ghost use Rattle.std.specs.Prelude.{ℕ, ◌<◌, ◌≤◌};

use rayon::prelude::*;
use std::thread::Threads;

/// The maximum number of parts.
pub(crate) const MAX_PARTS: u32 = 64;

// The minimum number of windows of a part. A thread costs more than the search of fewer.
const MIN_PART_WINDOWS: u32 = 1 << 13;

/// Returns the number of parts for a search of this many windows by at most `threads` threads.
pub(crate) fn part_count(windows: u32, threads: u32) -> u32
    ensures some { 1 ≤ result }
    ensures few { result ≤ MAX_PARTS }
{
    threads.min(windows / MIN_PART_WINDOWS).clamp(1, MAX_PARTS)
}

/// Returns the least of the numbers that `search` returns for the parts below `parts`, or 0 if
/// there are none. There are at most as many threads as parts. A single part is searched on the
/// calling thread.
pub(crate) fn least_of_parts<R: Threads + Sync, F: Fn(u32) -> u32 + Copy + Send + Sync>(
    rt: &R,
    parts: u32,
    search: F,
) -> u32
    requires each { (part : ℕ) → part < parts → F.pre search part }
    ensures { (part : ℕ) → part < parts → (value : ℕ) × F.post search part value × (result ≤ value) }
{
    (0..parts)
        .into_par_iter()
        .with_min_len(1)
        .map(search)
        .min(rt)
        .unwrap_or(0)
}
