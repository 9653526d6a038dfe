//! Searches for windows that begin a bad tuple, in parts on threads.
ghost use Rattle.std.specs.Prelude.{◌≡◌, ℕ, List, ◌+◌, ◌*◌, ◌^◌, ◌<◌, ◌≤◌, Some, length, slice_get, min};
ghost use Rattle.channel_tables.specs.Tables.{windows_of};
ghost use Rattle.nbhd_check.specs.Buckets.{AreFree, wide};
ghost use Rattle.nbhd_check.specs.Searches.{searched, AreFreeIn, HasPieces, IsBad, IsInPiece};

use crate::bucket_search::{first_in_buckets, windows_per_bucket};
use crate::far_counts::FarCounts;
use crate::far_masks::FarMasks;
use crate::near::NearSearch;
use crate::parallel::{least_of_parts, part_count};
use crate::patterns::PatternSearch;
use channel_tables::Table;
use std::sync::atomic::AtomicU32;
use std::thread::Threads;

/// A search for the windows of a table that are bad in some sense, piece by piece. A piece is a
/// bucket, but for counts the windows whose third windows are in one family, and for patterns the
/// windows whose second windows are in one bucket.
#[derive(Clone, Copy)]
pub(crate) enum Search<'s, 'a> {
    /// By masks of second windows, and these windows.
    Near(&'s NearSearch<'a>),
    /// By masks of third windows.
    FarMasks(&'s FarMasks<'a>),
    /// By counts of third windows.
    FarCounts(FarCounts<'a>),
    /// By words of first and third windows.
    Patterns(&'s PatternSearch<'a>),
}

impl<'s, 'a> Search<'s, 'a> {
    // Returns the number of pieces in which the first `most` windows are.
    fn pieces(self, most: u32) -> u32
        requires { most ≤ length (windows_of (searched self)) }
        ensures within { HasPieces self.entry result }
        ensures few { result ≤ 2 ^ 22 }
        ensures all { (number : ℕ) (window : List ℕ) → number < most
            → slice_get (windows_of (searched self.entry)) number ≡ Some window
            → (piece : ℕ) × (piece < result) × IsInPiece self.entry piece number window }
    {
        match self {
            Search::Near(search) => buckets_of(search.table, most),
            Search::FarMasks(search) => buckets_of(search.table, most),
            Search::FarCounts(search) => search.families(),
            Search::Patterns(search) => search.buckets(),
        }
    }

    // Returns a number of windows such that none of the windows below it in a piece from `low` on and
    // below `high` is bad. Gives up windows that are not below `best`, the least such number that any
    // thread has found.
    fn free_in_pieces(self, low: u32, high: u32, best: &AtomicU32) -> u32
        requires { HasPieces self high }
        ensures { AreFreeIn self.entry result low high }
    {
        match self {
            Search::Near(search) => first_in_buckets(search, low, high, best),
            Search::FarMasks(search) => first_in_buckets(search, low, high, best),
            Search::FarCounts(search) => search.free_in_families(low, high, best),
            Search::Patterns(search) => search.free_in_buckets(low, high, best),
        }
    }
}

// Returns the number of buckets in which the first `most` windows are.
fn buckets_of(table: &Table, most: u32) -> u32
    requires { most ≤ length (windows_of table.now) }
    ensures within { result * wide table.now ≤ length (windows_of table.now) }
    ensures few { result ≤ 2 ^ 22 }
    ensures all { most ≤ result * wide table.now }
    ensures some { 1 ≤ wide table.now }
{
    most.div_ceil(windows_per_bucket(table) as u32)
}

/// Returns a number of windows, at most `most`, such that none of the windows below it is bad. At
/// most `threads` threads search. If that is 0 or 1, only the calling thread does.
pub(crate) fn free_windows<R: Threads + Sync>(
    rt: &R,
    search: Search<'_, '_>,
    most: u32,
    threads: u32,
) -> u32
    requires { most ≤ length (windows_of (searched search)) }
    ensures less { result ≤ most }
    ensures free { AreFree (searched search.entry) (IsBad search.entry) 0 result }
{
    let pieces = search.pieces(most);
    let parts = part_count(most, threads);
    let each = pieces.div_ceil(parts);
    let best = AtomicU32::new(most);
    let least = least_of_parts(
        rt,
        parts,
        |part: u32| -> u32
            requires { (part * each + each < 2 ^ 32) × HasPieces search pieces }
            ensures { AreFreeIn search.entry result (part * each) (min (part * each + each) pieces) }
        {
            let low = part * each;
            search.free_in_pieces(low, (low + each).min(pieces), &best)
        },
    );
    least.min(most)
}
