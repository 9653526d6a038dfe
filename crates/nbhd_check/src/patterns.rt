//! Windows that begin a tuple that a pattern matches, bucket by bucket. Three windows in a row are one before a
//!  list of `2t` identifiers, one that begins with the list, and one of the next windows after that. Words
//! of channels show quickly of most buckets that no three are forbidden: those that occur at all, and, for
//!  the windows but for one, those that occur more than once.
ghost use Rattle.std.specs.Prelude.{◌≡◌, ◌≢◌, ℕ, List, [], ◌∷◌, ◌++◌, ◌+◌, ◌*◌, ◌%◌, ◌^◌, ◌<◌, ◌≤◌, IfOk, Some, length};
ghost use Rattle.std.specs.Prelude.{slice_get, slice_index};
ghost use Rattle.std.specs.Bool.{OnFalse};
ghost use Rattle.channel_tables.specs.Tables.{windows_of, IsTable};
ghost use Rattle.ring_problems.specs.Patterns.{IsForbidden};
ghost use Rattle.nbhd_check.specs.ChannelsBefore.{AreBefore};
ghost use Rattle.nbhd_check.specs.Masks.{HasBit, HasBitsOf};
ghost use Rattle.nbhd_check.specs.MiddleBuckets.{AreMiddleBuckets, AreNextBuckets, IsMiddleBucket, in_bucket};
ghost use Rattle.nbhd_check.specs.PatternBits.{AreBits, cell_of};
ghost use Rattle.nbhd_check.specs.PatternSearch.{IsFirstClear, IsFreeBefore, IsPairClear, IsSecondClear};
ghost use Rattle.nbhd_check.specs.Buckets.{second_gap, second_bucket, wide};
ghost use Rattle.nbhd_check.specs.ChannelSets.{HasWords};

use crate::before::channels_before;
use crate::bucket_search::{window_count, windows_per_bucket};
use crate::channel_sets::{Words, words_of};
use crate::middle_buckets::{MiddleBucket, middle_buckets};
use crate::near::{SecondBuckets, channels_of};
use crate::pattern_bits::{pattern_bits, thirds_after, thirds_after_each};
use channel_tables::Table;
use node_program::OutOfMemory;
use ring_problems::{Pattern, ProblemTuples, first_match, may_begin};
use std::alloc::Global;
use std::sync::atomic::{AtomicU32, Ordering};
use std::thread::Threads;
use win_index::MAX_WINDOW_LEN;

/// The search for windows that begin a tuple that a pattern matches.
#[derive(Drop)]
pub(crate) struct PatternSearch<'a> {
    pub(crate) table: &'a Table,
    pub(crate) problem: &'a [Pattern],
    // The remainders of all channels modulo 64 are below it.
    limit: usize,
    bits: Vec<u64>,
    middles: Vec<MiddleBucket>,
    before: Vec<u16>,
    ghost table_is: { IsTable table.now },
    ghost some: { 1 ≤ table.now.rounds },
    ghost few: { limit ≤ 64 },
    ghost below: { (channel : ℕ) → channel < table.now.channels → channel % 64 < limit },
    ghost bits_are: { AreBits problem.now limit bits.items },
    ghost buckets_are: { AreMiddleBuckets table.now 0 middles.items },
    ghost all: { length middles.items * wide table.now ≡ length (windows_of table.now) },
    ghost before_are: { AreBefore table.now (length (windows_of table.now)) before.items },
    ghost before_size: { length before.items ≡ length (windows_of table.now) },
}

impl<'a> PatternSearch<'a> {
    /// Prepares the search. At most `threads` threads look at the windows. Fails if memory was refused.
    pub(crate) fn new<R: Threads + Sync>(
        rt: &R,
        alloc: Global,
        tuples: ProblemTuples<'a, Table>,
        threads: u32,
    ) -> Result<PatternSearch<'a>, OutOfMemory>
        requires { 1 ≤ tuples.windows.now.rounds }
        ensures table { IfOk result (λ search. search.table.now ≡ tuples.entry.windows.now) }
        ensures problem { IfOk result (λ search. search.problem.now ≡ tuples.entry.problem.now) }
    {
        let ProblemTuples {
            windows: table,
            problem,
        } = tuples;
        let limit = table.channels().min(64) as usize;
        let bits = pattern_bits(alloc, problem, limit)?;
        let middles = middle_buckets(rt, alloc, table, threads)?;
        let before = channels_before(alloc, table, &middles)?;
        Ok(PatternSearch {
            table,
            problem,
            limit,
            bits,
            middles,
            before,
        })
    }

    /// Returns the number of buckets.
    pub(crate) fn buckets(&self) -> u32
        ensures all { result * wide self.now.table.now ≡ length (windows_of self.now.table.now) }
        ensures few { result ≤ 2 ^ 22 }
    {
        (window_count(self.table) as usize / windows_per_bucket(self.table)) as u32
    }

    /// Returns a number of windows such that none of the windows below it begins a bad tuple whose
    /// identifiers after the first are those of a bucket from `low` on and below `high`. `best` is
    /// the least such number that any thread has found.
    pub(crate) fn free_in_buckets(&self, low: u32, high: u32, best: &AtomicU32) -> u32
        requires { high * wide self.now.table.now ≤ length (windows_of self.now.table.now) }
        ensures { (bucket : ℕ) → low ≤ bucket → bucket < high
            → IsFreeBefore self.now.table.now self.now.problem.now result bucket }
    {
        let mut least = best.load(Ordering::SeqCst);
        for bucket in low..high {
            let next = self.middle(bucket as usize).next(bucket as usize);
            least = self.free_in_bucket(next, least, best);
        }
        least
    }

    // Returns a number of windows, at most `least`, such that none of the windows below it begins a bad
    // tuple whose identifiers after the first are those of this bucket.
    fn free_in_bucket(&self, next: SecondBuckets, least: u32, best: &AtomicU32) -> u32
        requires { AreNextBuckets self.now.table.now next }
        ensures less { result ≤ least }
        ensures free { IsFreeBefore self.now.table.now self.now.problem.now result next.bucket }
    {
        if !self.may_be_broken(next) {
            return least;
        }
        let found = self.least_in_bucket(next, least.min(best.load(Ordering::SeqCst)));
        best.fetch_min(found, Ordering::SeqCst);
        found
    }

    // Returns `false` only if no three windows with one of this bucket in the middle are forbidden.
    fn may_be_broken(&self, next: SecondBuckets) -> bool
        requires { AreNextBuckets self.now.table.now next }
        ensures { OnFalse result ((place : ℕ) → place < wide self.now.table.now
            → IsSecondClear self.now.table.now self.now.problem.now self.now.before.items next place) }
    {
        let each = windows_per_bucket(self.table);
        let start = next.bucket * each;
        let words = words_of(&self.before[start..start + each]);
        let thirds = thirds_after_each(&self.bits, self.limit, words.once);
        for place in 0..each {
            if self.may_be_broken_at(next, place, words, &thirds)
                && self.is_second_broken(next, place)
            {
                return true;
            }
        }
        false
    }

    // Returns `false` only if no three windows with this one in the middle are forbidden. The words are
    // those of the windows before the bucket, and `thirds` has what is forbidden after one of them.
    fn may_be_broken_at(
        &self,
        next: SecondBuckets,
        place: usize,
        words: Words,
        thirds: &[u64],
    ) -> bool
        requires next { AreNextBuckets self.now.table.now next }
        requires place { place < wide self.now.table.now }
        requires words { HasWords (in_bucket self.now.table.now self.now.before.items next.bucket) words }
        requires room { length thirds.now ≡ 64 }
        requires thirds { (a b : ℕ) → a % 64 < self.now.limit → b % 64 < self.now.limit → HasBit words.once a
            → HasBitsOf (slice_index thirds.now (b % 64)) (slice_index self.now.bits.items (cell_of a b)) }
        ensures { OnFalse result
            (IsSecondClear self.now.table.now self.now.problem.now self.now.before.items next place) }
    {
        let own = next.bucket * windows_per_bucket(self.table) + place;
        let second = self.table.entries()[own];
        let words_after = self.middle(next.bucket_at(place)).words;
        if thirds[second as usize % 64] & words_after.once == 0 {
            return false;
        }
        let firsts = words.without(self.channel_before(own));
        let ends = words_after.without(self.channel_at_gap(next, place));
        thirds_after(&self.bits, self.limit, firsts, second) & ends != 0
    }

    // Returns what is known of a bucket.
    fn middle(&self, bucket: usize) -> MiddleBucket
        requires { bucket * wide self.now.table.now + wide self.now.table.now ≤ length (windows_of self.now.table.now) }
        ensures { IsMiddleBucket self.now.table.now bucket result }
    {
        let middles: &[MiddleBucket] = &self.middles;
        middles[bucket]
    }

    // Returns the channel of the window that has the last identifier of the one with this number first.
    fn channel_before(&self, number: usize) -> u16
        requires { number < length (windows_of self.now.table.now) }
        ensures { result ≡ slice_index self.now.before.items number }
    {
        self.before[number]
    }

    // Returns the channel of the window that is none of the next ones after that at this place.
    fn channel_at_gap(&self, next: SecondBuckets, place: usize) -> u16
        requires next { AreNextBuckets self.now.table.now next }
        requires place { place < wide self.now.table.now }
        ensures { result ≡ slice_index self.now.table.now.entries
            (second_bucket next place * wide self.now.table.now + second_gap next place) }
    {
        let start = next.bucket_at(place) * windows_per_bucket(self.table);
        self.table.entries()[start + next.gap_at(place)]
    }

    // Like `free_in_bucket`, by a look at all windows before those of the bucket.
    fn least_in_bucket(&self, next: SecondBuckets, least: u32) -> u32
        requires { AreNextBuckets self.now.table.now next }
        ensures less { result ≤ least }
        ensures free { IsFreeBefore self.now.table.now self.now.problem.now result next.bucket }
    {
        let mut least = least;
        for place in 0..windows_per_bucket(self.table) {
            least = self.least_at(next, place, least);
        }
        least
    }

    // Like `least_in_bucket`, for the window that has the last identifier of the one at this place
    // first.
    fn least_at(&self, next: SecondBuckets, place: usize, least: u32) -> u32
        requires next { AreNextBuckets self.now.table.now next }
        requires place { place < wide self.now.table.now }
        ensures less { result ≤ least }
        ensures free { (number x : ℕ) (z : List ℕ) → number < result
            → slice_get (windows_of self.now.table.now) number ≡ Some (x ∷ z)
            → slice_get (windows_of self.now.table.now) (next.bucket * wide self.now.table.now + place)
            ≡ Some (z ++ x ∷ [])
            → IsFirstClear self.now.table.now self.now.problem.now self.now.before.items next place }
    {
        let number = self.number_before(next.bucket, place);
        if number < least && self.is_broken(next, place) {
            number
        } else {
            least
        }
    }

    // Returns the number of the window that has the last identifier of the one at this place first, or
    // less.
    fn number_before(&self, bucket: usize, place: usize) -> u32
        requires { bucket * wide self.now.table.now + place < length (windows_of self.now.table.now) }
        ensures { (number x : ℕ) (z : List ℕ) → slice_get (windows_of self.now.table.now) number ≡ Some (x ∷ z)
            → slice_get (windows_of self.now.table.now) (bucket * wide self.now.table.now + place) ≡ Some (z ++ x ∷ [])
            → result ≤ number }
    {
        let shape = self.table.shape();
        let level = shape.rounds();
        let number = bucket * windows_per_bucket(self.table) + place;
        let mut cells = [0; MAX_WINDOW_LEN];
        let window = &mut cells[..2 * level as usize + 1];
        shape.window(level, number as u32, window);
        window.rotate_right(1);
        shape.number(level, window).unwrap_or(0)
    }

    // Returns `false` only if no three windows with this one first are forbidden.
    fn is_broken(&self, next: SecondBuckets, first: usize) -> bool
        requires next { AreNextBuckets self.now.table.now next }
        requires first { first < wide self.now.table.now }
        ensures { OnFalse result
            (IsFirstClear self.now.table.now self.now.problem.now self.now.before.items next first) }
    {
        for second in 0..windows_per_bucket(self.table) {
            if second != first && self.is_pair_broken(next, first, second) {
                return true;
            }
        }
        false
    }

    // Returns `false` only if no three windows with this one in the middle are forbidden.
    fn is_second_broken(&self, next: SecondBuckets, second: usize) -> bool
        requires next { AreNextBuckets self.now.table.now next }
        requires second { second < wide self.now.table.now }
        ensures { OnFalse result
            (IsSecondClear self.now.table.now self.now.problem.now self.now.before.items next second) }
    {
        for first in 0..windows_per_bucket(self.table) {
            if first != second && self.is_pair_broken(next, first, second) {
                return true;
            }
        }
        false
    }

    // Returns `false` only if no three windows with these two first are forbidden.
    fn is_pair_broken(&self, next: SecondBuckets, first: usize, second: usize) -> bool
        requires next { AreNextBuckets self.now.table.now next }
        requires first { first < wide self.now.table.now }
        requires second { second < wide self.now.table.now }
        ensures { OnFalse result
            (IsPairClear self.now.table.now self.now.problem.now self.now.before.items next first second) }
    {
        let start = next.bucket * windows_per_bucket(self.table);
        let before = self.channel_before(start + first);
        let channels = (before, self.table.entries()[start + second]);
        let thirds = channels_of(self.table, next.bucket_at(second));
        has_forbidden_third(self.problem, channels, thirds, next.gap_at(second))
    }
}

// Returns `false` only if none of these channels is forbidden after the two, but for the one at the gap.
fn has_forbidden_third(
    problem: &[Pattern],
    channels: (u16, u16),
    thirds: &[u16],
    gap: usize,
) -> bool
    ensures { OnFalse result ((place : ℕ) → place < length thirds.now → place ≢ gap
        → ¬ IsForbidden problem.now (Some channels.0) (Some channels.1) (Some (slice_index thirds.now place))) }
{
    let first = Some(u32::from(channels.0));
    let second = Some(u32::from(channels.1));
    if !may_begin(problem, first, second) {
        return false;
    }
    for place in 0..thirds.len() {
        if place != gap && is_forbidden(problem, channels, thirds[place]) {
            return true;
        }
    }
    false
}

// Returns `false` only if no pattern matches the three channels.
fn is_forbidden(problem: &[Pattern], channels: (u16, u16), third: u16) -> bool
    ensures { OnFalse result (¬ IsForbidden problem.now (Some channels.0) (Some channels.1) (Some third)) }
{
    let first = Some(u32::from(channels.0));
    let second = Some(u32::from(channels.1));
    first_match(problem, first, second, Some(u32::from(third))).is_some()
}
