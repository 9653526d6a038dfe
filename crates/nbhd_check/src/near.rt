//! Windows that begin a tuple whose second window is too close. The second windows after a window
//! are a bucket, but for the one that would end in the window's first identifier.
ghost use Rattle.std.specs.Prelude.{◌≡◌, ℕ, ◌+◌, ◌-◌, ◌*◌, ◌^◌, ◌<◌, ◌≤◌, cond, nat_lt, Some, length, take, drop};
ghost use Rattle.std.specs.Prelude.{slice_get, slice_index};
ghost use Rattle.std.specs.Bool.{OnFalse};
ghost use Rattle.channel_tables.specs.Tables.{windows_of};
ghost use Rattle.nbhd_check.specs.Masks.{AreMasks};
ghost use Rattle.nbhd_check.specs.Buckets.{AreFree, AreFreeUntil, BeginsBadTuple, SecondBucketsOf, wide};

use crate::bucket_search::{BucketSearch, window_count, windows_per_bucket};
use crate::gaps::has_close_outside;
use crate::masks::{Grouping, count_apart, group_masks, may_hold};
use crate::search::{Search, free_windows};
use channel_tables::Table;
use std::alloc::Global;
use std::thread::Threads;
use win_index::place_among_unused;

// The number of windows that are searched before masks are made, so that an early no does not pay
// for them.
const FIRST_WINDOWS: u32 = 1 << 12;

/// The result of a search for windows that begin a tuple whose second window is too close.
#[derive(Drop)]
pub(crate) struct NearFree {
    /// A number of windows such that none of the windows below it begins such a tuple.
    pub(crate) windows: u32,
    /// The masks of buckets, none if none were made.
    pub(crate) masks: Vec<u64>,
}

/// Searches for windows that begin a tuple whose second window is closer than `distance`. At most
/// `threads` threads search.
pub(crate) fn near_free_windows<R: Threads + Sync>(
    rt: &R,
    alloc: Global,
    table: &Table,
    distance: u32,
    threads: u32,
) -> NearFree
    requires some { 1 ≤ table.now.rounds }
    ensures few { result.windows ≤ length (windows_of table.now) }
    ensures free { AreFree table.now (BeginsBadTuple table.now (record { near = distance; far = 0 })) 0 result.windows }
    ensures masks { AreMasks table.now.entries (wide table.now) distance result.masks.items }
{
    let count = window_count(table);
    let most = count.min(FIRST_WINDOWS);
    let masks = Vec::new(alloc);
    let search = NearSearch {
        table,
        distance,
        masks,
    };
    let windows = free_windows(rt, Search::Near(&search), most, 1);
    if windows < most || most == count {
        let masks = Vec::new(alloc);
        return NearFree { windows, masks };
    }
    let grouping = Grouping {
        len: windows_per_bucket(table),
        distance,
    };
    let masks = group_masks(rt, alloc, table, grouping, threads);
    let search = NearSearch {
        table,
        distance,
        masks,
    };
    let windows = free_windows(rt, Search::Near(&search), count, threads);
    let NearSearch {
        table: _,
        distance: _,
        masks,
    } = search;
    NearFree { windows, masks }
}

/// The search for windows that begin a tuple whose second window is closer than `distance`.
#[derive(Drop)]
pub(crate) struct NearSearch<'a> {
    pub(crate) table: &'a Table,
    pub(crate) distance: u32,
    masks: Vec<u64>,
    ghost some: { 1 ≤ table.now.rounds },
    ghost cover: { AreMasks table.now.entries (wide table.now) distance masks.items },
}

/// Where the second windows after the windows of a bucket are: those after the window at place `i`
/// of the bucket are bucket `first + i`, or bucket `first + i + 1` if `i` is not below the gap. The
/// window that would end in the first identifier of the bucket is at place `gap - 1` or `gap`
/// there.
#[derive(Clone, Copy)]
pub(crate) struct SecondBuckets {
    pub(crate) bucket: usize,
    pub(crate) first: usize,
    pub(crate) gap: usize,
}

impl SecondBuckets {
    ghost use Rattle.nbhd_check.specs.Buckets.{second_bucket, second_gap};

    /// Returns the bucket of the second windows after the window at this place.
    pub(crate) fn bucket_at(self, place: usize) -> usize
        requires { self.first + place < 2 ^ 32 }
        ensures { result ≡ second_bucket self place }
    {
        if place < self.gap {
            self.first + place
        } else {
            self.first + place + 1
        }
    }

    // Returns the end of the places from this one on of which the buckets of the second windows
    // follow one another. There are `each` places.
    fn side_end(self, place: usize, each: usize) -> usize
        ensures { result ≡ cond (nat_lt place self.gap) self.gap each }
    {
        if place < self.gap { self.gap } else { each }
    }

    /// Returns the place in that bucket of the window that is none of them.
    pub(crate) fn gap_at(self, place: usize) -> usize
        ensures { result ≡ second_gap self place }
    {
        if place < self.gap {
            self.gap - 1
        } else {
            self.gap
        }
    }
}

impl<'a> BucketSearch for NearSearch<'a> {
    ghost searched = { λ s. s.table.now };

    ghost Bad = { λ s. BeginsBadTuple s.table.now (record { near = s.distance; far = 0 }) };

    fn table(&self) -> &Table {
        self.table
    }

    fn first_in_bucket(&self, window: &[u32], bucket: u32) -> Option<u32> {
        let buckets = second_buckets(self.table, window, bucket as usize);
        if self.masks.is_empty() {
            self.first_close(buckets)
        } else {
            self.first_by_masks(buckets)
        }
    }
}

impl<'a> NearSearch<'a> {
    // Like `first_in_bucket`.
    fn first_close(&self, buckets: SecondBuckets) -> Option<u32>
        requires { SecondBucketsOf self.now.table.now buckets }
        ensures { AreFreeUntil self.now.table.now
            (BeginsBadTuple self.now.table.now (record { near = self.now.distance; far = 0 }))
            (buckets.bucket * wide self.now.table.now)
            (buckets.bucket * wide self.now.table.now + wide self.now.table.now) result }
    {
        let each = windows_per_bucket(self.table);
        for place in 0..each {
            if self.may_be_close(buckets, place) {
                return Some((buckets.bucket * each + place) as u32);
            }
        }
        None
    }

    // Like `first_in_bucket`. Passes over windows by their masks.
    fn first_by_masks(&self, buckets: SecondBuckets) -> Option<u32>
        requires { SecondBucketsOf self.now.table.now buckets }
        ensures { AreFreeUntil self.now.table.now
            (BeginsBadTuple self.now.table.now (record { near = self.now.distance; far = 0 }))
            (buckets.bucket * wide self.now.table.now)
            (buckets.bucket * wide self.now.table.now + wide self.now.table.now) result }
    {
        let each = windows_per_bucket(self.table);
        let mut place = 0;
        while place < each {
            let next = self.pass_over(buckets, place);
            if next == each {
                return None;
            }
            if self.may_be_close(buckets, next) {
                return Some((buckets.bucket * each + next) as u32);
            }
            place = next + 1;
        }
        None
    }

    // Returns a place of the bucket, this one or a later one, such that masks show that no window
    // between them begins such a tuple. Goes no further than to the gap or the end of the bucket.
    fn pass_over(&self, buckets: SecondBuckets, place: usize) -> usize
        requires buckets { SecondBucketsOf self.now.table.now buckets }
        requires place { place < wide self.now.table.now }
        ensures range { (place ≤ result) × (result ≤ wide self.now.table.now) }
        ensures free { AreFree self.now.table.now
            (BeginsBadTuple self.now.table.now (record { near = self.now.distance; far = 0 }))
            (buckets.bucket * wide self.now.table.now + place) (buckets.bucket * wide self.now.table.now + result) }
    {
        let each = windows_per_bucket(self.table);
        let count = buckets.side_end(place, each) - place;
        let first = buckets.bucket * each + place;
        let channels = &self.table.entries()[first..first + count];
        place + count_apart(&self.masks, buckets.bucket_at(place), channels)
    }

    // Returns `false` only if the window at this place of the bucket begins no such tuple.
    fn may_be_close(&self, buckets: SecondBuckets, place: usize) -> bool
        requires buckets { SecondBucketsOf self.now.table.now buckets }
        requires place { place < wide self.now.table.now }
        ensures { OnFalse result
            (AreFree self.now.table.now
            (BeginsBadTuple self.now.table.now (record { near = self.now.distance; far = 0 }))
            (buckets.bucket * wide self.now.table.now + place) (buckets.bucket * wide self.now.table.now + place + 1)) }
    {
        let each = windows_per_bucket(self.table);
        let channel = self.table.entries()[buckets.bucket * each + place];
        let next = buckets.bucket_at(place);
        if !may_hold(&self.masks, next, channel) {
            return false;
        }
        let gap = buckets.gap_at(place);
        has_close_outside(channels_of(self.table, next), gap, self.distance, channel)
    }
}

/// Returns where the second windows after the windows of a bucket are. `window` is the first window
/// of the bucket.
pub(crate) fn second_buckets(table: &Table, window: &[u32], bucket: usize) -> SecondBuckets
    requires some { 1 ≤ table.now.rounds }
    requires window { slice_get (windows_of table.now) (bucket * wide table.now) ≡ Some window.now }
    ensures buckets { SecondBucketsOf table.now result }
    ensures bucket { result.bucket ≡ bucket }
{
    let shape = table.shape();
    let level = shape.rounds();
    let shared = &window[1..2 * level as usize];
    let number = shape.window_number(level - 1, shared) as usize;
    SecondBuckets {
        bucket,
        first: number * (shape.ids() as usize - shared.len()),
        gap: place_among_unused(shared, window[0]) as usize,
    }
}

/// Returns the channels of a bucket.
pub(crate) fn channels_of(table: &Table, bucket: usize) -> &[u16]
    requires { bucket * wide table.now + wide table.now ≤ length table.now.entries }
    ensures { result.now ≡ take (wide table.now) (drop (bucket * wide table.now) table.now.entries) }
{
    let each = windows_per_bucket(table);
    let start = bucket * each;
    &table.entries()[start..start + each]
}
