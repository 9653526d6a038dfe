//! Windows that may begin a tuple whose third window is too close, by masks of families. A family is
//! the windows that begin with the same `2t-1` identifiers; the third windows of the tuples that
//! begin with a window are in one family.
ghost use Rattle.std.specs.Prelude.{◌≡◌, ℕ, List, ◌+◌, ◌-◌, ◌*◌, ◌^◌, ◌<◌, ◌≤◌, Some, drop, take, length};
ghost use Rattle.std.specs.Prelude.{slice_get, slice_index};
ghost use Rattle.win_index.specs.Buckets.{IsAtPlace, IsBucketStart};
ghost use Rattle.win_index.specs.declared.series.BucketPlaces.{BucketPlaces};
ghost use Rattle.channel_tables.specs.Tables.{ChannelTable, windows_of};
ghost use Rattle.nbhd_check.specs.Counts.{family_len};
ghost use Rattle.nbhd_check.specs.FarSearch.{IsAtFamily};
ghost use Rattle.nbhd_check.specs.Masks.{AreMasks, NoneClose};
ghost use Rattle.nbhd_check.specs.Buckets.{AreFreeUntil, BeginsFarTuple, wide};

use crate::bucket_search::{BucketSearch, windows_per_bucket};
use crate::masks::count_apart;
use channel_tables::Table;
use win_index::BucketPlaces;

/// The search for windows of which masks do not show that they begin no tuple whose third window is
/// closer than `distance`.
#[derive(Drop)]
pub(crate) struct FarMasks<'a> {
    pub(crate) table: &'a Table,
    pub(crate) distance: u32,
    pub(crate) masks: Vec<u64>,
    pub(crate) ghost some: { 1 ≤ table.now.rounds },
    pub(crate) ghost cover: { AreMasks table.now.entries (family_len table.now) distance masks.items },
}

impl<'a> BucketSearch for FarMasks<'a> {
    ghost searched = { λ s. s.table.now };

    ghost Bad = { λ s. BeginsFarTuple s.table.now s.distance };

    fn table(&self) -> &Table {
        self.table
    }

    fn first_in_bucket(&self, window: &[u32], bucket: u32) -> Option<u32> {
        let shape = self.table.shape();
        let below = shape.rounds() - 1;
        let first = shape.bucket_start(below, &window[2..2 * below as usize + 2]) as usize;
        let places = shape.bucket_places(below, window);
        self.first_from(bucket, first, places, shape.place_in_bucket(below, window))
    }
}

impl<'a> FarMasks<'a> {
    // Like `first_in_bucket`. The third windows after the window at position `p` of the bucket have
    // the family `first + p`.
    fn first_from(&self, bucket: u32, first: usize, places: BucketPlaces, place: u32) -> Option<u32>
        requires { (window : List ℕ)
            × IsAtFamily self.now.table.now (bucket * wide self.now.table.now) window first places place }
        ensures { AreFreeUntil self.now.table.now (BeginsFarTuple self.now.table.now self.now.distance)
            (bucket * wide self.now.table.now) (bucket * wide self.now.table.now + wide self.now.table.now) result }
    {
        let each = windows_per_bucket(self.table) as u32;
        let end = bucket * each + each;
        let mut number = bucket * each;
        let mut place = place;
        while number < end {
            let count = places.series(place, end - number);
            let free = self.free_in_series(number, first + place as usize, count);
            if free < count {
                return Some(number + free);
            }
            number += count;
            let last = place + count - 1;
            place = places.after(last).unwrap_or(last);
        }
        None
    }

    // Returns a number of windows, from this one on and at most `count`, of which masks show that they
    // begin no such tuple. Their families have consecutive numbers.
    fn free_in_series(&self, number: u32, family: usize, count: u32) -> u32
        requires windows { number + count ≤ length self.now.table.now.entries }
        requires family { family < 2 ^ 32 }
        ensures few { result ≤ count }
        ensures free { (i : ℕ) → i < result
            → NoneClose self.now.table.now.entries (family_len self.now.table.now) self.now.distance
            (family + i) (slice_index self.now.table.now.entries (number + i)) }
    {
        let first = number as usize;
        let channels = &self.table.entries()[first..first + count as usize];
        count_apart(&self.masks, family, channels) as u32
    }
}
