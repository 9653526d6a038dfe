//! The prefixes of buckets, by numbers from which those of the parts of their windows follow. A prefix
//!  is stepped to the next one, so that no list is numbered anew.
ghost use Rattle.std.specs.Prelude.{◌≡◌, ℕ, List, ◌+◌, ◌-◌, ◌<◌, ◌≤◌, take, nat_lt, if◌then◌else◌, length, slice_index};
ghost use Rattle.std.specs.Prelude.{IfSome, IfNone};
ghost use Rattle.win_index.specs.declared.limits.TheConstants.{MAX_IDS, MAX_WINDOWS};
ghost use Rattle.win_index.specs.BucketPrefixes.{HasNumbers, IsLonger, IsPrefix, IsNextPrefix, IsLastPrefix};
ghost use Rattle.win_index.specs.Buckets.{HasPlaces};
ghost use Rattle.win_index.specs.Windows.{windows, IsWindow};

use crate::arrangement::Arrangements;
use crate::bucket_prefix::BucketPrefix;
use crate::series::BucketPlaces;
use crate::shape::Shape;

// The lists of one length, at least two, that are prefixes of buckets.
#[derive(Clone, Copy)]
pub(crate) struct Prefixes {
    pub(crate) ids: u32,
    pub(crate) len: u32,
    pub(crate) ghost some: { 2 ≤ len },
    pub(crate) ghost short: { len < ids },
    pub(crate) ghost few_ids: { ids ≤ MAX_IDS },
    pub(crate) ghost few: { (k : ℕ) → k ≤ len → length (windows k ids) ≤ MAX_WINDOWS },
}

impl Prefixes {
    // Returns the lists that are one identifier shorter.
    pub(crate) fn shorter(self) -> Prefixes
        requires { 3 ≤ self.len }
        ensures { (result.ids ≡ self.ids) × (result.len ≡ self.len - 1) }
    {
        Prefixes {
            ids: self.ids,
            len: self.len - 1,
        }
    }

    // Returns the positions for the lists that are one identifier longer than this one.
    pub(crate) fn places(self, prefix: BucketPrefix) -> BucketPlaces
        ensures { (window : List ℕ) → IsWindow (self.len + 1) self.ids window
            → HasNumbers self.len self.ids (take self.len window) prefix
            → HasPlaces (self.len - 1) self.ids window result }
    {
        BucketPlaces {
            first_gap: prefix.first_gap,
            second_gap: prefix.second_gap,
            end: self.ids - (self.len - 2),
        }
    }

    // Returns the prefix with one identifier more, which has this position.
    pub(crate) fn longer(self, prefix: BucketPrefix, place: u32) -> BucketPrefix
        requires { (window : List ℕ) × IsLonger self.len self.ids prefix place window }
        ensures { (window : List ℕ) → IsLonger self.len self.ids prefix place window
            → HasNumbers (self.len + 1) self.ids window result }
    {
        let free = self.ids - self.len;
        BucketPrefix {
            middle: prefix.middle * (free + 1) + (place - u32::from(prefix.second_gap < place)),
            last: prefix.last * (free + 2) + place,
            first_gap: prefix.first_gap - u32::from(place < prefix.first_gap),
            second_gap: prefix.second_gap - u32::from(place < prefix.second_gap),
        }
    }

    // Returns the prefix without its last identifier, and the position of that one.
    pub(crate) fn without_last(self, prefix: BucketPrefix) -> (BucketPrefix, u32)
        requires { IsPrefix (self.len + 1) self.ids prefix }
        ensures { (window : List ℕ) → HasNumbers (self.len + 1) self.ids window prefix
            → IsLonger self.len self.ids result.0 result.1 window }
    {
        let free = self.ids - self.len;
        let place = prefix.last % (free + 2);
        let shorter = BucketPrefix {
            middle: prefix.middle / (free + 1),
            last: prefix.last / (free + 2),
            first_gap: prefix.first_gap + u32::from(place <= prefix.first_gap),
            second_gap: prefix.second_gap + u32::from(place <= prefix.second_gap),
        };
        (shorter, place)
    }

    // Returns the next prefix, or `None` if this is the last one.
    pub(crate) fn next(self, prefix: BucketPrefix) -> Option<BucketPrefix>
        requires { IsPrefix self.len self.ids prefix }
        ensures next { IfSome result (IsNextPrefix self.len self.ids prefix) }
        ensures last { IfNone result (IsLastPrefix self.len self.ids prefix) }
    {
        if self.len == 2 {
            return self.next_pair(prefix);
        }
        let shorter = Prefixes {
            ids: self.ids,
            len: self.len - 1,
        };
        let (front, place) = shorter.without_last(prefix);
        if let Some(next) = shorter.places(front).after(place) {
            return Some(shorter.longer(front, next));
        }
        let Some(later) = shorter.next(front) else {
            return None;
        };
        Some(shorter.longer(later, shorter.places(later).first()))
    }

    // Returns the next prefix of two identifiers, or `None` if this is the last one.
    pub(crate) fn next_pair(self, prefix: BucketPrefix) -> Option<BucketPrefix>
        requires { IsPrefix 2 self.ids prefix }
        ensures next { IfSome result (IsNextPrefix 2 self.ids prefix) }
        ensures last { IfNone result (IsLastPrefix 2 self.ids prefix) }
    {
        let mut pair = [prefix.first_gap, prefix.second_gap];
        let pairs = Arrangements {
            ids: self.ids,
            len: 2,
        };
        if !pairs.write_next(&mut pair) {
            return None;
        }
        Some(BucketPrefix {
            middle: pair[1],
            last: 0,
            first_gap: pair[0],
            second_gap: pair[1],
        })
    }
}

impl Shape {
    ghost use Rattle.std.specs.Prelude.{◌≡◌, ℕ, List, ◌+◌, ◌*◌, ◌<◌, take, drop, length, slice_get, Some};
    ghost use Rattle.win_index.specs.BucketPrefixes.{HasNumbers, IsPrefix};
    ghost use Rattle.win_index.specs.Buckets.{HasPlaces, IsBucketStart};
    ghost use Rattle.win_index.specs.Windows.{windows, IsWindow};

    // Returns the prefix of the bucket of a window one level above `below`, by its numbers.
    pub(crate) fn bucket_prefix(&self, below: u32, window: &[u32]) -> BucketPrefix
        requires below { below < self.now.rounds }
        requires window { IsWindow (2 * below + 3) self.now.ids window.now }
        ensures { HasNumbers (2 * below + 2) self.now.ids (take (2 * below + 2) window.now) result }
    {
        let len = 2 * below as usize + 2;
        let places = self.bucket_places(below, window);
        BucketPrefix {
            middle: self.window_number(below, &window[1..len]),
            last: self.lists(2 * below).number(&window[2..len]) as u32,
            first_gap: places.first_gap,
            second_gap: places.second_gap,
        }
    }

    /// Returns the positions for the bucket with this prefix one level above `below`.
    pub fn prefix_places(&self, below: u32, prefix: BucketPrefix) -> BucketPlaces
        requires below { below < self.now.rounds }
        ensures { (window : List ℕ) → IsWindow (2 * below + 3) self.now.ids window
            → HasNumbers (2 * below + 2) self.now.ids (take (2 * below + 2) window) prefix
            → HasPlaces (2 * below + 1) self.now.ids window result }
    {
        self.bucket_prefixes(below).places(prefix)
    }

    /// Returns the number of the first window in the bucket of the last parts of the windows with
    /// this prefix, which are one level above `below`.
    pub fn last_bucket_start(&self, below: u32, prefix: BucketPrefix) -> u32
        requires below { below < self.now.rounds }
        requires prefix { IsPrefix (2 * below + 2) self.now.ids prefix }
        ensures { (list : List ℕ) → HasNumbers (2 * below + 2) self.now.ids list prefix
            → IsBucketStart (2 * below) self.now.ids (drop 2 list) result }
    {
        prefix.last * (self.ids - 2 * below)
    }

    /// Returns the number of the first part of the window with this number one level above `below`.
    pub fn first_part_number(&self, below: u32, number: u32) -> u32
        requires below { below < self.now.rounds }
        requires number { number < length (windows (2 * below + 3) self.now.ids) }
        ensures { (window : List ℕ) → slice_get (windows (2 * below + 3) self.now.ids) number ≡ Some window
            → slice_get (windows (2 * below + 1) self.now.ids) result ≡ Some (take (2 * below + 1) window) }
    {
        let free = self.ids - 2 * below - 1;
        number / (free * (free - 1))
    }

    // Returns the prefixes of the buckets one level above `below`.
    #[tactic(auto, using(crate::proofs::Levels::few_of_shape))]
    pub(crate) fn bucket_prefixes(&self, below: u32) -> Prefixes
        requires { below < self.now.rounds }
        ensures ids { result.ids ≡ self.now.ids }
        ensures len { result.len ≡ 2 * below + 2 }
    {
        Prefixes {
            ids: self.ids,
            len: 2 * below + 2,
        }
    }
}
