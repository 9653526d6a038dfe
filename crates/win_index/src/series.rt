//! Series: consecutive windows whose suffixes are consecutive too.
ghost use Rattle.std.specs.Prelude.{◌≡◌, ◌≢◌, ◌⊎◌, ◌+◌, ◌*◌, ◌<◌, ◌≤◌, length, take, drop, AllPairs};
ghost use Rattle.win_index.specs.declared.limits.TheConstants.{MAX_IDS};

use crate::limits::MAX_IDS;
use crate::shape::{Shape, place_among_unused};

/// The positions of the suffixes of a bucket's windows. A bucket is the windows with a common
/// prefix, all identifiers but the last; a window's suffix is the window without its first two
/// identifiers, and its position is the one in the bucket of that suffix.
///
/// The positions are all those below the end but two, the gaps.
#[derive(Clone, Copy, Debug, PartialEq, Eq)]
pub struct BucketPlaces {
    pub(crate) first_gap: u32,
    pub(crate) second_gap: u32,
    pub(crate) end: u32,
    pub ghost few: { end ≤ MAX_IDS },
}

impl Shape {
    ghost use Rattle.std.specs.Prelude.{◌≡◌, ◌+◌, ◌*◌, ◌<◌, ◌≤◌, slice_index};
    ghost use Rattle.win_index.specs.Windows.{IsWindow};
    ghost use Rattle.win_index.specs.Buckets.{HasPlaces, place_in_bucket};

    /// Returns the positions for the bucket of a window one level above `below`.
    pub fn bucket_places(&self, below: u32, window: &[u32]) -> BucketPlaces
        requires below { below < self.now.rounds }
        requires window { IsWindow (2 * below + 3) self.now.ids window.now }
        ensures { HasPlaces (2 * below + 1) self.now.ids window.now result }
    {
        let rest = rest_of(below, window);
        BucketPlaces {
            first_gap: place_among_unused(rest, window[0]),
            second_gap: place_among_unused(rest, window[1]),
            end: self.ids - 2 * below,
        }
    }

    /// Returns the position of the suffix of a window one level above `below`.
    pub fn place_in_bucket(&self, below: u32, window: &[u32]) -> u32
        requires below { below < self.now.rounds }
        requires window { IsWindow (2 * below + 3) self.now.ids window.now }
        ensures value { result ≡ place_in_bucket (2 * below + 1) window.now (slice_index window.now (2 * below + 2)) }
        ensures inside { result < place_in_bucket (2 * below + 1) window.now self.now.ids }
    {
        let last = 2 * below as usize + 2;
        place_among_unused(rest_of(below, window), window[last])
    }
}

impl BucketPlaces {
    ghost use Rattle.std.specs.Prelude.{◌≡◌, ◌≢◌, ◌⊎◌, ℕ, List, ◌+◌, ◌<◌, ◌≤◌, take, IfSome, IfNone};
    ghost use Rattle.win_index.specs.Buckets.{HasPlaces, IsAtPlace, IsFirstOfBucket, IsLongestSeries, IsLastOfBucket};
    ghost use Rattle.win_index.specs.Successor.{IsNext};
    ghost use Rattle.win_index.specs.Windows.{IsWindow};

    /// Returns the length of the longest series from the window at this position, at least 1 and at
    /// most `most`: consecutive windows of the bucket whose suffixes are consecutive.
    pub fn series(self, place: u32, most: u32) -> u32
        requires place { place < self.end }
        requires most { 1 ≤ most }
        ensures { IsLongestSeries self place most result }
    {
        let clear = end_before(self.end, self.first_gap, place);
        (end_before(clear, self.second_gap, place) - place).min(most)
    }

    /// Returns the position of the first window in the bucket.
    pub fn first(self) -> u32
        ensures place { (k m : ℕ) (window : List ℕ) → 1 ≤ k → IsWindow (k + 2) m window → HasPlaces k m window self
            → IsFirstOfBucket (k + 1) m window → IsAtPlace k m self window result }
        ensures inside { (k m : ℕ) (window : List ℕ) → 1 ≤ k → IsWindow (k + 2) m window → HasPlaces k m window self
            → IsFirstOfBucket (k + 1) m window → result < self.end }
    {
        self.past_gap(self.past_gap(0))
    }

    /// Returns the position of the next window in the bucket, or `None` if this is the last one.
    pub fn after(self, place: u32) -> Option<u32>
        requires { place < self.end }
        ensures inside { IfSome result (λ next. (place < next) × (next < self.end)) }
        ensures next { IfSome result (λ next. (k m : ℕ) (window : List ℕ) → 1 ≤ k → IsAtPlace k m self window place
            → (later : List ℕ) × IsAtPlace k m self later next × (take (k + 1) later ≡ take (k + 1) window)
            × IsNext (k + 2) m window later) }
        ensures last { IfNone result ((k m : ℕ) (window : List ℕ) → 1 ≤ k → IsAtPlace k m self window place
            → IsLastOfBucket (k + 2) m window) }
    {
        let next = self.past_gap(self.past_gap(place + 1));
        if next < self.end { Some(next) } else { None }
    }

    // Returns the position, or the next one if it is a gap.
    fn past_gap(self, place: u32) -> u32
        requires { place ≤ self.end + 1 }
        ensures { ((result ≡ place) × (place ≢ self.first_gap) × (place ≢ self.second_gap))
            ⊎ ((result ≡ place + 1) × ((place ≡ self.first_gap) ⊎ (place ≡ self.second_gap))) }
    {
        if place == self.first_gap || place == self.second_gap {
            place + 1
        } else {
            place
        }
    }
}

// Returns the identifiers of a window one level above `below`, without the first two and the last.
fn rest_of(below: u32, window: &[u32]) -> &[u32]
    requires length { length window.now ≡ 2 * below + 3 }
    requires distinct { AllPairs (λ a b. a ≢ b) window.now }
    ensures value { result.now ≡ drop 2 (take (2 * below + 1 + 1) window.now) }
    ensures distinct { AllPairs (λ a b. a ≢ b) result.now }
{
    &window[2..2 * below as usize + 2]
}

// Returns the gap if it is between the position and the end, else the end.
fn end_before(end: u32, gap: u32, place: u32) -> u32
    requires { place < end }
    ensures some { place < result }
    ensures within { result ≤ end }
    ensures clear { (gap ≤ place) ⊎ (result ≤ gap) }
    ensures end { (result ≡ end) ⊎ (result ≡ gap) }
{
    if gap > place { end.min(gap) } else { end }
}
