//! The least bad tuple, by one pass over the lists of `2t+2` identifiers that tuples begin with.
ghost use Rattle.std.specs.Prelude.{◌≡◌, ◌≢◌, ◌+◌, ◌*◌, ◌<◌, ◌≤◌, Some, length, slice_get, slice_index};
ghost use Rattle.std.specs.Bool.{OnFalse};
ghost use Rattle.win_index.specs.Windows.{windows, IsWindow};
ghost use Rattle.ring_problems.specs.Patterns.{IsForbidden};
ghost use Rattle.ring_problems.specs.TupleLists.{per_pair};
ghost use Rattle.ring_problems.specs.Problems.{tuples, IsLeastIn, NoneIsBad};
ghost use Rattle.ring_problems.specs.Pairs.{NoneBegins, NoneBeginsWith, NoneEnds, IsThirds};

use crate::pattern::Pattern;
use crate::patterns::{first_match, is_long};
use crate::tuple_lists::tuples_per_pair;
use crate::tuples::ProblemTuples;
use channel_tables::Table;
use win_index::{MAX_TUPLE_LEN, place_among_unused};

// Where the third windows after two windows are: consecutive ones, but for one.
#[derive(Clone, Copy)]
struct Thirds {
    first: u32,
    count: u32,
    gap: u32,
}

impl<'a> ProblemTuples<'a, Table> {
    /// Returns the least number of a tuple that a pattern matches, or `None` if there is none. None that
    /// begins with one of the first `low` lists of `2t+2` identifiers is one.
    pub fn least_from(self, low: u64) -> Option<u64>
        requires { let t = self.windows.now in
            NoneIsBad t self.problem.now 0 (low * per_pair t.ids t.rounds self.problem.now) }
        ensures { IsLeastIn self.entry.windows.now self.entry.problem.now 0
            (length (tuples self.entry.windows.now self.entry.problem.now)) result }
    {
        let shape = self.windows.shape();
        let pairs = shape.tuples(1);
        if low >= pairs {
            return None;
        }
        let mut cells = [0; MAX_TUPLE_LEN];
        let pair = &mut cells[..2 * shape.rounds() as usize + 2];
        shape.tuple(1, low, pair);
        for number in low..pairs {
            if let Some(found) = self.least_with(pair, number) {
                return Some(found);
            }
            shape.after(1, pair);
        }
        None
    }

    // Returns the least number of a bad tuple that begins with these identifiers, which have this number
    // among all lists of as many.
    fn least_with(self, pair: &[u32], number: u64) -> Option<u64>
        requires pair { IsWindow (2 * self.windows.now.rounds + 1 + 1) self.windows.now.ids pair.now }
        requires item { slice_get (windows (2 * self.windows.now.rounds + 1 + 1) self.windows.now.ids) number
            ≡ Some pair.now }
        ensures { let t = self.entry.windows.now in
            let each = per_pair t.ids t.rounds self.entry.problem.now in
            IsLeastIn t self.entry.problem.now (number * each) (number * each + each) result }
    {
        if !self.may_begin_bad(pair) {
            return None;
        }
        let each = tuples_per_pair(self.windows.shape(), self.problem);
        let low = number * each;
        self.least_bad(low, low + each)
    }

    // Returns `false` only if no tuple that begins with these identifiers is bad.
    fn may_begin_bad(self, pair: &[u32]) -> bool
        requires { IsWindow (2 * self.windows.now.rounds + 1 + 1) self.windows.now.ids pair.now }
        ensures { OnFalse result (NoneBeginsWith self.entry.windows.now self.entry.problem.now pair.now) }
    {
        let first = Some(self.channel_from(pair, 0));
        let second = Some(self.channel_from(pair, 1));
        if !may_begin(self.problem, first, second) {
            return false;
        }
        if !is_long(self.problem) {
            return true;
        }
        self.may_end(self.thirds(pair), first, second)
    }

    // Returns where the third windows are of the tuples that begin with these identifiers.
    fn thirds(self, pair: &[u32]) -> Thirds
        requires { IsWindow (2 * self.windows.now.rounds + 1 + 1) self.windows.now.ids pair.now }
        ensures thirds { IsThirds self.entry.windows.now pair.now result }
        ensures within { result.first + result.count ≤ length self.entry.windows.now.entries }
    {
        let shape = self.windows.shape();
        let front = &pair[2..];
        Thirds {
            first: shape.bucket_start(shape.rounds(), front),
            count: shape.ids() - 2 * shape.rounds(),
            gap: place_among_unused(front, pair[1]),
        }
    }

    // Returns `false` only if the channel of no third window is forbidden after these two.
    fn may_end(self, thirds: Thirds, first: Option<u32>, second: Option<u32>) -> bool
        requires { thirds.first + thirds.count ≤ length self.windows.now.entries }
        ensures { OnFalse result (NoneEnds self.entry.windows.now self.entry.problem.now first second
            thirds.first thirds.count thirds.gap) }
    {
        for place in 0..thirds.count {
            if self.may_end_at(thirds, place, first, second) {
                return true;
            }
        }
        false
    }

    // Returns `false` only if the third window at this place has no channel that is forbidden after these
    // two, or is no third window.
    fn may_end_at(self, thirds: Thirds, place: u32, first: Option<u32>, second: Option<u32>) -> bool
        requires { thirds.first + place < length self.windows.now.entries }
        ensures { OnFalse result (place ≢ thirds.gap
            → ¬ IsForbidden self.entry.problem.now first second
            (Some (slice_index self.entry.windows.now.entries (thirds.first + place)))) }
    {
        if place == thirds.gap {
            return false;
        }
        let third = self.windows.entries()[thirds.first as usize + place as usize];
        first_match(self.problem, first, second, Some(u32::from(third))).is_some()
    }
}

/// Returns `false` only if no pattern begins with these two channels.
pub fn may_begin(problem: &[Pattern], first: Option<u32>, second: Option<u32>) -> bool
    ensures { OnFalse result (NoneBegins problem.now first second) }
{
    for pattern in problem {
        if pattern.begins(first, second) {
            return true;
        }
    }
    false
}
