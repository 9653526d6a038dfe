//! Windows that begin a tuple whose third window is too close, found by counts, family by family. For
//! a list `z` of `2t-1` identifiers, the third windows of the tuples that begin with `(a, b, z)` are
//! the windows that begin with `z` and hold neither `a` nor `b`. From one `b` to the next one the
//! numbers of `(a, b, z)`, `(z, a, b)` and `(z, b, a)` rise by constants, if both are free.
ghost use Rattle.std.specs.Prelude.{◌≡◌, ◌≢◌, ℕ, ◌+◌, ◌-◌, ◌*◌, ◌^◌, ◌<◌, ◌≤◌, ◌↔◌, [], ◌∷◌, ◌++◌, All, Contains};
ghost use Rattle.std.specs.Prelude.{IsTrue, List, Some, length, drop, slice_get, slice_index};
ghost use Rattle.std.specs.Bool.{OnFalse};
ghost use Rattle.std.specs.Int.{abs_diff};
ghost use Rattle.win_index.specs.Falling.{falling};
ghost use Rattle.win_index.specs.Windows.{IsWindow};
ghost use Rattle.channel_tables.specs.Tables.{windows_of};
ghost use Rattle.nbhd_check.specs.Counts.{shared_len, shared_lists, AreCountsOf, CountsFit};
ghost use Rattle.nbhd_check.specs.FarSearch.{AreFarFreeIn, ArePairNumbers, AreSeconds, HasFamilyIn};
ghost use Rattle.nbhd_check.specs.Buckets.{AreFree, BeginsFarTuple};

use crate::bucket_search::window_count;
use crate::counts::{Counts, close_count, count_family};
use channel_tables::Table;
use std::alloc::Global;
use std::sync::atomic::{AtomicU32, Ordering};
use win_index::{MAX_WINDOW_LEN, place_among_unused};

/// The search for windows that begin a tuple whose third window is closer than `distance`, which is
/// at least 1. All channels are below `limit`.
#[derive(Clone, Copy)]
pub(crate) struct FarCounts<'a> {
    pub(crate) alloc: Global,
    pub(crate) table: &'a Table,
    pub(crate) distance: u32,
    pub(crate) limit: u32,
    pub(crate) ghost some: { (1 ≤ table.now.rounds) × (1 ≤ distance) },
    pub(crate) ghost below: { All (λ channel. channel < limit) table.now.entries },
    pub(crate) ghost few: { limit < 2 ^ 17 },
}

impl<'a> FarCounts<'a> {
    /// Returns the number of families.
    pub(crate) fn families(self) -> u32
        ensures value { result ≡ length (shared_lists self.entry.table.now) }
        ensures few { result ≤ 2 ^ 22 }
    {
        let shape = self.table.shape();
        shape.count(shape.rounds() - 1)
    }

    /// Returns a number of windows such that none of the windows below it with a family from `low` on
    /// and below `high` begins such a tuple. It is 0 if memory for counts was refused. `best` is the
    /// least such number that any thread has found.
    pub(crate) fn free_in_families(self, low: u32, high: u32, best: &AtomicU32) -> u32
        requires { high ≤ length (shared_lists self.table.now) }
        ensures { AreFarFreeIn self.entry.table.now self.entry.distance result
            (HasFamilyIn self.entry.table.now low high) }
    {
        let Ok(mut counts) = Counts::new(self.alloc, self.table, self.limit) else {
            return 0;
        };
        let mut least = best.load(Ordering::SeqCst);
        for number in low..high {
            least = self.free_in_family(
                number,
                &mut counts,
                least.min(best.load(Ordering::SeqCst)),
            );
            best.fetch_min(least, Ordering::SeqCst);
        }
        least
    }

    // Returns a number of windows, at most `least`, such that none of the windows below it with this
    // family begins such a tuple.
    fn free_in_family(self, number: u32, counts: &mut Counts, least: u32) -> u32
        requires fit { CountsFit self.table.now counts.old }
        requires number { number < length (shared_lists self.table.now) }
        ensures fit { CountsFit self.entry.table.now counts.new }
        ensures less { result ≤ least }
        ensures free { AreFarFreeIn self.entry.table.now self.entry.distance result
            (HasFamilyIn self.entry.table.now number (number + 1)) }
    {
        let shape = self.table.shape();
        let below = shape.rounds() - 1;
        let mut cells = [0; MAX_WINDOW_LEN];
        let shared = &mut cells[..2 * below as usize + 1];
        shape.window(below, number, shared);
        count_family(self.table, shared, counts);
        let family = Family {
            table: self.table,
            distance: self.distance,
            shared,
            number,
            counts,
            each: windows_per_pair(self.table),
        };
        family.free(least)
    }
}

// Returns the number of windows that begin with the same two identifiers.
fn windows_per_pair(table: &Table) -> u32
    requires { 1 ≤ table.now.rounds }
    ensures value { result ≡ falling (table.now.ids - 2) (shared_len table.now) }
    ensures few { result ≤ length (windows_of table.now) }
{
    let ids = table.shape().ids();
    window_count(table) / (ids * (ids - 1))
}

// The numbers of three windows of two identifiers and those that a family shares.
#[derive(Clone, Copy)]
struct PairNumbers {
    // That of the two identifiers, followed by the shared ones.
    before: u32,
    // That of the shared identifiers, followed by the two.
    after: u32,
    // That of the shared identifiers, followed by the second and the first.
    turned: u32,
}

// The third windows that begin with the identifiers `shared`, with their counts, and a distance.
#[derive(Clone, Copy)]
struct Family<'b> {
    table: &'b Table,
    distance: u32,
    shared: &'b [u32],
    // The number of the shared identifiers, as a list.
    number: u32,
    counts: &'b Counts,
    // The number of windows that begin with the same two identifiers.
    each: u32,
    ghost some: { (1 ≤ table.now.rounds) × (1 ≤ distance) },
    ghost window: { IsWindow (shared_len table.now) table.now.ids shared.now },
    ghost numbered: { slice_get (shared_lists table.now) number ≡ Some shared.now },
    ghost fit: { CountsFit table.now counts.now },
    ghost each_is: { (each ≡ falling (table.now.ids - 2) (shared_len table.now))
        × (each ≤ length (windows_of table.now)) },
}

impl<'b> Family<'b> {
    // Returns a number of windows, at most `least`, such that none of the windows below it that end
    // in the shared identifiers begins a tuple whose third window is closer than the distance.
    fn free(self, least: u32) -> u32
        requires { AreCountsOf self.table.now self.shared.now self.counts.now }
        ensures less { result ≤ least }
        ensures free { AreFarFreeIn self.entry.table.now self.entry.distance result
            (λ window. drop 2 window ≡ self.entry.shared.now) }
    {
        let mut least = least;
        for first in 0..self.table.shape().ids() {
            least = self.free_with_first(first, least);
        }
        least
    }

    // Like `free`, for the windows that also begin with this identifier.
    fn free_with_first(self, first: u32, least: u32) -> u32
        requires counted { AreCountsOf self.table.now self.shared.now self.counts.now }
        requires first { first < self.table.now.ids }
        ensures less { result ≤ least }
        ensures free { AreFarFreeIn self.entry.table.now self.entry.distance result
            (λ window. (slice_index window 0 ≡ first) × (drop 2 window ≡ self.entry.shared.now)) }
    {
        if contains(self.shared, first) {
            return least;
        }
        let ids = self.table.shape().ids();
        let mut least = least;
        let mut second = 0;
        while second < ids {
            let end = self.end_of_free(first, second);
            if second < end {
                least = self.free_with_seconds(first, second, end, least);
            }
            second = end + 1;
        }
        least
    }

    // Returns the least identifier from `low` on that is `first` or a shared one, or the number of
    // identifiers if there is none.
    fn end_of_free(self, first: u32, low: u32) -> u32
        requires { (first < self.table.now.ids) × (low < self.table.now.ids) }
        ensures within { (low ≤ result) × (result ≤ self.entry.table.now.ids) }
        ensures free { (x : ℕ) → low ≤ x → x < result → (first ≢ x) × ¬ Contains self.entry.shared.now x }
        ensures used { result < self.entry.table.now.ids → first ≢ result → Contains self.entry.shared.now result }
    {
        let mut end = self.table.shape().ids();
        if low <= first {
            end = first;
        }
        for place in 0..self.shared.len() {
            let id = self.shared[place];
            if low <= id && id < end {
                end = id;
            }
        }
        end
    }

    // Like `free`, for the windows that begin with the first identifier and a second one from `low` on
    // and below `end`.
    fn free_with_seconds(self, first: u32, low: u32, end: u32, least: u32) -> u32
        requires counted { AreCountsOf self.table.now self.shared.now self.counts.now }
        requires seconds { AreSeconds self.table.now self.shared.now first low end }
        ensures less { result ≤ least }
        ensures free { AreFarFreeIn self.entry.table.now self.entry.distance result
            (λ window. (slice_index window 0 ≡ first)
            × (low ≤ slice_index window 1) × (slice_index window 1 < end) × (drop 2 window ≡ self.entry.shared.now)) }
    {
        let mut least = least;
        let mut numbers = self.numbers_of(first, low);
        for second in low..end {
            least = self.free_with_both(first, second, numbers, least);
            numbers = self.stepped(numbers);
        }
        least
    }

    // Returns the numbers for the next second identifier, if it is not used.
    fn stepped(self, numbers: PairNumbers) -> PairNumbers
        requires { (first : ℕ) × ((second : ℕ) × ArePairNumbers self.table.now self.shared.now first second numbers) }
        ensures { (first second : ℕ) → ArePairNumbers self.entry.table.now self.entry.shared.now first second numbers
            → IsWindow (2 * self.entry.table.now.rounds + 1) self.entry.table.now.ids
            (first ∷ (second + 1) ∷ self.entry.shared.now)
            → ArePairNumbers self.entry.table.now self.entry.shared.now first (second + 1) result }
    {
        let free = self.table.shape().ids() - self.shared.len() as u32;
        PairNumbers {
            before: numbers.before + self.each,
            after: numbers.after + 1,
            turned: numbers.turned + (free - 1),
        }
    }

    // Returns the numbers for these two identifiers.
    fn numbers_of(self, first: u32, second: u32) -> PairNumbers
        requires { IsWindow (2 * self.table.now.rounds + 1) self.table.now.ids (first ∷ second ∷ self.shared.now) }
        ensures { ArePairNumbers self.entry.table.now self.entry.shared.now first second result }
    {
        let shape = self.table.shape();
        let level = shape.rounds();
        let mut cells = [0; MAX_WINDOW_LEN];
        let window = &mut cells[..2 * level as usize + 1];
        write_before(window, first, second, self.shared);
        PairNumbers {
            before: shape.window_number(level, window),
            after: self.number_after(first, second),
            turned: self.number_after(second, first),
        }
    }

    // Returns the number of the window of the shared identifiers and then these two, by their places
    // in the family.
    fn number_after(self, one: u32, other: u32) -> u32
        requires { IsWindow (2 * self.table.now.rounds + 1) self.table.now.ids (self.shared.now ++ one ∷ other ∷ []) }
        ensures { slice_get (windows_of self.entry.table.now) result
            ≡ Some (self.entry.shared.now ++ one ∷ other ∷ []) }
    {
        let free = self.table.shape().ids() - self.shared.len() as u32;
        let place = place_among_unused(self.shared, one);
        let next = place_among_unused(self.shared, other) - u32::from(one < other);
        (self.number * free + place) * (free - 1) + next
    }

    // Like `free`, for the window of these two identifiers and the shared ones.
    fn free_with_both(self, first: u32, second: u32, numbers: PairNumbers, least: u32) -> u32
        requires counted { AreCountsOf self.table.now self.shared.now self.counts.now }
        requires numbers { ArePairNumbers self.table.now self.shared.now first second numbers }
        requires ids { (first < self.table.now.ids) × (second < self.table.now.ids) }
        ensures less { result ≤ least }
        ensures free { AreFarFreeIn self.entry.table.now self.entry.distance result
            (λ window. (slice_index window 0 ≡ first) × (slice_index window 1 ≡ second)
            × (drop 2 window ≡ self.entry.shared.now)) }
    {
        if numbers.before < least && self.may_begin_far_tuple(first, second, numbers) {
            numbers.before
        } else {
            least
        }
    }

    // Returns `false` only if the window of these two identifiers and the shared ones begins no tuple
    // whose third window is closer than the distance.
    fn may_begin_far_tuple(self, first: u32, second: u32, numbers: PairNumbers) -> bool
        requires counted { AreCountsOf self.table.now self.shared.now self.counts.now }
        requires numbers { ArePairNumbers self.table.now self.shared.now first second numbers }
        requires ids { (first < self.table.now.ids) × (second < self.table.now.ids) }
        ensures { OnFalse result
            (¬ BeginsFarTuple self.entry.table.now self.entry.distance (first ∷ second ∷ self.entry.shared.now)) }
    {
        let Family {
            table,
            distance,
            counts,
            ..
        } = self;
        let ids = table.shape().ids();
        let channel = self.channel_at(numbers.before);
        let all = close_count(table, counts, ids, channel, distance);
        let with_first = close_count(table, counts, first, channel, distance);
        let with_second = close_count(table, counts, second, channel, distance);
        let all = u64::from(all);
        let held = u64::from(with_first) + u64::from(with_second);
        let one = self.close_one(numbers.after, channel, all + 2 > held);
        let other = self.close_one(numbers.turned, channel, all + one + 1 > held);
        all + one + other > held
    }

    // Returns 1 if the channel of the window with this number is closer than the distance to
    // `channel`, else 0. Returns 1 without a look at the window unless it `decides`.
    fn close_one(self, number: u32, channel: u32, decides: bool) -> u64
        requires { (window : List ℕ) × (slice_get (windows_of self.table.now) number ≡ Some window) }
        ensures few { result ≤ 1 }
        ensures close { abs_diff channel (slice_index self.entry.table.now.entries number) < self.entry.distance
            → 1 ≤ result }
    {
        if !decides {
            return 1;
        }
        u64::from(channel.abs_diff(self.channel_at(number)) < self.distance)
    }

    // Returns the channel of the window with this number.
    fn channel_at(self, number: u32) -> u32
        requires { (window : List ℕ) × (slice_get (windows_of self.table.now) number ≡ Some window) }
        ensures value { result ≡ slice_index self.entry.table.now.entries number }
        ensures few { result < self.entry.counts.now.limit }
    {
        u32::from(self.table.entries()[number as usize])
    }
}

// Writes two identifiers and then the others.
fn write_before(out: &mut [u32], first: u32, second: u32, others: &[u32])
    requires { length out.old ≡ length others.now + 2 }
    ensures { out.new ≡ first ∷ second ∷ others.now }
{
    out[0] = first;
    out[1] = second;
    out[2..].copy_from_slice(others);
}

// Returns whether the list contains the identifier.
fn contains(list: &[u32], id: u32) -> bool
    ensures { IsTrue result ↔ Contains list.now id }
{
    list.contains(&id)
}
