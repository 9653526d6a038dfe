//! The tuples that the judge tests, one by one.
ghost use Rattle.std.specs.Prelude.{◌≡◌, ℕ, List, ◌+◌, ◌*◌, ◌<◌, ◌≤◌, ◌⊎◌, IfNone, IfOk, IfSome, MatchOption, Option};
ghost use Rattle.std.specs.Prelude.{Some, length, slice_get};
ghost use Rattle.win_index.specs.declared.limits.TheConstants.{MAX_IDS, MAX_TUPLE_LEN};
ghost use Rattle.win_index.specs.Windows.{IsWindow};
ghost use Rattle.win_index.specs.Arcs.{part_at};
ghost use Rattle.channel_tables.specs.Tables.{channel_of};
ghost use Rattle.channel_tables.specs.Apart.{extra, bucket_len, tuples, AreClose, IsApartEverywhere, IsBad};
ghost use Rattle.channel_tables.specs.Apart.{NoneIsBad, IsLeastBad};
ghost use Rattle.channel_tables.specs.Searches.{IsLeastIn};
ghost use Rattle.channel_tables.specs.Witnesses.{IsWitness};

use crate::separation::Separation;
use crate::table::Table;
use crate::tuple_lists::TupleLists;
use crate::windows::Windows;
use crate::witness::Witness;
use node_program::OutOfMemory;
use std::alloc::Global;
use win_index::MAX_TUPLE_LEN;

/// Returns the least number, from `low` on and below `high`, of a tuple that breaks the separation,
/// or `None` if none does.
///
/// A tuple has `2t+2` identifiers if far is 0, else `2t+3`. It breaks the separation if the
/// channels of its first and its second window differ by less than near, or those of its first and
/// its third window by less than far.
pub fn judge_part(table: &Table, separation: Separation, low: u64, high: u64) -> Option<u64>
    requires order { low ≤ high }
    requires within { high ≤ length (tuples table.now separation) }
    ensures { MatchOption result (NoneIsBad table.now separation low high)
        (λ n. (n < high) × ((tuple : List ℕ) × IsLeastBad table.now separation low n tuple)) }
{
    let tuples = Tuples {
        windows: table,
        separation,
    };
    tuples.least_bad(low, high)
}

/// The tuples of windows with channels that are tested for a separation.
#[derive_where(Clone, Copy)]
pub struct Tuples<'a, W> {
    pub windows: &'a W,
    pub separation: Separation,
}

impl<'a, W: Windows> Tuples<'a, W> {
    // Returns the tuples as lists.
    fn lists(self) -> TupleLists
        ensures ids { result.shape.ids ≡ (W.table self.entry.windows.now).ids }
        ensures rounds { result.shape.rounds ≡ (W.table self.entry.windows.now).rounds }
        ensures separation { result.separation ≡ self.entry.separation }
    {
        TupleLists {
            shape: self.windows.shape(),
            separation: self.separation,
        }
    }

    /// Returns the number of tuples, of `2t+2` identifiers if far is 0, else of `2t+3`. It is 0 if
    /// there are fewer identifiers.
    pub fn count(self) -> u64
        ensures { result ≡ length (tuples (W.table self.entry.windows.now) self.entry.separation) }
    {
        self.lists().count()
    }

    /// Returns the number of identifiers of a tuple: `2t+2` if far is 0, else `2t+3`.
    pub fn len(self) -> usize
        ensures length { result ≡ 2 * (W.table self.entry.windows.now).rounds + 1 + extra self.entry.separation }
        ensures few { result ≤ MAX_TUPLE_LEN }
    {
        self.lists().len()
    }

    /// Returns the number of tuples that begin with one window. It is 0 if a tuple has more
    /// identifiers than there are.
    pub fn per_window(self) -> u64
        ensures value { result ≡ bucket_len (W.table self.entry.windows.now) self.entry.separation }
        ensures few { result ≤ MAX_IDS * MAX_IDS }
    {
        let shape = self.windows.shape();
        let free = u64::from(shape.ids()) - (2 * u64::from(shape.rounds()) + 1);
        if self.separation.far == 0 {
            free
        } else {
            free * (free - 1)
        }
    }

    /// Returns the least number, from `low` on and below `high`, of a tuple that breaks the
    /// separation, or `None` if none does.
    pub fn least_bad(self, low: u64, high: u64) -> Option<u64>
        requires order { low ≤ high }
        requires within { high ≤ length (tuples (W.table self.windows.now) self.separation) }
        ensures { IsLeastIn (W.table self.entry.windows.now) self.entry.separation low high result }
    {
        if low == high {
            return None;
        }
        let mut cells = [0; MAX_TUPLE_LEN];
        let tuple = &mut cells[..self.len()];
        self.write(low, tuple);
        self.scan(tuple, low, high)
    }

    // Writes the tuple with this number to the cells of `out`, one for each of its identifiers.
    fn write(self, number: u64, out: &mut [u32])
        requires below { number < length (tuples (W.table self.windows.now) self.separation) }
        requires room { length out.old ≡ 2 * (W.table self.windows.now).rounds + 1 + extra self.separation }
        ensures item { slice_get (tuples (W.table self.entry.windows.now) self.entry.separation) number ≡ Some out.new }
        ensures tuple { IsWindow (2 * (W.table self.entry.windows.now).rounds + 1 + extra self.entry.separation)
            (W.table self.entry.windows.now).ids out.new }
    {
        self.lists().write(number, out);
    }

    // Like `least_bad`. `tuple` is the tuple with number `low`, and is advanced in place.
    fn scan(self, tuple: &mut [u32], low: u64, high: u64) -> Option<u64>
        requires first { slice_get (tuples (W.table self.windows.now) self.separation) low ≡ Some tuple.old }
        requires tuple { IsWindow (2 * (W.table self.windows.now).rounds + 1 + extra self.separation)
            (W.table self.windows.now).ids tuple.old }
        requires within { high ≤ length (tuples (W.table self.windows.now) self.separation) }
        ensures { IsLeastIn (W.table self.entry.windows.now) self.entry.separation low high result }
    {
        let lists = self.lists();
        for number in low..high {
            if self.broken_step(tuple).is_some() {
                return Some(number);
            }
            lists.write_next(tuple);
        }
        None
    }

    // Returns the distance of the two places at which a tuple breaks the separation: 1 if neighbours
    // are too close, else 2; or `None` if it keeps the separation.
    #[tactic(auto, unfolding(crate::specs::Apart::IsBad))]
    fn broken_step(self, tuple: &[u32]) -> Option<u32>
        requires { IsWindow (2 * (W.table self.windows.now).rounds + 1 + extra self.separation)
            (W.table self.windows.now).ids tuple.now }
        ensures none { IfNone result (¬ IsBad (W.table self.entry.windows.now) self.entry.separation tuple.now) }
        ensures bad { IfSome result (λ _. IsBad (W.table self.entry.windows.now) self.entry.separation tuple.now) }
        ensures step { IfSome result (λ step. let t = W.table self.entry.windows.now in
            let channel_at : ℕ → Option ℕ = λ step. channel_of t (part_at t.rounds step tuple.now) in
            let close = AreClose self.entry.separation.near (channel_at 0) (channel_at 1) in
            (close × (step ≡ 1)) ⊎ ((¬ close) × (step ≡ 2))) }
        ensures few { IfSome result (λ step. step ≤ extra self.entry.separation) }
    {
        let here = self.channel_from(tuple, 0);
        if here.abs_diff(self.channel_from(tuple, 1)) < self.separation.near {
            return Some(1);
        }
        if self.separation.far > 0
            && here.abs_diff(self.channel_from(tuple, 2)) < self.separation.far
        {
            return Some(2);
        }
        None
    }

    // Returns the channel of the window at this offset in a tuple.
    fn channel_from(self, tuple: &[u32], offset: usize) -> u32
        requires offset { offset ≤ extra self.separation }
        requires tuple { IsWindow (2 * (W.table self.windows.now).rounds + 1 + extra self.separation)
            (W.table self.windows.now).ids tuple.now }
        ensures { channel_of (W.table self.entry.windows.now)
            (part_at (W.table self.entry.windows.now).rounds offset tuple.now) ≡ Some result }
    {
        self.windows
            .channel_of_window(self.lists().window_in(tuple, offset))
    }

    /// Returns the witness of the least bad tuple, which has this number: the tuple as a ring, and the
    /// places `t` and `t+1` for `t` rounds if these are too close, else `t` and `t+2`, with their
    /// channels. Fails if memory for the ring was refused.
    #[tactic(auto, using(crate::proofs::Witnesses::bad_is_not_apart))]
    pub fn witness(self, alloc: Global, number: u64) -> Result<Witness, OutOfMemory>
        requires { (tuple : List ℕ) × IsLeastBad (W.table self.windows.now) self.separation 0 number tuple }
        ensures ring { IfOk result
            (λ witness. IsLeastBad (W.table self.entry.windows.now) self.entry.separation 0 number
            witness.ring.items) }
        ensures witness { IfOk result (λ witness. IsWitness (W.table self.entry.windows.now) self.entry.separation
            witness.ring.items witness.places witness.channels) }
        ensures not_apart { ¬ IsApartEverywhere (W.table self.entry.windows.now) self.entry.separation }
    {
        let mut cells = [0; MAX_TUPLE_LEN];
        let tuple = &mut cells[..self.len()];
        self.write(number, tuple);
        let Some(step) = self.broken_step(tuple) else {
            unreachable!()
        };
        let first = self.channel_from(tuple, 0);
        let second = self.channel_from(tuple, step as usize);
        let place = self.windows.shape().rounds();
        Ok(Witness {
            ring: tuple.to_vec(alloc)?,
            places: (place, place + step),
            channels: (first, second),
        })
    }
}
