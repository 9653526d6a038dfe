//! The tuples that the judge tests, one by one.
ghost use Rattle.std.specs.Prelude.{◌≡◌, ◌↔◌, ℕ, List, ◌+◌, ◌*◌, ◌<◌, ◌≤◌, IfNone, IfOk, IfSome, IsTrue, Some, length};
ghost use Rattle.std.specs.Prelude.{take, slice_get};
ghost use Rattle.win_index.specs.declared.limits.TheConstants.{MAX_TUPLE_LEN};
ghost use Rattle.win_index.specs.Arcs.{part_at, window_around};
ghost use Rattle.win_index.specs.Ring.{IsRing};
ghost use Rattle.win_index.specs.Windows.{IsWindow};
ghost use Rattle.channel_tables.specs.Tables.{channel_of};
ghost use Rattle.ring_problems.specs.Patterns.{extra};
ghost use Rattle.ring_problems.specs.TupleLists.{ring_of, IsTuple};
ghost use Rattle.ring_problems.specs.Problems.{tuples, IsBad, IsLeastBad, IsLeastIn, IsSolvedEverywhere};
ghost use Rattle.ring_problems.specs.Witnesses.{IsWitness};

use crate::pattern::Pattern;
use crate::patterns::{first_match, is_long, tuple_extra};
use crate::tuple_lists::{ring_of, tuple_count, write_tuple};
use crate::witness::PatternWitness;
use channel_tables::Windows;
use node_program::OutOfMemory;
use std::alloc::Global;
use win_index::MAX_TUPLE_LEN;

/// The tuples of windows with channels that are tested for a problem: all lists of `2t+2` distinct
/// identifiers; if a pattern asks something of the third place, each of them with each further
/// identifier that is none of its second to its last.
#[derive_where(Clone, Copy)]
pub struct ProblemTuples<'a, W> {
    pub windows: &'a W,
    pub problem: &'a [Pattern],
}

impl<'a, W: Windows> ProblemTuples<'a, W> {
    /// Returns the number of tuples.
    pub fn count(self) -> u64
        ensures { result ≡ length (tuples (W.table self.entry.windows.now) self.entry.problem.now) }
    {
        tuple_count(self.windows.shape(), self.problem)
    }

    /// Returns the number of identifiers of a tuple: `2t+3` if a pattern asks something of the third
    /// place, else `2t+2`.
    pub fn len(self) -> usize
        ensures length { result ≡ 2 * (W.table self.entry.windows.now).rounds + 1 + extra self.entry.problem.now }
        ensures few { result ≤ MAX_TUPLE_LEN }
    {
        2 * self.windows.shape().rounds() as usize + 1 + tuple_extra(self.problem) as usize
    }

    /// Returns the least number, from `low` on and below `high`, of a tuple that a pattern matches, or
    /// `None` if there is none.
    pub fn least_bad(self, low: u64, high: u64) -> Option<u64>
        requires { high ≤ length (tuples (W.table self.windows.now) self.problem.now) }
        ensures { IsLeastIn (W.table self.entry.windows.now) self.entry.problem.now low high result }
    {
        let mut cells = [0; MAX_TUPLE_LEN];
        let tuple = &mut cells[..self.len()];
        for number in low..high {
            self.write(number, tuple);
            if self.is_bad(tuple) {
                return Some(number);
            }
        }
        None
    }

    // Writes the tuple with this number to the cells of `out`, one for each of its identifiers.
    fn write(self, number: u64, out: &mut [u32])
        requires below { number < length (tuples (W.table self.windows.now) self.problem.now) }
        requires room { length out.old ≡ 2 * (W.table self.windows.now).rounds + 1 + extra self.problem.now }
        ensures item { slice_get (tuples (W.table self.entry.windows.now) self.entry.problem.now) number
            ≡ Some out.new }
        ensures tuple { IsTuple (W.table self.entry.windows.now).ids (W.table self.entry.windows.now).rounds
            self.entry.problem.now out.new }
    {
        write_tuple(self.windows.shape(), self.problem, number, out);
    }

    // Returns whether a pattern matches the channels of the windows of a tuple.
    fn is_bad(self, tuple: &[u32]) -> bool
        requires { IsTuple (W.table self.windows.now).ids (W.table self.windows.now).rounds self.problem.now tuple.now }
        ensures { IsTrue result ↔ IsBad (W.table self.entry.windows.now) self.entry.problem.now tuple.now }
    {
        let first = self.channel_from(tuple, 0);
        let second = self.channel_from(tuple, 1);
        let third = self.third_channel(tuple);
        first_match(self.problem, Some(first), Some(second), third).is_some()
    }

    // Returns the channel of the third window of a tuple, or `None` if no pattern asks something of it.
    fn third_channel(self, tuple: &[u32]) -> Option<u32>
        requires { IsTuple (W.table self.windows.now).ids (W.table self.windows.now).rounds self.problem.now tuple.now }
        ensures { 2 ≤ extra self.entry.problem.now
            → result ≡ channel_of (W.table self.entry.windows.now)
            (part_at (W.table self.entry.windows.now).rounds 2 tuple.now) }
    {
        if !is_long(self.problem) {
            return None;
        }
        Some(self.channel_from(tuple, 2))
    }

    /// Returns the channel of the window at this offset in a list.
    pub(crate) fn channel_from(self, list: &[u32], offset: usize) -> u32
        requires within { offset + (2 * (W.table self.windows.now).rounds + 1) ≤ length list.now }
        requires window { IsWindow (2 * (W.table self.windows.now).rounds + 1) (W.table self.windows.now).ids
            (part_at (W.table self.windows.now).rounds offset list.now) }
        ensures { channel_of (W.table self.entry.windows.now)
            (part_at (W.table self.entry.windows.now).rounds offset list.now) ≡ Some result }
    {
        let len = 2 * self.windows.shape().rounds() as usize + 1;
        self.windows.channel_of_window(&list[offset..offset + len])
    }

    /// Returns the witness of the least bad tuple, which has this number: the ring of the tuple, and
    /// place `t` for `t` rounds with the first pattern that matches there. Fails if memory for the ring
    /// was refused.
    #[tactic(auto, using(crate::proofs::Suffices::bad_is_not_solved))]
    pub fn witness(self, alloc: Global, number: u64) -> Result<PatternWitness, OutOfMemory>
        requires { (tuple : List ℕ) × IsLeastBad (W.table self.windows.now) self.problem.now 0 number tuple }
        ensures witness { IfOk result (λ witness. IsWitness (W.table self.entry.windows.now) self.entry.problem.now
            witness.ring.items witness.place witness.channels witness.pattern) }
        ensures not_solved { ¬ IsSolvedEverywhere (W.table self.entry.windows.now) self.entry.problem.now }
    {
        let len = self.len();
        let place = self.windows.shape().rounds();
        let mut cells = [0; MAX_TUPLE_LEN];
        let around = &mut cells[..2 * place as usize + 3];
        self.write_around(number, around);
        let first = self.channel_from(around, 0);
        let second = self.channel_from(around, 1);
        let third = self.channel_from(around, 2);
        let Some(pattern) = first_match(self.problem, Some(first), Some(second), Some(third)) else {
            unreachable!()
        };
        Ok(PatternWitness {
            ring: ring_of(&around[..len]).to_vec(alloc)?,
            place,
            channels: (first, second, third),
            pattern,
        })
    }

    // Writes the tuple with this number to the first cells of `out`. A last cell that is left is that of
    // the first identifier, which comes next on the ring of the tuple.
    fn write_around(self, number: u64, out: &mut [u32])
        requires below { number < length (tuples (W.table self.windows.now) self.problem.now) }
        requires room { length out.old ≡ 2 * (W.table self.windows.now).rounds + 3 }
        ensures size { length out.new ≡ length out.old }
        ensures item { slice_get (tuples (W.table self.entry.windows.now) self.entry.problem.now) number
            ≡ Some (take (2 * (W.table self.entry.windows.now).rounds + 1 + extra self.entry.problem.now) out.new) }
        ensures ring { let t = W.table self.entry.windows.now in
            IsRing t.ids t.rounds (ring_of (take (2 * t.rounds + 1 + extra self.entry.problem.now) out.new)) }
        ensures windows { let t = W.table self.entry.windows.now in
            (step : ℕ) → step ≤ 2 → part_at t.rounds step out.new
            ≡ window_around (ring_of (take (2 * t.rounds + 1 + extra self.entry.problem.now) out.new)) t.rounds
            (t.rounds + step) }
    {
        let len = self.len();
        self.write(number, &mut out[..len]);
        if len < out.len() {
            out[len] = out[0];
        }
    }
}
