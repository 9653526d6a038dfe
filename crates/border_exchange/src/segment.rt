//! Segments of a ring.
ghost use Rattle.std.specs.Prelude.{◌≡◌, ◌+◌, ◌-◌, ◌*◌, ◌<◌, ◌≤◌, ◌↔◌, IfOk, IsOk, IsTrue, OnOk, OnErr, length};
ghost use Rattle.node_program.specs.declared.limits.TheConstants.{MAX_ROUNDS};
ghost use Rattle.round_eval.specs.Rows.{rows};
ghost use Rattle.round_eval.specs.Shapes.{IsOfShape};
ghost use Rattle.border_exchange.specs.Segments.{RingSegment, places_of, states_of};

pub(crate) mod laws;
pub(crate) mod limits;

use crate::Side;
use crate::message::Msg;
use lang_check::Plan;
use node_program::OutOfMemory;
use round_eval::{
    round_of_row, row_at, sent_to_left, sent_to_right, start_of_row, stretches_are_rows, width_of,
};
use std::alloc::Global;
use std::marker::Model;
use std::mem;
use win_index::Ring;

/// A message is not the one that a segment needs in its round.
#[derive(Clone, Copy, Debug, PartialEq, Eq, Drop)]
pub struct Strange;

/// One of several segments of a ring, with the registers of its places after the rounds of a plan
/// that it has done: those of global rounds.
#[derive(Drop)]
pub struct Segment<'a> {
    plan: &'a Plan,
    ring: &'a Ring,
    segments: u32,
    index: u32,
    round: u32,
    first: u32,
    end: u32,
    states: Vec<u32>,
    spare: Vec<u32>,
}

impl<'a> Model for Segment<'a> {
    ghost use Rattle.std.specs.Prelude.{vec_len};
    ghost use Rattle.border_exchange.specs.Segments.{RingSegment, KeepsSegment};
    ghost use Rattle.border_exchange.specs.Codes.{segment_code};

    ghost Value = { RingSegment };

    ghost coded = { segment_code };

    ghost view = { λ s. record {
      plan = s.plan.now;
      ring = s.ring.now;
      segments = s.segments;
      index = s.index;
      round = s.round;
    } };

    ghost invariant = { λ s. KeepsSegment
        (record { plan = s.plan.now; ring = s.ring.now; segments = s.segments; index = s.index; round = s.round })
        s.first s.end (vec_len s.spare) s.states.items };
}

impl<'a> Segment<'a> {
    ghost use Rattle.border_exchange.specs.Headings.{heading_of};
    ghost use Rattle.border_exchange.specs.Needs.{from_left, from_right, to_the_left, to_the_right};

    /// Returns the segment with this index, of `segments`, before the first round. With `n` places
    /// segment `s` has those from `s*n/segments` to before `(s+1)*n/segments`. The ring must have
    /// the plan's shape.
    pub fn new(
        alloc: Global,
        plan: &'a Plan,
        ring: &'a Ring,
        segments: u32,
        index: u32,
    ) -> Result<Segment<'a>, OutOfMemory>
        requires shape { IsOfShape ring.now plan.now }
        requires segments { segments ≤ length ring.now.places }
        requires index { index < segments }
        ensures { IfOk result (λ s. s
            ≡ record { plan = plan.now; ring = ring.now; segments = segments; index = index; round = 0 }) }
    {
        let places = ring.len();
        let first = index * places / segments;
        let end = (index + 1) * places / segments;
        let cells = (end - first) as usize * width_of(plan);
        let mut states = vec![in alloc; 0; cells]?;
        let spare = vec![in alloc; 0; cells]?;
        let ids = ring.ids();
        start_of_row(plan, &ids[first as usize..end as usize], &mut states);
        Ok(Segment {
            plan,
            ring,
            segments,
            index,
            round: 0,
            first,
            end,
            states,
            spare,
        })
    }

    /// Returns the number of rounds done, at most those of its program.
    pub fn round(&self) -> u32
        ensures value { result ≡ self.now.round }
        ensures few { result ≤ length self.now.plan.program.steps }
    {
        self.round
    }

    /// Returns the number of rounds of its program.
    pub fn rounds(&self) -> u32
        ensures value { result ≡ length self.now.plan.program.steps }
        ensures few { result ≤ MAX_ROUNDS }
    {
        self.plan.shape().rounds()
    }

    /// Returns the registers of its places after its rounds, row by row: those of global rounds.
    pub fn states(&self) -> &[u32]
        ensures value { rows (length self.now.plan.program.start) (places_of self.now) result.now ≡ states_of self.now }
        ensures size { length result.now ≡ places_of self.now * length self.now.plan.program.start }
    {
        self.states.as_slice()
    }

    /// Returns whether it is the segment with this index, of `segments`, of a run of this plan on
    /// this ring.
    pub fn is_of(&self, plan: &Plan, ring: &Ring, segments: u32, index: u32) -> bool
        ensures { IsTrue result ↔ (self.now
            ≡ record { plan = plan.now; ring = ring.now; segments = segments; index = index; round = self.now.round }) }
    {
        self.segments == segments
            && self.index == index
            && self.plan.same(plan)
            && self.ring.same(ring)
    }

    /// Returns the messages of its round: of its last place to the right, and of its first place to
    /// the left.
    pub fn outgoing(&self) -> (Msg<'a>, Msg<'a>)
        requires { self.now.round < length self.now.plan.program.steps }
        ensures rightward { heading_of result.0 ≡ to_the_right self.now }
        ensures leftward { heading_of result.1 ≡ to_the_left self.now }
    {
        let (plan, ring, round) = (self.plan, self.ring, self.round);
        let width = width_of(plan);
        let last = (self.end - self.first - 1) as usize;
        let right = sent_to_right(plan, round, row_at(&self.states, width, last));
        let left = sent_to_left(plan, round, row_at(&self.states, width, 0));
        let rightward = Msg {
            plan,
            ring,
            place: self.end - 1,
            side: Side::Rightward,
            round,
            value: right,
        };
        let leftward = Msg {
            plan,
            ring,
            place: self.first,
            side: Side::Leftward,
            round,
            value: left,
        };
        (rightward, leftward)
    }

    /// Does one more round, with the messages of its two neighbours. Fails with `Strange` exactly if
    /// one of them has another plan, ring, place, side or round than the segment needs; the segment
    /// is then unchanged.
    pub fn advance(&mut self, left: Msg<'a>, right: Msg<'a>) -> Result<(), Strange>
        requires { self.old.round < length self.old.plan.program.steps }
        ensures exactly { IsOk result
            ↔ ((heading_of left.entry ≡ from_left self.old) × (heading_of right.entry ≡ from_right self.old)) }
        ensures advanced { OnOk result (self.new ≡ record self.old { round = self.old.round + 1 }) }
        ensures unchanged { OnErr result (self.new ≡ self.old) }
    {
        stretches_are_rows();
        let (plan, ring, round) = (self.plan, self.ring, self.round);
        let places = ring.len();
        let before = (self.first + places - 1) % places;
        let after = self.end % places;
        if !left.is_from(plan, ring, before, Side::Rightward, round)
            || !right.is_from(plan, ring, after, Side::Leftward, round)
        {
            return Err(Strange);
        }
        let count = (self.end - self.first) as usize;
        let (from_left, from_right) = (left.value(), right.value());
        round_of_row(
            plan,
            round,
            count,
            from_left,
            &self.states,
            from_right,
            &mut self.spare,
        );
        mem::swap(&mut self.states, &mut self.spare);
        self.round += 1;
        Ok(())
    }
}
