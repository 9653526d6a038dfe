//! A segment of the machine, and the messages that it has sent.
ghost use Rattle.std.specs.Prelude.{◌≡◌, ◌+◌, ◌*◌, ◌<◌, ◌≤◌, ◌↔◌, IfOk, IfSome, IfNone, IsTrue, OnOk, OnErr, length};
ghost use Rattle.round_eval.specs.Rows.{rows};
ghost use Rattle.border_exchange.specs.Segments.{places_of, states_of};
ghost use Rattle.ring_core.specs.Progress.{Progress, CanBeCut, MaySend, opening_part, at_round, sent_by, after_sending};

use border_exchange::{Msg, Segment, Side};
use lang_check::Plan;
use node_program::OutOfMemory;
use std::alloc::Global;
use std::marker::Model;
use win_index::Ring;

// A segment, and the messages that it has sent: message k of each list is that of round k.
#[derive(Drop)]
pub(crate) struct SegmentProgress<'a> {
    segment: Segment<'a>,
    rightward: Vec<Msg<'a>>,
    leftward: Vec<Msg<'a>>,
}

impl<'a> Model for SegmentProgress<'a> {
    ghost use Rattle.std.specs.Prelude.{vec_len};
    ghost use Rattle.ring_core.specs.Progress.{Progress, KeepsMessages};
    ghost use Rattle.ring_core.specs.MachineCodes.{progress_code};

    ghost Value = { Progress };

    ghost coded = { progress_code };

    ghost view = { λ p. record {
      segment = p.segment;
      rightward = vec_len p.rightward;
      leftward = vec_len p.leftward;
    } };

    ghost invariant = { λ p. KeepsMessages p.segment p.rightward.items p.leftward.items };
}

impl<'a> SegmentProgress<'a> {
    ghost use Rattle.border_exchange.specs.Headings.{heading_of};
    ghost use Rattle.border_exchange.specs.Needs.{from_left, from_right};
    ghost use Rattle.ring_core.specs.Progress.{AreInOrder, headings_of};

    // Returns the part before its first round, without messages.
    pub(crate) fn new(
        alloc: Global,
        plan: &'a Plan,
        ring: &'a Ring,
        segments: u32,
        index: u32,
    ) -> Result<SegmentProgress<'a>, OutOfMemory>
        requires cut { CanBeCut plan.now ring.now segments }
        requires index { index < segments }
        ensures { IfOk result (λ part. part ≡ opening_part plan.now ring.now segments index) }
    {
        let segment = Segment::new(alloc, plan, ring, segments, index)?;
        Ok(SegmentProgress {
            segment,
            rightward: Vec::new(alloc),
            leftward: Vec::new(alloc),
        })
    }

    // Returns the number of rounds done.
    pub(crate) fn round(&self) -> u32
        ensures { result ≡ self.now.segment.round }
    {
        self.segment.round()
    }

    // Returns the registers of the places.
    pub(crate) fn states(&self) -> &[u32]
        ensures value { rows (length self.now.segment.plan.program.start) (places_of self.now.segment) result.now
            ≡ states_of self.now.segment }
        ensures size { length result.now ≡ places_of self.now.segment * length self.now.segment.plan.program.start }
    {
        self.segment.states()
    }

    // Returns the messages sent to a side.
    pub(crate) fn sent(&self, side: Side) -> &[Msg<'a>]
        ensures size { length result.now ≡ sent_by self.now side }
        ensures each { AreInOrder (headings_of self.now.segment side) result.now }
    {
        match side {
            Side::Rightward => self.rightward.as_slice(),
            Side::Leftward => self.leftward.as_slice(),
        }
    }

    // Returns the message sent to a side in a round, if any.
    pub(crate) fn sent_in(&self, side: Side, round: u32) -> Option<Msg<'a>>
        ensures none { IfNone result (sent_by self.now side ≤ round) }
        ensures some { IfSome result (λ m. (round < sent_by self.now side)
            × (heading_of m ≡ headings_of self.now.segment side round)) }
    {
        self.sent(side).get(round as usize).copied()
    }

    // Returns whether it may send to a side.
    pub(crate) fn may_send(&self, side: Side) -> bool
        ensures { IsTrue result ↔ MaySend self.now.segment (sent_by self.now side) }
    {
        let round = self.segment.round();
        round < self.segment.rounds() && self.sent(side).len() <= round as usize
    }

    // Returns whether it has sent both ways in its current round.
    pub(crate) fn has_sent(&self) -> bool
        ensures { IsTrue result ↔ ((self.now.segment.round < self.now.rightward)
            × (self.now.segment.round < self.now.leftward)) }
    {
        let round = self.segment.round() as usize;
        round < self.rightward.len() && round < self.leftward.len()
    }

    // Sends the message of the current round to a side.
    pub(crate) fn send(&mut self, side: Side) -> Result<(), OutOfMemory>
        requires unfinished { self.old.segment.round < length self.old.segment.plan.program.steps }
        requires in_order { sent_by self.old side ≡ self.old.segment.round }
        ensures sent { OnOk result (self.new ≡ after_sending self.old side) }
        ensures same { OnErr result (self.new ≡ self.old) }
    {
        let (rightward, leftward) = self.segment.outgoing();
        match side {
            Side::Rightward => Ok(self.rightward.push(rightward)?),
            Side::Leftward => Ok(self.leftward.push(leftward)?),
        }
    }

    // Does one more round, with the messages of the neighbours.
    pub(crate) fn advance(&mut self, left: Msg<'a>, right: Msg<'a>)
        requires unfinished { self.old.segment.round < length self.old.segment.plan.program.steps }
        requires left { heading_of left ≡ from_left self.old.segment }
        requires right { heading_of right ≡ from_right self.old.segment }
        ensures { self.new ≡ record self.old { segment = at_round self.old.segment (self.old.segment.round + 1) } }
    {
        let _ = self.segment.advance(left, right);
    }
}
