//! The state after a list of events.
ghost use Rattle.std.specs.Prelude.{◌≡◌, ◌*◌, ◌^◌, ◌<◌, ◌≤◌, ℕ, Some, IfOk, IfSome, IfNone, OnOk, length};
ghost use Rattle.std.specs.Prelude.{slice_get, map};
ghost use Rattle.std.specs.List.{range_with_len};
ghost use Rattle.round_eval.specs.Rows.{rows};
ghost use Rattle.border_exchange.specs.Segments.{states_of};
ghost use Rattle.ring_core.specs.Machine.{Steps, CanAdvance, segment_at, left_border};
ghost use Rattle.ring_core.specs.Machine.{right_border, opening as opening_of};
ghost use Rattle.ring_core.specs.MachinePromises.{KeepsPromises, segment_after_rounds, sent_at, heading_at};
ghost use Rattle.ring_core.specs.Progress.{CanBeCut, opening_part, sending, came_to, needed_to, sender_of, sent_to};

use crate::event::RingEvent;
use crate::segment_progress::SegmentProgress;
use border_exchange::{Msg, Side};
use lang_check::Plan;
use node_program::OutOfMemory;
use round_eval::stretches_are_rows;
use std::alloc::Global;
use std::marker::Model;
use win_index::Ring;

/// The state after a list of events: the segments of a ring with their rounds and registers, and
/// the messages sent over each border. Only `replay` makes one. Border `s` is between segment `s`
/// and the next one; the next one after the last is segment 0.
#[derive(Drop)]
pub struct World<'a> {
    plan: &'a Plan,
    ring: &'a Ring,
    parts: Vec<SegmentProgress<'a>>,
}

impl<'a> Model for World<'a> {
    ghost use Rattle.ring_core.specs.Machine.{Machine};
    ghost use Rattle.ring_core.specs.MachineCodes.{machine_code};
    ghost use Rattle.ring_core.specs.Progress.{FitTogether, machine_of};

    ghost Value = { Machine };

    ghost coded = { machine_code };

    ghost view = { λ w. machine_of record { plan = w.plan.now; ring = w.ring.now; items = w.parts.items } };

    ghost invariant = { λ w. FitTogether record { plan = w.plan.now; ring = w.ring.now; items = w.parts.items } };
}

impl<'a> World<'a> {
    ghost use Rattle.border_exchange.specs.Headings.{heading_of};
    ghost use Rattle.border_exchange.specs.Needs.{from_left, from_right};
    ghost use Rattle.border_exchange.specs.Messages.{sent_under};

    // Returns the state before the first event.
    pub(crate) fn opening(
        alloc: Global,
        plan: &'a Plan,
        ring: &'a Ring,
        segments: u32,
    ) -> Result<World<'a>, OutOfMemory>
        requires cut { CanBeCut plan.now ring.now segments }
        requires some { 1 ≤ segments }
        ensures { IfOk result (λ world. world ≡ opening_of plan.now ring.now segments) }
    {
        let parts = opening_parts(alloc, plan, ring, segments)?;
        Ok(World { plan, ring, parts })
    }

    // Lets a segment send to a side.
    pub(crate) fn send(&mut self, side: Side, segment: u32) -> Result<(), OutOfMemory>
        ensures { OnOk result (Steps self.old (sending side segment) self.new) }
    {
        let index = segment as usize;
        if index < self.parts.len() && self.parts[index].may_send(side) {
            self.parts[index].send(side)?;
        }
        Ok(())
    }

    // Lets a segment advance.
    pub(crate) fn advance(&mut self, segment: u32)
        ensures { Steps self.old (RingEvent.Advance segment) self.new }
    {
        stretches_are_rows();
        if let Some((left, right)) = self.needed(segment) {
            self.parts[segment as usize].advance(left, right);
        }
    }

    // Returns the messages that a segment needs for its round, if it may advance.
    fn needed(&self, segment: u32) -> Option<(Msg<'a>, Msg<'a>)>
        ensures none { IfNone result (¬ CanAdvance self.now segment) }
        ensures some { IfSome result (λ _. CanAdvance self.now segment) }
        ensures left { IfSome result (λ needed. heading_of needed.0
            ≡ from_left (segment_after_rounds self.now segment (segment_at self.now segment).round)) }
        ensures right { IfSome result (λ needed. heading_of needed.1
            ≡ from_right (segment_after_rounds self.now segment (segment_at self.now segment).round)) }
    {
        let index = segment as usize;
        if index >= self.count() || !self.part(index).has_sent() {
            return None;
        }
        let round = self.part(index).round();
        let Some(left) = self.came(Side::Rightward, index, round) else {
            return None;
        };
        let Some(right) = self.came(Side::Leftward, index, round) else {
            return None;
        };
        Some((left, right))
    }

    // Returns the message to a side that came to a segment in a round, if any.
    fn came(&self, side: Side, index: usize, round: u32) -> Option<Msg<'a>>
        requires { index < length self.now.segments }
        ensures none { IfNone result (came_to self.now index side ≤ round) }
        ensures some { IfSome result (λ _. round < came_to self.now index side) }
        ensures needed { IfSome result
            (λ m. heading_of m ≡ needed_to side (segment_after_rounds self.now index round)) }
    {
        self.neighbours();
        let sender = self.sender(side, index);
        self.part(sender).sent_in(side, round)
    }

    // Returns the segment whose messages to a side come to a segment.
    fn sender(&self, side: Side, index: usize) -> usize
        requires { index < length self.now.segments }
        ensures value { result ≡ sender_of (length self.now.segments) index side }
        ensures within { result < length self.now.segments }
    {
        let count = self.count();
        match side {
            Side::Rightward => (index + count - 1) % count,
            Side::Leftward => (index + 1) % count,
        }
    }

    // Proves that what the neighbours of a segment send in a round is what it needs in that round.
    fn neighbours(&self)
        ensures { (side : Side) (s r : ℕ) → s < length self.now.segments
            → sent_to side (segment_after_rounds self.now (sender_of (length self.now.segments) s side) r)
            ≡ needed_to side (segment_after_rounds self.now s r) }
    {
        // The proof takes the invariant of the parts from this loan.
        let _parts = &self.parts;
    }

    // Returns the number of segments.
    fn count(&self) -> usize
        ensures value { result ≡ length self.now.segments }
        ensures few { result < 2 ^ 63 }
    {
        self.parts.len()
    }

    // Returns a segment with its messages.
    fn part(&self, index: usize) -> &SegmentProgress<'a>
        requires { index < length self.now.segments }
        ensures segment { result.now.segment ≡ segment_after_rounds self.now index (segment_at self.now index).round }
        ensures rightward { result.now.rightward ≡ length (right_border self.now index).rightward }
        ensures leftward { result.now.leftward ≡ length (left_border self.now index).leftward }
    {
        &self.parts[index]
    }

    // Proves the invariant of the machine.
    pub(crate) fn promises(&self)
        ensures { KeepsPromises self.now }
    {
        // The proof takes the invariant of the parts from this loan.
        let _parts = &self.parts;
    }

    /// Returns the number of rounds that a segment has done.
    pub fn round(&self, segment: u32) -> u32
        requires { segment < length self.now.segments }
        ensures { result ≡ (segment_at self.now segment).round }
    {
        self.part(segment as usize).round()
    }

    /// Returns the registers of a segment's places, row by row: those of global rounds, after as
    /// many rounds as it has done.
    pub fn states(&self, segment: u32) -> &[u32]
        requires { segment < length self.now.segments }
        ensures value { rows (length self.now.plan.program.start) (length (segment_at self.now segment).states)
            result.now ≡ (segment_at self.now segment).states }
        ensures size { length result.now
            ≡ length (segment_at self.now segment).states * length self.now.plan.program.start }
        ensures global { (segment_at self.now segment).states
            ≡ states_of (segment_after_rounds self.now segment (segment_at self.now segment).round) }
    {
        self.promises();
        self.part(segment as usize).states()
    }

    /// Returns the messages sent over a border to a side. Message `k` is the one of round `k` of
    /// global rounds.
    pub fn sent(&self, border: u32, side: Side) -> &[Msg<'a>]
        requires { border < length self.now.segments }
        ensures value { map (λ m. sent_under (heading_of m)) result.now ≡ sent_at self.now border side }
        ensures global { (k : ℕ) (m : Msg) → slice_get result.now k ≡ Some m
            → heading_of m ≡ heading_at self.now border side k }
    {
        self.promises();
        let index = border as usize;
        match side {
            Side::Rightward => self.part(index).sent(Side::Rightward),
            Side::Leftward => self.part((index + 1) % self.count()).sent(Side::Leftward),
        }
    }
}

// Returns the segments before the first round.
fn opening_parts<'a>(
    alloc: Global,
    plan: &'a Plan,
    ring: &'a Ring,
    segments: u32,
) -> Result<Vec<SegmentProgress<'a>>, OutOfMemory>
    requires { CanBeCut plan.now ring.now segments }
    ensures { IfOk result (λ parts. parts.items
        ≡ map (opening_part plan.now ring.now segments) (range_with_len 0 segments)) }
{
    let mut parts = Vec::new(alloc);
    for index in 0..segments {
        let part = SegmentProgress::new(alloc, plan, ring, segments, index)?;
        let Ok(()) = parts.push(part) else {
            return Err(OutOfMemory);
        };
    }
    Ok(parts)
}
