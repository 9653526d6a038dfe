//! A segment that runs between its two borders.
ghost use Rattle.std.specs.Prelude.{◌≡◌, ◌+◌, ◌<◌, ◌↔◌, IfErr, IfOk, IsOk, MatchResult, OnOk, length};
ghost use Rattle.border_exchange.specs.declared.Side.TheVariants.{Rightward, Leftward};
ghost use Rattle.border_exchange.specs.Headings.{heading_of};
ghost use Rattle.border_exchange.specs.Needs as needs;
ghost use Rattle.ring_exec.specs.Seats.{AreOfRound, AreSeatsOf, HasRoundToDo};
ghost use Rattle.ring_exec.specs.SegmentFaults.{IsFaultOf, IsOutcome, IsStopOf};
ghost use Rattle.ring_exec.specs.declared.end.EndStop.TheVariants.{BorderClosed};
ghost use Rattle.ring_exec.specs.declared.segment_fault.RunStop.TheVariants.{Strange as StrangeTaken};

use crate::border_name::BorderName;
use crate::end::{End, EndStop};
use crate::segment_fault::{Mismatch, RunStop, SegmentFault};
use border_exchange::{Dated, Msg, Segment, Strange};
use round_eval::Gate;
use std::alloc::Global;
use std::sync::Wait;
use std::thread::{Promise, PromisedHandle};

// The outcome of a segment's thread: the segment, after the last round unless a border was closed
// before, or its fault.
pub(crate) type SegmentOutcome<'a> = Result<Segment<'a>, SegmentFault<'a>>;

// The promise that a thread returns the segment with this index, unless it has a fault.
#[derive(Clone, Copy)]
pub(crate) struct SegmentAt(pub(crate) u32);

impl<'a> Promise<SegmentOutcome<'a>> for SegmentAt {
    ghost kept_by = { λ promise outcome. IfOk outcome (λ segment. segment.index ≡ promise.0) };
}

// A segment's thread.
pub(crate) type SegmentThread<'a> = PromisedHandle<SegmentOutcome<'a>, SegmentAt>;

// What all segments of a run share.
#[derive(Drop)]
pub(crate) struct Shared<'s, R, G> {
    pub(crate) rt: &'s R,
    pub(crate) alloc: Global,
    pub(crate) gate: &'s G,
}

// A segment with the ends of its two borders, ready to run. The types of segments and messages are
// parameters, so that it is proved once for all of them that a runner may be sent to another
// thread.
#[derive(Drop)]
pub(crate) struct Runner<'s, S, M: Dated, R, G, A: BorderName, B: BorderName> {
    pub(crate) shared: &'s Shared<'s, R, G>,
    pub(crate) index: u32,
    pub(crate) segment: S,
    pub(crate) left: End<M, A>,
    pub(crate) right: End<M, B>,
}

impl<'s, 'a, R: Wait, G: Gate, A: BorderName, B: BorderName> Runner<
    's,
    Segment<'a>,
    Msg<'a>,
    R,
    G,
    A,
    B,
> {
    // Runs the segment to its last round, or until it stops; then closes both borders.
    pub(crate) fn run(self) -> SegmentOutcome<'a>
        requires { AreSeatsOf self.segment self.left.seat self.right.seat }
        ensures segment { IfOk result (λ segment. segment ≡ record self.entry.segment { round = segment.round }) }
        ensures fault { IfErr result (IsFaultOf self.entry.segment) }
    {
        let Runner {
            shared,
            index,
            mut segment,
            mut left,
            mut right,
        } = self;
        let stopped = run_rounds(shared, index, &mut segment, &mut left, &mut right);
        drop(left);
        drop(right);
        outcome_of(segment, stopped)
    }
}

// Runs a segment to its last round. If it stops before, closes both borders.
fn run_rounds<'a, R: Wait, G: Gate, A: BorderName, B: BorderName>(
    shared: &Shared<'_, R, G>,
    index: u32,
    segment: &mut Segment<'a>,
    left: &mut End<Msg<'a>, A>,
    right: &mut End<Msg<'a>, B>,
) -> Result<(), RunStop<'a>>
    requires { AreSeatsOf segment.old left.old.seat right.old.seat }
    ensures same { segment.new ≡ record segment.old { round = segment.new.round } }
    ensures done { OnOk result (segment.new.round ≡ length segment.new.plan.program.steps) }
    ensures stop { IfErr result (IsStopOf segment.new) }
{
    while segment.round() < segment.rounds() {
        shared.gate.entered(index, segment.round());
        if let Err(stop) = next_round(shared.rt, segment, left, right) {
            left.close(shared.rt);
            right.close(shared.rt);
            return Err(stop);
        }
    }
    Ok(())
}

// Returns the outcome of a segment that has done its last round or stopped before. A closed border is
// no fault of the segment.
fn outcome_of<'a>(segment: Segment<'a>, stopped: Result<(), RunStop<'a>>) -> SegmentOutcome<'a>
    requires { IfErr stopped (IsStopOf segment) }
    ensures { IsOutcome segment.entry stopped.entry result }
{
    match stopped {
        Ok(()) | Err(RunStop::BorderClosed) => Ok(segment),
        Err(RunStop::OutOfMemory) => Err(SegmentFault::OutOfMemory),
        Err(RunStop::Strange(from_left, from_right)) => Err(SegmentFault::Stranger(Mismatch {
            segment,
            from_left,
            from_right,
        })),
    }
}

// Puts on both borders, takes from both and advances.
fn next_round<'a, R: Wait, A: BorderName, B: BorderName>(
    rt: &R,
    segment: &mut Segment<'a>,
    left: &mut End<Msg<'a>, A>,
    right: &mut End<Msg<'a>, B>,
) -> Result<(), RunStop<'a>>
    requires { HasRoundToDo segment.old left.old.seat right.old.seat }
    ensures advanced { MatchResult result (λ _. segment.new ≡ record segment.old { round = segment.old.round + 1 })
        (λ _. segment.new ≡ segment.old) }
    ensures seats { OnOk result (AreSeatsOf segment.new left.new.seat right.new.seat) }
    ensures stop { IfErr result (IsStopOf segment.old) }
{
    send(rt, segment, left, right)?;
    let (from_left, from_right) = receive(rt, segment.round(), left, right)?;
    advance(segment, from_left, from_right)
}

// Puts the messages of a segment's round on both borders.
fn send<'a, R: Wait, A: BorderName, B: BorderName>(
    rt: &R,
    segment: &Segment<'a>,
    left: &mut End<Msg<'a>, A>,
    right: &mut End<Msg<'a>, B>,
) -> Result<(), EndStop>
    requires { HasRoundToDo segment.now left.old.seat right.old.seat }
    ensures seats { OnOk result
        (AreSeatsOf (record segment.now { round = segment.now.round + 1 }) left.new.seat right.new.seat) }
{
    let (rightward, leftward) = segment.outgoing();
    right.put(rt, rightward)?;
    left.put(rt, leftward)
}

// Takes the messages of a round from both neighbours, the left one's first.
fn receive<'a, R: Wait, A: BorderName, B: BorderName>(
    rt: &R,
    round: u32,
    left: &End<Msg<'a>, A>,
    right: &End<Msg<'a>, B>,
) -> Result<(Msg<'a>, Msg<'a>), EndStop>
    requires sides { (left.now.seat.side ≡ Leftward) × (right.now.seat.side ≡ Rightward) }
    ensures messages { IfOk result (λ m. AreOfRound round (heading_of m.0) (heading_of m.1)) }
    ensures closed { IfErr result (λ stop. stop ≡ BorderClosed) }
{
    let from_left = left.take(rt, round)?;
    let from_right = right.take(rt, round)?;
    Ok((from_left, from_right))
}

// Advances a segment with the messages of its two neighbours.
fn advance<'a>(
    segment: &mut Segment<'a>,
    from_left: Msg<'a>,
    from_right: Msg<'a>,
) -> Result<(), RunStop<'a>>
    requires more { segment.old.round < length segment.old.plan.program.steps }
    requires messages { AreOfRound segment.old.round (heading_of from_left) (heading_of from_right) }
    ensures exactly { IsOk result
        ↔ ((heading_of from_left.entry ≡ needs.from_left segment.old)
        × (heading_of from_right.entry ≡ needs.from_right segment.old)) }
    ensures advanced { OnOk result (segment.new ≡ record segment.old { round = segment.old.round + 1 }) }
    ensures strange { IfErr result (λ stop. (stop ≡ StrangeTaken from_left.entry from_right.entry)
        × (segment.new ≡ segment.old)) }
{
    match segment.advance(from_left, from_right) {
        Ok(()) => Ok(()),
        Err(Strange) => Err(RunStop::Strange(from_left, from_right)),
    }
}
