//! The ends of the borders between neighbouring segments.
ghost use Rattle.std.specs.Prelude.{◌≡◌, ◌≢◌, ◌+◌, ◌<◌, Ok, IfOk, IfErr, IsErrAnd, OnOk, MatchResult};
ghost use Rattle.border_exchange.specs.SeatState.{IsNext};
ghost use Rattle.border_exchange.specs.declared.border.fault.PutFault.TheVariants.{Misplaced};
ghost use Rattle.border_exchange.specs.declared.Side.TheVariants.{Rightward, Leftward};
ghost use Rattle.node_program.specs.declared.limits.TheConstants.{MAX_ROUNDS};
ghost use Rattle.ring_exec.specs.Borders.{AreBlanksOf};
ghost use Rattle.ring_exec.specs.Sides.{opposite};
ghost use Rattle.ring_exec.specs.Stops.{IsEndStop};

use crate::border_name::{Blanks, BorderName, LeftLedger, RightLedger};
use border_exchange::{Border, Dated, PutFault, Seat, Side};
use node_program::OutOfMemory;
use std::alloc::Global;
use std::sync::{Arc, Wait};

// Why a segment stops at one of its borders.
#[derive(Clone, Copy, Drop)]
pub(crate) enum EndStop {
    // The border is closed.
    BorderClosed,
    // Memory for a message was refused.
    OutOfMemory,
}

// Returns why a segment stops if its message, which was not misplaced, was not put.
fn stopped<M: Drop>(put: Result<(), (M, PutFault)>) -> Result<(), EndStop>
    requires { IfErr put (λ back. back.1 ≢ Misplaced) }
    ensures { MatchResult put (λ done. result ≡ Ok done) (λ back. IsErrAnd result (IsEndStop back.1)) }
{
    match put {
        Ok(()) => Ok(()),
        Err((_message, PutFault::Closed)) => Err(EndStop::BorderClosed),
        Err((_message, PutFault::Misplaced)) => unreachable!(),
        Err((_message, PutFault::OutOfMemory)) => Err(EndStop::OutOfMemory),
    }
}

// One end of a border, for one of the two neighbours that put on it.
#[derive(Drop)]
pub(crate) struct End<M: Dated, N: BorderName> {
    pub(crate) border: Arc<Border<M, RightLedger<N>, LeftLedger<N>>>,
    pub(crate) seat: Seat<RightLedger<N>, LeftLedger<N>>,
}

impl<M: Dated + Copy, N: BorderName> End<M, N> {
    ghost use Rattle.ring_exec.specs.declared.end.EndStop.TheVariants.{BorderClosed};

    // Puts the next message of its seat.
    pub(crate) fn put<R: Wait>(&mut self, rt: &R, message: M) -> Result<(), EndStop>
        requires next { IsNext M.side_of M.round_of self.old.seat message }
        requires few { self.old.seat.puts < MAX_ROUNDS }
        ensures put { OnOk result (self.new.seat ≡ record self.old.seat { puts = self.old.seat.puts + 1 }) }
    {
        stopped(self.border.put(rt, &mut self.seat, message))
    }

    // Takes the neighbour's message of this round, and waits for it.
    pub(crate) fn take<R: Wait>(&self, rt: &R, round: u32) -> Result<M, EndStop>
        ensures message { IfOk result (λ m. (M.side_of m ≡ opposite self.now.seat.side) × (M.round_of m ≡ round)) }
        ensures closed { IfErr result (λ stop. stop ≡ BorderClosed) }
    {
        self.border
            .take(rt, opposite(self.seat.side()), round)
            .ok_or(EndStop::BorderClosed)
    }

    // Closes the border for both neighbours.
    pub(crate) fn close<R: Wait>(&self, rt: &R) {
        self.border.close(rt);
    }
}

fn opposite(side: Side) -> Side
    ensures { result ≡ opposite side }
{
    match side {
        Side::Rightward => Side::Leftward,
        Side::Leftward => Side::Rightward,
    }
}

// The right end of a segment that has not put: that of a new border for its left neighbour.
#[derive(Drop)]
pub(crate) struct RightEnd<M: Dated, N: BorderName> {
    pub(crate) end: End<M, N>,
    ghost seat: { end.seat ≡ record { side = Rightward; puts = 0 } },
}

// The left end of a segment that has not put: that of a new border for its right neighbour, with a
// way to close the border once the end is given away.
#[derive(Drop)]
pub(crate) struct Edge<M: Dated, N: BorderName> {
    pub(crate) end: End<M, N>,
    pub(crate) closer: Arc<Border<M, RightLedger<N>, LeftLedger<N>>>,
    ghost seat: { end.seat ≡ record { side = Leftward; puts = 0 } },
}

// Returns a new border's two ends.
pub(crate) fn new_border<M: Dated + Copy, N: BorderName>(
    alloc: Global,
    blanks: Blanks,
) -> Result<(RightEnd<M, N>, Edge<M, N>), OutOfMemory>
    requires { AreBlanksOf blanks N.rightward N.leftward }
{
    let Blanks { right, left } = blanks;
    let (border, right_seat, left_seat) = Border::new(alloc, right, left)?;
    let Ok(here) = Arc::new(alloc, border) else {
        return Err(OutOfMemory);
    };
    let Ok(there) = Arc::try_clone(&here) else {
        return Err(OutOfMemory);
    };
    let Ok(closer) = Arc::try_clone(&here) else {
        return Err(OutOfMemory);
    };
    let here = End {
        border: here,
        seat: right_seat,
    };
    let there = End {
        border: there,
        seat: left_seat,
    };
    Ok((RightEnd { end: here }, Edge { end: there, closer }))
}
