//! Why a segment stops before its last round, and the fault that it then has.
ghost use Rattle.border_exchange.specs.Headings.{heading_of};
ghost use Rattle.border_exchange.specs.Needs as needs;
ghost use Rattle.std.specs.Prelude.{◌≡◌};

use crate::end::EndStop;
use border_exchange::{Msg, Segment};
use round_eval::WorkFault;

// Why a segment stops before its last round.
#[derive(Drop)]
pub(crate) enum RunStop<'a> {
    // One of its borders is closed.
    BorderClosed,
    // Memory for a message was refused.
    OutOfMemory,
    // It has taken these messages from the left and from the right, and does not need both.
    Strange(Msg<'a>, Msg<'a>),
}

impl<'a> From<EndStop> for RunStop<'a> {
    ghost use Rattle.ring_exec.specs.Stops.{run_stop_of};

    ghost from_gives = { λ end stop. stop ≡ run_stop_of end };

    fn from(stop: EndStop) -> RunStop<'a> {
        match stop {
            EndStop::BorderClosed => RunStop::BorderClosed,
            EndStop::OutOfMemory => RunStop::OutOfMemory,
        }
    }
}

// A segment with two messages that it has taken, from the left and from the right, and that it does
// not both need.
#[derive(Drop)]
pub(crate) struct Mismatch<'a> {
    pub(crate) segment: Segment<'a>,
    pub(crate) from_left: Msg<'a>,
    pub(crate) from_right: Msg<'a>,
    ghost unneeded: { ¬ ((heading_of from_left ≡ needs.from_left segment)
        × (heading_of from_right ≡ needs.from_right segment)) },
}

// The fault of a segment.
#[derive(Drop)]
pub(crate) enum SegmentFault<'a> {
    // Memory for a message was refused.
    OutOfMemory,
    // It has taken a message that it does not need.
    Stranger(Mismatch<'a>),
}

impl<'a> SegmentFault<'a> {
    ghost use Rattle.ring_exec.specs.SegmentFaults.{work_fault_of};

    // Returns the fault without what the segment has taken.
    pub(crate) fn into_work_fault(self) -> WorkFault
        ensures { result ≡ work_fault_of self.entry }
    {
        match self {
            SegmentFault::OutOfMemory => WorkFault::OutOfMemory,
            SegmentFault::Stranger(_) => WorkFault::Stranger,
        }
    }
}
