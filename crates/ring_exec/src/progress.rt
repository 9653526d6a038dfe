//! The segments of a run that wait for their start, the threads of the others, and the outcomes.
ghost use Rattle.std.specs.Prelude.{◌≡◌, ◌+◌, ◌≤◌, All, Ok, Err, IfSome, MatchOption, vec_len, vec_capacity};
ghost use Rattle.ring_exec.specs.Outcomes.{AreInOrder};
ghost use Rattle.border_exchange.specs.declared.segment.limits.TheConstants.{MAX_SEGMENTS};
ghost use Rattle.ring_exec.specs.declared.fault.ThreadFault.TheVariants.{NoThread};

use crate::fault::ThreadFault;
use crate::joined::Joined;
use crate::runner::SegmentThread;
use border_exchange::Segment;

// How far a run is: the index of the next segment, the segments that are not started, the next one
// last; the threads of those that are, with room for more; and the outcomes, with room for all.
#[derive(Drop)]
pub(crate) struct Progress<'a> {
    pub(crate) index: u32,
    pub(crate) waiting: Vec<Segment<'a>>,
    pub(crate) threads: Vec<SegmentThread<'a>>,
    pub(crate) joined: Joined<'a>,
    ghost in_order: { AreInOrder (λ thread. thread.promise.0) threads.items },
    ghost few: { index + vec_len waiting ≤ MAX_SEGMENTS },
    ghost unstarted: { All (λ s. s.round ≡ 0) waiting.items },
    ghost thread_room: { vec_len threads + vec_len waiting ≤ vec_capacity threads },
    ghost room: { vec_len joined.segments + vec_len threads + vec_len waiting ≤ vec_capacity joined.segments },
}

impl<'a> Progress<'a> {
    ghost use Rattle.ring_exec.specs.Courses.{HasRoom};

    // Counts the segment whose start was tried, and keeps its thread if the start was not refused.
    pub(crate) fn keep(&mut self, thread: Option<SegmentThread<'a>>) -> Result<(), ThreadFault>
        requires next { IfSome thread (λ thread. thread.promise.0 ≡ vec_len self.old.threads) }
        requires room { HasRoom self.old }
        ensures index { self.new.index ≡ self.old.index + 1 }
        ensures kept { MatchOption thread.entry ((result ≡ Err NoThread)
            × (vec_len self.new.threads ≡ vec_len self.old.threads))
            (λ _. (result ≡ Ok tt) × (vec_len self.new.threads ≡ vec_len self.old.threads + 1)) }
        ensures rest { (self.new.waiting ≡ self.old.waiting) × (self.new.joined ≡ self.old.joined) }
    {
        self.index += 1;
        self.threads
            .push_reserved(thread.ok_or(ThreadFault::NoThread)?);
        Ok(())
    }
}
