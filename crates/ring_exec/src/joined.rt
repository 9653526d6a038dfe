//! The outcomes of the segments of a run.
ghost use Rattle.std.specs.Prelude.{◌≡◌, ◌+◌, ◌<◌, ◌≤◌, ◌++◌, [], ◌∷◌, None, Some, IfOk, IfErr, MatchResult};
ghost use Rattle.std.specs.Prelude.{vec_len, vec_capacity};
ghost use Rattle.ring_exec.specs.Faults.{blamed};
ghost use Rattle.ring_exec.specs.SegmentFaults.{work_fault_of};
ghost use Rattle.ring_exec.specs.declared.fault.ThreadFault.TheVariants.{Work, NoThread};

use crate::fault::ThreadFault;
use crate::runner::SegmentOutcome;
use border_exchange::Segment;

// The segments that ended, from the last to the first, and the fault that takes precedence.
#[derive(Drop)]
pub(crate) struct Joined<'a> {
    segments: Vec<Segment<'a>>,
    fault: Option<ThreadFault>,
}

impl<'a> Joined<'a> {
    // Returns no outcomes yet, with this empty list for the segments.
    pub(crate) fn new(segments: Vec<Segment<'a>>) -> Joined<'a>
        ensures fault { result.fault ≡ None }
        ensures segments { result.segments ≡ segments.entry }
    {
        Joined {
            segments,
            fault: None,
        }
    }

    // Adds the outcome of a segment. All that were added before come after it on the ring, so that
    // its fault takes precedence over theirs.
    pub(crate) fn add(&mut self, outcome: SegmentOutcome<'a>)
        requires { vec_len self.old.segments < vec_capacity self.old.segments }
        ensures added { MatchResult outcome.entry
            (λ segment. (self.new.fault ≡ self.old.fault)
            × (self.new.segments.items ≡ self.old.segments.items ++ segment ∷ []))
            (λ fault. (self.new.fault ≡ Some (blamed self.old.fault (Work (work_fault_of fault))))
            × (self.new.segments ≡ self.old.segments)) }
        ensures room { (vec_len self.new.segments ≤ vec_len self.old.segments + 1)
            × (vec_capacity self.new.segments ≡ vec_capacity self.old.segments) }
        ensures no_thread { self.new.fault ≡ Some NoThread → self.old.fault ≡ Some NoThread }
    {
        match outcome {
            Ok(segment) => self.segments.push_reserved(segment),
            Err(fault) => self.blame(ThreadFault::Work(fault.into_work_fault())),
        }
    }

    // Returns the segments, or the fault that takes precedence.
    pub(crate) fn into_segments(self) -> Result<Vec<Segment<'a>>, ThreadFault>
        ensures fault { IfErr result (λ fault. self.entry.fault ≡ Some fault) }
        ensures segments { IfOk result (λ segments. (self.entry.fault ≡ None) × (segments ≡ self.entry.segments)) }
    {
        match self.fault {
            None => Ok(self.segments),
            Some(fault) => Err(fault),
        }
    }

    // Replaces the fault of a later segment by this one. The refused start of a thread stays.
    pub(crate) fn blame(&mut self, fault: ThreadFault)
        ensures fault { self.new.fault ≡ Some (blamed self.old.fault fault) }
        ensures segments { self.new.segments ≡ self.old.segments }
    {
        if !matches!(self.fault, Some(ThreadFault::NoThread)) {
            self.fault = Some(fault);
        }
    }
}
