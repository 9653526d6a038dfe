//! Why a run gave no channels.
ghost use Rattle.std.specs.Prelude.{◌≡◌, ◌≢◌};
ghost use Rattle.round_eval.specs.declared.fault.WorkFault.TheVariants.{OutOfMemory as NoMemory};
ghost use Rattle.ring_exec.specs.Faults.{run_fault_of};
ghost use Rattle.ring_exec.specs.declared.fault.RunFault.TheVariants.{SegmentsOutOfRange};
ghost use Rattle.ring_exec.specs.declared.fault.ThreadFault.TheVariants.{Work};

use node_program::OutOfMemory;
use round_eval::WorkFault;
use std::alloc::AllocError;

/// Why a run gave no channels.
#[derive(Clone, Copy, Debug, PartialEq, Eq, Drop)]
pub enum RunFault {
    /// The number of segments is not 1 to `MAX_SEGMENTS`, or exceeds the number of places.
    SegmentsOutOfRange,
    /// Memory for a segment, a border, a message or the channels was refused.
    OutOfMemory,
    /// A segment received a message that it did not need, or ended too soon.
    Stranger,
    /// The start of a thread was refused.
    NoThread,
}

// What the threads of a run can meet together, from their start on.
#[derive(Clone, Copy, Drop)]
pub(crate) enum ThreadFault {
    // What one of them met.
    Work(WorkFault),
    // The start of a thread was refused.
    NoThread,
}

impl From<WorkFault> for ThreadFault {
    ghost from_gives = { λ work fault. fault ≡ Work work };

    fn from(fault: WorkFault) -> ThreadFault {
        ThreadFault::Work(fault)
    }
}

impl From<OutOfMemory> for ThreadFault {
    ghost from_gives = { λ _ fault. fault ≡ Work NoMemory };

    fn from(_refused: OutOfMemory) -> ThreadFault {
        ThreadFault::Work(WorkFault::OutOfMemory)
    }
}

impl From<AllocError> for ThreadFault {
    ghost from_gives = { λ _ fault. fault ≡ Work NoMemory };

    fn from(_refused: AllocError) -> ThreadFault {
        ThreadFault::Work(WorkFault::OutOfMemory)
    }
}

impl From<ThreadFault> for RunFault {
    ghost from_gives = { λ met fault. (fault ≡ run_fault_of met) × (fault ≢ SegmentsOutOfRange) };

    fn from(fault: ThreadFault) -> RunFault {
        match fault {
            ThreadFault::Work(WorkFault::OutOfMemory) => RunFault::OutOfMemory,
            ThreadFault::Work(WorkFault::Stranger) => RunFault::Stranger,
            ThreadFault::NoThread => RunFault::NoThread,
        }
    }
}
