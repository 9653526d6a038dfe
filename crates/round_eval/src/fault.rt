//! Why a thread of a fill or of a run stops.
ghost use Rattle.std.specs.Prelude.{◌≡◌};
ghost use Rattle.round_eval.specs.declared.fault.WorkFault.TheVariants.{OutOfMemory as NoMemory};

use node_program::OutOfMemory;

/// What a thread can meet: a worker that fills its jobs, or a segment of a run.
#[derive(Clone, Copy, Drop)]
pub enum WorkFault {
    /// Memory could not be allocated.
    OutOfMemory,
    /// It found what none of the others can have left there.
    Stranger,
}

impl From<OutOfMemory> for WorkFault {
    ghost from_gives = { λ _ fault. fault ≡ NoMemory };

    fn from(_refused: OutOfMemory) -> WorkFault {
        WorkFault::OutOfMemory
    }
}
