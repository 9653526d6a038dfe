//! Why jobs were not filled.

ghost use Rattle.std.specs.Prelude.{◌≡◌};
ghost use Rattle.table_fill.specs.Faults.{fault_of_start, fault_of_work};

use round_eval::WorkFault;
use shared_memo::StartFault;

/// Why workers did not fill the jobs.
#[derive(Clone, Copy, Debug, PartialEq, Eq)]
pub enum FillFault {
    /// The number of workers is not 1 to `MAX_THREADS`.
    WorkersOutOfRange,
    /// Memory could not be allocated.
    OutOfMemory,
    /// What a job was to fill holds what no worker put there, or is empty where a worker filled it.
    Stranger,
    /// The start of a thread was refused.
    NoThread,
}

impl From<StartFault> for FillFault {
    ghost from_gives = { λ met fault. fault ≡ fault_of_start met };

    fn from(fault: StartFault) -> FillFault {
        match fault {
            StartFault::OutOfMemory => FillFault::OutOfMemory,
            StartFault::NoThread => FillFault::NoThread,
        }
    }
}

impl From<WorkFault> for FillFault {
    ghost from_gives = { λ met fault. fault ≡ fault_of_work met };

    fn from(fault: WorkFault) -> FillFault {
        match fault {
            WorkFault::OutOfMemory => FillFault::OutOfMemory,
            WorkFault::Stranger => FillFault::Stranger,
        }
    }
}
