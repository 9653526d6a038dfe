//! Why a worker did not fill its jobs, and why no worker could.

ghost use Rattle.std.specs.Prelude.{◌≡◌};
ghost use Rattle.shared_memo.specs.declared.pool.job_fault.StartFault.TheVariants.{OutOfMemory as NoMemory};

use node_program::OutOfMemory;
use round_eval::WorkFault;

/// Why a worker did not fill its jobs.
#[derive(Drop)]
pub enum JobFault<K> {
    /// Memory could not be allocated.
    OutOfMemory,
    /// It found what none of the others can have left there. With it what the worker knows then.
    Stranger(K),
}

impl<K: Drop> JobFault<K> {
    ghost use Rattle.shared_memo.specs.JobFaults.{work_fault_of, OfStranger};

    /// Returns the fault of a worker that knows this.
    pub fn of(fault: WorkFault, known: K) -> JobFault<K>
        ensures fault { work_fault_of result ≡ fault }
        ensures known { OfStranger (λ its. its ≡ known) result }
    {
        match fault {
            WorkFault::OutOfMemory => JobFault::OutOfMemory,
            WorkFault::Stranger => JobFault::Stranger(known),
        }
    }
}

impl<K: Drop> From<OutOfMemory> for JobFault<K> {
    ghost use Rattle.shared_memo.specs.declared.pool.job_fault.JobFault.TheVariants.{OutOfMemory as Refused};

    ghost from_gives = { λ _ fault. fault ≡ Refused };

    fn from(_refused: OutOfMemory) -> JobFault<K> {
        JobFault::OutOfMemory
    }
}

/// Why workers were not all started.
#[derive(Clone, Copy, Drop)]
pub enum StartFault {
    /// Memory could not be allocated.
    OutOfMemory,
    /// The start of a thread was refused.
    NoThread,
}

impl From<OutOfMemory> for StartFault {
    ghost from_gives = { λ _ fault. fault ≡ NoMemory };

    fn from(_refused: OutOfMemory) -> StartFault {
        StartFault::OutOfMemory
    }
}
