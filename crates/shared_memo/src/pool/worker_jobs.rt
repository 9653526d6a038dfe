//! What workers fill, and the outcome of a worker.

ghost use Rattle.std.specs.Prelude.{◌≡◌, ℕ, ◌≤◌, ◌^◌, List, IfOk, IfErr, OnOk, true, is_ok};
ghost use Rattle.shared_memo.specs.JobFaults.{OfStranger};
ghost use Rattle.shared_memo.specs.Tickets.{drawn, told, worker_of, numbers_of, IsFreshTicketOf};

use crate::desk::{Desk, Ticket};
use crate::pool::job_fault::JobFault;
use round_eval::Gate;
use std::alloc::Global;

/// Jobs that workers fill.
pub trait Jobs {
    /// What a worker knows once it has ended.
    type Known: Drop + Send;

    // The number of jobs.
    ghost jobs: { Self → ℕ };

    // Whether this is what a worker knows once it has filled these of the jobs.
    ghost HasFilled: { Self → Self.Known → List ℕ → Type 0 };

    // Whether this is what a worker knows once it has met a stranger.
    ghost HasMetStranger: { Self → Self.Known → Type 0 };

    /// Returns the number of jobs, at most 2^24.
    fn count(&self) -> u32
        ensures value { result ≡ jobs self.now }
        ensures few { result ≤ 2 ^ 24 };

    /// Draws until the ticket is told that all jobs are drawn, and fills each job that it has
    /// drawn. Returns what the worker then knows. The gate is called once for each of these jobs,
    /// with the number of the ticket's worker.
    ///
    /// Fails if memory was refused, or if the worker has met a stranger.
    fn fill<G: Gate>(
        &self,
        alloc: Global,
        desk: &Desk,
        ticket: &mut Ticket,
        gate: &G,
    ) -> Result<Self::Known, JobFault<Self::Known>>
        requires ticket { IsFreshTicketOf desk.now ticket.old }
        requires total { numbers_of desk.now ≡ jobs self.now }
        ensures told { OnOk result (told ticket.new ≡ 1) }
        ensures worker { worker_of ticket.new ≡ worker_of ticket.old }
        ensures filled { IfOk result (λ known. HasFilled self.now known (drawn ticket.new)) }
        ensures stranger { IfErr result (OfStranger (HasMetStranger self.now)) };
}

/// The outcome of a worker: its ticket, and what it knows or why it failed. If it did not fail, the
/// ticket was told that all jobs are drawn.
#[derive(Drop)]
pub struct WorkerOutcome<K> {
    pub ticket: Ticket,
    pub answer: Result<K, JobFault<K>>,
    pub ghost all_drawn: { is_ok answer ≡ true → told ticket ≡ 1 },
}
