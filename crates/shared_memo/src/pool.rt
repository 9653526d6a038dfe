//! A pool of workers, on threads of their own.

ghost use Rattle.std.specs.Prelude.{◌≡◌, ◌<◌, ◌≤◌, ◌^◌, ◌↔◌, All, IfOk, IfSome, IsErrOf, IsTrue, vec_len};
ghost use Rattle.shared_memo.specs.Tickets.{worker_of, numbers_of, IsFreshTicketOf, AreFreshTickets, AreNumbered};
ghost use Rattle.shared_memo.specs.Workers.{HasRoom, IsWorkerCount};
ghost use Rattle.shared_memo.specs.Outcomes.{outcome_worker, IsOutcome, AreOutcomes, IsAnswerOf};
ghost use Rattle.shared_memo.specs.Pools.{IsRoomFor};

pub(crate) mod job_fault;
pub(crate) mod worker_jobs;

use crate::desk::{Desk, Ticket};
use crate::pool::job_fault::{JobFault, StartFault};
use crate::pool::worker_jobs::{Jobs, WorkerOutcome};
use node_program::OutOfMemory;
use round_eval::Gate;
use std::alloc::Global;
use std::snapshot::Snapshot;
use std::sync::Wait;
use std::thread;
use std::thread::{Promise, PromisedHandle, Scope, Threads};

// The promise that a thread returns an outcome of these jobs, of the worker with this number.
#[derive(Drop)]
struct OutcomeOf<J> {
    jobs: Snapshot<J>,
    worker: u32,
}

impl<J: Jobs> Promise<WorkerOutcome<J::Known>> for OutcomeOf<J> {
    ghost kept_by = { λ promise outcome. (outcome_worker outcome ≡ promise.worker)
        × IsOutcome (J.HasFilled promise.jobs.value) (J.HasMetStranger promise.jobs.value) outcome };
}

// A worker's thread.
type Handle<J> = PromisedHandle<WorkerOutcome<<J as Jobs>::Known>, OutcomeOf<J>>;

/// Lets `workers` workers, 1 to `MAX_THREADS`, fill jobs that they draw at one desk, and returns the
/// outcome of each, in the order of their numbers. A single worker runs on the calling thread;
/// several run on a thread each.
///
/// Fails with `OutOfMemory` if memory of the caller's own was refused, which is allocated before the
/// first start, and with `NoThread` if the start of a thread was refused, which a single worker does
/// not need. All workers that were started have ended before the call returns.
pub fn fill_by_workers<R: Threads + Wait + Sync, J: Jobs + Sync, G: Gate + Sync>(
    rt: &R,
    alloc: Global,
    jobs: &J,
    workers: u32,
    gate: &G,
) -> Result<Vec<WorkerOutcome<J::Known>>, StartFault>
    requires { IsWorkerCount workers }
    ensures outcomes { IfOk result
        (λ outcomes. AreOutcomes (J.HasFilled jobs.now) (J.HasMetStranger jobs.now) workers outcomes.items) }
    ensures alone { IsErrOf result StartFault.NoThread → 1 < workers }
{
    let room = Room::new(alloc, jobs.count(), workers)?;
    if workers > 1 {
        run_all(rt, alloc, jobs, room, gate).ok_or(StartFault::NoThread)
    } else {
        Ok(run_alone(alloc, jobs, room, gate))
    }
}

// A desk with a fresh ticket for each worker, and empty lists with capacity for their threads and
// their outcomes.
#[derive(Drop)]
struct Room<H, K> {
    desk: Desk,
    tickets: Vec<Ticket>,
    handles: Vec<H>,
    outcomes: Vec<WorkerOutcome<K>>,
}

impl<H: Drop, K: Drop> Room<H, K> {
    // Allocates room for this many workers, which draw as many numbers. Fails if memory was refused.
    fn new(alloc: Global, numbers: u32, workers: u32) -> Result<Room<H, K>, OutOfMemory>
        requires workers { IsWorkerCount workers }
        requires numbers { numbers ≤ 2 ^ 24 }
        ensures { IfOk result (IsRoomFor numbers workers) }
    {
        let (desk, tickets) = Desk::new(alloc, numbers, workers)?;
        let handles = Vec::with_capacity(alloc, workers as usize)?;
        let outcomes = Vec::with_capacity(alloc, workers as usize)?;
        Ok(Room {
            desk,
            tickets,
            handles,
            outcomes,
        })
    }
}

// Runs the only worker on this thread, and returns its outcome in a list.
fn run_alone<J: Jobs, G: Gate, H: Drop>(
    alloc: Global,
    jobs: &J,
    room: Room<H, J::Known>,
    gate: &G,
) -> Vec<WorkerOutcome<J::Known>>
    requires { IsRoomFor (J.jobs jobs.now) 1 room }
    ensures { AreOutcomes (J.HasFilled jobs.now) (J.HasMetStranger jobs.now) 1 result.items }
{
    let Room {
        desk,
        mut tickets,
        handles: _,
        mut outcomes,
    } = room;
    let Some(mut ticket) = tickets.pop() else {
        unreachable!()
    };
    let answer = jobs.fill(alloc, &desk, &mut ticket, gate);
    outcomes.push_reserved(WorkerOutcome { ticket, answer });
    outcomes
}

// A desk, and tickets of it that have drawn nothing, one for each worker.
#[derive(Drop)]
struct Draws<'d> {
    desk: &'d Desk,
    tickets: Vec<Ticket>,
}

// Runs workers on a thread each, until all have ended. Returns their outcomes, or `None` if the start
// of a thread was refused.
fn run_all<R: Threads + Wait + Sync, J: Jobs + Sync, G: Gate + Sync>(
    rt: &R,
    alloc: Global,
    jobs: &J,
    room: Room<Handle<J>, J::Known>,
    gate: &G,
) -> Option<Vec<WorkerOutcome<J::Known>>>
    requires { IsRoomFor (J.jobs jobs.now) (vec_len room.tickets) room }
    ensures { IfSome result (λ outcomes. AreOutcomes (J.HasFilled jobs.now) (J.HasMetStranger jobs.now)
        (vec_len room.tickets) outcomes.items) }
{
    let Room {
        desk,
        tickets,
        handles,
        outcomes,
    } = room;
    let desk = &desk;
    thread::scope(
        thread::scope_env(),
        rt,
        |scope| -> Option<Vec<WorkerOutcome<J::Known>>>
            requires tickets { AreFreshTickets desk.now tickets.items }
            requires jobs { numbers_of desk.now ≡ J.jobs jobs.now }
            requires handles { HasRoom (vec_len tickets) handles }
            requires outcomes { HasRoom (vec_len tickets) outcomes }
            ensures { IfSome result (λ outcomes. AreOutcomes (J.HasFilled jobs.entry.now)
                (J.HasMetStranger jobs.entry.now) (vec_len tickets) outcomes.items) }
        {
            let draws = Draws { desk, tickets };
            let (handles, all_started) = start_all(scope, alloc, jobs, draws, handles, gate);
            let outcomes = join_all(rt, jobs, handles, outcomes);
            if all_started { Some(outcomes) } else { None }
        },
    )
}

// Starts a worker for each ticket, in their order, until a start is refused. Returns their threads
// in `handles`, and whether all were started.
fn start_all<'s, 'd: 's, E, J: Jobs + Sync + 's, G: Gate + Sync + 's>(
    scope: &Scope<'s, E>,
    alloc: Global,
    jobs: &'d J,
    draws: Draws<'d>,
    mut handles: Vec<Handle<J>>,
    gate: &'d G,
) -> (Vec<Handle<J>>, bool)
    requires tickets { AreFreshTickets draws.desk.now draws.tickets.items }
    requires jobs { numbers_of draws.desk.now ≡ J.jobs jobs.now }
    requires handles { HasRoom (vec_len draws.tickets) handles }
    ensures workers { AreNumbered result.0.items (λ handle. handle.promise.worker) }
    ensures jobs { All (λ handle. handle.promise.jobs.value ≡ jobs.now) result.0.items }
    ensures started { (vec_len result.0 ≤ vec_len draws.entry.tickets)
        × (IsTrue result.1 ↔ (vec_len result.0 ≡ vec_len draws.entry.tickets)) }
{
    let Draws { desk, tickets } = draws;
    for ticket in tickets {
        let promise = OutcomeOf {
            jobs: Snapshot::of(jobs),
            worker: ticket.worker(),
        };
        let worker = move || -> WorkerOutcome<J::Known>
            requires { IsFreshTicketOf desk.now ticket × (numbers_of desk.now ≡ J.jobs jobs.now) }
        {
            let mut ticket = ticket;
            let answer = jobs.fill(alloc, desk, &mut ticket, gate);
            WorkerOutcome { ticket, answer }
        };
        let Ok(handle) = scope.spawn_with(promise, worker) else {
            return (handles, false);
        };
        handles.push_reserved(handle);
    }
    (handles, true)
}

// Joins the threads in order, and appends the outcomes of their workers.
fn join_all<R: Threads, J: Jobs>(
    rt: &R,
    _jobs: &J,
    handles: Vec<Handle<J>>,
    mut outcomes: Vec<WorkerOutcome<J::Known>>,
) -> Vec<WorkerOutcome<J::Known>>
    requires workers { AreNumbered handles.items (λ handle. handle.promise.worker) }
    requires jobs { All (λ handle. handle.promise.jobs.value ≡ _jobs.now) handles.items }
    requires outcomes { HasRoom (vec_len handles) outcomes }
    ensures { AreOutcomes (J.HasFilled _jobs.now) (J.HasMetStranger _jobs.now) (vec_len handles) result.items }
{
    for handle in handles {
        outcomes.push_reserved(handle.join(rt));
    }
    outcomes
}

/// Returns what one of the workers knows, if there is one, or the fault of the lowest worker that has
/// one. The outcomes are in the order of the workers' numbers.
pub fn answer_of<K: Drop>(outcomes: Vec<WorkerOutcome<K>>) -> Result<Option<K>, JobFault<K>>
    requires { AreNumbered outcomes.items outcome_worker }
    ensures { IsAnswerOf outcomes.items result }
{
    let mut last = None;
    for outcome in outcomes {
        let WorkerOutcome { ticket: _, answer } = outcome;
        match answer {
            Ok(known) => last = Some(known),
            Err(fault) => return Err(fault),
        }
    }
    Ok(last)
}
