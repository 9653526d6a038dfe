//! The state after a list of events.
use crate::replaying::run;
use crate::state::{FillEvent, FillState};
use lang_check::Plan;
use node_program::OutOfMemory;
use round_eval::Block;
use std::alloc::Global;
use std::marker::Model;
use win_index::jobs_have_numbers;

/// The state after a list of events: the cells of a plan's jobs, the next job, and the workers.
/// Only `replay` makes one. Its methods take any worker, level and number; a number that no worker
/// has reads as a stopped worker that has no job in hand and knows no block.
#[derive(Drop)]
pub struct FillWorld<'a> {
    world: FillState<'a>,
}

impl<'a> Model for FillWorld<'a> {
    ghost use Rattle.fill_core.specs.FillMachine.{Machine, machine_code};
    ghost use Rattle.fill_core.specs.FillPromises.{IsConsistent};
    ghost use Rattle.fill_core.specs.FillStates.{machine_of};

    ghost Value = { Machine };

    ghost coded = { machine_code };

    ghost view = { λ w. machine_of w.world };

    ghost invariant = { λ w. IsConsistent (machine_of w.world) };
}

ghost use Rattle.std.specs.Prelude.{◌≤◌, IfOk};
ghost use Rattle.fill_core.specs.FillMachine.{IsMachineOf, Runs, opening};
ghost use Rattle.fill_core.specs.FillPromises.{IsConsistent, IsFilledWhenStopped};
ghost use Rattle.node_program.specs.declared.limits.TheConstants.{MAX_THREADS};

/// Applies a list of events to the opening state of this plan with this many workers, 1 to
/// `MAX_THREADS`. In the opening state all cells are empty, no job is drawn, no worker has a job in
/// hand or is stopped, and none knows a block. An event that is not enabled, or that names a
/// worker, a level or a number out of range, changes nothing:
/// - A draw is enabled if the worker has no job in hand and is not stopped. It takes the next job
///   in hand; if all jobs are drawn, the worker is stopped.
/// - A look is enabled if the cell is full. The worker then knows the block, and no longer has its
///   job in hand.
/// - An install is enabled if the cell is empty and the worker knows all blocks below. The cell
///   then holds the block, made by this worker, who knows it and no longer has its job in hand.
///
/// So each full cell holds the plan's block of its level and number; each job below the next one is
/// in one hand, or its cell is full; no hand holds another job; and if all workers are stopped, no
/// cell is empty. Fails with `OutOfMemory` if memory was refused.
pub fn replay<'a>(
    alloc: Global,
    plan: &'a Plan,
    workers: u32,
    events: &[FillEvent],
) -> Result<FillWorld<'a>, OutOfMemory>
    requires { (1 ≤ workers) × (workers ≤ MAX_THREADS) }
    ensures runs { IfOk result (λ world. Runs (opening plan.now workers) events.now world) }
    ensures machine { IfOk result (IsMachineOf plan.entry.now workers) }
    ensures consistent { IfOk result (λ world. IsConsistent world) }
    ensures filled { IfOk result (λ world. IsFilledWhenStopped world) }
{
    let world = run(alloc, plan, workers, events)?;
    Ok(FillWorld { world })
}

impl<'a> FillWorld<'a> {
    ghost use Rattle.std.specs.Prelude.{◌≡◌, None, Some, MatchOption, IfSome};
    ghost use Rattle.shared_memo.specs.PlanJobs.{IsKeyedBlock};
    ghost use Rattle.fill_core.specs.FillMachine.{worker as worker_of, cell_at, knows_at};

    /// Returns the block in the cell of a level and a number, or `None` if the cell is empty or
    /// there is no such block. It is the plan's block of this level and number, so it holds the
    /// states of that block's windows.
    pub fn cell(&self, level: u32, number: u32) -> Option<&Block<'a>>
        ensures value { MatchOption result (cell_at self.now level number ≡ None) (λ b. cell_at self.now level number
            ≡ Some b.now) }
        ensures block { IfSome result (λ b. IsKeyedBlock self.now.plan level number b.now) }
    {
        jobs_have_numbers();
        let job = self.world.plan.shape().job_number(level, number)?;
        match &self.world.cells[job as usize] {
            Some(block) => Some(block),
            None => None,
        }
    }

    /// Returns the next job to be drawn, or the number of jobs if all are drawn.
    pub fn next(&self) -> u32
        ensures { result ≡ self.now.next }
    {
        self.world.next
    }

    /// Returns the job that a worker has in hand, which is below the next job to be drawn.
    pub fn hand(&self, worker: u32) -> Option<u32>
        ensures { result ≡ (worker_of self.now worker).hand }
    {
        self.world.workers.get(worker as usize)?.job
    }

    /// Returns whether a worker is stopped.
    pub fn stopped(&self, worker: u32) -> bool
        ensures { result ≡ (worker_of self.now worker).stopped }
    {
        match self.world.workers.get(worker as usize) {
            Some(hand) => hand.stopped,
            None => true,
        }
    }

    /// Returns whether a worker knows the block of a level and a number.
    pub fn knows(&self, worker: u32, level: u32, number: u32) -> bool
        ensures { result ≡ knows_at self.now worker level number }
    {
        let Some(hand) = self.world.workers.get(worker as usize) else {
            return false;
        };
        match self.world.plan.shape().job_number(level, number) {
            Some(job) => hand.knows[job as usize],
            None => false,
        }
    }
}
