//! Running the events of a list, and the opening state.
ghost use Rattle.std.specs.Prelude.{◌≡◌, ◌≤◌, None, IfOk, OnOk, map, replicate};
ghost use Rattle.fill_core.specs.FillMachine.{Steps, Runs, idle, opening as opening_of};
ghost use Rattle.fill_core.specs.FillPromises.{IsConsistent, Follows};
ghost use Rattle.fill_core.specs.FillStates.{machine_of, worker_of};

use crate::state::{FillEvent, FillState, Hand};
use lang_check::Plan;
use node_program::OutOfMemory;
use round_eval::Block;
use std::alloc::Global;
use win_index::jobs_have_numbers;

// Runs the events from the opening state with this many workers.
pub(crate) fn run<'a>(
    alloc: Global,
    plan: &'a Plan,
    workers: u32,
    events: &[FillEvent],
) -> Result<FillState<'a>, OutOfMemory>
    requires { 1 ≤ workers }
    ensures runs { IfOk result (λ world. Runs (opening_of plan.now workers) events.now (machine_of world)) }
    ensures follows { IfOk result (λ world. Follows (opening_of plan.now workers) (machine_of world)) }
{
    jobs_have_numbers();
    let mut world = opening(alloc, plan, workers)?;
    for event in events {
        world.step(alloc, *event)?;
    }
    Ok(world)
}

impl<'a> FillState<'a> {
    // Applies an event.
    fn step(&mut self, alloc: Global, event: FillEvent) -> Result<(), OutOfMemory>
        requires { IsConsistent (machine_of self.old) }
        ensures { OnOk result (Steps (machine_of self.old) event (machine_of self.new)) }
    {
        match event {
            FillEvent::Draw(worker) => self.draw(worker),
            FillEvent::Look(worker, level, number) => self.look(worker, level, number),
            FillEvent::Install(worker, level, number) => {
                self.install(alloc, worker, level, number)?;
            }
        }
        Ok(())
    }
}

// Returns the opening state: empty cells, no job drawn, and workers that know nothing.
fn opening<'a>(alloc: Global, plan: &'a Plan, workers: u32) -> Result<FillState<'a>, OutOfMemory>
    ensures { IfOk result (λ world. machine_of world ≡ opening_of plan.now workers) }
{
    let jobs = plan.shape().jobs() as usize;
    Ok(FillState {
        plan,
        cells: empty_cells(alloc, jobs)?,
        next: 0,
        workers: idle_workers(alloc, workers, jobs)?,
    })
}

fn empty_cells<'a>(alloc: Global, jobs: usize) -> Result<Vec<Option<Block<'a>>>, OutOfMemory>
    ensures { IfOk result (λ cells. cells.items ≡ replicate jobs None) }
{
    let mut cells = Vec::new(alloc);
    for _job in 0..jobs {
        if cells.push(None).is_err() {
            return Err(OutOfMemory);
        }
    }
    Ok(cells)
}

fn idle_workers(alloc: Global, count: u32, jobs: usize) -> Result<Vec<Hand>, OutOfMemory>
    ensures { IfOk result (λ hands. map worker_of hands.items ≡ replicate count (idle jobs)) }
{
    let mut hands = Vec::new(alloc);
    for _worker in 0..count {
        let knows = vec![in alloc; false; jobs]?;
        let hand = Hand {
            job: None,
            stopped: false,
            knows,
        };
        if hands.push(hand).is_err() {
            return Err(OutOfMemory);
        }
    }
    Ok(hands)
}
