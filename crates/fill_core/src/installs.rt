//! The event that a worker makes and installs a block.
ghost use Rattle.std.specs.Prelude.{◌≡◌, IfOk, OnOk, MatchOption};
ghost use Rattle.shared_memo.specs.PlanJobs.{IsKey};
ghost use Rattle.fill_core.specs.FillMachine.{Steps, MarksBelow, block_by};
ghost use Rattle.fill_core.specs.FillPromises.{IsConsistent, MarkedAreFull};
ghost use Rattle.fill_core.specs.FillStates.{machine_of};

use crate::known::KnownCells;
use crate::state::{FillEvent, FillState};
use lang_check::Plan;
use node_program::OutOfMemory;
use round_eval::Block;
use std::alloc::Global;
use unroll::{MakeFault, make_block};
use win_index::jobs_have_numbers;

// Makes a block from the cells that are known, or returns `None` if a block below is not known.
fn make_known<'a, 's>(
    alloc: Global,
    plan: &'a Plan,
    known: &mut KnownCells<'s>,
    level: u32,
    number: u32,
    maker: u32,
) -> Result<Option<Block<'a>>, OutOfMemory>
    requires plan { known.old.plan.now ≡ plan.now }
    requires full { MarkedAreFull known.old.cells.now known.old.knows.now }
    requires key { IsKey plan.now level number }
    ensures { IfOk result (λ made. MatchOption made (¬ MarksBelow plan.now known.old.knows.now level number)
        (λ b. (b ≡ block_by plan.now level number maker) × MarksBelow plan.now known.old.knows.now level number)) }
{
    match make_block(alloc, plan, known, level, number, maker) {
        Ok(block) => Ok(Some(block)),
        Err(MakeFault::Missing(_, _)) => Ok(None),
        Err(MakeFault::OutOfMemory) => Err(OutOfMemory),
    }
}

impl<'a> FillState<'a> {
    // Lets a worker install the block of a level and a number.
    pub(crate) fn install(
        &mut self,
        alloc: Global,
        worker: u32,
        level: u32,
        number: u32,
    ) -> Result<(), OutOfMemory>
        requires { IsConsistent (machine_of self.old) }
        ensures { OnOk result (Steps (machine_of self.old) (FillEvent.Install worker level number)
            (machine_of self.new)) }
    {
        jobs_have_numbers();
        let Some(job) = self.plan.shape().job_number(level, number) else {
            return Ok(());
        };
        let Some(hand) = self.workers.get(worker as usize) else {
            return Ok(());
        };
        if self.cells[job as usize].is_some() {
            return Ok(());
        }
        let mut known = KnownCells {
            plan: self.plan,
            cells: &self.cells,
            knows: &hand.knows,
        };
        let Some(block) = make_known(alloc, self.plan, &mut known, level, number, worker)? else {
            return Ok(());
        };
        self.cells[job as usize] = Some(block);
        self.workers[worker as usize].learn(job);
        Ok(())
    }
}
