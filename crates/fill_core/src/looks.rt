//! The event that a worker looks at a cell.
ghost use Rattle.std.specs.Prelude.{◌≡◌, ◌<◌, length};
ghost use Rattle.fill_core.specs.FillMachine.{Steps, learned};
ghost use Rattle.fill_core.specs.FillPromises.{IsConsistent};
ghost use Rattle.fill_core.specs.FillStates.{machine_of, worker_of};

use crate::state::{FillEvent, FillState, Hand};

impl Hand {
    // Marks the job as known, and takes it out of the worker's hand if it is there.
    pub(crate) fn learn(&mut self, job: u32)
        requires { job < length self.old.knows.items }
        ensures { worker_of self.new ≡ learned job (worker_of self.old) }
    {
        self.knows[job as usize] = true;
        if self.job == Some(job) {
            self.job = None;
        }
    }
}

impl<'a> FillState<'a> {
    // Lets a worker look at the cell of a level and a number.
    pub(crate) fn look(&mut self, worker: u32, level: u32, number: u32)
        requires { IsConsistent (machine_of self.old) }
        ensures { Steps (machine_of self.old) (FillEvent.Look worker level number) (machine_of self.new) }
    {
        let Some(job) = self.plan.shape().job_number(level, number) else {
            return;
        };
        let Some(hand) = self.workers.get_mut(worker as usize) else {
            return;
        };
        if self.cells[job as usize].is_some() {
            hand.learn(job);
        }
    }
}
