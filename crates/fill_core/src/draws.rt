//! The event that a worker draws a job.
ghost use Rattle.fill_core.specs.FillMachine.{Steps};
ghost use Rattle.fill_core.specs.FillStates.{machine_of};

use crate::state::{FillEvent, FillState};

impl<'a> FillState<'a> {
    // Lets a worker draw the next job, or stop.
    pub(crate) fn draw(&mut self, worker: u32)
        ensures { Steps (machine_of self.old) (FillEvent.Draw worker) (machine_of self.new) }
    {
        let shape = self.plan.shape();
        let Some(hand) = self.workers.get_mut(worker as usize) else {
            return;
        };
        if hand.job.is_some() || hand.stopped {
            return;
        }
        if self.next < shape.jobs() {
            hand.job = Some(self.next);
            self.next += 1;
        } else {
            hand.stopped = true;
        }
    }
}
