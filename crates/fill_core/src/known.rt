//! The blocks that a worker knows, as a source.
ghost use Rattle.std.specs.Prelude.{◌≡◌, length};
ghost use Rattle.shared_memo.specs.PlanJobs.{job_count};
ghost use Rattle.round_eval.specs.Entries.{Entries};
ghost use Rattle.fill_core.specs.FillPromises.{HoldsJobs};
ghost use Rattle.fill_core.specs.KnownCells.{known_entries};

use lang_check::Plan;
use round_eval::{Block, Source};
use win_index::jobs_have_numbers;

// The cells that a worker knows.
#[derive(Drop)]
pub struct KnownCells<'s> {
    pub plan: &'s Plan,
    pub cells: &'s [Option<Block<'s>>],
    pub knows: &'s [bool],
    pub ghost holds: { HoldsJobs plan.now cells.now },
    pub ghost marks: { length knows.now ≡ job_count plan.now },
}

impl<'s> Source<'s> for KnownCells<'s> {
    ghost plan = { λ s. s.plan.now };

    ghost entries = { λ s. known_entries s.plan.now s.cells.now s.knows.now };

    ghost Fixed = { Entries };

    ghost fixed = { λ s. known_entries s.plan.now s.cells.now s.knows.now };

    fn block(&mut self, level: u32, number: u32) -> Option<&'s Block<'s>> {
        jobs_have_numbers();
        let job = self.plan.shape().job_number(level, number)? as usize;
        if !self.knows[job] {
            return None;
        }
        let cells = self.cells;
        match &cells[job] {
            Some(block) => Some(block),
            None => None,
        }
    }
}
