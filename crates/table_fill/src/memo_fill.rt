//! The jobs of a memo: workers fill its cells.

ghost use Rattle.std.specs.Prelude.{◌≡◌};
ghost use Rattle.shared_memo.specs.Passes.{memo_plan};
ghost use Rattle.shared_memo.specs.PlanJobs.{job_count};
ghost use Rattle.shared_memo.specs.Learning.{IsFilledPass, IsStrangerPass};

use crate::cell_maker::CellMaker;
use round_eval::Gate;
use shared_memo::{Desk, JobFault, Jobs, Memo, Pass, Ticket};
use std::alloc::Global;
use unroll::Code;
use win_index::jobs_have_numbers;

// A memo to be filled, and the code of its plan, which is compiled once and lent to all workers.
#[derive(Drop)]
pub(crate) struct MemoFill<'m, 'a> {
    pub(crate) memo: &'m Memo<'a>,
    pub(crate) code: &'m Code<'a>,
    pub(crate) ghost one_plan: { code.now ≡ memo.now.plan.now },
}

impl<'m, 'a> Jobs for MemoFill<'m, 'a> {
    type Known = Pass<'a>;

    ghost jobs = { λ f. job_count (memo_plan f.memo.now) };

    ghost HasFilled = { λ f. IsFilledPass f.memo.now };

    ghost HasMetStranger = { λ f. IsStrangerPass f.memo.now };

    fn count(&self) -> u32 {
        self.memo.plan().shape().jobs()
    }

    fn fill<G: Gate>(
        &self,
        alloc: Global,
        desk: &Desk,
        ticket: &mut Ticket,
        gate: &G,
    ) -> Result<Pass<'a>, JobFault<Pass<'a>>> {
        jobs_have_numbers();
        let shape = self.memo.plan().shape();
        let mut cells = CellMaker::new(alloc, self.memo, self.code)?;
        while let Some(job) = desk.draw(ticket) {
            gate.entered(ticket.worker(), job);
            let (level, block) = shape.job(job);
            if let Err(fault) = cells.fill(alloc, ticket, level, block) {
                return Err(JobFault::of(fault, cells.reader.pass));
            }
        }
        Ok(cells.reader.pass)
    }
}
