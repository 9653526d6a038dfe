//! The job numbers at which the levels of a plan begin.
ghost use Rattle.std.specs.Prelude.{IfOk};
ghost use Rattle.win_index.specs.declared.limits.TheConstants.{MAX_BLOCKS};
ghost use Rattle.shared_memo.specs.PlanJobs.{AreFirstJobs};

use lang_check::Plan;
use node_program::OutOfMemory;
use std::alloc::Global;
use win_index::jobs_have_numbers;

// For each level of a plan, the number of the job of its first block. The jobs of a level are
// consecutive, so this gives the number of each of them.
pub(crate) fn first_jobs(alloc: Global, plan: &Plan) -> Result<Vec<u32>, OutOfMemory>
    ensures { IfOk result (λ v. AreFirstJobs plan.now v.items) }
{
    jobs_have_numbers();
    let shape = plan.shape();
    let mut numbers = Vec::new(alloc);
    let mut first = 0u32;
    for level in 0..shape.rounds() + 1 {
        if numbers.push(first).is_err() {
            return Err(OutOfMemory);
        }
        first += shape.blocks(level);
    }
    Ok(numbers)
}
