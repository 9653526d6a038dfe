//! The plans, rings and blocks of rows.
ghost use Rattle.std.specs.Prelude.{◌≡◌, true, IfOk};
ghost use Rattle.round_eval.specs.Shapes.{IsOfShape};
ghost use Rattle.shared_memo.specs.PlanJobs.{IsKey};

use crate::miss::Miss;
use crate::tell::value_or;
use lang_check::{Plan, accept};
use node_lang::parse;
use std::alloc::Global;
use win_index::Ring;

/// Returns the plan of a program text for eight identifiers.
pub(crate) fn plan_of(alloc: Global, text: &[u8]) -> Result<Plan, Miss> {
    let program = value_or(parse(alloc, text), Miss::OtherCall)?;
    value_or(accept(program, 8), Miss::OtherCall)
}

/// Returns the ring of these identifiers for a plan.
pub(crate) fn ring_for(alloc: Global, plan: &Plan, ids: &[u32]) -> Result<Ring, Miss>
    ensures { IfOk result (λ ring. IsOfShape ring plan.now × (ring.places ≡ ids.now)) }
{
    let ids = value_or(ids.to_vec(alloc), Miss::OtherCall)?;
    value_or(Ring::new(plan.shape(), ids), Miss::OtherCall)
}

/// Returns whether the plan has a block of this level and number.
pub(crate) fn has_block(plan: &Plan, level: u32, number: u32) -> bool
    ensures { result ≡ true → IsKey plan.now level number }
{
    let shape = plan.shape();
    level <= shape.rounds() && number < shape.blocks(level)
}
