//! Rows of the maker of blocks.
ghost use Rattle.std.specs.Prelude.{◌≡◌, IfOk};
ghost use Rattle.shared_memo.specs.PlanJobs.{IsKey};
ghost use Rattle.shared_memo.specs.Passes.{memo_plan};

use crate::miss::Miss;
use crate::plans::{has_block, plan_of};
use crate::tell::{again, tell, tell_numbers, value_or};
use lang_check::Plan;
use node_lang::OutOfMemory;
use round_eval::Block;
use shared_memo::{Memo, Reader};
use test_programs::CV1;
use unroll::{BlockMaker, Code, MakeFault};

/// `BlockMaker`: prints the number of states of the first block of level 0, and its first state. A
/// maker that was refused memory for the block makes it a second time.
pub(crate) fn do_block_maker<R: AllocGlobal + Print>(rt: &R) -> Result<(), Miss> {
    let plan = plan_of(rt.alloc(), CV1)?;
    tell_block_of(rt, &plan)
}

// Makes the first block of level 0 of a plan, and prints its states.
fn tell_block_of<R: AllocGlobal + Print>(rt: &R, plan: &Plan) -> Result<(), Miss> {
    let code = value_or(Code::new(rt.alloc(), plan), Miss::OtherCall)?;
    tell_first_block(rt, &code)
}

// Makes the first block of level 0 of the code's plan, and prints its states.
fn tell_first_block<R: AllocGlobal + Print>(rt: &R, code: &Code<'_>) -> Result<(), Miss> {
    let memo = value_or(Memo::new(rt.alloc(), code.plan()), Miss::OtherCall)?;
    tell_block_with(rt, code, &memo)
}

// Makes the same block with a pass of a memo, and prints its states.
fn tell_block_with<R: AllocGlobal + Print>(
    rt: &R,
    code: &Code<'_>,
    memo: &Memo<'_>,
) -> Result<(), Miss>
    requires { memo_plan memo.now ≡ code.now }
{
    let mut pass = value_or(memo.pass(rt.alloc()), Miss::OtherCall)?;
    tell_made_block(rt, code, &mut Reader::new(memo, &mut pass))
}

// Makes the same block from a reader's blocks, and prints its states.
fn tell_made_block<R: AllocGlobal + Print>(
    rt: &R,
    code: &Code<'_>,
    reader: &mut Reader<'_, '_, '_>,
) -> Result<(), Miss>
    requires { reader.old.pass.now.plan.now ≡ code.now }
{
    if !has_block(code.plan(), 0, 0) {
        return Err(Miss::Wrong);
    }
    let mut maker = maker_of(rt, code)?;
    tell_states_by(rt, &mut maker, reader)
}

// Prints the states of the first block of level 0, which a maker makes.
fn tell_states_by<R: Print>(
    rt: &R,
    maker: &mut BlockMaker<'_, '_>,
    reader: &mut Reader<'_, '_, '_>,
) -> Result<(), Miss>
    requires plan { reader.old.pass.now.plan.now ≡ maker.old }
    requires key { IsKey maker.old 0 0 }
{
    let block = made_by(rt, maker, reader)?;
    tell_states(rt, &block)
}

// Returns a maker of the blocks of a code's plan.
fn maker_of<'c, 'p, R: AllocGlobal + Print>(
    rt: &R,
    code: &'c Code<'p>,
) -> Result<BlockMaker<'c, 'p>, Miss>
    ensures { IfOk result (λ maker. maker ≡ code.entry.now) }
{
    let answer = again!(rt, BlockMaker::new(rt.alloc(), code), OutOfMemory => "OutOfMemory");
    value_or(answer, Miss::Wrong)
}

// Returns the first block of level 0, which a maker makes from a reader's blocks.
fn made_by<'p, R: Print>(
    rt: &R,
    maker: &mut BlockMaker<'_, 'p>,
    reader: &mut Reader<'_, '_, '_>,
) -> Result<Block<'p>, Miss>
    requires plan { reader.old.pass.now.plan.now ≡ maker.old }
    requires key { IsKey maker.old 0 0 }
{
    let answer = again!(rt, maker.make(reader, 0, 0, 4), MakeFault::OutOfMemory => "OutOfMemory");
    value_or(answer, Miss::Wrong)
}

/// Prints the number of states of a block, and the first state.
pub(crate) fn tell_states<R: Print>(rt: &R, block: &Block<'_>) -> Result<(), Miss> {
    let count = block.len();
    if count == 0 {
        return Err(Miss::Wrong);
    }
    tell_numbers(rt, &[count]);
    tell_numbers(rt, block.state(0));
    Ok(())
}
