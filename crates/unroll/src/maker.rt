//! Making blocks: one, or several with the same columns.
use crate::Code;
use crate::fault::MakeFault;
use crate::gathering::{send_states, write_states};
use crate::scratch::{Scratch, zeros};
use lang_check::Plan;
use node_program::OutOfMemory;
use round_eval::{Block, BlockLists, Source, block_len, rows_are_taken, width_of};
use std::alloc::Global;
use std::marker::Model;
use win_index::{BLOCK_WINDOWS, Shape};

/// Makes blocks of a plan, one after another, with scratch columns that it reuses. Its model is the
/// plan.
#[derive(Drop)]
pub struct BlockMaker<'c, 'p> {
    pub(crate) alloc: Global,
    pub(crate) code: &'c Code<'p>,
    pub(crate) scratch: Scratch,
}

impl<'c, 'p> Model for BlockMaker<'c, 'p> {
    ghost use Rattle.lang_check.specs.Plans.{ProgramForIds, plan_code};
    ghost use Rattle.unroll.specs.WideColumns.{IsReady};

    ghost Value = { ProgramForIds };

    ghost coded = { plan_code };

    ghost view = { λ m. m.code.now };

    ghost invariant = { λ m. IsReady m.code.now m.scratch };
}

impl<'c, 'p> BlockMaker<'c, 'p> {
    ghost use Rattle.std.specs.Prelude.{◌≡◌, IfOk};
    ghost use Rattle.round_eval.specs.BlockStates.{IsKey};
    ghost use Rattle.unroll.specs.MakeFaults.{AskedFor, IsMade};

    /// Returns a maker of blocks of the plan that was compiled to this code, or the error that
    /// memory was refused.
    pub fn new(alloc: Global, code: &'c Code<'p>) -> Result<BlockMaker<'c, 'p>, OutOfMemory>
        ensures { IfOk result (λ maker. maker ≡ code.entry.now) }
    {
        let scratch = Scratch::new(alloc, code)?;
        Ok(BlockMaker {
            alloc,
            code,
            scratch,
        })
    }

    /// Makes the block of the plan with this level, number and maker, as `make_block` does. It
    /// allocates the block's own lists alone.
    #[tactic(auto, using(crate::proofs::Known::missing_is_fault))]
    pub fn make<'s, S: Source<'s>>(
        &mut self,
        source: &mut S,
        level: u32,
        number: u32,
        maker: u32,
    ) -> Result<Block<'p>, MakeFault>
        requires plan { S.plan source.old ≡ self.old }
        requires key { IsKey self.old level number }
        ensures same { self.new ≡ self.old }
        ensures asked { AskedFor level S.plan S.fixed S.entries source.old source.new }
        ensures made { IsMade S.entries source.old source.new self.old level number maker result }
    {
        let plan = self.code.plan();
        let shape = plan.shape();
        let len = block_len(shape, level, number);
        let cells = len as usize * width_of(plan);
        let sent = sent_len(shape, level);
        let Ok(mut lists) = zero_lists(self.alloc, cells, sent) else {
            return Err(MakeFault::OutOfMemory);
        };
        write_states(self.code, source, level, number, &mut self.scratch)?;
        rows_are_taken();
        self.scratch.made.take_rows(len as usize, &mut lists.states);
        send_states(
            self.code,
            level,
            &mut self.scratch,
            &mut lists.to_left,
            &mut lists.to_right,
        );
        Ok(Block::new(plan, level, number, maker, lists))
    }
}

ghost use Rattle.std.specs.Prelude.{◌≡◌, ◌<◌, ◌≤◌, vec_len, IfOk};
ghost use Rattle.round_eval.specs.BlockStates.{IsKey};
ghost use Rattle.unroll.specs.MakeFaults.{AskedFor, IsMade};

/// Makes the block of a plan with this level, number and maker.
///
/// At level 0 the states are those before the first round, and the source is not asked. Above it
/// each state is computed from three states of blocks one level below. These blocks come from the
/// source, which knows them from then on.
///
/// Fails with `Missing` for a block of which the source has no entry, and the source may know more
/// than before; and with `OutOfMemory` if memory was refused, and the source is then unchanged.
pub fn make_block<'a, 's, S: Source<'s>>(
    alloc: Global,
    plan: &'a Plan,
    source: &mut S,
    level: u32,
    number: u32,
    maker: u32,
) -> Result<Block<'a>, MakeFault>
    requires plan { S.plan source.old ≡ plan.now }
    requires key { IsKey plan.now level number }
    ensures asked { AskedFor level S.plan S.fixed S.entries source.old source.new }
    ensures made { IsMade S.entries source.old source.new plan.now level number maker result }
{
    let code = Code::new(alloc, plan)?;
    let mut blocks = BlockMaker::new(alloc, &code)?;
    blocks.make(source, level, number, maker)
}

// Allocates the lists of a block, with this many cells of states and messages to each side.
fn zero_lists(alloc: Global, cells: usize, sent: usize) -> Result<BlockLists, OutOfMemory>
    ensures { IfOk result (λ lists. (vec_len lists.states ≡ cells)
        × (vec_len lists.to_left ≡ sent) × (vec_len lists.to_right ≡ sent)) }
{
    let states = zeros(alloc, cells)?;
    let to_left = zeros(alloc, sent)?;
    let to_right = zeros(alloc, sent)?;
    Ok(BlockLists {
        states,
        to_left,
        to_right,
    })
}

// Returns the number of messages that a block of a level holds; 0 on the last level.
fn sent_len(shape: Shape, level: u32) -> usize
    ensures below { level < shape.rounds → result ≡ BLOCK_WINDOWS }
    ensures last { shape.rounds ≤ level → result ≡ 0 }
{
    if level < shape.rounds() {
        BLOCK_WINDOWS as usize
    } else {
        0
    }
}
