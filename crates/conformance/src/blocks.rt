//! Blocks of windows, made with and without the blocks below.

use lang_check::Plan;
use round_eval::{Block, Source};
use std::alloc::Global;
use std::test::Fail;
use test_programs::{CV1, RED, plan_of};
use unroll::{MakeFault, make_block};

// A source whose only entry is the first of some borrowed blocks.
#[derive(Drop)]
struct FirstBlockSource<'s> {
    plan: &'s Plan,
    blocks: &'s [Block<'s>],
    ghost of_plan: { All (λ b. b.plan ≡ plan.now) blocks.now },
}

ghost use Rattle.std.specs.Prelude.{◌≡◌, ◌==◌, ◌&&◌, Some, None, if◌then◌else◌, All, slice_get, IfSome, IsTrue};
ghost use Rattle.std.specs.Option.{option_and_then};
ghost use Rattle.round_eval.specs.BlockStates.{IsKey};
ghost use Rattle.round_eval.specs.Entries.{Entries};

impl<'s> Source<'s> for FirstBlockSource<'s> {
    ghost plan = { λ s. s.plan.now };

    ghost entries = { λ s level number. option_and_then
        (λ b. if (b.level == level) && (b.number == number) then Some b else None) (slice_get s.blocks.now 0) };

    ghost Fixed = { Entries };

    ghost fixed = { λ s _ _. None };

    fn block(&mut self, level: u32, number: u32) -> Option<&'s Block<'s>> {
        match self.blocks.first() {
            Some(block) if block.level() == level && block.number() == number => Some(block),
            _ => None,
        }
    }
}

// Whether a plan has a block of this level and number.
fn has_block(plan: &Plan, level: u32, number: u32) -> bool
    ensures { IsTrue result → IsKey plan.now level number }
{
    let shape = plan.shape();
    level <= shape.rounds() && number < shape.blocks(level)
}

// The fault of a block that is made without blocks below it.
fn fault_without_blocks(alloc: Global, plan: &Plan, level: u32, number: u32) -> Option<MakeFault> {
    if !has_block(plan, level, number) {
        return None;
    }
    let mut nothing = FirstBlockSource { plan, blocks: &[] };
    make_block(alloc, plan, &mut nothing, level, number, 0).err()
}

/// The first block of level 0, by this maker.
pub(crate) fn first_block<'p>(alloc: Global, plan: &'p Plan, maker: u32) -> Option<Block<'p>>
    ensures { IfSome result (λ block. block.plan ≡ plan.entry.now) }
{
    if !has_block(plan, 0, 0) {
        return None;
    }
    let mut nothing = FirstBlockSource { plan, blocks: &[] };
    make_block(alloc, plan, &mut nothing, 0, 0, maker).ok()
}

// The level, the number, the maker, the length and the first state of a block.
type Found = ((u32, u32, u32), u32, Option<u32>);

// What is found in the second block of level 1, which is made with the blocks below it.
fn second_block<'s>(alloc: Global, plan: &'s Plan, below: &'s [Block<'s>]) -> Option<Found>
    requires { All (λ b. b.plan ≡ plan.now) below.now }
{
    if !has_block(plan, 1, 1) {
        return None;
    }
    let mut source = FirstBlockSource {
        plan,
        blocks: below,
    };
    let block = make_block(alloc, plan, &mut source, 1, 1, 4).ok()?;
    let (key, len) = ((block.level(), block.number(), block.maker()), block.len());
    if len == 0 {
        return None;
    }
    match block.state(0) {
        [state] => Some((key, len, Some(*state))),
        _ => Some((key, len, None)),
    }
}

// The length of the first block of level 0, and what is found in the second block of level 1.
fn blocks_of_two_levels(alloc: Global, plan: &Plan) -> Option<(u32, Found)> {
    let below = [first_block(alloc, plan, 3)?];
    let len = below[0].len();
    Some((len, second_block(alloc, plan, &below)?))
}

#[test]
fn the_last_block_of_a_level(rt: HostRuntime) -> Result<(), Fail> {
    let plan = plan_of(rt.alloc(), CV1, 8)?;
    let shape = plan.shape();
    assert!(rt; shape.rounds() == 1 && shape.blocks(0) == 1 && shape.blocks(1) == 2);
    let found = blocks_of_two_levels(rt.alloc(), &plan);
    assert!(rt; found == Some((8, ((1, 1, 4), 80, Some(2)))));
    Ok(())
}

// The first window of block 26 of level 2 has number 6,656. Its first part has number 332, which is
// in block 1.
#[test]
fn a_block_below_is_missing(rt: HostRuntime) -> Result<(), Fail> {
    let rows: [(&[u8], u32, u32, u32); 3] = [(CV1, 1, 0, 0), (RED, 2, 0, 0), (RED, 2, 26, 1)];
    for (text, level, number, missing) in rows {
        let plan = plan_of(rt.alloc(), text, 8)?;
        let fault = fault_without_blocks(rt.alloc(), &plan, level, number);
        assert!(rt; fault == Some(MakeFault::Missing(level - 1, missing)));
    }
    Ok(())
}
