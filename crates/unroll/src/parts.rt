//! The blocks that hold the parts of windows: the first, the middle and the last identifiers of a window,
//! which are windows one level lower. They are at the offsets 0, 1 and 2.
ghost use Rattle.std.specs.Prelude.{◌≡◌, ◌+◌, ◌<◌, ◌≤◌, ℕ, length, None, true, IfSome, MatchOption};
ghost use Rattle.node_program.specs.Node.{to_left};
ghost use Rattle.round_eval.specs.BlockStates.{IsKey, block_len, block_state};
ghost use Rattle.round_eval.specs.Entries.{Asked, IsEntry};
ghost use Rattle.unroll.specs.Below.{IsPartNumber};
ghost use Rattle.unroll.specs.MakeFaults.{LooksUp};
ghost use Rattle.unroll.specs.Parts.{window_in, HoldsWindow, IsKnownBlock};
ghost use Rattle.unroll.specs.WideColumns.{AreWritten};

use crate::fault::MakeFault;
use crate::scratch::copy_some;
use crate::upper_block::UpperBlock;
use lang_check::Plan;
use round_eval::{Block, Source};
use win_index::BLOCK_WINDOWS;

// Returns the block that holds the part with this number of the window at an index of an upper
// block, and the index of the part in it. `last` can be any block of the part's level.
pub(crate) fn part_block<'s, S: Source<'s>>(
    upper: UpperBlock<'_>,
    source: &mut S,
    index: u32,
    number: u32,
    last: Option<&'s Block<'s>>,
) -> Result<(&'s Block<'s>, u32), MakeFault>
    requires plan { S.plan source.old ≡ upper.plan.now }
    requires inside { index < block_len upper.plan.now.ids (upper.below + 1) upper.number }
    requires part { IsPartNumber upper.plan.now.ids upper.below (window_in upper index) number }
    requires last { IfSome last (λ b. IsKnownBlock upper.plan.now (S.entries source.old) upper.below b.now) }
    ensures { let u = upper.entry in
        LooksUp S.plan S.fixed S.entries source.old source.new u.plan.now.ids (u.below + 1) u.number
        (λ entries r. HoldsWindow u.plan.now entries u.below number r.0.now r.1) result }
{
    let place = number / BLOCK_WINDOWS;
    let Some(block) = known_block(upper.plan, source, upper.below, place, last) else {
        return Err(MakeFault::Missing(upper.below, place));
    };
    Ok((block, number % BLOCK_WINDOWS))
}

// Returns the block of a level with this number: `last` if it has the number, else the source's.
fn known_block<'s, S: Source<'s>>(
    plan: &Plan,
    source: &mut S,
    level: u32,
    number: u32,
    last: Option<&'s Block<'s>>,
) -> Option<&'s Block<'s>>
    requires plan { S.plan source.old ≡ plan.now }
    requires key { IsKey plan.now level number }
    requires last { IfSome last (λ b. IsKnownBlock plan.now (S.entries source.old) level b.now) }
    ensures asked { Asked S.plan S.fixed S.entries source.old source.new }
    ensures block { MatchOption result (S.entries source.new level number ≡ None)
        (λ b. IsEntry plan.now (S.entries source.new) level number b.now) }
{
    match last {
        Some(block) if block.number() == number => Some(block),
        _ => source.block(level, number),
    }
}

// The last parts of a series of windows: `count` windows of a block, from an index on.
#[derive(Clone, Copy)]
pub(crate) struct LastParts<'s> {
    pub(crate) block: &'s Block<'s>,
    pub(crate) index: u32,
    pub(crate) count: u32,
}

// Writes the messages of last parts to the left to the cells from `place` on, if the round of an
// upper block reads them.
pub(crate) fn put_lasts(upper: UpperBlock<'_>, last: LastParts<'_>, place: u32, cells: &mut [u32])
    requires plan { last.block.now.plan ≡ upper.plan.now }
    requires level { last.block.now.level ≡ upper.below }
    requires inside { last.index + last.count ≤ block_len upper.plan.now.ids upper.below last.block.now.number }
    requires room { place + last.count ≤ length cells.old }
    ensures { upper.entry.reads_right ≡ true → AreWritten ℕ 0 cells.old cells.new place last.entry.count
        (λ i. to_left upper.entry.plan.now.program upper.entry.below
        (block_state upper.entry.plan.now upper.entry.below last.entry.block.now.number (last.entry.index + i))) }
{
    if upper.reads_right {
        copy_some(
            cells,
            place as usize,
            last.count as usize,
            last.block.to_left(),
            last.index as usize,
        );
    }
}
