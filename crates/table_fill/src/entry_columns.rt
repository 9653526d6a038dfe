//! Scratch to read the channels of blocks.

use crate::block_channels::{append_below, put_block, write_channels};
use node_program::OutOfMemory;
use round_eval::{Block, width_of};
use std::alloc::Global;
use unroll::{Code, Columns, Work};
use win_index::BLOCK_WINDOWS;

// Scratch for reading the channels of a plan's blocks of the last level, block by block.
#[derive(Drop)]
pub(crate) struct EntryColumns {
    pub(crate) work: Work,
    pub(crate) states: Columns,
    pub(crate) channels: Vec<u32>,
}

impl EntryColumns {
    ghost use Rattle.std.specs.Prelude.{◌≡◌, ℕ, ◌+◌, ◌*◌, ◌≤◌, length, vec_len, vec_capacity, IfOk};
    ghost use Rattle.win_index.specs.declared.limits.TheConstants.{BLOCK_WINDOWS};
    ghost use Rattle.round_eval.specs.BlockStates.{IsKeyedBlock, block_len};
    ghost use Rattle.table_fill.specs.ChannelRoom.{IsChannelRoom};
    ghost use Rattle.table_fill.specs.EntryShares.{AreEntries};

    // Allocates scratch for the blocks of a plan, or returns the error that memory was refused.
    pub(crate) fn new(alloc: Global, code: &Code<'_>) -> Result<EntryColumns, OutOfMemory>
        ensures { IfOk result (IsChannelRoom code.now) }
    {
        let width = BLOCK_WINDOWS as usize;
        let work = Work::new(alloc, code, width)?;
        let states = Columns::new(alloc, width_of(code.plan()), width)?;
        let channels = vec![in alloc; 0; width]?;
        Ok(EntryColumns {
            work,
            states,
            channels,
        })
    }

    // Appends the channels of the windows of a block of the last level to the entries before them.
    pub(crate) fn append_block(
        &mut self,
        code: &Code<'_>,
        block: &Block<'_>,
        entries: &mut Vec<u16>,
    )
        requires room { IsChannelRoom code.now self.old }
        requires block { IsKeyedBlock code.now (length code.now.program.steps) block.now.number block.now }
        requires space { vec_len entries.old + block_len code.now.ids (length code.now.program.steps) block.now.number
            ≤ vec_capacity entries.old }
        ensures room { IsChannelRoom code.now self.new }
        ensures entries { (vec_capacity entries.old ≤ vec_capacity entries.new)
            × ((first : ℕ) → AreEntries code.now first (BLOCK_WINDOWS * block.now.number) entries.old.items
            → AreEntries code.now first (BLOCK_WINDOWS * block.now.number
            + block_len code.now.ids (length code.now.program.steps) block.now.number) entries.new.items) }
    {
        put_block(block, &mut self.states);
        write_channels(
            code,
            block,
            &self.states,
            &mut self.work,
            &mut self.channels,
        );
        append_below(
            &self.channels[..block.len() as usize],
            code.plan().program().channels(),
            entries,
        );
    }
}
