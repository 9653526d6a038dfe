//! A share of the entries of a table, which one thread reads.

use crate::entry_columns::EntryColumns;
use node_program::OutOfMemory;
use round_eval::Block;
use std::alloc::Global;
use unroll::Code;

// The entries of the windows of consecutive blocks of the last level, and scratch to read them.
#[derive(Drop)]
pub(crate) struct Share {
    // The number of its first block.
    pub(crate) first: usize,
    // The number of the block after its last one.
    pub(crate) end: usize,
    pub(crate) columns: EntryColumns,
    // Empty until they are read.
    pub(crate) entries: Vec<u16>,
}

impl Share {
    ghost use Rattle.std.specs.Prelude.{◌≡◌, ◌≤◌, vec_len, vec_capacity, IfOk};
    ghost use Rattle.table_fill.specs.ChannelRoom.{IsChannelRoom};
    ghost use Rattle.shared_memo.specs.LastBlocks.{AreLastBlocks};
    ghost use Rattle.table_fill.specs.Shares.{HasRead, IsReady};

    // Allocates a share of the blocks from `first` up to `end`, with capacity for `capacity`
    // entries. Fails if memory was refused.
    pub(crate) fn new(
        alloc: Global,
        code: &Code<'_>,
        first: usize,
        end: usize,
        capacity: usize,
    ) -> Result<Share, OutOfMemory>
        ensures part { IfOk result (λ share. (share.first ≡ first) × (share.end ≡ end)) }
        ensures columns { IfOk result (λ share. IsChannelRoom code.now share.columns) }
        ensures room { IfOk result (λ share. (vec_len share.entries ≡ 0) × (capacity ≤ vec_capacity share.entries)) }
    {
        let columns = EntryColumns::new(alloc, code)?;
        let entries = Vec::with_capacity(alloc, capacity)?;
        Ok(Share {
            first,
            end,
            columns,
            entries,
        })
    }

    // Reads the entries from the blocks of the last level, block by block.
    pub(crate) fn read(&mut self, code: &Code<'_>, blocks: &[&Block<'_>])
        requires ready { IsReady code.now self.old }
        requires blocks { AreLastBlocks code.now blocks.now }
        ensures { HasRead code.now self.old self.new }
    {
        for number in self.first..self.end {
            self.columns
                .append_block(code, blocks[number], &mut self.entries);
        }
    }
}
