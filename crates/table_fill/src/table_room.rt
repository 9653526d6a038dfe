//! Memory to read a table.

use crate::entry_reader::EntryReader;
use channel_tables::Table;
use node_program::OutOfMemory;
use round_eval::Block;
use shared_memo::{Memo, Pass, empty_blocks, last_blocks, look_below};
use std::alloc::Global;
use std::thread::Threads;
use unroll::Code;

// Memory to read a table, allocated before the first worker starts: a reader of its entries, and a
// list with capacity for the blocks of the last level.
#[derive(Drop)]
pub(crate) struct TableRoom<'s, 'a> {
    pub(crate) reader: EntryReader<'s, 'a>,
    pub(crate) blocks: Vec<&'s Block<'a>>,
}

impl<'s, 'a> TableRoom<'s, 'a> {
    ghost use Rattle.std.specs.Prelude.{◌≡◌, ◌<◌, IfOk, MatchOption};
    ghost use Rattle.shared_memo.specs.Passes.{known, memo_plan, IsPassOf};
    ghost use Rattle.table_fill.specs.ProgramTables.{table_of};
    ghost use Rattle.shared_memo.specs.Filled.{HasLearned, HasGap, KnowsAll};
    ghost use Rattle.table_fill.specs.TableRooms.{IsRoomFor};

    // Allocates room for the table of a memo's plan, which at most `shares` shares read.
    pub(crate) fn new(
        alloc: Global,
        memo: &'s Memo<'a>,
        code: &'s Code<'a>,
        shares: u32,
    ) -> Result<TableRoom<'s, 'a>, OutOfMemory>
        requires plan { code.now ≡ memo_plan memo.now }
        requires shares { 0 < shares }
        ensures { IfOk result (IsRoomFor (memo_plan memo.now)) }
    {
        let reader = EntryReader::new(alloc, code, shares)?;
        let blocks = empty_blocks(alloc, memo)?;
        Ok(TableRoom { reader, blocks })
    }

    // Looks at each cell, and reads the table from the blocks of the last level. Returns `None` if a
    // cell does not hold a block of its level and number. The pass then knows all.
    pub(crate) fn read<R: Threads + Sync>(
        self,
        rt: &R,
        memo: &'s Memo<'a>,
        pass: &mut Pass<'a>,
    ) -> Option<Table>
        requires pass { IsPassOf memo.now pass.old }
        requires room { IsRoomFor (memo_plan memo.now) self }
        ensures learned { HasLearned memo.now pass.old pass.new }
        ensures table { MatchOption result (HasGap (memo_plan memo.now) pass.new)
            (λ table. KnowsAll (memo_plan memo.now) (known pass.new)
            × (table ≡ table_of (memo_plan memo.now).program (memo_plan memo.now).ids)) }
    {
        let TableRoom { reader, blocks } = self;
        if !look_below(memo, pass) {
            return None;
        }
        let blocks = last_blocks(memo, pass, blocks)?;
        Some(reader.read(rt, &blocks))
    }
}
