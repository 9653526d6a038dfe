//! The reading of a table.

use crate::share::Share;
use crate::shares::{entries_of, shares_of};
use channel_tables::Table;
use node_program::OutOfMemory;
use round_eval::Block;
use std::alloc::Global;
use std::marker::Model;
use std::thread::Threads;
use unroll::Code;
use win_index::BLOCK_WINDOWS;

// The number of windows for each share. Fewer do not pay for a thread.
const SHARE_WINDOWS: u32 = 64 * BLOCK_WINDOWS;

// Reads the table of a plan from the blocks of its last level, in shares. Its model is the plan and
// the number of shares.
#[derive(Drop)]
pub(crate) struct EntryReader<'c, 'p> {
    code: &'c Code<'p>,
    shares: Vec<Share>,
}

impl<'c, 'p> Model for EntryReader<'c, 'p> {
    ghost use Rattle.std.specs.Prelude.{length};
    ghost use Rattle.table_fill.specs.Readers.{ReaderOf, reader_code};
    ghost use Rattle.table_fill.specs.Shares.{AreShares};

    ghost Value = { ReaderOf };

    ghost coded = { reader_code };

    ghost view = { λ r. record { plan = r.code.now; shares = length r.shares.items } };

    ghost invariant = { λ r. AreShares r.code.now r.shares.items };
}

impl<'c, 'p> EntryReader<'c, 'p> {
    ghost use Rattle.std.specs.Prelude.{◌≡◌, ◌<◌, ◌≤◌, IfOk};
    ghost use Rattle.table_fill.specs.EntryShares.{windows_of, share_count};
    ghost use Rattle.shared_memo.specs.LastBlocks.{AreLastBlocks};
    ghost use Rattle.table_fill.specs.ProgramTables.{table_of};

    // Allocates memory to read the table of a plan in one share for each 64 blocks that are begun,
    // but in at most `shares` shares. Fails with `OutOfMemory` if memory was refused.
    pub(crate) fn new(
        alloc: Global,
        code: &'c Code<'p>,
        shares: u32,
    ) -> Result<EntryReader<'c, 'p>, OutOfMemory>
        requires { 0 < shares }
        ensures plan { IfOk result (λ reader. reader.plan ≡ code.entry.now) }
        ensures shares { IfOk result (λ reader. reader.shares ≡ share_count shares (windows_of code.entry.now)) }
        ensures few { IfOk result (λ reader. reader.shares ≤ shares) }
    {
        let shape = code.plan().shape();
        let worth = shape.count(shape.rounds()).div_ceil(SHARE_WINDOWS);
        let shares = shares_of(alloc, code, shares.min(worth) as usize)?;
        Ok(EntryReader { code, shares })
    }

    // Reads the table from the blocks of the last level. Several shares are read on a thread each.
    pub(crate) fn read<R: Threads + Sync>(self, rt: &R, blocks: &[&Block<'_>]) -> Table
        requires { AreLastBlocks self.plan blocks.now }
        ensures { result ≡ table_of self.entry.plan.program self.entry.plan.ids }
    {
        let EntryReader { code, shares } = self;
        table_with(code, entries_of(rt, code, blocks, shares))
    }
}

ghost use Rattle.std.specs.Prelude.{◌≡◌};
ghost use Rattle.table_fill.specs.EntryShares.{windows_of, AreEntries};
ghost use Rattle.table_fill.specs.ProgramTables.{table_of};

// Returns the table with these entries.
fn table_with(code: &Code<'_>, entries: Vec<u16>) -> Table
    requires { AreEntries code.now 0 (windows_of code.now) entries.items }
    ensures { result ≡ table_of code.now.program code.now.ids }
{
    let plan = code.plan();
    Table::new(plan.shape(), plan.program().channels(), entries)
}
