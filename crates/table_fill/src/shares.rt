//! The shares of the entries of a table, each of which a thread reads.

ghost use Rattle.std.specs.Prelude.{◌≡◌, ◌-◌, ◌<◌, ◌≤◌, length, vec_len, All, IfOk};
ghost use Rattle.table_fill.specs.EntryShares.{windows_of, AreEntries};
ghost use Rattle.shared_memo.specs.LastBlocks.{AreLastBlocks};
ghost use Rattle.table_fill.specs.Shares.{AllRead, AreReadFrom, AreShares, IsReady};

use crate::share::Share;
use node_program::OutOfMemory;
use round_eval::Block;
use std::alloc::Global;
use std::thread::{Threads, for_each_mut};
use unroll::Code;
use win_index::BLOCK_WINDOWS;

// Allocates this many shares, of the same number of blocks, as far as there are blocks. The first
// has capacity for the entries of all. Fails if memory was refused.
pub(crate) fn shares_of(
    alloc: Global,
    code: &Code<'_>,
    count: usize,
) -> Result<Vec<Share>, OutOfMemory>
    requires { 0 < count }
    ensures count { IfOk result (λ shares. vec_len shares ≡ count) }
    ensures shares { IfOk result (λ shares. AreShares code.now shares.items) }
{
    let shape = code.plan().shape();
    let blocks = shape.blocks(shape.rounds()) as usize;
    let each = blocks.div_ceil(count);
    let mut shares = Vec::with_capacity(alloc, count)?;
    let mut first = 0;
    for _share in 0..count {
        let end = (first + each).min(blocks);
        let capacity = BLOCK_WINDOWS as usize * held_blocks(first, end, blocks);
        shares.push_reserved(Share::new(alloc, code, first, end, capacity)?);
        first = end;
    }
    Ok(shares)
}

// Returns the number of blocks from `first` up to `end`, or of all blocks for the first share.
fn held_blocks(first: usize, end: usize, blocks: usize) -> usize
    requires { (first ≤ end) × (end ≤ blocks) }
    ensures first { first ≡ 0 → result ≡ blocks }
    ensures others { 0 < first → result ≡ end - first }
{
    if first == 0 { blocks } else { end - first }
}

// Reads the entries of a table in shares, and returns them in order.
pub(crate) fn entries_of<R: Threads + Sync>(
    rt: &R,
    code: &Code<'_>,
    blocks: &[&Block<'_>],
    mut shares: Vec<Share>,
) -> Vec<u16>
    requires shares { AreShares code.now shares.items }
    requires blocks { AreLastBlocks code.now blocks.now }
    ensures { AreEntries code.now 0 (windows_of code.now) result.items }
{
    read_shares(rt, code, blocks, &mut shares);
    joined(code, shares)
}

// Reads the entries of all shares, each on a thread of its own if there are several.
fn read_shares<R: Threads + Sync>(
    rt: &R,
    code: &Code<'_>,
    blocks: &[&Block<'_>],
    shares: &mut [Share],
)
    requires some { 0 < length shares.old }
    requires ready { All (IsReady code.now) shares.old }
    requires blocks { AreLastBlocks code.now blocks.now }
    ensures { AllRead code.now shares.old shares.new }
{
    let threads = shares.len();
    for_each_mut(
        rt,
        shares,
        threads,
        &|_, share: &mut Share| share.read(code, blocks),
    );
}

// Returns the entries of all shares, in order. Each share is dropped as soon as its entries are
// appended.
fn joined(code: &Code<'_>, mut shares: Vec<Share>) -> Vec<u16>
    requires some { 0 < vec_len shares }
    requires read { AreReadFrom code.now (vec_len shares) 0 shares.items }
    ensures { AreEntries code.now 0 (windows_of code.now) result.items }
{
    let count = shares.len();
    let Share {
        first: _,
        end: _,
        columns: _,
        mut entries,
    } = shares.remove(0);
    for _share in 1..count {
        let next = shares.remove(0);
        let Ok(()) = entries.extend_from_slice(&next.entries) else {
            unreachable!()
        };
    }
    entries
}
