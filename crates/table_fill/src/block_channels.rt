//! The channels of a block of the last level, from its states to entries of the table.

ghost use Rattle.std.specs.Prelude.{◌≡◌, ◌+◌, ◌*◌, ◌^◌, ◌<◌, ◌≤◌, ◌++◌, length, take, vec_len, vec_capacity, All};
ghost use Rattle.win_index.specs.declared.limits.TheConstants.{BLOCK_WINDOWS};
ghost use Rattle.round_eval.specs.BlockStates.{IsKeyedBlock, block_len};
ghost use Rattle.unroll.specs.States.{HasSize};
ghost use Rattle.table_fill.specs.ChannelRoom.{IsWorkRoom, HoldStates};
ghost use Rattle.table_fill.specs.EntryShares.{AreEntries};

use round_eval::{Block, rows_are_taken, windows_are_within};
use unroll::{Code, Columns, Work, channel_columns};
use win_index::BLOCK_WINDOWS;

// Copies the states of a block to columns.
pub(crate) fn put_block(block: &Block<'_>, states: &mut Columns)
    requires { HasSize BLOCK_WINDOWS (length block.now.plan.program.start) states.old }
    ensures { HoldStates block.now states.new }
{
    rows_are_taken();
    states.put_rows(0, block.len() as usize, block.states(), 0);
}

// Writes the channels of a block of the last level, whose states are in columns.
pub(crate) fn write_channels(
    code: &Code<'_>,
    block: &Block<'_>,
    states: &Columns,
    work: &mut Work,
    channels: &mut [u32],
)
    requires block { IsKeyedBlock code.now (length code.now.program.steps) block.now.number block.now }
    requires room { IsWorkRoom block.now.plan work.old × (length channels.old ≡ BLOCK_WINDOWS) }
    requires states { HoldStates block.now states.now }
    ensures room { (work.new ≡ work.old) × (length channels.new ≡ BLOCK_WINDOWS) }
    ensures channels { AreEntries code.now (BLOCK_WINDOWS * block.now.number)
        (BLOCK_WINDOWS * block.now.number + block_len code.now.ids (length code.now.program.steps) block.now.number)
        (take (block_len code.now.ids (length code.now.program.steps) block.now.number) channels.new) }
{
    windows_are_within();
    channel_columns(code, states, work, channels);
}

// Appends numbers below a limit that fits 16 bits.
pub(crate) fn append_below(numbers: &[u32], limit: u32, entries: &mut Vec<u16>)
    requires below { (limit ≤ 2 ^ 16) × All (λ n. n < limit) numbers.now }
    requires few { length numbers.now ≤ BLOCK_WINDOWS }
    requires space { vec_len entries.old + length numbers.now ≤ vec_capacity entries.old }
    ensures items { entries.new.items ≡ entries.old.items ++ numbers.now }
    ensures capacity { vec_capacity entries.old ≤ vec_capacity entries.new }
{
    let mut cells = [0; BLOCK_WINDOWS as usize];
    let narrow = &mut cells[..numbers.len()];
    copy_below(numbers, limit, narrow);
    let Ok(()) = entries.extend_from_slice(narrow) else {
        unreachable!()
    };
}

// Copies numbers below a limit that fits 16 bits.
fn copy_below(numbers: &[u32], limit: u32, narrow: &mut [u16])
    requires below { (limit ≤ 2 ^ 16) × All (λ n. n < limit) numbers.now }
    requires len { length narrow.old ≡ length numbers.now }
    ensures { narrow.new ≡ numbers.now }
{
    for index in 0..numbers.len() {
        narrow[index] = numbers[index] as u16;
    }
}
