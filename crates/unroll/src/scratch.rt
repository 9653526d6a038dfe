//! What a maker of blocks reuses.
ghost use Rattle.std.specs.Prelude.{◌≡◌, ◌+◌, ◌≤◌, ℕ, length, replicate, slice_index, IfOk};
ghost use Rattle.unroll.specs.States.{HasSize};
ghost use Rattle.unroll.specs.WideColumns.{AreWritten, IsReady};

use crate::right_reads::rounds_use_right;
use crate::{Code, Columns, Work};
use lang_check::Plan;
use node_program::{MAX_ROUNDS, OutOfMemory};
use round_eval::width_of;
use std::alloc::Global;
use win_index::BLOCK_WINDOWS;

// What a maker of blocks reuses: which rounds read the message from the right, scratch for the
// plan's expressions, the parts of a block's windows, and the states of these windows. The parts
// are the message to the right of the first part's node in the next round, the registers of the
// middle part's node, and the message to the left of the last part's node.
#[derive(Drop)]
pub(crate) struct Scratch {
    pub(crate) reads_right: [bool; MAX_ROUNDS as usize],
    pub(crate) work: Work,
    pub(crate) from_left: Vec<u32>,
    pub(crate) own: Columns,
    pub(crate) from_right: Vec<u32>,
    pub(crate) made: Columns,
}

impl Scratch {
    // Allocates scratch for the blocks of a plan.
    pub(crate) fn new(alloc: Global, code: &Code<'_>) -> Result<Scratch, OutOfMemory>
        ensures { IfOk result (IsReady code.now) }
    {
        let work = Work::new(alloc, code, BLOCK_WINDOWS as usize)?;
        let from_left = zeros(alloc, BLOCK_WINDOWS as usize)?;
        let own = wide_columns(alloc, code.plan())?;
        let from_right = zeros(alloc, BLOCK_WINDOWS as usize)?;
        let made = wide_columns(alloc, code.plan())?;
        Ok(Scratch {
            reads_right: rounds_use_right(code.plan()),
            work,
            from_left,
            own,
            from_right,
            made,
        })
    }
}

// Shorter writes are rounded up to this many cells if there is room, which avoids a loop.
const CHUNK: usize = 16;

// Writes a number to `count` cells from `place` on, and perhaps to some after them.
pub(crate) fn fill_some(cells: &mut [u32], place: usize, count: usize, number: u32)
    requires { place + count ≤ length cells.old }
    ensures { AreWritten ℕ 0 cells.old cells.new place count (λ _. number) }
{
    if count <= CHUNK && place + CHUNK <= cells.len() {
        cells[place..place + CHUNK].fill(number);
    } else {
        cells[place..place + count].fill(number);
    }
}

// Copies `count` numbers from `index` on to the cells from `place` on, and perhaps some that follow
// them.
pub(crate) fn copy_some(
    cells: &mut [u32],
    place: usize,
    count: usize,
    numbers: &[u32],
    index: usize,
)
    requires cells { place + count ≤ length cells.old }
    requires numbers { index + count ≤ length numbers.now }
    ensures { AreWritten ℕ 0 cells.old cells.new place count (λ i. slice_index numbers.now (index + i)) }
{
    if count <= CHUNK && place + CHUNK <= cells.len() && index + CHUNK <= numbers.len() {
        cells[place..place + CHUNK].copy_from_slice(&numbers[index..index + CHUNK]);
    } else {
        cells[place..place + count].copy_from_slice(&numbers[index..index + count]);
    }
}

pub(crate) fn zeros(alloc: Global, len: usize) -> Result<Vec<u32>, OutOfMemory>
    ensures { IfOk result (λ list. list.items ≡ replicate len 0) }
{
    Ok(vec![in alloc; 0; len]?)
}

// Columns for the states of `BLOCK_WINDOWS` windows.
fn wide_columns(alloc: Global, plan: &Plan) -> Result<Columns, OutOfMemory>
    ensures { IfOk result (HasSize BLOCK_WINDOWS (length plan.now.program.start)) }
{
    Columns::new(alloc, width_of(plan), BLOCK_WINDOWS as usize)
}
