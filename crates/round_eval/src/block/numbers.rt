//! The windows of a block, by their numbers.
ghost use Rattle.std.specs.Prelude.{◌≡◌, ◌*◌, ◌<◌, ◌≤◌};
ghost use Rattle.win_index.specs.Blocks.{block_count};
ghost use Rattle.round_eval.specs.BlockStates as block;

use win_index::{BLOCK_WINDOWS, Shape};

/// Returns the number of windows of a block of a level, at most `BLOCK_WINDOWS`.
pub fn block_len(shape: Shape, level: u32, number: u32) -> u32
    requires level { level ≤ shape.rounds }
    requires number { number < block_count shape.ids level }
    ensures value { result ≡ block.block_len shape.ids level number }
    ensures few { result ≤ BLOCK_WINDOWS }
{
    (shape.count(level) - first_number(shape, level, number)).min(BLOCK_WINDOWS)
}

/// Returns the number of the first window of a block of a level.
pub fn first_number(shape: Shape, level: u32, number: u32) -> u32
    requires level { level ≤ shape.rounds }
    requires number { number < block_count shape.ids level }
    ensures { result ≡ BLOCK_WINDOWS * number }
{
    // The proof takes the limit of the number of windows from this call.
    let _windows = shape.count(level);
    BLOCK_WINDOWS * number
}
