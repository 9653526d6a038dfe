//! Blocks of the states of windows, made from the blocks one level below, by rounds of up to
//! `BLOCK_WINDOWS` nodes at once, whose registers are columns.
#![tactic(auto)]

mod bucket;
mod code;
mod columns;
mod fault;
mod gathering;
mod maker;
mod parts;
mod right_reads;
mod scratch;
mod steps;
mod upper_block;
mod work;

pub use code::Code;
pub use columns::Columns;
pub use fault::MakeFault;
pub use maker::{BlockMaker, make_block};
pub use steps::{
    channel_columns, next_columns, start_columns, step_columns, to_left_columns, to_right_columns,
};
pub use work::Work;
