//! What a program means: the value of an expression, one round at a node, global rounds on a ring, whose state can
//! be read before and after each, and the states of windows: the registers of a node after some rounds, from the
//! identifiers around it. These are made one window at a time, or in blocks of `BLOCK_WINDOWS` consecutive windows,
//! which a source hands out.
#![tactic(auto)]

mod block;
mod configuration;
mod fault;
mod gate;
mod node;
mod rounds;
mod row;
mod value;
mod window;

pub use block::numbers::{block_len, first_number};
pub use block::source::Source;
pub use block::{Block, BlockLists};
pub use configuration::{Configuration, Quantity};
pub use fault::WorkFault;
pub use gate::{Gate, OpenGate};
pub use node::{channel, messages, sent_to_left, sent_to_right, start_state, step};
pub use rounds::plain_run;
pub use row::laws::{rows_are_taken, stretches_are_rows};
pub use row::{round_of_row, row_at, start_of_row, width_of};
pub use value::value_of;
pub use window::laws::{
    lines_are_rows, locality, one_state_remains, states_from_parts, windows_are_within,
};
pub use window::window_state;
