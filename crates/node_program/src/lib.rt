//! Programs of the node language as trees, their limits, and the definitions of what they mean.
#![tactic(auto)]

mod env;
mod limits;
mod memory;
mod operation;
mod program;
mod tree;

pub use env::{Env, register_or_zero};
pub use limits::{MAX_CHANNELS, MAX_DEPTH, MAX_NODES, MAX_REGISTERS, MAX_ROUNDS, MAX_THREADS};
pub use memory::OutOfMemory;
pub use operation::lowest_difference;
pub use program::Program;
pub use tree::{BinOp, Expr, Round, UnOp};
