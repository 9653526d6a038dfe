//! The compilation of a program to its table, by workers that share a memo: what a worker makes for each
//! job that it has drawn. The entries are then read from the blocks of the last level, in shares on
//! threads.
#![tactic(auto)]

mod block_channels;
mod cell_maker;
mod entry_columns;
mod entry_reader;
mod fault;
mod filling;
mod laws;
mod memo_fill;
mod own_reader;
mod program_windows;
mod share;
mod shares;
mod table_room;

pub use channel_tables::{Table, TableMaker};
pub use fault::FillFault;
pub use filling::compile;
pub use laws::{
    program_tables_are_tables, table_has_the_channels_of_rounds, table_has_the_channels_of_windows,
};
pub use program_windows::ProgramWindows;
