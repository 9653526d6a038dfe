//! Reading and writing the text of a table and its separation.
#![tactic(auto)]

mod fault;
mod laws;
mod limits;
mod line_prefix;
mod lines;
mod numbers;
mod odometer;
mod parallel;
mod piece;
mod pieces;
mod reading;
mod sections;
mod version;
mod writing;

pub use fault::TableFault;
pub use laws::{
    one_table_fault, table_texts_are_apart, table_texts_are_read, table_texts_are_short,
};
pub use limits::LONGEST_TABLE_TEXT;
pub use parallel::write_table_with_workers;
pub use reading::{read_table, shape_in};
pub use writing::write_table;
