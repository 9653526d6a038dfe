//! Texts of numbers: written in a base from two to ten, and in rows; read in decimal at the start of a
//! text.
#![tactic(auto)]

mod base;
mod decimals;
mod fields;
mod rows;

pub use base::{Base, MAX_BASE, MIN_BASE};
pub use decimals::{decimal_value, number_before};
pub use fields::{after, field};
pub use rows::{Form, form_of, write_number, write_row};
