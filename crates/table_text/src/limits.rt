//! The limit of a table text.

/// The maximum length of a table text in bytes. The text of each table is within it.
pub const LONGEST_TABLE_TEXT: usize = 1 << 27;
