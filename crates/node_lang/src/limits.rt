//! The limit of a program text.

/// The longest program text, in bytes.
pub const LONGEST_TEXT: usize = 65_536;
