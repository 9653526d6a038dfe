//! The limits of shapes.

/// The maximum number of rounds of a shape.
pub const MAX_ROUNDS: u32 = node_program::MAX_ROUNDS;

/// The maximum number of identifiers of a shape, and so of places of a ring.
pub const MAX_IDS: u32 = 1024;

/// The maximum number of windows of the last level of a shape.
pub const MAX_WINDOWS: u32 = 1 << 22;

/// The number of windows of a block; the last block of a level may hold fewer.
pub const BLOCK_WINDOWS: u32 = 256;

/// The maximum number of blocks of a level of a shape.
pub const MAX_BLOCKS: u32 = MAX_WINDOWS / BLOCK_WINDOWS;

/// The maximum length of a window of a shape, in identifiers.
pub const MAX_WINDOW_LEN: usize = 2 * MAX_ROUNDS as usize + 1;

/// The maximum number of identifiers that a tuple has more than a window.
pub const MAX_EXTRA: u32 = 2;

/// The maximum length of a tuple of a shape, in identifiers.
pub const MAX_TUPLE_LEN: usize = MAX_WINDOW_LEN + MAX_EXTRA as usize;
