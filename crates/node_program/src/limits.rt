//! The limits of programs.

/// The maximum number of rounds of a program.
pub const MAX_ROUNDS: u32 = 4;

/// The maximum number of channels of a program.
pub const MAX_CHANNELS: u32 = 4096;

/// The maximum number of registers of a program.
pub const MAX_REGISTERS: u32 = 8;

/// The maximum depth of an expression; a leaf has depth 1.
pub const MAX_DEPTH: u32 = 64;

/// The maximum number of expression nodes of a program.
pub const MAX_NODES: u32 = 4096;

/// The maximum number of workers that fill a table, and of segments that a ring is cut into.
pub const MAX_THREADS: u32 = 64;
