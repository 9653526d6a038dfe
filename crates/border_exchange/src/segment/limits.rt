//! The limit of segments.

/// The maximum number of segments that a ring is run in.
pub const MAX_SEGMENTS: u32 = node_program::MAX_THREADS;
