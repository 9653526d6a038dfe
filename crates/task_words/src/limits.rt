//! Limits of numbers in the words.

/// The maximum number of workers of a task, and the maximum number of segments that the words can
/// request.
pub const MAX_COUNT: u32 = node_program::MAX_THREADS;

/// The maximum number of rounds that the words can request.
pub const MAX_ROUNDS: u32 = node_program::MAX_ROUNDS;

/// The maximum number of channels that the words can request.
pub const MAX_CHANNELS: u32 = node_program::MAX_CHANNELS;

/// The smallest base that the words can request.
pub const MIN_BASE: u32 = numerals::MIN_BASE;

/// The largest base that the words can request.
pub const MAX_BASE: u32 = numerals::MAX_BASE;

/// The largest difference of channels that the words can request.
pub const MAX_DISTANCE: u32 = node_program::MAX_CHANNELS;

/// The largest number of patterns that the words can request.
pub const MAX_PATTERNS: usize = 256;
