//! The prefix of a bucket, by its numbers.

/// The prefix of a bucket, all identifiers of its windows but the last, by numbers: those of the
/// prefix without its first identifier, which is the middle part of each window, and without its
/// first two, and the positions of these two among the identifiers that the shorter list lacks.
#[derive(Clone, Copy, Debug, PartialEq, Eq)]
pub struct BucketPrefix {
    /// The number of the middle part.
    pub middle: u32,
    pub(crate) last: u32,
    pub(crate) first_gap: u32,
    pub(crate) second_gap: u32,
}
