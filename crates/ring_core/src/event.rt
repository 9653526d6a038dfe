//! The events of the segment machine.

/// An event of the segment machine: a segment sends to one of its sides, or advances.
#[derive(Clone, Copy, Debug, PartialEq, Eq)]
pub enum RingEvent {
    /// The segment.
    SendRight(u32),
    /// The segment.
    SendLeft(u32),
    /// The segment.
    Advance(u32),
}
