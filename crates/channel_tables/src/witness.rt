//! A ring on which a separation is broken.

/// A ring on which the channels of two places are too close.
#[derive(Debug, PartialEq, Eq, Drop)]
pub struct Witness {
    /// The ring's identifiers, from place 0 on.
    pub ring: Vec<u32>,
    /// Place `t` for `t` rounds, and its right neighbour or the place after that.
    pub places: (u32, u32),
    /// The channels of the two places.
    pub channels: (u32, u32),
}
