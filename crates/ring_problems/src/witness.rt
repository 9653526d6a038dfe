//! A ring on which a problem is broken.
ghost use Rattle.ring_problems.specs.WitnessPlaces.{HasPlace};

use crate::pattern::Pattern;

/// A ring on which a problem is broken.
#[derive(Debug, PartialEq, Eq, Drop)]
pub struct PatternWitness {
    /// The ring's identifiers, from place 0 on.
    pub ring: Vec<u32>,
    /// Place `t` for `t` rounds.
    pub place: u32,
    /// The channels of this place and of the two places after it, around the ring.
    pub channels: (u32, u32, u32),
    /// The first pattern that these channels match.
    pub pattern: Pattern,
    pub ghost on_ring: { HasPlace ring.items place },
}
