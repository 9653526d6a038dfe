//! Messages of a border.

ghost use Rattle.std.specs.Prelude.{◌≡◌};

use border_exchange::{Dated, Side};

/// A message with a value.
#[derive(Clone, Copy, Debug, PartialEq, Eq, Drop)]
pub struct Note {
    pub side: Side,
    pub round: u32,
    pub value: u32,
}

impl Note {
    /// Returns the message of this side and round with this value.
    pub fn new(side: Side, round: u32, value: u32) -> Note
        ensures { result ≡ record { side = side; round = round; value = value } }
    {
        Note { side, round, value }
    }
}

impl Dated for Note {
    ghost side_of = { λ note. note.side };

    ghost round_of = { λ note. note.round };

    fn side(&self) -> Side {
        self.side
    }

    fn round(&self) -> u32 {
        self.round
    }
}
