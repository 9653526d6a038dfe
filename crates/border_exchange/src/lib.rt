//! The parts of a ring that is run by messages: segments of its places, the messages that they send, and
//! the borders at which two segments exchange them, a list of messages for each side, which only grows.
//! One thread puts while another takes.
#![tactic(auto)]

ghost use Rattle.std.specs.Prelude.{◌≡◌, ℕ};

mod border;
mod message;
mod segment;

pub use border::Border;
pub use border::fault::PutFault;
pub use border::seat::Seat;
pub use border::totals::Totals;
pub use message::Msg;
pub use segment::laws::segments_cover_the_ring;
pub use segment::limits::MAX_SEGMENTS;
pub use segment::{Segment, Strange};

/// The side to which a message is sent.
#[derive(Clone, Copy, Debug, PartialEq, Eq, Drop)]
pub enum Side {
    /// To the neighbour on the right.
    Rightward,
    /// To the neighbour on the left.
    Leftward,
}

/// A message that names the side to which it is sent, and its round.
pub trait Dated {
    ghost use Rattle.border_exchange.specs.declared.Side.{Side};

    ghost side_of: { Self → Side };

    ghost round_of: { Self → ℕ };

    /// Returns the side to which it is sent.
    fn side(&self) -> Side
        ensures { result ≡ side_of self.now };

    /// Returns the round in which it is sent.
    fn round(&self) -> u32
        ensures { result ≡ round_of self.now };
}
