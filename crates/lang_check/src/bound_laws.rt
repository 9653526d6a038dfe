//! Laws of bounds: registers and channels are within them.
ghost use Rattle.lang_check.specs.BoundLaws as law;

/// A number has at most `k` binary digits if and only if it is below `2^k`.
#[tactic(auto, using(crate::proofs::Bits::binary_digits))]
pub fn binary_digits()
    ensures { law.BinaryDigits }
{}

/// The registers of a node with an identifier below `m` are within their bounds before the first
/// round.
#[tactic(auto, using(crate::proofs::BoundStates::start_within))]
pub fn start_is_within()
    ensures { law.StartIsWithin }
{}

/// If three neighbouring nodes are within the bounds of `r` rounds, the middle one is within those
/// of `r+1` rounds after one more.
#[tactic(auto, using(crate::proofs::BoundStates::next_within))]
pub fn next_is_within()
    ensures { law.NextIsWithin }
{}

/// If the registers are within the bounds of all rounds, the channel is at most its bound.
#[tactic(auto, using(crate::proofs::BoundStates::channel_within))]
pub fn channel_is_within()
    ensures { law.ChannelIsWithin }
{}
