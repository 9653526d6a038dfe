//! Laws of accepted programs: registers and channels are within their bounds.
ghost use Rattle.lang_check.specs.Laws as law;

use crate::{channel_is_within, next_is_within, start_is_within};

/// Bounds are sound: on every ring and after each round, the registers of each place are within
/// their bounds.
#[tactic(auto, using(crate::proofs::States::registers_within))]
pub fn registers_are_within()
    ensures { law.RegistersAreWithin }
{
    start_is_within();
    next_is_within();
}

/// If the registers are within the bounds of all rounds of an accepted program, the channel is
/// below the number of channels.
#[tactic(auto, using(crate::proofs::States::channel_below))]
pub fn accepted_channels_are_below()
    ensures { law.AcceptedChannelsAreBelow }
{
    channel_is_within();
}

/// On every ring, each channel of an accepted program is below the number of channels.
#[tactic(auto, using(crate::proofs::States::channels_within))]
pub fn channels_are_below()
    ensures { law.ChannelsAreBelow }
{
    registers_are_within();
    accepted_channels_are_below();
}

/// A program has at most one first refusal for a number of identifiers, and none if it is accepted.
#[tactic(auto, using(crate::proofs::Refused::one_refusal, crate::proofs::Refused::no_refusal))]
pub fn one_refusal()
    ensures one { law.OneRefusal }
    ensures none { law.AcceptedProgramsHaveNoRefusal }
{}
