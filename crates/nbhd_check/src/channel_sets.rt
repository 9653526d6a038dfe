//! Words of channels: sets of 64 bits, bit `c % 64` for the channel `c`.
ghost use Rattle.std.specs.Prelude.{◌≡◌, ◌≢◌, ℕ, List, ◌<◌, length, slice_index};
ghost use Rattle.nbhd_check.specs.Masks.{HasBit};
ghost use Rattle.nbhd_check.specs.ChannelSets.{HasWords};

/// The channels of some windows: those of one window or more, and those of two or more.
#[derive(Clone, Copy)]
pub(crate) struct Words {
    pub(crate) once: u64,
    pub(crate) more: u64,
}

impl Words {
    /// Returns the channels of the windows but for one, which has this channel.
    pub(crate) fn without(self, channel: u16) -> u64
        ensures { (list : List ℕ) (gap place : ℕ) → HasWords list self → gap < length list
            → slice_index list gap ≡ channel
            → place < length list → place ≢ gap → HasBit result (slice_index list place) }
    {
        self.more | (self.once & !(1 << (channel % 64)))
    }
}

/// Returns the words of these channels.
pub(crate) fn words_of(channels: &[u16]) -> Words
    ensures { HasWords channels.now result }
{
    let mut once = 0;
    let mut more = 0;
    for channel in channels {
        let bit = 1 << (channel % 64);
        more |= once & bit;
        once |= bit;
    }
    Words { once, more }
}
