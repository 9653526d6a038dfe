//! Patterns of channels.
ghost use Rattle.std.specs.Prelude.{◌≡◌, ◌↔◌, IsTrue};
ghost use Rattle.ring_problems.specs.PatternTexts.{span};
ghost use Rattle.ring_problems.specs.Patterns.{has_third, is_below, is_channel, is_entry_below, Fits, Matches};

/// What a pattern asks of the channel of a place.
#[derive(Clone, Copy, Debug, PartialEq, Eq)]
pub enum Entry {
    /// Nothing: any channel will do.
    Wildcard,
    /// This channel.
    Channel(u32),
}

/// A pattern of the channels of a place and of the two places to its right.
#[derive(Clone, Copy, Debug, PartialEq, Eq)]
pub struct Pattern {
    pub first: Entry,
    pub second: Entry,
    pub third: Entry,
}

impl Entry {
    // Returns whether the channel is as this entry says.
    fn fits(self, channel: Option<u32>) -> bool
        ensures { IsTrue result ↔ Fits self channel }
    {
        match self {
            Entry::Wildcard => true,
            Entry::Channel(own) => channel == Some(own),
        }
    }

    // Returns whether the entry asks for no channel, or for one below this number.
    fn is_below(self, channels: u32) -> bool
        ensures { result ≡ is_entry_below channels self }
    {
        match self {
            Entry::Wildcard => true,
            Entry::Channel(own) => own < channels,
        }
    }

    // Returns whether the entry asks for one channel.
    fn is_channel(self) -> bool
        ensures { result ≡ is_channel self }
    {
        match self {
            Entry::Wildcard => false,
            Entry::Channel(_) => true,
        }
    }
}

impl Pattern {
    /// Returns whether channels below this number can match the pattern: it asks for no other channel.
    pub fn is_below(self, channels: u32) -> bool
        ensures { result ≡ is_below channels self }
    {
        self.first.is_below(channels)
            && self.second.is_below(channels)
            && self.third.is_below(channels)
    }

    // Returns whether the channels of three places in a row are as this pattern says.
    pub(crate) fn matches(self, first: Option<u32>, second: Option<u32>, third: Option<u32>) -> bool
        ensures { IsTrue result ↔ Matches self first second third }
    {
        self.first.fits(first) && self.second.fits(second) && self.third.fits(third)
    }

    // Returns whether the channels of a place and of the next one are as this pattern says.
    pub(crate) fn begins(self, first: Option<u32>, second: Option<u32>) -> bool
        ensures { IsTrue result ↔ Fits self.first first × Fits self.second second }
    {
        self.first.fits(first) && self.second.fits(second)
    }

    /// Returns the number of entries up to the last one that asks for a channel, at least 1.
    pub fn span(self) -> u32
        ensures { result ≡ span self }
    {
        if self.has_third() {
            3
        } else if self.second.is_channel() {
            2
        } else {
            1
        }
    }

    // Returns whether the pattern asks something of the third place.
    pub(crate) fn has_third(self) -> bool
        ensures { result ≡ has_third self }
    {
        self.third.is_channel()
    }
}
