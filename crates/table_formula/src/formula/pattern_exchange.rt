//! Patterns with other channels.
ghost use Rattle.std.specs.Prelude.{◌≡◌};
ghost use Rattle.std.specs.List.{list_any};
ghost use Rattle.table_formula.specs.Exchanges.{entry_by, is_same_entry, is_same_pattern};
ghost use Rattle.table_formula.specs.Exchanges.{map_to_themselves, pattern_by};
ghost use Rattle.table_formula.specs.ChannelMaps.{other_channel};

use crate::formula::exchange::other_of;
use ring_problems::{Entry, Pattern};

// Another channel for each.
#[derive(Clone, Copy)]
pub(crate) enum ChannelMap {
    // Each of two channels for the other.
    Exchange(u32, u32),
    // Of this many channels, the one that is as far from the other end.
    Mirror(u32),
}

impl ChannelMap {
    // Returns the channel for this one.
    fn other(self, channel: u32) -> u32
        ensures { result ≡ other_channel self channel }
    {
        match self {
            ChannelMap::Exchange(first, second) => other_of(channel, first, second),
            ChannelMap::Mirror(channels) => channels.saturating_sub(1).saturating_sub(channel),
        }
    }

    // Returns the entry with its other channel.
    fn other_entry(self, entry: Entry) -> Entry
        ensures { result ≡ entry_by (other_channel self) entry }
    {
        match entry {
            Entry::Wildcard => Entry::Wildcard,
            Entry::Channel(channel) => Entry::Channel(self.other(channel)),
        }
    }

    // Returns the pattern with its other channels.
    fn other_pattern(self, pattern: Pattern) -> Pattern
        ensures { result ≡ pattern_by (other_channel self) pattern }
    {
        Pattern {
            first: self.other_entry(pattern.first),
            second: self.other_entry(pattern.second),
            third: self.other_entry(pattern.third),
        }
    }

    // Returns whether each pattern with its other channels is one of the patterns again.
    pub(crate) fn keeps(self, patterns: &[Pattern]) -> bool
        ensures { result ≡ map_to_themselves (other_channel self) patterns.now }
    {
        for pattern in patterns {
            if !is_among(patterns, self.other_pattern(*pattern)) {
                return false;
            }
        }
        true
    }
}

// Returns whether this is one of the patterns.
fn is_among(patterns: &[Pattern], pattern: Pattern) -> bool
    ensures { result ≡ list_any (is_same_pattern pattern) patterns.now }
{
    for other in patterns {
        if is_same_pattern(pattern, *other) {
            return true;
        }
    }
    false
}

// Returns whether two patterns are the same.
fn is_same_pattern(one: Pattern, other: Pattern) -> bool
    ensures { result ≡ is_same_pattern one other }
{
    is_same_entry(one.first, other.first)
        && is_same_entry(one.second, other.second)
        && is_same_entry(one.third, other.third)
}

// Returns whether two entries are the same.
fn is_same_entry(one: Entry, other: Entry) -> bool
    ensures { result ≡ is_same_entry one other }
{
    match (one, other) {
        (Entry::Wildcard, Entry::Wildcard) => true,
        (Entry::Channel(channel), Entry::Channel(other)) => channel == other,
        _ => false,
    }
}
