//! Patterns that never match.
ghost use Rattle.std.specs.Prelude.{◌≡◌};
ghost use Rattle.ring_problems.specs.Idle.{idle_in};

use crate::pattern::Pattern;

/// A pattern with a channel that a table lacks, and the number of the table's channels.
#[derive(Clone, Copy, Debug, PartialEq, Eq)]
pub struct IdlePattern {
    pub pattern: Pattern,
    pub channels: u32,
}

/// Returns the first pattern that channels below this number can't match.
pub fn first_idle(patterns: &[Pattern], channels: u32) -> Option<IdlePattern>
    ensures { result ≡ idle_in patterns.now channels }
{
    for pattern in patterns {
        if !pattern.is_below(channels) {
            return Some(IdlePattern {
                pattern: *pattern,
                channels,
            });
        }
    }
    None
}
