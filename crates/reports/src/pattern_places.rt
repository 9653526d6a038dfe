//! The places at which a pattern matches.

ghost use Rattle.std.specs.Prelude.{◌≡◌, ◌+◌, ◌<◌, ◌≤◌, ◌^◌, length};
ghost use Rattle.reports.specs.Bytes.{places_from, shown};

use nbhd_check::PatternWitness;
use ring_problems::Pattern;

/// Returns how many places a no shows of a pattern that matches: those up to its last entry that asks
/// for a channel, two or three.
pub fn shown_len(pattern: Pattern) -> usize
    ensures value { result ≡ shown pattern }
    ensures few { result ≤ 3 }
{
    pattern.span().max(2) as usize
}

/// Returns the place of a witness and the two places after it, around its ring.
pub fn places_of(witness: &PatternWitness) -> [u32; 3]
    ensures { result ≡ places_from witness.now.ring.items witness.now.place 3 }
{
    places_from(&witness.ring, witness.place)
}

// Returns three places of a ring, from this one on.
fn places_from(ring: &[u32], place: u32) -> [u32; 3]
    requires place { place + 2 < 2 ^ 32 }
    requires some { 0 < length ring.now }
    ensures { result ≡ places_from ring.now place 3 }
{
    let len = ring.len();
    let place = place as usize;
    [
        (place % len) as u32,
        ((place + 1) % len) as u32,
        ((place + 2) % len) as u32,
    ]
}
