//! The members of a no, and patterns. Each call fails only if memory was refused.

ghost use Rattle.json_reports.specs.Json.{entries_of, entry_value, no_fields, pattern_value};
ghost use Rattle.json_reports.specs.Json.{separation_fields, witness_fields};
ghost use Rattle.json_reports.specs.Puts.{PutsFields, PutsValues};
ghost use Rattle.json_reports.specs.Values.{array_of};
ghost use Rattle.reports.specs.Bytes.{places_from, shown};
ghost use Rattle.std.specs.Prelude.{[], ◌∷◌, codes, map, take};

use crate::answers::put_separation;
use crate::fields::{put_numbers, put_text};
use json::Writer;
use nbhd_check::{PatternWitness, Separation, Witness};
use reports::pattern_places::{places_of, shown_len};
use ring_problems::{Entry, Pattern};
use std::alloc::AllocError;

// Appends the members of a no to a separation.
pub(crate) fn put_no(
    writer: &mut Writer,
    separation: Separation,
    witness: &Witness,
) -> Result<(), AllocError>
    ensures { PutsFields result writer.old writer.new (no_fields (separation_fields separation) witness.now.ring.items
        (witness.now.places.0 ∷ witness.now.places.1 ∷ []) (witness.now.channels.0 ∷ witness.now.channels.1 ∷ [])) }
{
    let places = [witness.places.0, witness.places.1];
    let channels = [witness.channels.0, witness.channels.1];
    put_text(writer, "kind", "no")?;
    put_separation(writer, separation)?;
    put_witness(writer, &witness.ring, &places, &channels)
}

// Appends the members of a no to a problem.
pub(crate) fn put_broken(writer: &mut Writer, witness: &PatternWitness) -> Result<(), AllocError>
    ensures { PutsFields result writer.old writer.new
        (no_fields ((codes "pattern", pattern_value witness.now.pattern) ∷ []) witness.now.ring.items
        (places_from witness.now.ring.items witness.now.place (shown witness.now.pattern))
        (take (shown witness.now.pattern)
        (witness.now.channels.0 ∷ witness.now.channels.1 ∷ witness.now.channels.2 ∷ []))) }
{
    put_text(writer, "kind", "no")?;
    put_pattern_field(writer, "pattern", witness.pattern)?;
    put_match(writer, witness)
}

// Appends the ring, the places and the channels that a pattern matches.
fn put_match(writer: &mut Writer, witness: &PatternWitness) -> Result<(), AllocError>
    ensures { PutsFields result writer.old writer.new (witness_fields witness.now.ring.items
        (places_from witness.now.ring.items witness.now.place (shown witness.now.pattern))
        (take (shown witness.now.pattern)
        (witness.now.channels.0 ∷ witness.now.channels.1 ∷ witness.now.channels.2 ∷ []))) }
{
    let count = shown_len(witness.pattern);
    let places = places_of(witness);
    let (first, second, third) = witness.channels;
    let channels = [first, second, third];
    put_witness(writer, &witness.ring, &places[..count], &channels[..count])
}

// Appends a ring, and places with their channels.
fn put_witness(
    writer: &mut Writer,
    ring: &[u32],
    places: &[u32],
    channels: &[u32],
) -> Result<(), AllocError>
    ensures { PutsFields result writer.old writer.new (witness_fields ring.now places.now channels.now) }
{
    put_numbers(writer, "ring", ring)?;
    put_numbers(writer, "places", places)?;
    put_numbers(writer, "channels", channels)
}

// Appends a member whose value is a pattern.
fn put_pattern_field(writer: &mut Writer, name: &str, pattern: Pattern) -> Result<(), AllocError>
    ensures { PutsFields result writer.old writer.new ((name.now, pattern_value pattern) ∷ []) }
{
    writer.key(name)?;
    put_pattern(writer, pattern)
}

// Appends a member whose value is an array of patterns.
pub(crate) fn put_patterns(
    writer: &mut Writer,
    name: &str,
    patterns: &[Pattern],
) -> Result<(), AllocError>
    ensures { PutsFields result writer.old writer.new ((name.now, array_of (map pattern_value patterns.now)) ∷ []) }
{
    writer.key(name)?;
    put_pattern_array(writer, patterns)
}

// Appends an array of patterns.
fn put_pattern_array(writer: &mut Writer, patterns: &[Pattern]) -> Result<(), AllocError>
    ensures { PutsValues result writer.old writer.new (array_of (map pattern_value patterns.now) ∷ []) }
{
    writer.begin_array()?;
    put_each_pattern(writer, patterns)?;
    writer.end_array()
}

// Appends patterns.
fn put_each_pattern(writer: &mut Writer, patterns: &[Pattern]) -> Result<(), AllocError>
    ensures { PutsValues result writer.old writer.new (map pattern_value patterns.now) }
{
    for pattern in patterns {
        put_pattern(writer, *pattern)?;
    }
    Ok(())
}

// Appends a pattern.
fn put_pattern(writer: &mut Writer, pattern: Pattern) -> Result<(), AllocError>
    ensures { PutsValues result writer.old writer.new (pattern_value pattern ∷ []) }
{
    writer.begin_array()?;
    put_entries(writer, pattern)?;
    writer.end_array()
}

// Appends the three entries of a pattern.
fn put_entries(writer: &mut Writer, pattern: Pattern) -> Result<(), AllocError>
    ensures { PutsValues result writer.old writer.new (entries_of pattern) }
{
    put_entry(writer, pattern.first)?;
    put_entry(writer, pattern.second)?;
    put_entry(writer, pattern.third)
}

// Appends an entry of a pattern.
fn put_entry(writer: &mut Writer, entry: Entry) -> Result<(), AllocError>
    ensures { PutsValues result writer.old writer.new (entry_value entry ∷ []) }
{
    match entry {
        Entry::Wildcard => writer.null(),
        Entry::Channel(channel) => writer.u64(u64::from(channel)),
    }
}
