//! The notes on a no of the judge, and on a yes about no ring.

ghost use Rattle.std.specs.Prelude.{◌≡◌, ◌++◌, ◌<◌, ◌≤◌, length, codes, IfOk, OnOk, string_bytes};
ghost use Rattle.win_index.specs.Arcs.{window_around};
ghost use Rattle.win_index.specs.declared.limits.TheConstants.{MAX_IDS, MAX_ROUNDS};
ghost use Rattle.source_text.specs.Lists.{joined};
ghost use Rattle.table_notes.specs.VerdictNotes.{distance_text, pair_text, channels_text, no_tuples_note, windows_text};
ghost use Rattle.table_notes.specs.VerdictNotes.{verdict_note, HasPlaces};

use channel_tables::Witness;
use node_program::OutOfMemory;
use source_text::write_joined;
use std::alloc::{AllocError, Global};
use std::fmt::Write;

/// Returns the note on a yes of the judge about no ring: `ids` identifiers are too few for a ring
/// of `nodes` nodes, the least that is judged. Fails if memory was refused.
pub fn no_tuples_note(alloc: Global, nodes: usize, ids: u32) -> Result<String, OutOfMemory>
    ensures { IfOk result (λ note. string_bytes note ≡ no_tuples_note nodes ids) }
{
    Ok(format!(in alloc;
        "nbhd: no ring was judged: {ids} identifiers are too few for a ring of at least {nodes} nodes\n"
    )?)
}

/// Returns the note on a no of the judge with this witness: the ring, the nodes at the two places,
/// their channels and their windows. Fails if memory was refused.
pub fn verdict_note(alloc: Global, witness: &Witness) -> Result<String, OutOfMemory>
    requires { HasPlaces witness.now.ring.items witness.now.places }
    ensures { IfOk result (λ note. string_bytes note
        ≡ verdict_note witness.now.ring.items witness.now.places witness.now.channels) }
{
    let ring: &[u32] = &witness.ring;
    let mut note = String::new(alloc);
    note.push_str("nbhd: on the ring ")?;
    write_joined(&mut note, ring, ",")?;
    note.push_str(distance_text(witness.places))?;
    write_pair(&mut note, ring, witness.places)?;
    write_channels(&mut note, witness.channels)?;
    write_windows(alloc, &mut note, ring, witness.places)?;
    Ok(note)
}

// Returns the text that says whether the two places are neighbours.
fn distance_text(places: (u32, u32)) -> &'static str
    requires { places.0 < MAX_IDS }
    ensures { result.now ≡ distance_text places }
{
    let (first, second) = places;
    if second == first + 1 {
        return " the neighbours ";
    }
    " the nodes at distance two "
}

// Writes the nodes at the two places.
fn write_pair(out: &mut String, ring: &[u32], places: (u32, u32)) -> Result<(), AllocError>
    requires { HasPlaces ring.now places }
    ensures { OnOk result (string_bytes out.new ≡ string_bytes out.old ++ pair_text ring.now places) }
{
    let (first, second) = places;
    let first_id = ring[first as usize];
    let second_id = ring[second as usize];
    write!(
        out,
        "{first_id} and {second_id} (places {first} and {second}) have "
    )
}

// Writes the channels.
fn write_channels(out: &mut String, channels: (u32, u32)) -> Result<(), AllocError>
    ensures { OnOk result (string_bytes out.new ≡ string_bytes out.old ++ channels_text channels) }
{
    let (first, second) = channels;
    if first == second {
        return write!(out, "channel {first}");
    }
    write!(out, "channels {first} and {second}")
}

// Returns the window of the second place, of as many rounds as the first one has nodes before it.
fn window_of(alloc: Global, ring: &[u32], places: (u32, u32)) -> Result<Vec<u32>, AllocError>
    requires { HasPlaces ring.now places }
    ensures { IfOk result (λ window. window.items ≡ window_around ring.now places.0 places.1) }
{
    let (rounds, place) = places;
    let start = place as usize + ring.len() - rounds as usize;
    (0..2 * rounds as usize + 1)
        .map(|step| ring[(start + step) % ring.len()])
        .collect(alloc)
}

// Writes the windows of the two places.
fn write_windows(
    alloc: Global,
    out: &mut String,
    ring: &[u32],
    places: (u32, u32),
) -> Result<(), AllocError>
    requires { HasPlaces ring.now places }
    ensures { OnOk result (string_bytes out.new ≡ string_bytes out.old ++ windows_text ring.now places) }
{
    let (rounds, _) = places;
    out.push_str("; their windows are ")?;
    write_joined(out, &window_of(alloc, ring, (rounds, rounds))?, " ")?;
    out.push_str(" and ")?;
    write_joined(out, &window_of(alloc, ring, places)?, " ")?;
    out.push_str("\n")
}
