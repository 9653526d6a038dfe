//! The notes on a list that is not a ring, on a place that a ring has not, and on a number of
//! segments.

ghost use Rattle.std.specs.Prelude.{◌≡◌, ◌<◌, ◌≤◌, length, IfOk, string_bytes};
ghost use Rattle.win_index.specs.declared.limits.TheConstants.{MAX_ROUNDS};
ghost use Rattle.win_index.specs.RingFaults.{IsFirstFault};
ghost use Rattle.table_notes.specs.RingNotes.{place_note, ring_note, segments_note, note_end};

use node_program::{MAX_THREADS, OutOfMemory};
use std::alloc::Global;
use win_index::RingFault;

/// Returns the note on the first fault of a list of identifiers that is not a ring, for `ids`
/// identifiers and `rounds` rounds. Fails if memory was refused.
pub fn ring_note(
    alloc: Global,
    ids: u32,
    rounds: u32,
    places: &[u32],
    fault: RingFault,
) -> Result<String, OutOfMemory>
    requires rounds { rounds ≤ MAX_ROUNDS }
    requires fault { IsFirstFault ids rounds places.now fault }
    ensures { IfOk result (λ note. string_bytes note ≡ ring_note ids rounds places.now fault) }
{
    let count = places.len();
    match fault {
        RingFault::TooShort => {
            let least = 2 * rounds + 2;
            Ok(format!(in alloc;
                "nbhd: a ring has at least {least} places here, and this one has {count}\n"
            )?)
        }
        RingFault::TooLong => Ok(format!(in alloc;
            "nbhd: a ring has at most as many places as there are identifiers, {ids}, and this one has {count}\n"
        )?),
        RingFault::IdTooLarge(place) => {
            let id = places[place as usize];
            let largest = ids.saturating_sub(1);
            Ok(format!(in alloc;
                "nbhd: place {place} has the identifier {id}; of {ids} identifiers the largest is {largest}\n"
            )?)
        }
        RingFault::Repeated(first, second) => {
            let id = places[second as usize];
            let end = note_end(count, first, second);
            Ok(format!(in alloc;
                "nbhd: places {first} and {second} have the same identifier {id}{end}"
            )?)
        }
    }
}

// Returns the end of the note: advice if the last place repeats the first one.
fn note_end(count: usize, first: u32, second: u32) -> &'static str
    ensures { result.now ≡ note_end count first second }
{
    if first == 0 && second as usize + 1 == count {
        return "; a ring closes by itself\n";
    }
    "\n"
}

/// Returns the note on a place that a ring of `places` places has not. Fails if memory was refused.
pub fn place_note(alloc: Global, place: u32, places: usize) -> Result<String, OutOfMemory>
    ensures { IfOk result (λ note. string_bytes note ≡ place_note place places) }
{
    let last = places.saturating_sub(1);
    Ok(format!(in alloc; "nbhd: the ring has no place {place}; its places are 0 to {last}\n")?)
}

/// Returns the note on a ring of `places` places that cannot be run in `segments` segments: these
/// are more than the places, or else none or too many for any ring. Fails if memory was refused.
pub fn segments_note(alloc: Global, segments: u32, places: usize) -> Result<String, OutOfMemory>
    ensures { IfOk result (λ note. string_bytes note ≡ segments_note segments places) }
{
    if places < segments as usize {
        return Ok(format!(in alloc;
            "nbhd: {segments} segments are more than the {places} places of the ring\n"
        )?);
    }
    let most = MAX_THREADS;
    Ok(format!(in alloc; "nbhd: a ring is run in 1 to {most} segments, not {segments}\n")?)
}
