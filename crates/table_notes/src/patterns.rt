//! The notes on a no of the judge to a problem, and on patterns that never match.

ghost use Rattle.std.specs.Prelude.{◌≡◌, ◌++◌, [], ◌∷◌, ◌+◌, ◌^◌, ◌<◌, ◌≤◌, length, IfOk, OnOk, string_bytes};
ghost use Rattle.ring_problems.specs.WitnessPlaces.{HasPlace};
ghost use Rattle.table_notes.specs.PatternNotes as words;

use node_program::OutOfMemory;
use ring_problems::{IdlePattern, KnownProblem, Pattern, PatternWitness, patterns_text};
use source_text::write_joined;
use std::alloc::{AllocError, Global};
use std::fmt::Write;

/// Returns the note on a no of the judge to a problem with this witness: the ring, and what is wrong
/// on it, in the words of the problem if it has a name; then the note on a pattern that never matches,
/// if there is one. Fails if memory was refused.
pub fn broken_note(
    alloc: Global,
    witness: &PatternWitness,
    known: Option<KnownProblem>,
    idle: Option<IdlePattern>,
) -> Result<String, OutOfMemory>
    ensures { IfOk result (λ note. string_bytes note ≡ words.broken_note witness.now.ring.items witness.now.place
        witness.now.channels witness.now.pattern known idle) }
{
    let wrong = wrong_text(alloc, witness, known)?;
    let idle = idle_text(alloc, idle)?;
    let mut note = String::from_str(alloc, "nbhd: on the ring ")?;
    write_joined(&mut note, &witness.ring, ",")?;
    write!(note, "{wrong}\n{idle}")?;
    Ok(note)
}

/// Returns the note on a pattern that never matches. Fails if memory was refused.
pub fn idle_note(alloc: Global, idle: IdlePattern) -> Result<String, OutOfMemory>
    ensures { IfOk result (λ note. string_bytes note ≡ words.idle_note idle) }
{
    let pattern = patterns_text(alloc, &[idle.pattern])?;
    let channels = idle.channels;
    Ok(format!(in alloc;
        "nbhd: the pattern{pattern} never matches: all channels are below {channels}\n"
    )?)
}

// Returns that note, if there is such a pattern.
fn idle_text(alloc: Global, idle: Option<IdlePattern>) -> Result<String, OutOfMemory>
    ensures { IfOk result (λ text. string_bytes text ≡ words.idle_text idle) }
{
    match idle {
        None => Ok(String::new(alloc)),
        Some(idle) => idle_note(alloc, idle),
    }
}

// Returns what is wrong on the ring.
fn wrong_text(
    alloc: Global,
    witness: &PatternWitness,
    known: Option<KnownProblem>,
) -> Result<String, AllocError>
    ensures { IfOk result (λ text. string_bytes text ≡ words.wrong_text witness.now.ring.items witness.now.place
        witness.now.channels witness.now.pattern known) }
{
    match known {
        None => pattern_words(alloc, witness),
        Some(known) => {
            let (step, words) = known_words(known, witness.channels, witness.pattern);
            let node = node_after(witness, step);
            format!(in alloc; " node {node}{words}")
        }
    }
}

// Returns the node this many places after that of the witness, around the ring.
fn node_after(witness: &PatternWitness, step: u32) -> u32
    ensures { result ≡ words.node_after witness.now.ring.items witness.now.place step }
{
    let ring: &[u32] = &witness.ring;
    ring[(witness.place as usize + step as usize) % ring.len()]
}

// Returns with which node something is wrong, by the places from the first one, and what.
fn known_words(
    known: KnownProblem,
    channels: (u32, u32, u32),
    pattern: Pattern,
) -> (u32, &'static str)
    ensures step { result.0 ≡ (words.known_words known channels pattern).0 }
    ensures words { result.1.now ≡ (words.known_words known channels pattern).1 }
{
    let (first, second, _) = channels;
    match known {
        KnownProblem::IndependentSet if pattern.span() == 3 => {
            (1, " is not in the set, and neither is a neighbour")
        }
        KnownProblem::IndependentSet => (0, " is in the set, and so is its right neighbour"),
        KnownProblem::Matching if second == 2 => (1, matching_words(first, 2)),
        KnownProblem::Matching => (0, matching_words(first, second)),
        KnownProblem::WeakColouring => (1, " and both its neighbours have the same channel"),
    }
}

// Returns what is wrong with a matching, by two channels in a row.
fn matching_words(first: u32, second: u32) -> &'static str
    ensures { result.now ≡ words.matching_words first second }
{
    match (first, second) {
        (2, 2) => " is matched to the left, and so is its left neighbour",
        (_, 2) => " is matched to the left, but its left neighbour is single",
        (0, _) => " is single, and so is its right neighbour",
        (_, 0) => " is matched to the right, but its right neighbour is single",
        _ => " is matched to the right, and so is its right neighbour",
    }
}

// Returns which pattern is forbidden, and the nodes that it matches.
fn pattern_words(alloc: Global, witness: &PatternWitness) -> Result<String, AllocError>
    ensures { IfOk result (λ text. string_bytes text ≡ words.pattern_words witness.now.ring.items witness.now.place
        witness.now.channels witness.now.pattern) }
{
    let pattern = patterns_text(alloc, &[witness.pattern])?;
    let (first, second, _) = witness.channels;
    if witness.pattern.span() == 3 {
        let node = node_after(witness, 1);
        let words = row_words(alloc, witness.channels)?;
        return format!(in alloc; " the pattern{pattern} is forbidden: node {node}{words}");
    }
    let node = node_after(witness, 0);
    let words = pair_words(alloc, first, second)?;
    format!(in alloc; " the pattern{pattern} is forbidden: node {node}{words}")
}

// Returns a node and its right neighbour with their channels.
fn pair_words(alloc: Global, first: u32, second: u32) -> Result<String, AllocError>
    ensures { IfOk result (λ text. string_bytes text ≡ words.pair_words first second) }
{
    if first == second {
        return format!(in alloc; " and its right neighbour have channel {first}");
    }
    format!(in alloc; " has channel {first}, and its right neighbour {second}")
}

// Returns a node and both its neighbours with their channels.
fn row_words(alloc: Global, channels: (u32, u32, u32)) -> Result<String, AllocError>
    ensures { IfOk result (λ text. string_bytes text ≡ words.row_words channels) }
{
    let (first, second, third) = channels;
    if first == second && second == third {
        return format!(in alloc; " and both its neighbours have channel {second}");
    }
    format!(in alloc;
        " has channel {second}, its left neighbour {first} and its right neighbour {third}"
    )
}
