//! Lines of the report. Each call fails only if memory was refused.

ghost use Rattle.std.specs.Prelude.{◌≡◌, ◌+◌, ◌^◌, ◌<◌, [], ◌∷◌, ◌++◌, length, slice_index, IfOk, OnOk, string_bytes};
ghost use Rattle.node_lang.specs.Printed.{printed};
ghost use Rattle.reports.specs.Lines.{line, numbers_text};
ghost use Rattle.reports.specs.Bytes as report;
ghost use Rattle.reports.specs.Bytes.{bytes_of};
ghost use Rattle.reports.specs.Findings.{answer_of};

use crate::finding::Answer;
use crate::formula_lines::refuted_line;
use crate::pattern_places::{places_of, shown_len};
use nbhd_check::{PatternWitness, Separation, Witness};
use node_lang::{Program, print};
use node_program::OutOfMemory;
use source_text::write_joined;
use std::alloc::{AllocError, Global};
use std::fmt::Write;
use value_trees::{explanation_text, trace_text};
use win_index::Ring;

// Returns a line of numbers in decimal, separated by single blanks and followed by a line feed.
fn numbers_line(alloc: Global, numbers: &[u32]) -> Result<String, OutOfMemory>
    ensures { IfOk result (λ text. string_bytes text ≡ line (numbers_text numbers.now ∷ [])) }
{
    let mut text = String::new(alloc);
    write_joined(&mut text, numbers, " ")?;
    text.push_str("\n")?;
    Ok(text)
}

// Returns the lines of an answer.
pub(crate) fn text_of(alloc: Global, answer: &Answer) -> Result<String, OutOfMemory>
    ensures { IfOk result (λ text. string_bytes text ≡ bytes_of (answer_of answer.now)) }
{
    match answer {
        Answer::Accepted {
            ids,
            rounds,
            channels,
            bound,
            windows,
        } => Ok(accepted_line(alloc, *ids, *rounds, *channels, *bound, *windows)?),
        Answer::Program(program) => program_text(alloc, program),
        Answer::Yes { tuples, .. } => Ok(good_line(alloc, *tuples)?),
        Answer::No(separation, witness) => Ok(no_line(alloc, *separation, witness)?),
        Answer::Solved { tuples, .. } => Ok(good_line(alloc, *tuples)?),
        Answer::Broken { witness, .. } => Ok(broken_line(alloc, witness)?),
        Answer::Channels(channels) => numbers_line(alloc, channels),
        Answer::Trace(trace) => trace_text(alloc, trace.base, &trace.plan, &trace.ring),
        Answer::Tree(tree) => {
            explanation_text(alloc, tree.base, &tree.plan, &tree.ring, tree.place)
        }
        Answer::Places(ring, channels) => places_text(alloc, ring, channels),
        Answer::Refuted(numbers) => Ok(refuted_line(alloc, numbers)?),
    }
}

// Returns the printed form of a program.
fn program_text(alloc: Global, program: &Program) -> Result<String, OutOfMemory>
    ensures { IfOk result (λ text. string_bytes text ≡ printed program.now) }
{
    match print(alloc, program) {
        Ok(text) => Ok(text),
        Err(_) => Err(OutOfMemory),
    }
}

// Returns the line of an accepted program.
fn accepted_line(
    alloc: Global,
    ids: u32,
    rounds: u32,
    channels: u32,
    bound: u32,
    windows: u32,
) -> Result<String, AllocError>
    ensures { IfOk result (λ text. string_bytes text ≡ report.accepted_line ids rounds channels bound windows) }
{
    format!(in alloc;
        "accepted ids {ids} rounds {rounds} channels {channels} bound {bound} windows {windows}\n"
    )
}

// Returns the line of a table whose channels are far enough apart everywhere.
fn good_line(alloc: Global, tuples: u64) -> Result<String, AllocError>
    ensures { IfOk result (λ text. string_bytes text ≡ report.good_line tuples) }
{
    format!(in alloc; "yes: {tuples} tuples\n")
}

// Returns the line of a no.
fn no_line(alloc: Global, separation: Separation, witness: &Witness) -> Result<String, AllocError>
    ensures { IfOk result (λ text. string_bytes text
        ≡ report.no_line separation witness.now.ring.items witness.now.places witness.now.channels) }
{
    let mut text = String::new(alloc);
    write_no(&mut text, separation, witness)?;
    Ok(text)
}

// Writes the line of a no. If neighbours' channels only have to differ, it has the one channel of
// both places.
fn write_no(text: &mut String, separation: Separation, witness: &Witness) -> Result<(), AllocError>
    ensures { OnOk result (string_bytes text.new ≡ string_bytes text.old
        ++ report.no_line separation witness.now.ring.items witness.now.places witness.now.channels) }
{
    text.push_str("no: ring ")?;
    write_joined(text, &witness.ring, " ")?;
    let (place, other_place) = witness.places;
    let (channel, other_channel) = witness.channels;
    if separation.near == 1 && separation.far == 0 {
        write!(text, " place {place} channel {channel}\n")
    } else {
        write!(
            text,
            " places {place} {other_place} channels {channel} {other_channel}\n"
        )
    }
}

// Returns the line of a ring on which a pattern matches.
fn broken_line(alloc: Global, witness: &PatternWitness) -> Result<String, AllocError>
    ensures { IfOk result (λ text. string_bytes text
        ≡ report.broken_line witness.now.ring.items witness.now.place witness.now.channels witness.now.pattern) }
{
    let count = shown_len(witness.pattern);
    let places = places_of(witness);
    let (first, second, third) = witness.channels;
    let channels = [first, second, third];
    let mut text = String::new(alloc);
    text.push_str("no: ring ")?;
    write_joined(&mut text, &witness.ring, " ")?;
    text.push_str(" places ")?;
    write_joined(&mut text, &places[..count], " ")?;
    text.push_str(" channels ")?;
    write_joined(&mut text, &channels[..count], " ")?;
    text.push_str("\n")?;
    Ok(text)
}

// Returns the lines of a ring's places with these channels.
fn places_text(alloc: Global, ring: &Ring, channels: &[u32]) -> Result<String, OutOfMemory>
    ensures { IfOk result (λ text. string_bytes text
        ≡ report.lines_of_places ring.now.places (slice_index channels.now)) }
{
    let mut text = String::new(alloc);
    for place in 0..ring.len() {
        let channel = number_at(channels, place);
        write_place(&mut text, place, ring.id(place), channel)?;
    }
    Ok(text)
}

// Returns the number at a place, or 0 if there is none.
fn number_at(numbers: &[u32], place: u32) -> u32
    ensures { result ≡ slice_index numbers.now place }
{
    match numbers.get(place as usize) {
        Some(number) => *number,
        None => 0,
    }
}

// Writes the line of a place, with its identifier and its channel.
#[tactic(auto, using(crate::proofs::Aligned::aligned))]
fn write_place(text: &mut String, place: u32, id: u32, channel: u32) -> Result<(), OutOfMemory>
    ensures { OnOk result (string_bytes text.new ≡ string_bytes text.old ++ report.place_line place id channel) }
{
    write!(text, "{place:>4} {id:>4} {channel:>4}\n")?;
    Ok(())
}
