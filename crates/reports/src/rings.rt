//! What is found on rings, and on lists of identifiers that are not rings. Each call fails only if memory
//! was refused.

ghost use Rattle.std.specs.Prelude.{◌≡◌, ◌≤◌, length, IfOk, MatchResult};
ghost use Rattle.reports.specs.Findings.{fault_of, value_of};
ghost use Rattle.reports.specs.Findings as value;
ghost use Rattle.reports.specs.Report.{Finds, IsAnswerOnRing, IsExplainAnswer, IsNoRing, IsOnRingByTable};
ghost use Rattle.border_exchange.specs.SegmentCounts.{IsSegmentCount};
ghost use Rattle.win_index.specs.Ring.{IsRing};

use crate::fault::Fault;
use crate::finding::{Answer, Finding, PlaceTree, RingTrace};
use crate::ring_channels::table_channels;
use channel_tables::Table;
use lang_check::Plan;
use node_program::OutOfMemory;
use numerals::Base;
use std::alloc::Global;
use win_index::{Ring, Shape};

/// Makes the ring of a list of identifiers for the program of a plan, or returns why it is none.
pub fn ring_in(plan: &Plan, ids: Vec<u32>) -> Result<Ring, Fault>
    ensures { MatchResult result
        (λ ring. (ring ≡ record { ids = plan.now.ids; rounds = length plan.now.program.steps; places = ids.items })
        × IsRing plan.now.ids (length plan.now.program.steps) ids.items)
        (λ fault. IsNoRing plan.now.ids (length plan.now.program.steps) ids.items (fault_of fault)) }
{
    ring_of_shape(plan.shape(), ids)
}

// Makes the ring of a list of identifiers for this shape, or returns why it is none.
fn ring_of_shape(shape: Shape, ids: Vec<u32>) -> Result<Ring, Fault>
    ensures { MatchResult result
        (λ ring. (ring ≡ record { ids = shape.ids; rounds = shape.rounds; places = ids.items })
        × IsRing shape.ids shape.rounds ids.items)
        (λ fault. IsNoRing shape.ids shape.rounds ids.items (fault_of fault)) }
{
    match Ring::new(shape, ids) {
        Ok(ring) => Ok(ring),
        Err((places, fault)) => Err(Fault::Ring {
            rounds: shape.rounds(),
            ids: shape.ids(),
            places,
            fault,
        }),
    }
}

/// Returns the refusal of a number of segments in which the ring can't be run.
pub fn segments_refusal(segments: u32, ring: &Ring) -> Finding
    ensures { value_of result ≡ value.refused (value.of_segments segments (length ring.now.places)) }
{
    Finding::Refused(Fault::Segments {
        segments,
        places: ring.len() as usize,
    })
}

// Returns the channels of a list of identifiers by a table.
pub(crate) fn apply_answer(
    alloc: Global,
    table: &Table,
    ids: Vec<u32>,
) -> Result<Finding, OutOfMemory>
    ensures { IfOk result (λ f. IsAnswerOnRing table.now.ids table.now.rounds ids.items
        (IsOnRingByTable table.now ids.items) (value_of f)) }
{
    match ring_of_shape(table.shape(), ids) {
        Ok(ring) => {
            let channels = table_channels(alloc, table, &ring)?;
            Ok(Finding::Answer(Answer::Places(ring, channels)))
        }
        Err(fault) => Ok(Finding::Refused(fault)),
    }
}

/// Returns the trace of a list of identifiers, with its numbers in this base.
pub fn trace_answer(base: Base, plan: Plan, ids: Vec<u32>) -> Finding
    ensures { IsAnswerOnRing plan.ids (length plan.program.steps) ids.items
        (Finds (value.trace base plan.program ids.items)) (value_of result) }
{
    match ring_in(&plan, ids) {
        Ok(ring) => Finding::Answer(Answer::Trace(RingTrace { base, plan, ring })),
        Err(fault) => Finding::Refused(fault),
    }
}

/// Returns how a place of a list of identifiers computes, with its values in this base.
pub fn explain_answer(base: Base, plan: Plan, ids: Vec<u32>, place: u32) -> Finding
    ensures { IsAnswerOnRing plan.ids (length plan.program.steps) ids.items
        (IsExplainAnswer base plan.program ids.items place) (value_of result) }
{
    match ring_in(&plan, ids) {
        Ok(ring) => place_answer(base, plan, ring, place),
        Err(fault) => Finding::Refused(fault),
    }
}

// Returns how a place of a ring computes.
fn place_answer(base: Base, plan: Plan, ring: Ring, place: u32) -> Finding
    requires { ring.ids ≡ plan.ids }
    ensures { IsExplainAnswer base plan.program ring.places place (value_of result) }
{
    if place >= ring.len() {
        return Finding::Refused(Fault::Place {
            place,
            places: ring.len() as usize,
        });
    }
    Finding::Answer(Answer::Tree(PlaceTree {
        base,
        plan,
        ring,
        place,
    }))
}
