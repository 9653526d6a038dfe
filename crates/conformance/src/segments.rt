//! What a segment holds and sends.

ghost use Rattle.std.specs.Prelude.{◌≡◌, ◌<◌, ◌≤◌, IfSome, length};
ghost use Rattle.round_eval.specs.Shapes.{IsOfShape};

use border_exchange::Segment;
use lang_check::Plan;
use std::alloc::Global;
use std::test::Fail;
use test_programs::{CV1, RED, plan_of};
use win_index::Ring;

// Returns the ring of these identifiers for a plan.
fn ring_of(alloc: Global, plan: &Plan, ids: &[u32]) -> Option<Ring>
    ensures { IfSome result (λ ring. IsOfShape ring plan.now × (ring.places ≡ ids.now)) }
{
    Ring::new(plan.shape(), ids.to_vec(alloc).ok()?).ok()
}

// Returns whether the first of two segments of the ring 5 1 3 7 holds 5 and 1, with the values and
// the places of its messages to the right and to the left.
fn sent_by_first(alloc: Global, plan: &Plan) -> Option<(bool, [u32; 4])> {
    let ring = ring_of(alloc, plan, &[5, 1, 3, 7])?;
    let segment = Segment::new(alloc, plan, &ring, 2, 0).ok()?;
    if segment.rounds() != 1 {
        return None;
    }
    let (right, left) = segment.outgoing();
    let sent = [right.value(), left.value(), right.place(), left.place()];
    Some((segment.states() == [5, 1].as_slice(), sent))
}

#[test]
fn a_segment_sends_what_its_ends_send(rt: HostRuntime) -> Result<(), Fail> {
    let plan = plan_of(rt.alloc(), CV1, 8)?;
    assert!(rt; sent_by_first(rt.alloc(), &plan) == Some((true, [1, 0, 1, 0])));
    Ok(())
}

// Returns whether one of three segments begins at the place and holds the identifiers of `part`.
// RED starts on its identifier.
fn holds(alloc: Global, plan: &Plan, ring: &Ring, index: u32, part: (u32, &[u32])) -> Option<bool>
    requires shape { IsOfShape ring.now plan.now }
    requires places { 3 ≤ length ring.now.places }
    requires index { index < 3 }
{
    let segment = Segment::new(alloc, plan, ring, 3, index).ok()?;
    if segment.round() == segment.rounds() {
        return None;
    }
    let (_, left) = segment.outgoing();
    Some((left.place(), segment.states()) == part)
}

// Returns whether three segments of a ring of eight places hold places 0 to 1, 2 to 4 and 5 to 7.
fn eight_places_in_three_segments(alloc: Global, plan: &Plan) -> Option<bool> {
    let ring = ring_of(alloc, plan, &[5, 1, 3, 7, 0, 2, 4, 6])?;
    let first = holds(alloc, plan, &ring, 0, (0, &[5, 1]))?;
    let second = holds(alloc, plan, &ring, 1, (2, &[3, 7, 0]))?;
    let third = holds(alloc, plan, &ring, 2, (5, &[2, 4, 6]))?;
    Some(first && second && third)
}

#[test]
fn three_segments_of_eight_places_have_two_three_and_three(rt: HostRuntime) -> Result<(), Fail> {
    let plan = plan_of(rt.alloc(), RED, 8)?;
    assert!(rt; eight_places_in_three_segments(rt.alloc(), &plan) == Some(true));
    Ok(())
}
