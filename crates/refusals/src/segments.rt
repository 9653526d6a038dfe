//! Rows of the segment machine.
ghost use Rattle.std.specs.Prelude.{◌≡◌, ◌≤◌, IfOk, length};
ghost use Rattle.round_eval.specs.Shapes.{IsOfShape};

use crate::miss::Miss;
use crate::plans::{plan_of, ring_for};
use crate::tell::{again, tell, tell_numbers, value_or};
use lang_check::Plan;
use node_lang::OutOfMemory;
use ring_core::{RingEvent, World, replay};
use test_programs::CV1;
use win_index::Ring;

/// Events of `CV1` on the ring 5 1 3 7 in two segments, 5 1 and 3 7. Segment 0 advances at the third
/// try, and then segment 1.
const EVENTS: [RingEvent; 8] = [
    RingEvent::SendRight(0),
    RingEvent::SendLeft(0),
    RingEvent::Advance(0),
    RingEvent::SendRight(1),
    RingEvent::Advance(0),
    RingEvent::SendLeft(1),
    RingEvent::Advance(0),
    RingEvent::Advance(1),
];

/// `ring_core::replay`: prints the rounds and the registers of both segments after seven events and
/// after one more.
pub(crate) fn do_ring_replay<R: AllocGlobal + Print>(rt: &R) -> Result<(), Miss> {
    let plan = plan_of(rt.alloc(), CV1)?;
    tell_ring(rt, &plan)
}

// Prints both segments of a ring of four places after these events.
fn tell_ring<R: AllocGlobal + Print>(rt: &R, plan: &Plan) -> Result<(), Miss> {
    let ring = ring_for(rt.alloc(), plan, &[5, 1, 3, 7])?;
    tell_after_both(rt, plan, &ring)
}

// Prints two segments after seven events and after one more.
fn tell_after_both<R: AllocGlobal + Print>(rt: &R, plan: &Plan, ring: &Ring) -> Result<(), Miss>
    requires ring { IsOfShape ring.now plan.now }
    requires places { 2 ≤ length ring.now.places }
{
    tell_after(rt, plan, ring, &EVENTS[..7])?;
    tell_after(rt, plan, ring, &EVENTS)
}

// Prints two segments after these events.
fn tell_after<R: AllocGlobal + Print>(
    rt: &R,
    plan: &Plan,
    ring: &Ring,
    events: &[RingEvent],
) -> Result<(), Miss>
    requires ring { IsOfShape ring.now plan.now }
    requires places { 2 ≤ length ring.now.places }
{
    let world = after(rt, plan, ring, events)?;
    tell_world(rt, &world);
    Ok(())
}

// Returns two segments after these events.
fn after<'a, R: AllocGlobal + Print>(
    rt: &R,
    plan: &'a Plan,
    ring: &'a Ring,
    events: &[RingEvent],
) -> Result<World<'a>, Miss>
    requires ring { IsOfShape ring.now plan.now }
    requires places { 2 ≤ length ring.now.places }
    ensures { IfOk result (λ world. length world.segments ≡ 2) }
{
    let answer = again!(
        rt,
        replay(rt.alloc(), plan, ring, 2, events),
        OutOfMemory => "OutOfMemory"
    );
    value_or(answer, Miss::Wrong)
}

// Prints the rounds and the registers of two segments.
fn tell_world<R: Print>(rt: &R, world: &World<'_>)
    requires { length world.now.segments ≡ 2 }
{
    tell_numbers(rt, &[world.round(0), world.round(1)]);
    tell_numbers(rt, world.states(0));
    tell_numbers(rt, world.states(1));
}
