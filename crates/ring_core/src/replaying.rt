//! Running the events of a list.
ghost use Rattle.std.specs.Prelude.{◌≤◌, IfOk, OnOk};
ghost use Rattle.ring_core.specs.Machine.{IsMachineOf, opening, Runs, Steps};
ghost use Rattle.ring_core.specs.MachinePromises.{KeepsPromises};
ghost use Rattle.ring_core.specs.Progress.{CanBeCut};

use crate::event::RingEvent;
use crate::world::World;
use border_exchange::Side;
use lang_check::Plan;
use node_program::OutOfMemory;
use std::alloc::Global;
use win_index::Ring;

/// Applies a list of events to the opening state of this plan on this ring with this many segments,
/// at least one and at most the number of places. The ring must have the plan's shape. In the
/// opening state each place has its start registers, no segment has done a round, and nothing was
/// sent. An event that is not enabled, or that names a segment out of range, changes nothing:
/// - A segment may send to a side if it has a round to do and has not sent to this side in it. The
///   message of the place at that end is at the border there from then on.
/// - A segment may advance if it has sent both ways in its round, and the messages of this round
///   have come from both of its neighbours. All its places then do this round at once.
///
/// So each segment has the registers of global rounds, after as many rounds as it has done; message
/// `k` of each border is the one of round `k` of global rounds; and a segment and the next one are
/// at most one round apart. Fails with `OutOfMemory` if memory was refused.
pub fn replay<'a>(
    alloc: Global,
    plan: &'a Plan,
    ring: &'a Ring,
    segments: u32,
    events: &[RingEvent],
) -> Result<World<'a>, OutOfMemory>
    requires cut { CanBeCut plan.now ring.now segments }
    requires some { 1 ≤ segments }
    ensures runs { IfOk result (λ world. Runs (opening plan.now ring.now segments) events.now world) }
    ensures machine { IfOk result (IsMachineOf plan.entry.now ring.entry.now segments) }
    ensures promises { IfOk result (λ world. KeepsPromises world) }
{
    let mut world = World::opening(alloc, plan, ring, segments)?;
    for event in events {
        world.step(*event)?;
    }
    world.promises();
    Ok(world)
}

impl<'a> World<'a> {
    // Applies an event.
    fn step(&mut self, event: RingEvent) -> Result<(), OutOfMemory>
        ensures { OnOk result (Steps self.old event self.new) }
    {
        match event {
            RingEvent::SendRight(segment) => self.send(Side::Rightward, segment),
            RingEvent::SendLeft(segment) => self.send(Side::Leftward, segment),
            RingEvent::Advance(segment) => {
                self.advance(segment);
                Ok(())
            }
        }
    }
}
