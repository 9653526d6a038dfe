//! Rows of the fill machine.
use crate::miss::Miss;
use crate::plans::plan_of;
use crate::tell::{again, tell, tell_numbers, value_or};
use fill_core::{FillEvent, FillWorld, replay};
use lang_check::Plan;
use node_lang::OutOfMemory;
use test_programs::CV1;

/// Two workers fill three cells.
const FILLED: [FillEvent; 10] = [
    FillEvent::Draw(0),
    FillEvent::Draw(1),
    FillEvent::Install(1, 1, 0),
    FillEvent::Install(0, 0, 0),
    FillEvent::Look(1, 0, 0),
    FillEvent::Install(1, 1, 0),
    FillEvent::Draw(0),
    FillEvent::Install(0, 1, 1),
    FillEvent::Draw(0),
    FillEvent::Draw(1),
];

/// A worker installs a block in a full cell.
const FULL: [FillEvent; 4] = [
    FillEvent::Draw(0),
    FillEvent::Draw(1),
    FillEvent::Install(0, 0, 0),
    FillEvent::Install(1, 0, 0),
];

/// `fill_core::replay`: after each of two lists of events prints the makers of the blocks in the
/// three cells, the next job, for each worker whether it is stopped and its job in hand, and
/// whether worker 1 knows the first block.
pub(crate) fn do_fill_replay<R: AllocGlobal + Print>(rt: &R) -> Result<(), Miss> {
    let plan = plan_of(rt.alloc(), CV1)?;
    tell_after(rt, &plan, &FILLED)?;
    tell_after(rt, &plan, &FULL)
}

// Prints two workers and the cells after these events.
fn tell_after<R: AllocGlobal + Print>(
    rt: &R,
    plan: &Plan,
    events: &[FillEvent],
) -> Result<(), Miss> {
    let answer = again!(rt, replay(rt.alloc(), plan, 2, events), OutOfMemory => "OutOfMemory");
    let world = value_or(answer, Miss::Wrong)?;
    tell_maker(rt, &world, 0, 0);
    tell_maker(rt, &world, 1, 0);
    tell_maker(rt, &world, 1, 1);
    tell_numbers(rt, &[world.next()]);
    tell_worker(rt, &world, 0);
    tell_worker(rt, &world, 1);
    let knows = world.knows(1, 0, 0);
    tell(rt, if knows { "true" } else { "false" });
    Ok(())
}

// Prints the maker of the block in the cell of a level and a number, if there is one.
fn tell_maker<R: Print>(rt: &R, world: &FillWorld<'_>, level: u32, number: u32) {
    let maker = match world.cell(level, number) {
        Some(block) => Some(block.maker()),
        None => None,
    };
    let _ = println!(rt; "{maker:?}");
}

// Prints whether a worker is stopped, and its job in hand.
fn tell_worker<R: Print>(rt: &R, world: &FillWorld<'_>, worker: u32) {
    let (stopped, hand) = (world.stopped(worker), world.hand(worker));
    let _ = println!(rt; "{stopped} {hand:?}");
}
