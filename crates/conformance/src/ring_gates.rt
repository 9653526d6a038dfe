//! What the gate of a run by messages is told.

use crate::hold::{Calls, Held, Hold};
use lang_check::Plan;
use ring_exec::run;
use std::alloc::Global;
use std::sync::Wait;
use std::test::Fail;
use std::thread::Threads;
use test_programs::{CV1, RED, plan_of};
use win_index::Ring;

// Runs a ring in two segments, each of which is held until both have called. Returns whether it has
// these channels, and what the gate saw.
fn seen_of_two<R: Threads + Wait + Sync>(
    rt: &R,
    alloc: Global,
    plan: &Plan,
    ids: Vec<u32>,
    want: &[u32],
) -> Option<(bool, (u64, Calls))> {
    let ring = Ring::new(plan.shape(), ids).ok()?;
    let gate = Hold::new(Held::All);
    let channels = run(rt, alloc, plan, &ring, 2, &gate).ok()?;
    Some((channels.as_slice() == want, gate.seen()))
}

#[test]
fn two_segments_run_at_once(rt: HostRuntime) -> Result<(), Fail> {
    let plan = plan_of(rt.alloc(), CV1, 8)?;
    let ids = vec![in rt.alloc(); 5, 1, 3, 7]?;
    let seen = seen_of_two(&rt, rt.alloc(), &plan, ids, &[2, 4, 3, 5]);
    assert!(rt; seen == Some((true, (0, [[1, 0, 0]; 2]))));
    Ok(())
}

#[test]
fn the_gate_is_told_of_each_of_three_rounds(rt: HostRuntime) -> Result<(), Fail> {
    let plan = plan_of(rt.alloc(), RED, 8)?;
    let ids = vec![in rt.alloc(); 5, 1, 3, 7, 0, 2, 4, 6]?;
    let seen = seen_of_two(&rt, rt.alloc(), &plan, ids, &[1, 0, 3, 1, 0, 3, 2, 3]);
    assert!(rt; seen == Some((true, (0, [[1; 3]; 2]))));
    Ok(())
}
