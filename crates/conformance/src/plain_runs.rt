//! Runs of a ring on one thread, without messages.

use round_eval::plain_run;
use std::alloc::Global;
use test_programs::{CV1, RED, plan_of};
use win_index::Ring;

// Returns whether a run of a program for 8 identifiers on a ring gives these channels.
fn gives(alloc: Global, text: &[u8], ids: &[u32], channels: &[u32]) -> Option<bool> {
    let plan = plan_of(alloc, text, 8).ok()?;
    let ring = Ring::new(plan.shape(), ids.to_vec(alloc).ok()?).ok()?;
    let found = plain_run(alloc, &plan, &ring).ok()?;
    Some(found.as_slice() == channels)
}

#[test]
fn plain_runs_of_four_and_eight_places(rt: HostRuntime) {
    let alloc = rt.alloc();
    let eight = [5, 1, 3, 7, 0, 2, 4, 6];
    let found = [
        gives(alloc, CV1, &[5, 1, 3, 7], &[2, 4, 3, 5]),
        gives(alloc, RED, &eight, &[1, 0, 3, 1, 0, 3, 2, 3]),
    ];
    assert!(rt; found == [Some(true); 2]);
}
