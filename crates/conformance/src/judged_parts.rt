//! The judge of a part of the tuples.

use crate::filling::table_by;
use channel_tables::Table;
use lang_check::Plan;
use nbhd_check::{Separation, Tuples, judge_part};
use std::alloc::Global;
use std::sync::Wait;
use std::test::Fail;
use std::thread::Threads;
use test_programs::plan_of;

// No round: the identifier, but 32 for the identifier 127.
const REPEATED: &[u8] =
    b"rounds 0\nchannels 128\nregisters 1\nstart\nr0 = id\nfinish if(eq(r0, 127), 32, r0)\n";

// Neighbours' channels have to differ, and nothing else is required.
const NEIGHBOURS_DIFFER: Separation = Separation { near: 1, far: 0 };

// Returns what is the least number of a bad tuple from `low` on and below `high`, or `None` if a
// table has no such part.
fn least_in(table: &Table, low: u64, high: u64) -> Option<Option<u64>> {
    let tuples = Tuples {
        windows: table,
        separation: NEIGHBOURS_DIFFER,
    };
    if low > high || high > tuples.count() {
        return None;
    }
    Some(judge_part(table, NEIGHBOURS_DIFFER, low, high))
}

// Returns that number for three parts of a plan's table.
fn least_of_three<R: Threads + Wait + Sync>(
    rt: &R,
    alloc: Global,
    plan: &Plan,
) -> Option<[Option<u64>; 3]> {
    let table = table_by(rt, alloc, plan, 1)?;
    Some([
        least_in(&table, 0, 4190)?,
        least_in(&table, 4190, 16_256)?,
        least_in(&table, 4191, 16_256)?,
    ])
}

// The nodes 32 and 127 have one channel: the tuple of 32 and 127 has the number 4190, that of 127
// and 32 the number 16,161.
#[test]
fn a_part_has_its_least_bad_tuple(rt: HostRuntime) -> Result<(), Fail> {
    let plan = plan_of(rt.alloc(), REPEATED, 128)?;
    let want = [None, Some(4190), Some(16_161)];
    assert!(rt; least_of_three(&rt, rt.alloc(), &plan) == Some(want));
    Ok(())
}
