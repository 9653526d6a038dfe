//! The findings on a program and a ring from one call.

use headline::{Findings, FindingsFault, compile_run_and_judge};
use nbhd_check::{Separation, Verdict};
use ring_exec::RunFault;
use round_eval::OpenGate;
use std::alloc::Global;
use std::sync::Wait;
use std::thread::Threads;
use table_fill::FillFault;
use test_programs::{CV1, LDB, plan_of};
use win_index::Ring;

// Neighbours' channels have to differ, and nothing else is required.
const NEIGHBOURS_DIFFER: Separation = Separation { near: 1, far: 0 };

// A call for a program of one round for 8 identifiers, on the ring 5 1 3 7, and its findings: the
// table's channel around 7 5 1, the channels of the ring, and the ring, the places and the channels
// of a no.
#[derive(Clone, Copy)]
struct Row<'a> {
    text: &'a [u8],
    workers: u32,
    segments: u32,
    around: u32,
    channels: &'a [u32],
    no: Option<(&'a [u32], (u32, u32), (u32, u32))>,
}

// Returns the ring of a no, its places and their channels.
fn found_in(verdict: &Verdict) -> Option<(&[u32], (u32, u32), (u32, u32))> {
    match verdict {
        Verdict::Yes => None,
        Verdict::No(witness) => Some((witness.ring.as_slice(), witness.places, witness.channels)),
    }
}

// Returns whether findings are those of a row.
fn are_of(found: &Findings, row: &Row<'_>) -> bool {
    found.table.channel_at(&[7, 5, 1]) == Some(row.around)
        && found.channels.as_slice() == row.channels
        && found_in(&found.verdict) == row.no
}

// Returns whether the findings of a row's call are the row's, or their fault.
fn found<R: Threads + Wait + Sync>(
    rt: &R,
    alloc: Global,
    row: &Row<'_>,
) -> Option<Result<bool, FindingsFault>> {
    let plan = plan_of(alloc, row.text, 8).ok()?;
    let ids = [5, 1, 3, 7].to_vec(alloc).ok()?;
    let ring = Ring::new(plan.shape(), ids).ok()?;
    let found = compile_run_and_judge(
        rt,
        alloc,
        &plan,
        &ring,
        NEIGHBOURS_DIFFER,
        row.workers,
        row.segments,
        &OpenGate,
    );
    Some(match found {
        Ok(found) => Ok(are_of(&found, row)),
        Err(fault) => Err(fault),
    })
}

// Returns the row of `CV1` for these numbers of workers and segments.
fn row_of_cv1(workers: u32, segments: u32) -> Row<'static> {
    Row {
        text: CV1,
        workers,
        segments,
        around: 2,
        channels: &[2, 4, 3, 5],
        no: None,
    }
}

#[test]
fn a_program_that_colours_every_ring(rt: HostRuntime) {
    assert!(rt; found(&rt, rt.alloc(), &row_of_cv1(2, 3)) == Some(Ok(true)));
}

#[test]
fn a_program_that_does_not(rt: HostRuntime) {
    let row = Row {
        text: LDB,
        workers: 1,
        segments: 4,
        around: 1,
        channels: &[1, 2, 1, 2],
        no: Some((&[0, 1, 2, 3], (1, 2), (0, 0))),
    };
    assert!(rt; found(&rt, rt.alloc(), &row) == Some(Ok(true)));
}

#[test]
fn numbers_out_of_range(rt: HostRuntime) {
    let faults = [
        found(&rt, rt.alloc(), &row_of_cv1(65, 5)),
        found(&rt, rt.alloc(), &row_of_cv1(64, 5)),
    ];
    let want = [
        Some(Err(FindingsFault::Table(FillFault::WorkersOutOfRange))),
        Some(Err(FindingsFault::Run(RunFault::SegmentsOutOfRange))),
    ];
    assert!(rt; faults == want);
}
