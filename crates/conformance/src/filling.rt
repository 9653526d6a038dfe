//! Tables that workers compile.

use channel_tables::Table;
use lang_check::Plan;
use round_eval::OpenGate;
use shared_memo::Memo;
use std::alloc::Global;
use std::sync::Wait;
use std::test::Fail;
use std::thread::Threads;
use table_fill::{FillFault, compile};
use test_programs::{CV1, plan_of};

/// Returns the table of a memo's plan by this many workers, from a pass of its own, or its fault.
fn filled_from<R: Threads + Wait + Sync>(
    rt: &R,
    alloc: Global,
    memo: &Memo<'_>,
    workers: u32,
) -> Option<Result<Table, FillFault>> {
    let mut pass = memo.pass(alloc).ok()?;
    Some(compile(rt, alloc, memo.plan(), memo, &mut pass, workers, &OpenGate))
}

/// Returns the table of a plan by this many workers, from a memo of its own.
pub(crate) fn table_by<R: Threads + Wait + Sync>(
    rt: &R,
    alloc: Global,
    plan: &Plan,
    workers: u32,
) -> Option<Table> {
    let memo = Memo::new(alloc, plan).ok()?;
    filled_from(rt, alloc, &memo, workers)?.ok()
}

/// What a table has: the number of its entries, the one with the number 256, and the channels at
/// three lists.
type Channels = (usize, Option<u16>, [Option<u32>; 3]);

/// Returns what a table by one worker has. The second window has the number 325, and the third list
/// is no window.
fn row_of<R: Threads + Wait + Sync>(rt: &R, alloc: Global, plan: &Plan) -> Option<Channels> {
    let table = table_by(rt, alloc, plan, 1)?;
    let entries = table.entries();
    let entry = entries.get(256).copied();
    let channels = [
        table.channel_at(&[6, 0, 5]),
        table.channel_at(&[7, 5, 1]),
        table.channel_at(&[7, 5]),
    ];
    Some((entries.len(), entry, channels))
}

#[test]
fn cv1_has_a_channel_at_each_window(rt: HostRuntime) -> Result<(), Fail> {
    let plan = plan_of(rt.alloc(), CV1, 8)?;
    let channels = [Some(2), Some(2), None];
    assert!(rt; row_of(&rt, rt.alloc(), &plan) == Some((336, Some(2), channels)));
    Ok(())
}

/// Returns the faults of a table by no worker and by 65.
fn faults_of<R: Threads + Wait + Sync>(
    rt: &R,
    alloc: Global,
    plan: &Plan,
) -> Option<[Option<FillFault>; 2]> {
    let memo = Memo::new(alloc, plan).ok()?;
    Some([
        filled_from(rt, alloc, &memo, 0)?.err(),
        filled_from(rt, alloc, &memo, 65)?.err(),
    ])
}

#[test]
fn a_table_takes_1_to_64_workers(rt: HostRuntime) -> Result<(), Fail> {
    let plan = plan_of(rt.alloc(), CV1, 8)?;
    let faults = [Some(FillFault::WorkersOutOfRange); 2];
    assert!(rt; faults_of(&rt, rt.alloc(), &plan) == Some(faults));
    Ok(())
}

/// Returns how many of `runs` tables by four workers are the table of one worker.
fn agreeing_runs<R: Threads + Wait + Sync>(
    rt: &R,
    alloc: Global,
    plan: &Plan,
    runs: u32,
) -> Option<u32> {
    let one = table_by(rt, alloc, plan, 1)?;
    let mut agreeing = 0u32;
    for _run in 0..runs {
        if table_by(rt, alloc, plan, 4)?.entries() == one.entries() {
            agreeing = agreeing.saturating_add(1);
        }
    }
    Some(agreeing)
}

#[test]
fn a_thousand_runs_agree(rt: HostRuntime) -> Result<(), Fail> {
    let plan = plan_of(rt.alloc(), CV1, 8)?;
    assert!(rt; agreeing_runs(&rt, rt.alloc(), &plan, 1000) == Some(1000));
    Ok(())
}
