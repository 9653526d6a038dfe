//! What a gate sees of the workers of a table. `CV1` for 8 identifiers has three jobs: 0 is the
//! block of level 0, which 1 and 2, the blocks of level 1, are made from.

use crate::hold::{Calls, Held, Hold};
use crate::memo::maker_of;
use lang_check::Plan;
use round_eval::Gate;
use shared_memo::Memo;
use std::alloc::Global;
use std::sync::Wait;
use std::sync::atomic::AtomicU64;
use std::sync::atomic::Ordering::SeqCst;
use std::test::Fail;
use std::thread::Threads;
use table_fill::compile;
use test_programs::{CV1, plan_of};

/// Compiles a table with this many workers and this gate, and returns the makers of the blocks of
/// the first three jobs.
fn makers_by<R: Threads + Wait + Sync, G: Gate + Sync>(
    rt: &R,
    alloc: Global,
    memo: &Memo<'_>,
    workers: u32,
    gate: &G,
) -> Option<[u32; 3]> {
    let mut pass = memo.pass(alloc).ok()?;
    compile(rt, alloc, memo.plan(), memo, &mut pass, workers, gate).ok()?;
    let makers = (
        maker_of(memo, &mut pass, 0),
        maker_of(memo, &mut pass, 1),
        maker_of(memo, &mut pass, 2),
    );
    match makers {
        (Some(zero), Some(one), Some(two)) => Some([zero, one, two]),
        _ => None,
    }
}

/// Returns the calls of two workers of which those with these numbers call for the three jobs, once
/// for each.
fn calls_of([a, b, c]: [u32; 3]) -> Calls {
    [
        [u64::from(a == 0), u64::from(b == 0), u64::from(c == 0)],
        [u64::from(a == 1), u64::from(b == 1), u64::from(c == 1)],
    ]
}

/// What a gate saw of two workers, and the makers of three blocks.
type Seen = ((u64, Calls), [u32; 3]);

/// Compiles the table of a plan with two workers, of which these calls are held.
fn seen_of_two<R: Threads + Wait + Sync>(
    rt: &R,
    alloc: Global,
    plan: &Plan,
    held: Held,
) -> Option<Seen> {
    let memo = Memo::new(alloc, plan).ok()?;
    let gate = Hold::new(held);
    let makers = makers_by(rt, alloc, &memo, 2, &gate)?;
    Some((gate.seen(), makers))
}

// While a worker is held with the block below, the other makes that block itself.
#[test]
fn a_worker_makes_a_missing_block_and_tries_again(rt: HostRuntime) -> Result<(), Fail> {
    let plan = plan_of(rt.alloc(), CV1, 8)?;
    let seen = seen_of_two(&rt, rt.alloc(), &plan, Held::Zeros);
    let by_one = Some(((0, calls_of([0, 1, 1])), [1; 3]));
    let by_zero = Some(((0, calls_of([1, 0, 0])), [0; 3]));
    assert!(rt; seen == by_one || seen == by_zero);
    Ok(())
}

/// Returns whether two workers called once for each job, and who called for a block of level 1 made
/// it. Both can make the block below.
fn have_met(((wrong, calls), [_, one, two]): Seen) -> bool {
    wrong == 0 && (calls == calls_of([0, one, two]) || calls == calls_of([1, one, two]))
}

#[test]
fn two_workers_are_at_work_at_once(rt: HostRuntime) -> Result<(), Fail> {
    let plan = plan_of(rt.alloc(), CV1, 8)?;
    let seen = seen_of_two(&rt, rt.alloc(), &plan, Held::All);
    assert!(rt; seen.is_some_and(have_met));
    Ok(())
}

/// Counts the calls of worker 0 at which the cell of the job is still empty, and all others.
#[derive(Drop)]
struct Lookout<'m, 'a> {
    alloc: Global,
    memo: &'m Memo<'a>,
    early: AtomicU64,
    others: AtomicU64,
}

impl<'m, 'a> Gate for Lookout<'m, 'a> {
    fn entered(&self, who: u32, what: u32) {
        let is_empty = match self.memo.pass(self.alloc) {
            Ok(mut pass) => maker_of(self.memo, &mut pass, what).is_none(),
            Err(_) => false,
        };
        if who == 0 && is_empty {
            self.early.fetch_add(1, SeqCst);
        } else {
            self.others.fetch_add(1, SeqCst);
        }
    }
}

/// Compiles with a single worker, and returns the makers of three blocks. That threads can share a
/// lookout is proved here, where few values are in scope.
fn makers_alone<R: Threads + Wait + Sync>(
    rt: &R,
    alloc: Global,
    gate: &Lookout<'_, '_>,
) -> Option<[u32; 3]> {
    makers_by(rt, alloc, gate.memo, 1, gate)
}

/// Compiles the table of a plan with a single worker. Returns the numbers of calls that a lookout
/// counts, and the makers of three blocks.
fn seen_alone<R: Threads + Wait + Sync>(
    rt: &R,
    alloc: Global,
    plan: &Plan,
) -> Option<([u64; 2], [u32; 3])> {
    let memo = Memo::new(alloc, plan).ok()?;
    let gate = Lookout {
        alloc,
        memo: &memo,
        early: AtomicU64::new(0),
        others: AtomicU64::new(0),
    };
    let makers = makers_alone(rt, alloc, &gate)?;
    Some(([gate.early.load(SeqCst), gate.others.load(SeqCst)], makers))
}

// A worker alone has the number 0.
#[test]
fn the_gate_is_told_before_a_job_is_done(rt: HostRuntime) -> Result<(), Fail> {
    let plan = plan_of(rt.alloc(), CV1, 8)?;
    assert!(rt; seen_alone(&rt, rt.alloc(), &plan) == Some(([3, 0], [0; 3])));
    Ok(())
}
