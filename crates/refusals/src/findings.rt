//! Rows of the headline.
ghost use Rattle.round_eval.specs.Shapes.{IsOfShape};

use crate::miss::Miss;
use crate::plans::{plan_of, ring_for};
use crate::tell::{again, tell, tell_numbers, value_or};
use headline::{Findings, FindingsFault, compile_run_and_judge};
use lang_check::Plan;
use nbhd_check::{Separation, Verdict};
use ring_exec::RunFault;
use round_eval::OpenGate;
use std::sync::Wait;
use std::thread::Threads;
use table_fill::FillFault;
use test_programs::CV1;
use win_index::Ring;

/// Neighbours' channels have to differ, and nothing else is required.
const NEIGHBOURS_DIFFER: Separation = Separation { near: 1, far: 0 };

/// `compile_run_and_judge`: prints the channels of four places for a program for eight identifiers,
/// and the verdict on its table, with `count` workers and as many segments.
pub(crate) fn do_findings<R: AllocGlobal + Print + Threads + Wait + Sync>(
    rt: &R,
    count: u32,
) -> Result<(), Miss> {
    let plan = plan_of(rt.alloc(), CV1)?;
    let ring = ring_for(rt.alloc(), &plan, &[5, 1, 3, 7])?;
    let findings = findings_of(rt, &plan, &ring, count)?;
    tell_numbers(rt, &findings.channels);
    match findings.verdict {
        Verdict::Yes => {
            tell(rt, "yes");
            Ok(())
        }
        _ => Err(Miss::Wrong),
    }
}

// Returns the findings of a plan and a ring.
fn findings_of<R: AllocGlobal + Print + Threads + Wait + Sync>(
    rt: &R,
    plan: &Plan,
    ring: &Ring,
    count: u32,
) -> Result<Findings, Miss>
    requires ring { IsOfShape ring.now plan.now }
{
    let answer = again!(
        rt,
        answer_of(rt, plan, ring, count),
        FindingsFault::OutOfMemory
            | FindingsFault::Table(FillFault::OutOfMemory)
            | FindingsFault::Run(RunFault::OutOfMemory) => "OutOfMemory",
        FindingsFault::Table(FillFault::NoThread)
            | FindingsFault::Run(RunFault::NoThread) => "NoThread"
    );
    value_or(answer, Miss::Wrong)
}

// Calls `compile_run_and_judge` with a gate that is open.
fn answer_of<R: AllocGlobal + Threads + Wait + Sync>(
    rt: &R,
    plan: &Plan,
    ring: &Ring,
    count: u32,
) -> Result<Findings, FindingsFault>
    requires ring { IsOfShape ring.now plan.now }
{
    compile_run_and_judge(
        rt,
        rt.alloc(),
        plan,
        ring,
        NEIGHBOURS_DIFFER,
        count,
        count,
        &OpenGate,
    )
}
