//! Rows of the run by messages.
use crate::miss::Miss;
use crate::plans::{plan_of, ring_for};
use crate::tell::{again, tell, tell_numbers, value_or};
use ring_exec::{RunFault, run};
use round_eval::OpenGate;
use std::sync::Wait;
use std::thread::Threads;

/// `run`: prints the channels of a ring for a program for eight identifiers, in `segments`
/// segments.
pub(crate) fn do_run<R: AllocGlobal + Print + Threads + Wait + Sync>(
    rt: &R,
    text: &[u8],
    ids: &[u32],
    segments: u32,
) -> Result<(), Miss> {
    let alloc = rt.alloc();
    let plan = plan_of(alloc, text)?;
    let ring = ring_for(alloc, &plan, ids)?;
    let answer = again!(
        rt,
        run(rt, alloc, &plan, &ring, segments, &OpenGate),
        RunFault::OutOfMemory => "OutOfMemory",
        RunFault::NoThread => "NoThread"
    );
    let channels = value_or(answer, Miss::Wrong)?;
    tell_numbers(rt, &channels);
    Ok(())
}
