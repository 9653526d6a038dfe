//! Rows of global rounds.
use crate::miss::Miss;
use crate::plans::{plan_of, ring_for};
use crate::tell::{again, tell, tell_numbers, value_or};
use node_lang::OutOfMemory;
use round_eval::plain_run;
use test_programs::CV1;

/// `plain_run`: prints the channels of four places.
pub(crate) fn do_plain_run<R: AllocGlobal + Print>(rt: &R) -> Result<(), Miss> {
    let alloc = rt.alloc();
    let plan = plan_of(alloc, CV1)?;
    let ring = ring_for(alloc, &plan, &[5, 1, 3, 7])?;
    let answer = again!(rt, plain_run(alloc, &plan, &ring), OutOfMemory => "OutOfMemory");
    let channels = value_or(answer, Miss::Wrong)?;
    tell_numbers(rt, &channels);
    Ok(())
}
