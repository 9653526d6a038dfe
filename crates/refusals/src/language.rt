//! Rows of parsing and running.
use crate::miss::Miss;
use crate::plans::ring_for;
use crate::tell::{again, tell, tell_numbers, value_or};
use lang_check::{Plan, accept};
use node_lang::{FaultKind, Program, TextFault, parse};
use round_eval::plain_run;
use test_programs::CV1;

/// `parse`: prints the channels of a run of the parsed program on the eight identifiers in
/// ascending order.
pub(crate) fn do_parse<R: AllocGlobal + Print>(rt: &R) -> Result<(), Miss> {
    let plan = value_or(accept(parsed(rt)?, 8), Miss::OtherCall)?;
    tell_run(rt, &plan)
}

// Prints the channels of a run of a plan on the eight identifiers in ascending order.
fn tell_run<R: AllocGlobal + Print>(rt: &R, plan: &Plan) -> Result<(), Miss> {
    let ring = ring_for(rt.alloc(), plan, &[0, 1, 2, 3, 4, 5, 6, 7])?;
    let channels = value_or(plain_run(rt.alloc(), plan, &ring), Miss::OtherCall)?;
    tell_numbers(rt, &channels);
    Ok(())
}

// Returns the program of a text. Parses it a second time if memory was refused.
fn parsed<R: AllocGlobal + Print>(rt: &R) -> Result<Program, Miss> {
    let answer = again!(
        rt,
        parse(rt.alloc(), CV1),
        TextFault { kind: FaultKind::OutOfMemory, .. } => "OutOfMemory"
    );
    value_or(answer, Miss::Wrong)
}
