//! The law that the segment machine has one run.
ghost use Rattle.ring_core.specs.Laws as law;

/// The segment machine is deterministic: a list of events leads from a state to at most one state.
#[tactic(auto, using(crate::proofs::OneRuns::one_run))]
pub fn one_run()
    ensures { law.OneRun }
{}
