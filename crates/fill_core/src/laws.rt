//! The law that the fill machine has one run.
ghost use Rattle.fill_core.specs.Laws as law;

/// The fill machine is deterministic: a list of events leads from a state to at most one state.
#[tactic(auto, using(crate::proofs::OneRuns::one_run))]
pub fn one_run()
    ensures { law.OneRun }
{}
