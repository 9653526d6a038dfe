//! Laws of refutations: steps by unit propagation and refutations are sound, and each text has one verdict.
ghost use Rattle.table_formula.specs.RefutationLaws as law;
ghost use Rattle.table_formula.specs.Steps.{StepsAreSound};

use crate::formula::laws::{exchanges_keep_solutions, solutions_satisfy};

/// A clause that follows from the clauses of the hints holds wherever these hold.
#[tactic(auto, using(crate::proofs::SoundSteps::sound))]
pub fn steps_are_sound()
    ensures { StepsAreSound }
{}

/// Where the formula of a problem has a refutation, no table solves the problem.
pub fn refutations_are_sound()
    ensures { law.RefutationsAreSound }
{
    solutions_satisfy();
    steps_are_sound();
    exchanges_keep_solutions();
}

/// A text is not both a refutation and faulty, and has at most one fault besides `OutOfMemory`. A text
/// longer than `LONGEST_REFUTATION` bytes has that of its length alone.
#[tactic(auto, using(crate::proofs::Verdicts::right, crate::proofs::Verdicts::one_fault, crate::proofs::Verdicts::long_fault))]
pub fn one_refutation_verdict()
    ensures right { law.RefutationsAreRight }
    ensures one { law.OneRefutationFault }
    ensures long { law.LongTextsHaveOneFault }
{}

/// Each text is a refutation or has a fault besides `OutOfMemory`.
pub fn each_text_has_a_verdict()
    ensures { law.EachTextHasAVerdict }
{}
