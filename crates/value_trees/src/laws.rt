//! Laws of explanations and traces.
ghost use Rattle.value_trees.specs.Laws as law;

/// A tree has a line for each part of its expression that counts, as deep as the part is, with its
/// value, and one line for each branch of an `if` that is not taken. The value of the whole
/// expression is the register which is traced, the message which is sent, or the channel which a
/// run prints.
#[tactic(auto, using(crate::proofs::Roots::starts, crate::proofs::Roots::assigned, crate::proofs::Roots::finished))]
pub fn roots_are_traced()
    ensures trees { law.TreesShowParts }
    ensures starts { law.StartsAreHeld }
    ensures assigned { law.AssignedAreHeld }
    ensures sent { law.MessagesAreSent }
    ensures finish { law.FinishIsChannel }
{}

/// An explanation shows them: below each heading the tree of an expression, and in the tree's first
/// line the register as a trace does, the message, or the channel as a run does. The heading says
/// where the registers that the expression reads were assigned.
pub fn explanations_show_traces()
    ensures { law.ExplanationsShowTraces }
{}
