//! Laws of rows of nodes.
ghost use Rattle.round_eval.specs.Laws as law;

/// In a global round, consecutive places of a ring step as a row of nodes between the messages of
/// the two places beside it; the whole ring steps as a row that is closed on itself.
#[tactic(auto, using(crate::proofs::GlobalRounds::stretches))]
pub fn stretches_are_rows()
    ensures { law.StretchesAreRows }
{}

/// The rows of a list of cells are its consecutive parts of a row's width.
#[tactic(auto, using(crate::proofs::RowLemmas::rows_taken))]
pub fn rows_are_taken()
    ensures { law.RowsAreTaken }
{}
