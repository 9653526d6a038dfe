//! Clauses, the formula of all tables of a shape with some number of channels, and its refutations: the steps of a
//! proof that no values of variables make all its clauses true, and the notes on texts that are none.
#![tactic(auto)]

mod formula;
mod limits;
mod literal;
mod notes;
mod refutation;

pub use channel_tables::Separation;
pub use formula::conflict::Conflict;
pub use formula::exchange::Exchange;
pub use formula::laws::{
    exchanges_keep_solutions, formula_is_exact, formula_text_is_read, models_give_solutions,
    solutions_satisfy,
};
pub use formula::text::write_formula;
pub use formula::{Formula, FormulaFault};
pub use limits::{LONGEST_REFUTATION, MAX_CLAUSES, MAX_VARIABLES};
pub use literal::{Literal, negation};
pub use notes::refutation_note;
pub use refutation::fault::{LineFault, RefuteError};
pub use refutation::laws::{
    each_text_has_a_verdict, one_refutation_verdict, refutations_are_sound, steps_are_sound,
};
pub use refutation::outcome::Outcome;
pub use refutation::refute;
