//! How many rounds a maximal independent set and a maximal matching take, by Linial's lower bound (1992).
#![tactic(auto)]

mod laws;

pub use laws::{independent_sets_need_rounds, matchings_need_rounds};
