//! Where a program reads what it must not.
ghost use Rattle.std.specs.Prelude.{◌≡◌, nat_le, [], ◌∷◌, map, find, flat_map, slice_index};
ghost use Rattle.std.specs.List.{list_any};
ghost use Rattle.node_program.specs.Term.{term_of, step_of, step_terms};
ghost use Rattle.lang_check.specs.Occurrences.{registers_read, reads_identifier, reads_message, sent_terms};

use node_program::{Expr, Round, register_or_zero};

// Returns the first register that the expression reads and that is not below `count`.
#[tactic(auto, using(crate::proofs::OccurrenceLemmas::joined))]
pub(crate) fn missing_in_term(count: u32, expression: &Expr) -> Option<u32>
    ensures { result ≡ find (λ j. nat_le count j) (registers_read (term_of expression.now)) }
{
    match expression {
        Expr::Register(register) => {
            if *register < count {
                None
            } else {
                Some(*register)
            }
        }
        Expr::One(_, a) => missing_in_term(count, a),
        Expr::Two(_, a, b) => missing_in_term(count, a).or(missing_in_term(count, b)),
        Expr::Choose(c, a, b) => {
            let of_branches = missing_in_term(count, a).or(missing_in_term(count, b));
            missing_in_term(count, c).or(of_branches)
        }
        Expr::Number(_) | Expr::Id | Expr::FromLeft | Expr::FromRight => None,
    }
}

// Returns the first register that the expression reads and whose bound is `limit` or more. A
// register without a bound has the bound 0.
#[tactic(auto, using(crate::proofs::OccurrenceLemmas::joined))]
pub(crate) fn register_over(limit: u32, bounds: &[u32], expression: &Expr) -> Option<u32>
    ensures { result ≡ find (λ j. nat_le limit (slice_index bounds.now j)) (registers_read (term_of expression.now)) }
{
    match expression {
        Expr::Register(register) => {
            if register_or_zero(bounds, *register) < limit {
                None
            } else {
                Some(*register)
            }
        }
        Expr::One(_, a) => register_over(limit, bounds, a),
        Expr::Two(_, a, b) => register_over(limit, bounds, a).or(register_over(limit, bounds, b)),
        Expr::Choose(c, a, b) => {
            let of_branches = register_over(limit, bounds, a).or(register_over(limit, bounds, b));
            register_over(limit, bounds, c).or(of_branches)
        }
        Expr::Number(_) | Expr::Id | Expr::FromLeft | Expr::FromRight => None,
    }
}

// Like `missing_in_term`, for a list of expressions.
pub(crate) fn missing_in_terms(count: u32, expressions: &[Expr]) -> Option<u32>
    ensures { result ≡ find (λ j. nat_le count j) (flat_map registers_read (map term_of expressions.now)) }
{
    let mut found = None;
    for expression in expressions {
        found = found.or(missing_in_term(count, expression));
    }
    found
}

// Like `missing_in_term`, for a list of rounds, in reading order.
pub(crate) fn missing_in_rounds(count: u32, rounds: &[Round]) -> Option<u32>
    ensures { result ≡ find (λ j. nat_le count j) (flat_map registers_read (step_terms (map step_of rounds.now))) }
{
    let mut found = None;
    for round in rounds {
        let sent = missing_in_term(count, &round.left).or(missing_in_term(count, &round.right));
        found = found.or(sent.or(missing_in_terms(count, &round.next)));
    }
    found
}

// Returns whether an expression reads the identifier.
pub(crate) fn uses_id(expression: &Expr) -> bool
    ensures { result ≡ reads_identifier (term_of expression.now) }
{
    match expression {
        Expr::Id => true,
        Expr::One(_, a) => uses_id(a),
        Expr::Two(_, a, b) => uses_id(a) || uses_id(b),
        Expr::Choose(c, a, b) => uses_id(c) || uses_id(a) || uses_id(b),
        Expr::Number(_) | Expr::FromLeft | Expr::FromRight | Expr::Register(_) => false,
    }
}

// Returns whether one of the expressions reads the identifier.
fn any_uses_id(expressions: &[Expr]) -> bool
    ensures { result ≡ list_any (λ e. reads_identifier (term_of e)) expressions.now }
{
    expressions.iter().any(|expression| uses_id(expression))
}

// Returns whether a round reads the identifier.
#[tactic(auto, using(crate::proofs::OccurrenceLemmas::list_any_mapped_end))]
fn round_uses_id(round: &Round) -> bool
    ensures { result ≡ list_any reads_identifier (step_terms (step_of round.now ∷ [])) }
{
    uses_id(&round.left) || uses_id(&round.right) || any_uses_id(&round.next)
}

// Returns whether one of the rounds reads the identifier.
pub(crate) fn rounds_use_id(rounds: &[Round]) -> bool
    ensures { result ≡ list_any (λ r. list_any reads_identifier (step_terms (step_of r ∷ []))) rounds.now }
{
    rounds.iter().any(|round| round_uses_id(round))
}

// Returns whether an expression reads a message.
pub(crate) fn uses_message(expression: &Expr) -> bool
    ensures { result ≡ reads_message (term_of expression.now) }
{
    match expression {
        Expr::FromLeft | Expr::FromRight => true,
        Expr::One(_, a) => uses_message(a),
        Expr::Two(_, a, b) => uses_message(a) || uses_message(b),
        Expr::Choose(c, a, b) => uses_message(c) || uses_message(a) || uses_message(b),
        Expr::Number(_) | Expr::Id | Expr::Register(_) => false,
    }
}

// Returns whether one of the expressions reads a message.
pub(crate) fn any_uses_message(expressions: &[Expr]) -> bool
    ensures { result ≡ list_any (λ e. reads_message (term_of e)) expressions.now }
{
    expressions
        .iter()
        .any(|expression| uses_message(expression))
}

// Returns whether an expression sent in the round reads a message.
fn send_uses_message(round: &Round) -> bool
    ensures { result ≡ list_any reads_message (sent_terms (step_of round.now ∷ [])) }
{
    uses_message(&round.left) || uses_message(&round.right)
}

// Returns whether an expression sent in one of the rounds reads a message.
pub(crate) fn sends_use_message(rounds: &[Round]) -> bool
    ensures { result ≡ list_any (λ r. list_any reads_message (sent_terms (step_of r ∷ []))) rounds.now }
{
    rounds.iter().any(|round| send_uses_message(round))
}
