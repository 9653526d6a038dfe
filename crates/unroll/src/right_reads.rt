//! Which rounds read the message from the right.
ghost use Rattle.std.specs.Prelude.{◌≡◌, ℕ, ◌<◌, true, length, slice_index_or};
ghost use Rattle.std.specs.List.{list_any};
ghost use Rattle.node_program.specs.Term.{term_of};
ghost use Rattle.unroll.specs.RightReads.{reads_right, round_reads_right};

use lang_check::Plan;
use node_program::{Expr, MAX_ROUNDS};

// Returns for each round of a plan whether its assignments read the message from the right, and
// true for each number that is no round's.
pub(crate) fn rounds_use_right(plan: &Plan) -> [bool; MAX_ROUNDS as usize]
    ensures { (k : ℕ) → k < length plan.now.program.steps
        → slice_index_or result k true ≡ round_reads_right plan.now.program k }
{
    let mut uses = [true; MAX_ROUNDS as usize];
    let program = plan.program();
    for (round, step) in program.steps().iter().enumerate() {
        uses[round] = any_uses_right(&step.next);
    }
    uses
}

// Returns whether one of the expressions reads the message from the right.
fn any_uses_right(expressions: &[Expr]) -> bool
    ensures { result ≡ list_any (λ e. reads_right (term_of e)) expressions.now }
{
    expressions.iter().any(|expression| uses_right(expression))
}

// Returns whether an expression reads the message from the right.
fn uses_right(expression: &Expr) -> bool
    ensures { result ≡ reads_right (term_of expression.now) }
{
    match expression {
        Expr::FromRight => true,
        Expr::One(_, a) => uses_right(a),
        Expr::Two(_, a, b) => uses_right(a) || uses_right(b),
        Expr::Choose(c, a, b) => uses_right(c) || uses_right(a) || uses_right(b),
        Expr::Number(_) | Expr::Id | Expr::FromLeft | Expr::Register(_) => false,
    }
}
