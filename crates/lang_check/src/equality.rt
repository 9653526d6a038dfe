//! Equality of programs.
ghost use Rattle.std.specs.Prelude.{◌≡◌, ◌↔◌, IsTrue, map};
ghost use Rattle.node_program.specs.Term.{term_of, step_of};

use node_program::{Expr, Program, Round};

/// Returns whether two programs are equal.
pub fn same_program(a: &Program, b: &Program) -> bool
    ensures { IsTrue result ↔ (a.now ≡ b.now) }
{
    a.channels() == b.channels()
        && same_terms(a.start(), b.start())
        && same_rounds(a.steps(), b.steps())
        && same_term(a.finish(), b.finish())
}

fn same_term(a: &Expr, b: &Expr) -> bool
    ensures { IsTrue result ↔ (term_of a.now ≡ term_of b.now) }
{
    match (a, b) {
        (Expr::Number(x), Expr::Number(y)) => x == y,
        (Expr::Id, Expr::Id) => true,
        (Expr::FromLeft, Expr::FromLeft) => true,
        (Expr::FromRight, Expr::FromRight) => true,
        (Expr::Register(x), Expr::Register(y)) => x == y,
        (Expr::One(p, x), Expr::One(q, y)) => p == q && same_term(x, y),
        (Expr::Two(p, x, z), Expr::Two(q, y, w)) => p == q && same_term(x, y) && same_term(z, w),
        (Expr::Choose(c, x, z), Expr::Choose(d, y, w)) => {
            same_term(c, d) && same_term(x, y) && same_term(z, w)
        }
        _ => false,
    }
}

fn same_terms(a: &[Expr], b: &[Expr]) -> bool
    ensures { IsTrue result ↔ (map term_of a.now ≡ map term_of b.now) }
{
    if a.len() != b.len() {
        return false;
    }
    for (i, x) in a.iter().enumerate() {
        if !same_term(x, &b[i]) {
            return false;
        }
    }
    true
}

fn same_round(a: &Round, b: &Round) -> bool
    ensures { IsTrue result ↔ (step_of a.now ≡ step_of b.now) }
{
    same_term(&a.left, &b.left) && same_term(&a.right, &b.right) && same_terms(&a.next, &b.next)
}

fn same_rounds(a: &[Round], b: &[Round]) -> bool
    ensures { IsTrue result ↔ (map step_of a.now ≡ map step_of b.now) }
{
    if a.len() != b.len() {
        return false;
    }
    for (i, x) in a.iter().enumerate() {
        if !same_round(x, &b[i]) {
            return false;
        }
    }
    true
}
