//! Upper bounds of the values of expressions.
ghost use Rattle.std.specs.Prelude.{◌≡◌, ◌-◌, ◌^◌, ◌≤◌, max};
ghost use Rattle.node_program.specs.Term.{term_of};
ghost use Rattle.node_program.specs.Bounds as bounds;
ghost use Rattle.node_program.specs.Value.{env_of};

use node_program::{BinOp, Env, Expr, UnOp, register_or_zero};

// The bound of each operation, one line each, from those of its operands and from the literal that
// its second operand is, if it is one.
macro_rules! bounds {
    (
        $expression:expr, $limits:expr, $written:ident;
        one { $($one:ident => $one_bound:expr),* $(,)? }
        two { $($two:ident($a:ident, $b:ident) => $two_bound:expr),* $(,)? }
        choose($then:ident, $otherwise:ident) => $choice:expr
    ) => {
        match $expression {
            Expr::Number(number) => *number,
            Expr::Id => $limits.id,
            Expr::FromLeft => $limits.left,
            Expr::FromRight => $limits.right,
            Expr::Register(register) => register_or_zero($limits.registers, *register),
            Expr::One(op, _) => match op {
                $(UnOp::$one => $one_bound,)*
            },
            Expr::Two(op, a, b) => {
                let $written = written_number(b);
                let a = bound_of(a, $limits);
                let b = bound_of(b, $limits);
                match op {
                    $(BinOp::$two => { let $a = a; let $b = b; $two_bound })*
                }
            }
            Expr::Choose(_, a, b) => {
                let $then = bound_of(a, $limits);
                let $otherwise = bound_of(b, $limits);
                $choice
            }
        }
    };
}

pub(crate) fn bound_of(expression: &Expr, limits: Env<'_>) -> u32
    ensures { result ≡ bounds.bound (term_of expression.now) (env_of limits.entry) }
{
    bounds!(expression, limits, written;
        one {
            Not => u32::MAX,
        }
        two {
            And(a, b) => a.min(b),
            Or(a, b) => all_ones(a.max(b)),
            Xor(a, b) => all_ones(a.max(b)),
            Shl(a, _k) => shl_bound(written, a),
            Shr(a, _k) => shr_bound(written, a),
            Add(a, b) => a.saturating_add(b),
            Sub(a, _b) => a,
            Min(a, b) => a.min(b),
            Max(a, b) => a.max(b),
            Ldb(a, b) => bits(a.max(b)).saturating_sub(1),
            Bit(_a, _i) => 1,
            Eq(_a, _b) => 1,
            Ne(_a, _b) => 1,
            Lt(_a, _b) => 1,
            Le(_a, _b) => 1,
        }
        choose(a, b) => a.max(b)
    )
}

// Returns the number of a literal, or `None` for any other expression.
fn written_number(expression: &Expr) -> Option<u32>
    ensures { result ≡ bounds.written_number (term_of expression.now) }
{
    match expression {
        Expr::Number(number) => Some(*number),
        _ => None,
    }
}

// Returns the bound of a shift to the left.
#[tactic(auto, using(crate::proofs::Bits::shifted))]
fn shl_bound(written: Option<u32>, a: u32) -> u32
    ensures { result ≡ bounds.shl_bound written a }
{
    match written {
        Some(k) if k < 32 => (u64::from(a) << k).min(u64::from(u32::MAX)) as u32,
        _ => u32::MAX,
    }
}

// Returns the bound of a shift to the right.
#[tactic(auto, using(crate::proofs::Bits::shifted))]
fn shr_bound(written: Option<u32>, a: u32) -> u32
    ensures { result ≡ bounds.shr_bound written a }
{
    match written {
        Some(k) if k < 32 => a >> k,
        Some(_) => 0,
        None => a,
    }
}

// Returns the largest number with as many binary digits as `x`.
#[tactic(auto, using(crate::proofs::Bits::shifted))]
fn all_ones(x: u32) -> u32
    ensures { result ≡ 2 ^ bounds.bits x - 1 }
{
    let digits = bits(x);
    if digits == 32 {
        u32::MAX
    } else {
        (1 << digits) - 1
    }
}

// Returns the number of binary digits of `x`; 0 has none.
#[tactic(auto, using(crate::proofs::Bits::counted))]
fn bits(x: u32) -> u32
    ensures value { result ≡ bounds.bits x }
    ensures few { result ≤ 32 }
{
    u32::BITS - x.leading_zeros()
}
