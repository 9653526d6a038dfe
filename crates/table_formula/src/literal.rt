//! Literals, and the negation of one.
ghost use Rattle.std.specs.Prelude.{◌≡◌, ◌<◌, ◌^◌};
ghost use Rattle.table_formula.specs.Clauses.{negated};

use std::marker::Model;

/// A variable below 2^31, or its negation.
#[derive(Clone, Copy, Debug, PartialEq, Eq)]
pub struct Literal {
    // Twice the variable, and 1 more for its negation.
    code: u32,
}

impl Model for Literal {
    ghost use Rattle.std.specs.Prelude.{◌==◌, ◌+◌, ◌*◌, ◌/◌, ◌%◌, if◌then◌else◌};
    ghost use Rattle.table_formula.specs.SignedVariables.{SignedVariable};

    ghost Value = { SignedVariable };

    ghost view = { λ l. record { variable = l.code / 2; is_positive = l.code % 2 == 0 } };

    ghost inverse = { λ v. record { code = 2 * v.variable + (if v.is_positive then 0 else 1) } };
}

impl Literal {
    /// Returns the literal of a variable: the variable itself, or its negation.
    pub fn new(variable: u32, is_positive: bool) -> Literal
        requires { variable < 2 ^ 31 }
        ensures { result ≡ record { variable = variable; is_positive = is_positive } }
    {
        Literal {
            code: 2 * variable + u32::from(!is_positive),
        }
    }

    /// Returns the variable.
    pub fn variable(self) -> u32
        ensures value { result ≡ self.variable }
        ensures below { result < 2 ^ 31 }
    {
        self.code / 2
    }

    /// Returns whether the literal is the variable itself, and not its negation.
    pub fn is_positive(self) -> bool
        ensures { result ≡ self.is_positive }
    {
        self.code % 2 == 0
    }
}

/// Returns the literal of the same variable with the other sign.
pub fn negation(l: Literal) -> Literal
    ensures { result ≡ negated l }
{
    Literal { code: l.code ^ 1 }
}
