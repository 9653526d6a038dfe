//! The literals that are marked as false.
use crate::literal::Literal;
use std::alloc::{AllocError, Global};

/// The literals of a clause that are not known to be false.
#[derive(Clone, Copy, Debug, PartialEq, Eq)]
pub enum Remaining {
    Nothing,
    One(Literal),
    Several,
}

/// Literals that are marked as false. A literal is marked if its stamp is the newest one, so that
/// all marks are removed in one step.
#[derive(Drop)]
pub struct Marks {
    positive: Vec<u32>,
    negative: Vec<u32>,
    newest: u32,
    ghost some: { 1 ≤ newest },
    ghost both: { length negative.items ≡ length positive.items },
    ghost old_positive: { All (λ stamp. stamp ≤ newest) positive.items },
    ghost old_negative: { All (λ stamp. stamp ≤ newest) negative.items },
}

ghost use Rattle.std.specs.Prelude.{◌≡◌, ◌≤◌, length, All};

impl Marks {
    ghost use Rattle.std.specs.Prelude.{ℕ, ◌+◌, ◌<◌, ◌||◌, Bool, false, IfOk};
    ghost use Rattle.table_formula.specs.Clauses.{is_same, has_literal};
    ghost use Rattle.table_formula.specs.Hints.{remaining_of, left_of};
    ghost use Rattle.table_formula.specs.Marked.{is_marked, variables_of, IsOneBelow};
    ghost use Rattle.table_formula.specs.declared.literal.Literal.{Literal as Lit};

    /// Returns marks for literals of this many variables; none is marked.
    pub fn new(alloc: Global, variables: u32) -> Result<Marks, AllocError>
        ensures variables { IfOk result (λ marks. variables_of marks ≡ variables) }
        ensures unmarked { IfOk result (λ marks. (k : Lit) → is_marked marks k ≡ false) }
    {
        Ok(Marks {
            positive: vec![in alloc; 0; variables as usize]?,
            negative: vec![in alloc; 0; variables as usize]?,
            newest: 1,
        })
    }

    /// Removes all marks, and marks the literals of a clause. Their variables must be below the number
    /// that `new` was given, as in `mark` and `remaining`.
    pub fn take_clause(&mut self, clause: &[Literal])
        requires { All (λ l. l.variable < variables_of self.old) clause.now }
        ensures marked { (k : Lit) → is_marked self.new k ≡ has_literal clause.now k }
        ensures variables { variables_of self.new ≡ variables_of self.old }
    {
        self.clear();
        for l in clause {
            self.mark(*l);
        }
    }

    /// Marks a literal.
    pub fn mark(&mut self, l: Literal)
        requires { l.variable < variables_of self.old }
        ensures marked { (k : Lit) → is_marked self.new k ≡ (is_marked self.old k || is_same k l) }
        ensures variables { variables_of self.new ≡ variables_of self.old }
    {
        if l.is_positive() {
            self.positive[l.variable() as usize] = self.newest;
        } else {
            self.negative[l.variable() as usize] = self.newest;
        }
    }

    /// Returns which literals of a clause are not marked.
    pub fn remaining(&self, clause: &[Literal]) -> Remaining
        requires { All (λ l. l.variable < variables_of self.now) clause.now }
        ensures value { result ≡ remaining_of (left_of (is_marked self.now) clause.now) }
        ensures below { IsOneBelow (variables_of self.now) result }
    {
        let mut found = None;
        for l in clause {
            if !self.has(*l) {
                if found.is_some() {
                    return Remaining::Several;
                }
                found = Some(*l);
            }
        }
        match found {
            None => Remaining::Nothing,
            Some(l) => Remaining::One(l),
        }
    }

    // Returns whether a literal is marked.
    fn has(&self, l: Literal) -> bool
        requires { l.variable < variables_of self.now }
        ensures { result ≡ is_marked self.now l }
    {
        if l.is_positive() {
            self.positive[l.variable() as usize] == self.newest
        } else {
            self.negative[l.variable() as usize] == self.newest
        }
    }

    // Removes all marks. The stamps are written anew only once the newest one is the greatest.
    fn clear(&mut self)
        ensures marked { (k : Lit) → is_marked self.new k ≡ false }
        ensures variables { variables_of self.new ≡ variables_of self.old }
        ensures newest { self.old.newest < u32.MAX → self.new.newest ≡ self.old.newest + 1 }
        ensures stamps { self.old.newest < u32.MAX
            → (self.new.positive ≡ self.old.positive) × (self.new.negative ≡ self.old.negative) }
    {
        if self.newest == u32::MAX {
            self.positive.fill(0);
            self.negative.fill(0);
            self.newest = 0;
        }
        self.newest += 1;
    }
}
