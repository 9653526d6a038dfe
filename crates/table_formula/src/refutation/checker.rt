//! Checks the steps of a refutation.
ghost use Rattle.std.specs.Prelude.{◌≡◌, ◌≤◌, length};
ghost use Rattle.table_formula.specs.Marked.{variables_of};
ghost use Rattle.table_formula.specs.Formula.{variable_count, clause_room, formula as clauses_of};

use crate::formula::Formula;
use crate::formula::exchange::Exchange;
use crate::literal::Literal;
use crate::refutation::clauses::Clauses;
use crate::refutation::fault::LineFault;
use crate::refutation::forms::LineForm;
use crate::refutation::hints::outcome_of_hints;
use crate::refutation::marks::Marks;
use crate::refutation::outcome::Outcome;
use std::alloc::{AllocError, Global};

/// A refutation so far.
#[derive(Drop)]
pub(crate) struct Checker<'f> {
    alloc: Global,
    clauses: Clauses<'f>,
    variables: u32,
    marks: Marks,
    room: Vec<Literal>,
    newest: u64,
    ghost known: { variables ≡ variable_count clauses.formula.now },
    ghost marked: { variables_of marks ≡ variable_count clauses.formula.now },
    ghost room_is: { clause_room clauses.formula.now ≤ length room.items },
    ghost after: { length (clauses_of clauses.formula.now) ≤ newest },
}

impl<'f> Checker<'f> {
    ghost use Rattle.std.specs.Prelude.{◌<◌, true, None, IsTrue, IfOk, IfErr, OnOk, OnErr};
    ghost use Rattle.table_formula.specs.Hints.{outcome_of};
    ghost use Rattle.table_formula.specs.Marked.{is_marked};
    ghost use Rattle.table_formula.specs.Derivations.{opening, hints_fault, is_known, step_fault, line_fault};
    ghost use Rattle.table_formula.specs.Derivations.{with_clause, after_line};
    ghost use Rattle.table_formula.specs.Forms.{line_of, is_addition};
    ghost use Rattle.table_formula.specs.Stored.{clause_of};
    ghost use Rattle.table_formula.specs.Checked.{problem_of, derivation_of};

    /// Returns the refutation that has no step.
    pub(crate) fn new(alloc: Global, formula: &'f Formula) -> Result<Checker<'f>, AllocError>
        ensures problem { IfOk result (λ checker. problem_of checker ≡ formula.now) }
        ensures derivation { IfOk result (λ checker. derivation_of checker ≡ opening formula.now) }
    {
        let variables = formula.variables();
        let marks = Marks::new(alloc, variables)?;
        let room = vec![in alloc; Literal::new(0, true); formula.clause_room()]?;
        let newest = formula.count();
        let clauses = Clauses::new(alloc, formula)?;
        Ok(Checker {
            alloc,
            clauses,
            variables,
            marks,
            room,
            newest,
        })
    }

    /// Returns what is wrong with a line of this form with this clause and these numbers.
    pub(crate) fn fault_of_line(
        &mut self,
        form: LineForm,
        clause: &[Literal],
        numbers: &[u64],
    ) -> Option<LineFault>
        ensures problem { problem_of self.new ≡ problem_of self.old }
        ensures derivation { derivation_of self.new ≡ derivation_of self.old }
        ensures value { result ≡ line_fault (problem_of self.old) (derivation_of self.old)
            (line_of form clause.now numbers.now) }
    {
        match form {
            LineForm::Malformed => Some(LineFault::Form),
            LineForm::Comment | LineForm::Deletion => None,
            LineForm::Addition(exchange, number) => {
                self.fault_of_step(exchange, number, clause, numbers)
            }
        }
    }

    /// Makes the step of a line that is right. Fails if memory was refused for a clause, which is not
    /// added then.
    pub(crate) fn step(
        &mut self,
        form: LineForm,
        clause: &[Literal],
        numbers: &[u64],
    ) -> Result<(), AllocError>
        requires { line_fault (problem_of self.old) (derivation_of self.old) (line_of form clause.now numbers.now)
            ≡ None }
        ensures problem { problem_of self.new ≡ problem_of self.old }
        ensures after { OnOk result
            (derivation_of self.new ≡ after_line (derivation_of self.old) (line_of form clause.now numbers.now)) }
        ensures refused { OnErr result (is_addition form ≡ true) }
        ensures kept { OnErr result (derivation_of self.new ≡ derivation_of self.old) }
    {
        match form {
            LineForm::Malformed | LineForm::Comment => Ok(()),
            LineForm::Deletion => {
                self.clauses.delete(numbers);
                Ok(())
            }
            LineForm::Addition(_, number) => self.insert(number, clause),
        }
    }

    // Returns what is wrong with the step that adds a clause, after an exchange if there is one.
    fn fault_of_step(
        &mut self,
        exchange: Option<Exchange>,
        number: u64,
        clause: &[Literal],
        hints: &[u64],
    ) -> Option<LineFault>
        ensures problem { problem_of self.new ≡ problem_of self.old }
        ensures derivation { derivation_of self.new ≡ derivation_of self.old }
        ensures value { result ≡ step_fault (problem_of self.old) (derivation_of self.old) exchange number
            clause.now hints.now }
    {
        if number <= self.newest {
            return Some(LineFault::NumberNotAscending);
        }
        if !are_below(clause, self.variables) {
            return Some(LineFault::UnknownVariable);
        }
        if !self.clauses.may_exchange(exchange) {
            return Some(LineFault::Exchange);
        }
        self.clauses.mark(&mut self.marks, exchange, clause);
        self.fault_of_hints(hints)
    }

    // Returns what is wrong with the hints of a step, whose marked literals are taken to be false.
    fn fault_of_hints(&mut self, hints: &[u64]) -> Option<LineFault>
        ensures problem { problem_of self.new ≡ problem_of self.old }
        ensures derivation { derivation_of self.new ≡ derivation_of self.old }
        ensures value { result ≡ hints_fault
            (outcome_of (clause_of self.old.clauses) (is_marked self.old.marks) hints.now) }
    {
        match outcome_of_hints(&self.clauses, &mut self.marks, &mut self.room, hints) {
            Outcome::Follows => None,
            Outcome::UnknownHint(hint) => Some(LineFault::UnknownHint(hint)),
            Outcome::SeveralLeft(hint) => Some(LineFault::SeveralLeft(hint)),
            Outcome::EarlyConflict(hint) => Some(LineFault::EarlyConflict(hint)),
            Outcome::OneLeft(hint) => Some(LineFault::OneLeft(hint)),
            Outcome::NoHints => Some(LineFault::NoHints),
        }
    }

    // Adds a clause.
    fn insert(&mut self, number: u64, clause: &[Literal]) -> Result<(), AllocError>
        requires ascending { self.old.newest < number }
        requires known { IsTrue (is_known (problem_of self.old) clause.now) }
        ensures problem { problem_of self.new ≡ problem_of self.old }
        ensures after { OnOk result (derivation_of self.new ≡ with_clause (derivation_of self.old) number clause.now) }
        ensures kept { OnErr result (derivation_of self.new ≡ derivation_of self.old) }
    {
        let clause = Vec::from_slice(self.alloc, clause)?;
        self.clauses.insert(number, clause)?;
        self.newest = number;
        Ok(())
    }
}

ghost use Rattle.std.specs.Prelude.{nat_lt};
ghost use Rattle.std.specs.List.{list_all};

// Returns whether the variables of a clause are below this number.
fn are_below(clause: &[Literal], variables: u32) -> bool
    ensures { result ≡ list_all (λ l. nat_lt l.variable variables) clause.now }
{
    for l in clause {
        if l.variable() >= variables {
            return false;
        }
    }
    true
}
