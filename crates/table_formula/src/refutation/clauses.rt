//! The clauses that hints name: those of the formula and those added.
ghost use Rattle.std.specs.Prelude.{◌≡◌, ◌+◌, length};
ghost use Rattle.table_formula.specs.Formula.{variable_count, formula as clauses_of};
ghost use Rattle.table_formula.specs.Added.{AreWithin};

use crate::formula::Formula;
use crate::formula::exchange::Exchange;
use crate::literal::Literal;
use crate::refutation::added::{delete_clause, insert_clause};
use crate::refutation::marks::{Marks, Remaining};
use std::alloc::{AllocError, Global};
use std::collections::BTreeMap;

/// The clauses that a hint can name: those of a formula and those that were added, without the
/// deleted ones.
#[derive(Drop)]
pub(crate) struct Clauses<'f> {
    formula: &'f Formula,
    // Whether the clause of the formula with this number is deleted.
    deleted: Vec<bool>,
    added: BTreeMap<u64, Vec<Literal>>,
    ghost each: { length deleted.items ≡ length (clauses_of formula.now) + 1 },
    ghost within: { AreWithin (variable_count formula.now) added },
}

impl<'f> Clauses<'f> {
    ghost use Rattle.std.specs.Prelude.{ℕ, ◌==◌, ◌<◌, ◌≤◌, None, Some, IfOk, IfSome, OnOk, OnErr, All, IsTrue, map};
    ghost use Rattle.std.specs.Prelude.{option_map, if◌then◌else◌};
    ghost use Rattle.std.specs.List.{list_any};
    ghost use Rattle.table_formula.specs.Hints.{left_of, remaining_of};
    ghost use Rattle.table_formula.specs.Marked.{is_marked, variables_of, IsOneBelow};
    ghost use Rattle.table_formula.specs.Formula.{clause_room};
    ghost use Rattle.table_formula.specs.Exchanges.{can_exchange, exchanged_literal};
    ghost use Rattle.table_formula.specs.Clauses.{has_literal};
    ghost use Rattle.table_formula.specs.declared.literal.Literal.{Literal as Lit};
    ghost use Rattle.table_formula.specs.Derivations.{opening, is_known, may_exchange, after_exchange};
    ghost use Rattle.table_formula.specs.Stored.{clause_of};

    /// Returns the clauses of a formula.
    pub(crate) fn new(alloc: Global, formula: &'f Formula) -> Result<Clauses<'f>, AllocError>
        ensures formula { IfOk result (λ clauses. clauses.formula.now ≡ formula.now) }
        ensures clauses { IfOk result (λ clauses. (number : ℕ)
            → clause_of clauses number ≡ (opening formula.now).clauses number) }
    {
        Ok(Clauses {
            formula,
            deleted: vec![in alloc; false; formula.count() as usize + 1]?,
            added: BTreeMap::new(alloc),
        })
    }

    /// Returns which literals of the clause with this number are not marked, or `None` if there is
    /// no such clause. A clause of the formula is written to `room`.
    pub(crate) fn remaining(
        &self,
        number: u64,
        marks: &Marks,
        room: &mut [Literal],
    ) -> Option<Remaining>
        requires variables { variables_of marks.now ≡ variable_count self.now.formula.now }
        requires room { clause_room self.now.formula.now ≤ length room.old }
        ensures value { result ≡ option_map (λ clause. remaining_of (left_of (is_marked marks.now) clause))
            (clause_of self.now number) }
        ensures below { IfSome result (IsOneBelow (variables_of marks.now)) }
        ensures room { length room.new ≡ length room.old }
    {
        if number > self.formula.count() {
            let clause = self.added.get(&number)?;
            return Some(marks.remaining(clause));
        }
        if number == 0 || self.deleted[number as usize] {
            return None;
        }
        let len = self.formula.write_clause(number - 1, room);
        Some(marks.remaining(&room[..len]))
    }

    /// Returns whether a step may be after this exchange, if there is one.
    pub(crate) fn may_exchange(&self, exchange: Option<Exchange>) -> bool
        ensures { result ≡ may_exchange self.now.formula.now exchange }
    {
        match exchange {
            Some(exchange) => self.formula.can_exchange(exchange),
            None => true,
        }
    }

    /// Removes all marks, and marks the literals of a clause after the exchange, if there is one.
    pub(crate) fn mark(&self, marks: &mut Marks, exchange: Option<Exchange>, clause: &[Literal])
        requires may { IsTrue (may_exchange self.now.formula.now exchange) }
        requires known { IsTrue (is_known self.now.formula.now clause.now) }
        requires variables { variables_of marks.old ≡ variable_count self.now.formula.now }
        ensures marked { (k : Lit)
            → is_marked marks.new k ≡ has_literal (after_exchange self.now.formula.now exchange clause.now) k }
        ensures variables { variables_of marks.new ≡ variables_of marks.old }
    {
        match exchange {
            Some(exchange) => self.mark_exchanged(marks, exchange, clause),
            None => marks.take_clause(clause),
        }
    }

    // Removes all marks, and marks the literals of a clause after an exchange.
    fn mark_exchanged(&self, marks: &mut Marks, exchange: Exchange, clause: &[Literal])
        requires can { IsTrue (can_exchange self.now.formula.now exchange) }
        requires known { IsTrue (is_known self.now.formula.now clause.now) }
        requires variables { variables_of marks.old ≡ variable_count self.now.formula.now }
        ensures marked { (k : Lit)
            → is_marked marks.new k ≡ has_literal (map (exchanged_literal self.now.formula.now exchange) clause.now) k }
        ensures variables { variables_of marks.new ≡ variables_of marks.old }
    {
        marks.take_clause(&[]);
        for l in clause {
            marks.mark(self.formula.exchanged(exchange, *l));
        }
    }

    /// Deletes the clauses with these numbers, as far as there are such.
    pub(crate) fn delete(&mut self, numbers: &[u64])
        ensures formula { self.new.formula.now ≡ self.old.formula.now }
        ensures clauses { (number : ℕ) → clause_of self.new number
            ≡ (if list_any (λ deleted. deleted == number) numbers.now then None else clause_of self.old number) }
    {
        for number in numbers {
            self.delete_one(*number);
        }
    }

    // Deletes the clause with this number, if there is one.
    fn delete_one(&mut self, number: u64)
        ensures formula { self.new.formula.now ≡ self.old.formula.now }
        ensures clauses { (n : ℕ) → clause_of self.new n ≡ (if number == n then None else clause_of self.old n) }
    {
        if number > self.formula.count() {
            delete_clause(&mut self.added, number);
        } else {
            self.deleted[number as usize] = true;
        }
    }

    /// Adds a clause. Its number is above those of the formula's clauses.
    pub(crate) fn insert(&mut self, number: u64, clause: Vec<Literal>) -> Result<(), AllocError>
        requires after { length (clauses_of self.old.formula.now) < number }
        requires known { All (λ l. l.variable < variable_count self.old.formula.now) clause.items }
        ensures formula { self.new.formula.now ≡ self.old.formula.now }
        ensures clauses { OnOk result ((n : ℕ)
            → clause_of self.new n ≡ (if n == number then Some clause.items else clause_of self.old n)) }
        ensures kept { OnErr result ((n : ℕ) → clause_of self.new n ≡ clause_of self.old n) }
    {
        insert_clause(&mut self.added, number, clause)
    }
}
