//! The clauses that steps have added.
ghost use Rattle.std.specs.Prelude.{◌≡◌, ◌==◌, ℕ, None, Some, OnOk, OnErr, if◌then◌else◌};
ghost use Rattle.table_formula.specs.Added.{added_clause};

use crate::literal::Literal;
use std::alloc::AllocError;
use std::collections::BTreeMap;

// Adds a clause to those that were added.
pub(crate) fn insert_clause(
    added: &mut BTreeMap<u64, Vec<Literal>>,
    number: u64,
    clause: Vec<Literal>,
) -> Result<(), AllocError>
    ensures ok { OnOk result ((n : ℕ)
        → added_clause added.new n ≡ (if n == number then Some clause.items else added_clause added.old n)) }
    ensures err { OnErr result ((n : ℕ) → added_clause added.new n ≡ added_clause added.old n) }
{
    added.insert(number, clause)?;
    Ok(())
}

// Deletes the added clause with this number, if there is one.
pub(crate) fn delete_clause(added: &mut BTreeMap<u64, Vec<Literal>>, number: u64)
    ensures { (n : ℕ) → added_clause added.new n ≡ (if number == n then None else added_clause added.old n) }
{
    let _ = added.remove(&number);
}
