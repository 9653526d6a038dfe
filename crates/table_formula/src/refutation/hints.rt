//! Unit propagation along the hints of a step.
ghost use Rattle.std.specs.Prelude.{◌≡◌, ◌≤◌, length, if◌then◌else◌};
ghost use Rattle.table_formula.specs.Hints.{outcome_of};
ghost use Rattle.table_formula.specs.Marked.{is_marked, variables_of};
ghost use Rattle.table_formula.specs.Formula.{variable_count, clause_room, formula as clauses_of};
ghost use Rattle.table_formula.specs.Stored.{clause_of};

use crate::literal::{Literal, negation};
use crate::refutation::clauses::Clauses;
use crate::refutation::marks::{Marks, Remaining};
use crate::refutation::outcome::Outcome;

/// Returns what the clauses of the hints show, where the marked literals are known to be false. The
/// literals that this shows to be false are marked, too. A clause of the formula is written to
/// `room`.
pub(crate) fn outcome_of_hints(
    clauses: &Clauses,
    marks: &mut Marks,
    room: &mut [Literal],
    hints: &[u64],
) -> Outcome
    requires variables { variables_of marks.old ≡ variable_count clauses.now.formula.now }
    requires room { clause_room clauses.now.formula.now ≤ length room.old }
    ensures value { result ≡ outcome_of (clause_of clauses.now) (is_marked marks.old) hints.now }
    ensures variables { variables_of marks.new ≡ variables_of marks.old }
    ensures room { length room.new ≡ length room.old }
{
    for (i, hint) in hints.iter().enumerate() {
        let Some(remaining) = clauses.remaining(*hint, marks, room) else {
            return Outcome::UnknownHint(*hint);
        };
        let is_last = i + 1 == hints.len();
        match remaining {
            Remaining::Nothing => return at_conflict(*hint, is_last),
            Remaining::Several => return Outcome::SeveralLeft(*hint),
            Remaining::One(l) => {
                if is_last {
                    return Outcome::OneLeft(*hint);
                }
                marks.mark(negation(l));
            }
        }
    }
    Outcome::NoHints
}

// Returns what a hint shows whose clause has only literals that are known to be false.
fn at_conflict(hint: u64, is_last: bool) -> Outcome
    ensures { result ≡ (if is_last then Outcome.Follows else Outcome.EarlyConflict hint) }
{
    if is_last {
        Outcome::Follows
    } else {
        Outcome::EarlyConflict(hint)
    }
}
