//! Refutations: texts that are checked line by line.
ghost use Rattle.std.specs.Prelude.{◌≡◌, ℕ, List, IfOk, IfErr, OnOk, OnErr};
ghost use Rattle.table_formula.specs.Problems.{IsImpossible};
ghost use Rattle.table_formula.specs.Derivations.{adds_empty};
ghost use Rattle.table_formula.specs.Refutations.{IsRefutation, IsFault};
ghost use Rattle.table_formula.specs.FirstFaults.{first_fault as fault_from, error_of};
ghost use Rattle.table_formula.specs.Forms.{line_of};
ghost use Rattle.table_formula.specs.Checked.{problem_of, derivation_of};
ghost use Rattle.table_formula.specs.Reader.{lines_left, lines_read};
ghost use Rattle.table_formula.specs.Refused.{IsRefused};

pub(crate) mod added;
pub(crate) mod checker;
pub(crate) mod clauses;
pub(crate) mod fault;
pub(crate) mod forms;
pub(crate) mod hints;
pub(crate) mod laws;
pub(crate) mod marks;
pub(crate) mod numbers_and_literals;
pub(crate) mod outcome;
pub(crate) mod reader;
pub(crate) mod split;

use crate::formula::Formula;
use crate::limits::LONGEST_REFUTATION;
use crate::literal::Literal;
use crate::refutation::checker::Checker;
use crate::refutation::fault::{FirstFault, LineFault, RefuteError};
use crate::refutation::forms::LineForm;
use crate::refutation::laws::refutations_are_sound;
use crate::refutation::reader::Reader;
use std::alloc::{AllocError, Global};

/// Checks that a text is a refutation of a formula, so that no table solves its problem. The text
/// is LRAT in text form, with steps of unit propagation alone: it adds clauses, each of which
/// follows from those that its hints name, up to the empty clause. What follows is not read.
///
/// Lines end before line feeds, and words before single blanks. A line is one of these:
///
/// - A comment, which is empty or begins with `c`.
/// - A deletion: a number, which is not used, the word `d`, the numbers of clauses, and 0. Numbers
///   that name no clause are passed over.
/// - An addition: the number of the clause, which is above those of all clauses before, its
///   literals, 0, the numbers of its hints, and 0. A literal is the number of a variable, counted
///   from 1, with `-` in front for its negation.
/// - An addition after an exchange: the number of the clause, the letter `i` and two identifiers, or
///   `c` and two channels, or `m`, and the rest of an addition. The hints lead to what the clause
///   becomes if the two take each other's place, or by `m` each channel `c` of `C` and `C - 1 - c`.
///   The tables of the problem must stay such tables, so that two channels can be exchanged only if
///   near and far are at most 1. This is the symmetry rule of Krishnamurthy (1985).
///
/// The clauses of the formula have the numbers from 1 on. Numbers are in decimal, leading zeros
/// allowed, and below 2^64; those of variables are at most 2^31.
///
/// Fails with `TooLong` if the text is longer than `LONGEST_REFUTATION` bytes, else with the first
/// line that is wrong and its fault, or with `OutOfMemory` if memory was refused.
#[tactic(auto, using(crate::proofs::Verdicts::right_told))]
pub fn refute(alloc: Global, formula: &Formula, text: &[u8]) -> Result<(), RefuteError>
    ensures ok { OnOk result (IsRefutation formula.now text.now) }
    ensures impossible { OnOk result (IsImpossible formula.now) }
    ensures fault { IfErr result (IsFault formula.now text.now) }
{
    if text.len() > LONGEST_REFUTATION {
        return Err(RefuteError::TooLong);
    }
    refutations_are_sound();
    let mut checker = Checker::new(alloc, formula)?;
    let mut lines = Reader::new(alloc, text);
    match first_fault(&mut checker, &mut lines)? {
        None => Ok(()),
        Some(FirstFault { line, fault }) => Err(RefuteError::At { line, fault }),
    }
}

// Returns the first fault of the lines that are left, up to the one that adds the empty clause. If
// memory is refused, it is the fault of a line that was not read.
fn first_fault(checker: &mut Checker, lines: &mut Reader) -> Result<Option<FirstFault>, AllocError>
    ensures found { IfOk result (λ found. error_of found
        ≡ fault_from (problem_of checker.old) (derivation_of checker.old) (lines_read lines.old)
        (lines_left lines.old)) }
    ensures refused { OnErr result (IsRefused (problem_of checker.old) (derivation_of checker.new) lines.new
        (fault_from (problem_of checker.old) (derivation_of checker.old) (lines_read lines.old)
        (lines_left lines.old))) }
{
    'reads: while lines.next()? {
        if let Some(fault) = checker.fault_of_line(lines.form, &lines.clause, &lines.numbers) {
            let line = lines.count();
            return Ok(Some(FirstFault { line, fault }));
        }
        if adds_empty_clause(lines.form, &lines.clause) {
            return Ok(None);
        }
        checker.step(lines.form, &lines.clause, &lines.numbers)?;
    }
    Ok(Some(FirstFault {
        line: lines.count(),
        fault: LineFault::NoEmptyClause,
    }))
}

// Returns whether a line of this form with this clause adds the empty clause.
fn adds_empty_clause(form: LineForm, clause: &[Literal]) -> bool
    ensures { (numbers : List ℕ) → result ≡ adds_empty (line_of form clause.now numbers) }
{
    match form {
        LineForm::Addition(..) => clause.is_empty(),
        _ => false,
    }
}
