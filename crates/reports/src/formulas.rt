//! What is found on the formula of all tables of some size, and on its refutations. Each call fails only if
//! memory was refused.

ghost use Rattle.std.specs.Prelude.{◌≡◌, ◌≤◌, length, IfOk, MatchResult, OnErr};
ghost use Rattle.win_index.specs.declared.limits.TheConstants.{MAX_ROUNDS};
ghost use Rattle.table_formula.specs.declared.limits.TheConstants.{LONGEST_REFUTATION};
ghost use Rattle.reports.specs.Findings.{fault_of, value_of};
ghost use Rattle.reports.specs.FormulaReports.{IsFormulaRefusal, IsFormulaReport, IsRefuteReport};
ghost use Rattle.reports.specs.ProblemFaults.{problem_of, HasFormula, IsProblemFault};

use crate::fault::Fault;
use crate::finding::{Answer, Finding};
use crate::problem::{ProblemFault, ProblemNumbers};
use node_program::OutOfMemory;
use std::alloc::Global;
use table_formula::{Formula, FormulaFault, RefuteError, refute};
use win_index::{Shape, ShapeFault};

/// Returns the formula of these numbers. Refused memory never replaces the refusal of the numbers.
pub fn formula_report(alloc: Global, numbers: ProblemNumbers) -> Result<Finding, OutOfMemory>
    requires { numbers.rounds ≤ MAX_ROUNDS }
    ensures report { IfOk result (λ f. IsFormulaReport (problem_of numbers) (value_of f)) }
    ensures memory { OnErr result (HasFormula (problem_of numbers)) }
{
    match formula_in(alloc, &numbers)? {
        Ok(formula) => Ok(Finding::Formula(formula)),
        Err(fault) => Ok(Finding::Refused(fault)),
    }
}

/// Returns what is found on a text that is to refute the formula of these numbers. Refused memory never
/// replaces the refusal of the numbers.
pub fn refute_report(
    alloc: Global,
    numbers: ProblemNumbers,
    input: &[u8],
) -> Result<Finding, OutOfMemory>
    requires { numbers.rounds ≤ MAX_ROUNDS }
    ensures report { IfOk result (λ f. IsRefuteReport (problem_of numbers) input.now (value_of f)) }
    ensures memory { OnErr result (HasFormula (problem_of numbers)) }
{
    match formula_in(alloc, &numbers)? {
        Ok(formula) => refute_answer(alloc, numbers, &formula, input),
        Err(fault) => Ok(Finding::Refused(fault)),
    }
}

// Returns what is found on a text that is to refute a formula.
fn refute_answer(
    alloc: Global,
    numbers: ProblemNumbers,
    formula: &Formula,
    input: &[u8],
) -> Result<Finding, OutOfMemory>
    requires formula { formula.now ≡ problem_of numbers }
    requires has { HasFormula (problem_of numbers) }
    ensures report { IfOk result (λ f. IsRefuteReport (problem_of numbers) input.now (value_of f)) }
    ensures memory { OnErr result (length input.now ≤ LONGEST_REFUTATION) }
{
    match refute(alloc, formula, input) {
        Ok(()) => Ok(Finding::Answer(Answer::Refuted(numbers))),
        Err(RefuteError::OutOfMemory) => Err(OutOfMemory),
        Err(fault) => Ok(Finding::Refused(Fault::Refutation(fault))),
    }
}

// Returns the formula of these numbers, or why there is none.
fn formula_in(
    alloc: Global,
    numbers: &ProblemNumbers,
) -> Result<Result<Formula, Fault>, OutOfMemory>
    requires { numbers.now.rounds ≤ MAX_ROUNDS }
    ensures formula { IfOk result (λ r. MatchResult r
        (λ formula. (formula ≡ problem_of numbers.now) × HasFormula (problem_of numbers.now))
        (λ fault. IsFormulaRefusal (problem_of numbers.now) (fault_of fault))) }
    ensures memory { OnErr result (HasFormula (problem_of numbers.now)) }
{
    match formula_of(alloc, numbers)? {
        Ok(formula) => Ok(Ok(formula)),
        Err(fault) => Ok(Err(Fault::Formula {
            ids: numbers.ids,
            rounds: numbers.rounds,
            fault,
        })),
    }
}

// Returns the formula of these numbers, or the fault of the numbers.
fn formula_of(
    alloc: Global,
    numbers: &ProblemNumbers,
) -> Result<Result<Formula, ProblemFault>, OutOfMemory>
    requires { numbers.now.rounds ≤ MAX_ROUNDS }
    ensures formula { IfOk result (λ r. MatchResult r
        (λ formula. (formula ≡ problem_of numbers.now) × HasFormula (problem_of numbers.now))
        (IsProblemFault (problem_of numbers.now))) }
    ensures memory { OnErr result (HasFormula (problem_of numbers.now)) }
{
    let shape = match Shape::new(numbers.ids, numbers.rounds) {
        Ok(shape) => shape,
        Err(ShapeFault::IdsOutOfRange) => return Ok(Err(ProblemFault::IdsOutOfRange)),
        Err(ShapeFault::TooManyWindows) => return Ok(Err(ProblemFault::TooManyWindows)),
    };
    let demand = &numbers.demand;
    match Formula::new(
        alloc,
        shape,
        numbers.channels,
        demand.separation(),
        demand.forbidden(),
    ) {
        Ok(formula) => Ok(Ok(formula)),
        Err(FormulaFault::TooManyVariables) => Ok(Err(ProblemFault::TooManyVariables)),
        Err(FormulaFault::TooManyClauses) => Ok(Err(ProblemFault::TooManyClauses)),
        Err(FormulaFault::OutOfMemory) => Err(OutOfMemory),
    }
}
