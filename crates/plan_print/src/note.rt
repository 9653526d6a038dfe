//! The note on a finding.

ghost use Rattle.std.specs.Prelude.{◌≤◌, IfOk, string_bytes};
ghost use Rattle.reports.specs.Findings.{answer_of, fault_of, value_of};
ghost use Rattle.plan_print.specs.Notes.{IsFaultNote, IsNoteOn, IsFormulaNote, IsFaultOf, IsFound};
ghost use Rattle.win_index.specs.declared.limits.TheConstants.{MAX_ROUNDS};

use fault_notes::{check_note, ids_note, text_note};
use node_program::OutOfMemory;
use reports::fault::Fault;
use reports::finding::{Answer, Finding};
use reports::problem::ProblemFault;
use std::alloc::Global;
use table_formula::refutation_note;
use table_notes::{
    broken_note, idle_note, no_tuples_note, place_note, ring_note, segments_note, table_note,
    verdict_note,
};

/// Returns the note on what was found in this input: on a refusal, a no, or a yes over no tuples or with a
/// pattern that never matches. It is an error if memory was refused.
pub fn note_on(
    alloc: Global,
    input: &[u8],
    finding: &Finding,
) -> Option<Result<String, OutOfMemory>>
    requires { IsFound input.now (value_of finding.now) }
    ensures { IsNoteOn input.now (value_of finding.now) result }
{
    match finding {
        Finding::Answer(answer) => answer_note(alloc, input, answer),
        Finding::Table(_) | Finding::Formula(_) => None,
        Finding::Refused(fault) => Some(fault_note(alloc, input, fault)),
    }
}

// Returns the note on an answer.
fn answer_note(alloc: Global, input: &[u8], answer: &Answer) -> Option<Result<String, OutOfMemory>>
    requires { IsFound input.now (answer_of answer.now) }
    ensures { IsNoteOn input.now (answer_of answer.now) result }
{
    match answer {
        Answer::No(_, witness) => Some(verdict_note(alloc, witness)),
        Answer::Yes { tuples, nodes, ids } => {
            if *tuples > 0 {
                return None;
            }
            Some(no_tuples_note(alloc, *nodes, *ids))
        }
        Answer::Broken {
            witness,
            known,
            idle,
        } => Some(broken_note(alloc, witness, *known, *idle)),
        Answer::Solved {
            idle: Some(idle),
            ..
        } => Some(idle_note(alloc, *idle)),
        Answer::Solved { idle: None, .. }
        | Answer::Accepted { .. }
        | Answer::Program(_)
        | Answer::Channels(_)
        | Answer::Trace(_)
        | Answer::Tree(_)
        | Answer::Places(..)
        | Answer::Refuted(_) => None,
    }
}

// Returns the note on a refusal.
fn fault_note(alloc: Global, input: &[u8], fault: &Fault) -> Result<String, OutOfMemory>
    requires { IsFaultOf input.now (fault_of fault.now) }
    ensures { IfOk result (λ note. IsFaultNote input.now (fault_of fault.now) (string_bytes note)) }
{
    match fault {
        Fault::Text(fault) => text_note(alloc, input, *fault),
        Fault::Program {
            program,
            ids,
            fault,
        } => check_note(alloc, input, program, *ids, *fault),
        Fault::Ring {
            rounds,
            ids,
            places,
            fault,
        } => ring_note(alloc, *ids, *rounds, places, *fault),
        Fault::Place { place, places } => place_note(alloc, *place, *places),
        Fault::Segments { segments, places } => segments_note(alloc, *segments, *places),
        Fault::TableText(fault) => table_note(alloc, input, *fault),
        Fault::Formula { ids, rounds, fault } => formula_note(alloc, *ids, *rounds, *fault),
        Fault::Refutation(fault) => refutation_note(alloc, input, *fault),
    }
}

// Returns the note on numbers of identifiers and rounds of which there is no formula. Fails if memory
// was refused.
fn formula_note(
    alloc: Global,
    ids: u32,
    rounds: u32,
    fault: ProblemFault,
) -> Result<String, OutOfMemory>
    requires { rounds ≤ MAX_ROUNDS }
    ensures { IfOk result (λ note. IsFormulaNote ids rounds fault (string_bytes note)) }
{
    match fault {
        ProblemFault::IdsOutOfRange | ProblemFault::TooManyWindows => ids_note(alloc, rounds, ids),
        ProblemFault::TooManyVariables => Ok(String::from_str(
            alloc,
            "nbhd: a formula has a variable for each window and channel, and at most 4194304 of them; take fewer identifiers or channels\n",
        )?),
        ProblemFault::TooManyClauses => Ok(String::from_str(
            alloc,
            "nbhd: a formula has at most 16777216 clauses, and a table of this size would need more; take fewer identifiers or channels\n",
        )?),
    }
}
