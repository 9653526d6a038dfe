//! The codes of faults.

ghost use Rattle.std.specs.Prelude.{◌≡◌};
ghost use Rattle.reports.specs.Codes as codes;

use crate::fault::Fault;
use crate::problem::ProblemFault;
use lang_check::CheckFault;
use node_lang::FaultKind;
use table_formula::{LineFault, RefuteError};
use table_text::TableFault;
use win_index::RingFault;

impl Fault {
    ghost use Rattle.std.specs.Prelude.{◌≡◌};
    ghost use Rattle.reports.specs.Codes.{code_of, subject_of};
    ghost use Rattle.reports.specs.Findings.{fault_of};

    /// Returns what has the fault, as the line of the refusal begins.
    pub fn subject(&self) -> &'static str
        ensures { result.now ≡ subject_of (fault_of self.now) }
    {
        match self {
            Fault::Text(_) => "text",
            Fault::Program { .. } => "check",
            Fault::Ring { .. } | Fault::Place { .. } => "ring",
            Fault::Segments { .. } => "segments",
            Fault::TableText(_) => "table",
            Fault::Formula { .. } => "formula",
            Fault::Refutation(_) => "refutation",
        }
    }

    /// Returns the code of the fault, a letter and a number.
    pub fn code(&self) -> &'static str
        ensures { result.now ≡ code_of (fault_of self.now) }
    {
        match self {
            Fault::Text(fault) => text_code(fault.kind),
            Fault::Program { fault, .. } => check_code(*fault),
            Fault::Ring { fault, .. } => ring_code(*fault),
            Fault::Place { .. } => "G5",
            Fault::Segments { .. } => "E1",
            Fault::TableText(fault) => table_code(*fault),
            Fault::Formula { fault, .. } => formula_code(*fault),
            Fault::Refutation(fault) => refutation_code(*fault),
        }
    }
}

// Returns the code of a kind of text fault.
fn text_code(fault: FaultKind) -> &'static str
    ensures { result.now ≡ codes.text_code fault }
{
    match fault {
        FaultKind::TooLong => "N1",
        FaultKind::NotAscii => "N2",
        FaultKind::BadWord => "N3",
        FaultKind::NumberTooLarge => "N4",
        FaultKind::HeaderRange => "N5",
        FaultKind::Unexpected => "N6",
        FaultKind::TooDeep => "N7",
        FaultKind::TooManyNodes => "N8",
        FaultKind::EndOfText => "N9",
        FaultKind::OutOfMemory => "N10",
    }
}

// Returns the code of the refusal of a program.
fn check_code(fault: CheckFault) -> &'static str
    ensures { result.now ≡ codes.check_code fault }
{
    match fault {
        CheckFault::IdsOutOfRange => "X1",
        CheckFault::TooManyWindows => "X2",
        CheckFault::RegisterOutOfRange(_) => "C1",
        CheckFault::IdOutsideStart => "C2",
        CheckFault::MessageOutsideStep => "C3",
        CheckFault::ChannelBound(_) => "C4",
    }
}

// Returns the code of the fault of a list of identifiers.
fn ring_code(fault: RingFault) -> &'static str
    ensures { result.now ≡ codes.ring_code fault }
{
    match fault {
        RingFault::TooShort => "G1",
        RingFault::TooLong => "G2",
        RingFault::IdTooLarge(_) => "G3",
        RingFault::Repeated(_, _) => "G4",
    }
}

// Returns the code of the fault of a table text, or an empty one for `OutOfMemory`.
fn table_code(fault: TableFault) -> &'static str
    ensures { result.now ≡ codes.table_code fault }
{
    match fault {
        TableFault::Syntax(_) => "A1",
        TableFault::WrongWindow(_) => "A2",
        TableFault::ChannelTooLarge(_) => "A3",
        TableFault::OutOfMemory => "",
    }
}

// Returns the code of numbers of which there is no formula.
fn formula_code(fault: ProblemFault) -> &'static str
    ensures { result.now ≡ codes.formula_code fault }
{
    match fault {
        ProblemFault::IdsOutOfRange => "X1",
        ProblemFault::TooManyWindows => "X2",
        ProblemFault::TooManyVariables => "V1",
        ProblemFault::TooManyClauses => "V2",
    }
}

// Returns the code of the fault of a refutation, or an empty one for `OutOfMemory`.
fn refutation_code(fault: RefuteError) -> &'static str
    ensures { result.now ≡ codes.refutation_code fault }
{
    match fault {
        RefuteError::TooLong => "L1",
        RefuteError::At { fault, .. } => line_code(fault),
        RefuteError::OutOfMemory => "",
    }
}

// Returns the code of the fault of a line of a refutation.
fn line_code(fault: LineFault) -> &'static str
    ensures { result.now ≡ codes.line_code fault }
{
    match fault {
        LineFault::Form => "L2",
        LineFault::NumberNotAscending => "L3",
        LineFault::UnknownVariable => "L4",
        LineFault::UnknownHint(_) => "L5",
        LineFault::SeveralLeft(_) | LineFault::EarlyConflict(_) => "L6",
        LineFault::OneLeft(_) | LineFault::NoHints => "L7",
        LineFault::NoEmptyClause => "L8",
        LineFault::Exchange => "L9",
    }
}
