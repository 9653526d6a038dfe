//! The line of a refusal.

ghost use Rattle.std.specs.Prelude.{◌≡◌, ◌++◌, IfNone, IfOk, IfSome, OnErr, OnOk, ℕ, List, string_bytes};
ghost use Rattle.reports.specs.Bytes.{fault_line};
ghost use Rattle.reports.specs.Codes.{details_of};
ghost use Rattle.node_program.specs.Term.{ProgramTree};
ghost use Rattle.reports.specs.Findings.{fault_of, of_formula, of_program, of_ring};
ghost use Rattle.reports.specs.Written.{bytes_in, NeedsMemory};

use crate::fault::Fault;
use crate::problem::ProblemFault;
use lang_check::CheckFault;
use std::alloc::{AllocError, Global};
use std::fmt::Write;
use table_formula::RefuteError;
use table_text::TableFault;
use win_index::RingFault;

// A line: a fixed text, or one for which memory was needed.
#[derive(Drop)]
pub(crate) enum Line {
    Fixed(&'static str),
    Made(String),
}

impl Line {
    ghost use Rattle.std.specs.Prelude.{◌≡◌};
    ghost use Rattle.reports.specs.Written.{bytes_in};

    // Returns its bytes.
    pub(crate) fn as_bytes(&self) -> &[u8]
        ensures { result.now ≡ bytes_in self.now }
    {
        match self {
            Line::Fixed(text) => text.as_bytes(),
            Line::Made(text) => text.as_bytes(),
        }
    }
}

// Returns the line of a refusal. Fails if memory was refused.
pub(crate) fn line_of(alloc: Global, fault: &Fault) -> Result<Line, AllocError>
    ensures line { IfOk result (λ line. bytes_in line ≡ fault_line (fault_of fault.now)) }
    ensures memory { OnErr result (NeedsMemory (fault_of fault.now)) }
{
    if let Some(line) = fixed_line(fault) {
        return Ok(Line::Fixed(line));
    }
    let subject = fault.subject();
    let code = fault.code();
    let mut line = format!(in alloc; "{subject} fault {code}")?;
    write_details(&mut line, fault)?;
    line.push_str("\n")?;
    Ok(Line::Made(line))
}

// Returns the line of a refusal that needs no memory, or `None` if this one does.
fn fixed_line(fault: &Fault) -> Option<&'static str>
    ensures line { IfSome result (λ line. line.now ≡ fault_line (fault_of fault.now)) }
    ensures made { IfNone result (NeedsMemory (fault_of fault.now)) }
{
    match fault {
        Fault::Segments { .. } => Some("segments fault E1\n"),
        Fault::Formula { fault, .. } => Some(formula_fault_line(*fault)),
        Fault::Refutation(RefuteError::TooLong) => Some("refutation fault L1\n"),
        Fault::Text(_)
        | Fault::Program { .. }
        | Fault::Ring { .. }
        | Fault::Place { .. }
        | Fault::TableText(_)
        | Fault::Refutation(RefuteError::At { .. } | RefuteError::OutOfMemory) => None,
    }
}

// Returns the line of numbers of which there is no formula.
fn formula_fault_line(fault: ProblemFault) -> &'static str
    ensures { (ids rounds : ℕ) → result.now ≡ fault_line (of_formula ids rounds fault) }
{
    match fault {
        ProblemFault::IdsOutOfRange => "formula fault X1\n",
        ProblemFault::TooManyWindows => "formula fault X2\n",
        ProblemFault::TooManyVariables => "formula fault V1\n",
        ProblemFault::TooManyClauses => "formula fault V2\n",
    }
}

// Writes the details of a fault.
fn write_details(out: &mut String, fault: &Fault) -> Result<(), AllocError>
    ensures { OnOk result (string_bytes out.new ≡ string_bytes out.old ++ details_of (fault_of fault.now)) }
{
    match fault {
        Fault::Text(fault) => write!(out, " at {}", fault.offset),
        Fault::Program { fault, .. } => write_check_details(out, *fault),
        Fault::Ring { fault, .. } => write_ring_details(out, *fault),
        Fault::Place { place, .. } => write!(out, " place {place}"),
        Fault::TableText(TableFault::Syntax(offset)) => write!(out, " at {offset}"),
        Fault::TableText(TableFault::WrongWindow(line) | TableFault::ChannelTooLarge(line)) =>
            write!(out, " line {line}"),
        Fault::Refutation(RefuteError::At { line, .. }) => write!(out, " line {line}"),
        Fault::TableText(TableFault::OutOfMemory)
        | Fault::Refutation(RefuteError::TooLong | RefuteError::OutOfMemory)
        | Fault::Segments { .. }
        | Fault::Formula { .. } => Ok(()),
    }
}

// Writes the details of the refusal of a program.
fn write_check_details(out: &mut String, fault: CheckFault) -> Result<(), AllocError>
    ensures { (p : ProgramTree) (ids : ℕ)
        → OnOk result (string_bytes out.new ≡ string_bytes out.old ++ details_of (of_program p ids fault)) }
{
    match fault {
        CheckFault::RegisterOutOfRange(register) => write!(out, " register {register}"),
        CheckFault::ChannelBound(bound) => write!(out, " bound {bound}"),
        CheckFault::IdsOutOfRange
        | CheckFault::TooManyWindows
        | CheckFault::IdOutsideStart
        | CheckFault::MessageOutsideStep => Ok(()),
    }
}

// Writes the details of the fault of a list of identifiers.
fn write_ring_details(out: &mut String, fault: RingFault) -> Result<(), AllocError>
    ensures { (ids rounds : ℕ) (places : List ℕ)
        → OnOk result (string_bytes out.new ≡ string_bytes out.old ++ details_of (of_ring ids rounds places fault)) }
{
    match fault {
        RingFault::IdTooLarge(place) => write!(out, " place {place}"),
        RingFault::Repeated(first, second) => write!(out, " places {first} {second}"),
        RingFault::TooShort | RingFault::TooLong => Ok(()),
    }
}
