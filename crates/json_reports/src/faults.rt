//! The members of a refusal. Each call fails only if memory was refused.

ghost use Rattle.json_reports.specs.Json.{byte_fields, check_fields, detail_fields, fault_fields, location_fields};
ghost use Rattle.json_reports.specs.Json.{ring_fields, table_fault_fields};
ghost use Rattle.json_reports.specs.Puts.{PutsFields};
ghost use Rattle.reports.specs.Findings.{fault_of};
ghost use Rattle.std.specs.Prelude.{Some};

use crate::fields::{put_count, put_number, put_numbers, put_text};
use fault_notes::offset_of_cause;
use json::Writer;
use lang_check::CheckFault;
use reports::fault::Fault;
use source_text::{column_of, line_of};
use std::alloc::AllocError;
use table_formula::RefuteError;
use table_text::TableFault;
use win_index::RingFault;

// Appends the members of a refusal of this text.
pub(crate) fn put_fault(writer: &mut Writer, text: &[u8], fault: &Fault) -> Result<(), AllocError>
    ensures { PutsFields result writer.old writer.new (fault_fields text.now (fault_of fault.now)) }
{
    put_text(writer, "kind", "fault")?;
    put_text(writer, "of", fault.subject())?;
    put_text(writer, "code", fault.code())?;
    put_details(writer, text, fault)
}

// Appends the details of a fault.
fn put_details(writer: &mut Writer, text: &[u8], fault: &Fault) -> Result<(), AllocError>
    ensures { PutsFields result writer.old writer.new (detail_fields text.now (fault_of fault.now)) }
{
    match fault {
        Fault::Text(fault) => put_byte(writer, text, fault.offset),
        Fault::Program { fault, .. } => {
            put_check_details(writer, *fault)?;
            put_location(writer, text, offset_of_cause(text, *fault))
        }
        Fault::Ring { fault, .. } => put_ring_details(writer, *fault),
        Fault::Place { place, .. } => put_number(writer, "place", *place),
        Fault::TableText(fault) => put_table_details(writer, text, *fault),
        Fault::Refutation(RefuteError::At { line, .. }) => { put_count(writer, "line", *line) }
        Fault::Refutation(RefuteError::TooLong | RefuteError::OutOfMemory)
        | Fault::Segments { .. }
        | Fault::Formula { .. } => Ok(()),
    }
}

// Appends the register or the bound that a refusal of a program is about.
fn put_check_details(writer: &mut Writer, fault: CheckFault) -> Result<(), AllocError>
    ensures { PutsFields result writer.old writer.new (check_fields fault) }
{
    match fault {
        CheckFault::RegisterOutOfRange(register) => { put_number(writer, "register", register) }
        CheckFault::ChannelBound(bound) => put_number(writer, "bound", bound),
        CheckFault::IdsOutOfRange
        | CheckFault::TooManyWindows
        | CheckFault::IdOutsideStart
        | CheckFault::MessageOutsideStep => Ok(()),
    }
}

// Appends the places of a list of identifiers that is no ring.
fn put_ring_details(writer: &mut Writer, fault: RingFault) -> Result<(), AllocError>
    ensures { PutsFields result writer.old writer.new (ring_fields fault) }
{
    match fault {
        RingFault::IdTooLarge(place) => put_number(writer, "place", place),
        RingFault::Repeated(first, second) => put_numbers(writer, "places", &[first, second]),
        RingFault::TooShort | RingFault::TooLong => Ok(()),
    }
}

// Appends the byte or the line of the fault of a table text.
fn put_table_details(writer: &mut Writer, text: &[u8], fault: TableFault) -> Result<(), AllocError>
    ensures { PutsFields result writer.old writer.new (table_fault_fields text.now fault) }
{
    match fault {
        TableFault::Syntax(offset) => put_byte(writer, text, offset as usize),
        TableFault::WrongWindow(line) | TableFault::ChannelTooLarge(line) => {
            put_number(writer, "line", line)
        }
        TableFault::OutOfMemory => Ok(()),
    }
}

// Appends the offset of a byte of a text, its line and its column.
fn put_byte(writer: &mut Writer, text: &[u8], offset: usize) -> Result<(), AllocError>
    ensures { PutsFields result writer.old writer.new (byte_fields text.now offset) }
{
    put_count(writer, "at", offset as u64)?;
    put_location(writer, text, Some(offset))
}

// Appends the line and the column of the byte at an offset of a text, if there is one.
#[tactic(auto, using(std::proofs::lemmas::List::take_min))]
fn put_location(writer: &mut Writer, text: &[u8], offset: Option<usize>) -> Result<(), AllocError>
    ensures { PutsFields result writer.old writer.new (location_fields text.now offset) }
{
    let Some(offset) = offset else {
        return Ok(());
    };
    let offset = offset.min(text.len());
    put_count(writer, "line", line_of(text, offset) as u64)?;
    put_count(writer, "column", column_of(text, offset) as u64)
}
