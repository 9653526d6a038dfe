//! Writing a finding as JSON.

ghost use Rattle.devices.specs.Watched.{device_of, has_failed};
ghost use Rattle.json.specs.Json.{max_depth};
ghost use Rattle.json.specs.Token.{begin_object};
ghost use Rattle.json.specs.Tree.{depth};
ghost use Rattle.json_reports.specs.Json.{answer_fields, fault_fields, note_fields};
ghost use Rattle.json_reports.specs.Puts.{PutsFields};
ghost use Rattle.json_reports.specs.Reports.{report_bytes, IsObject, IsReportRead};
ghost use Rattle.json_reports.specs.Values.{Field, field_tokens, object_of};
ghost use Rattle.reports.specs.Findings.{answer_of, fault_of};
ghost use Rattle.reports.specs.Written.{WritesBytes};
ghost use Rattle.std.specs.Prelude.{◌≡◌, ◌≤◌, ◌++◌, ◌∷◌, [], List, false, option_map, IfOk, OnOk};

use crate::answers::put_answer;
use crate::faults::put_fault;
use crate::fields::put_text;
use crate::tables::write_table;
use devices::fault::EngineFault;
use devices::output::send;
use devices::watched::Watched;
use json::Writer;
use node_program::OutOfMemory;
use reports::fault::Fault;
use reports::finding::{Answer, Finding};
use reports::writing::write_finding;
use std::alloc::{AllocError, Global};
use std::io::Write;
use std::thread::Threads;

/// What was found in a text, and the note on it.
#[derive(Clone, Copy)]
pub struct Report<'a> {
    /// The input.
    pub text: &'a [u8],
    /// What was found in it.
    pub finding: &'a Finding,
    /// The note; it is left out for a table and for a formula, which have none.
    pub note: Option<&'a str>,
}

/// Writes a report as a JSON object (RFC 8259) and a line feed; a formula in DIMACS.
///
/// Fails with `Write` exactly if a write failed or took no byte, and a prefix was written then; with
/// `Memory` if memory was refused, and nothing was written then.
pub fn write_json<R: Threads + Sync, W: Write>(
    rt: &R,
    alloc: Global,
    report: Report<'_>,
    writer: &mut Watched<W>,
) -> Result<(), EngineFault>
    requires { has_failed writer.old ≡ false }
    ensures writes { WritesBytes (report_bytes report.entry) (W.contents (device_of writer.old))
        (W.contents (device_of writer.new)) (has_failed writer.new) result }
    ensures reads { OnOk result (IsReportRead report.entry) }
{
    match report.finding {
        Finding::Answer(answer) => {
            let text = answer_text(alloc, answer, report.note)?;
            send(writer, &text)
        }
        Finding::Table(table) => write_table(alloc, table, writer),
        Finding::Formula(_) => write_finding(rt, alloc, report.finding, writer),
        Finding::Refused(fault) => {
            let text = fault_text(alloc, report.text, fault, report.note)?;
            send(writer, &text)
        }
    }
}

// Returns the JSON text of an answer with a note, and a line feed.
fn answer_text(alloc: Global, answer: &Answer, note: Option<&str>) -> Result<Vec<u8>, OutOfMemory>
    ensures { IfOk result (λ bytes. IsObject
        (answer_fields (answer_of answer.now) ++ note_fields (option_map (λ n. n.now) note.entry)) bytes.items) }
{
    let mut writer = Writer::new(Vec::new(alloc));
    writer.begin_object()?;
    put_answer(alloc, &mut writer, answer)?;
    put_note(&mut writer, note)?;
    Ok(ended(writer)?)
}

// Returns the JSON text of a refusal of a text with a note, and a line feed.
fn fault_text(
    alloc: Global,
    text: &[u8],
    fault: &Fault,
    note: Option<&str>,
) -> Result<Vec<u8>, AllocError>
    ensures { IfOk result (λ bytes. IsObject
        (fault_fields text.now (fault_of fault.now)
        ++ note_fields (option_map (λ n. n.now) note.entry)) bytes.items) }
{
    let mut writer = Writer::new(Vec::new(alloc));
    writer.begin_object()?;
    put_fault(&mut writer, text, fault)?;
    put_note(&mut writer, note)?;
    ended(writer)
}

// Appends a note, if there is one.
fn put_note(writer: &mut Writer, note: Option<&str>) -> Result<(), AllocError>
    ensures { PutsFields result writer.old writer.new (note_fields (option_map (λ n. n.now) note.entry)) }
{
    match note {
        Some(note) => put_text(writer, "note", note),
        None => Ok(()),
    }
}

// Returns the text of the object whose members were appended, and a line feed.
fn ended(mut writer: Writer) -> Result<Vec<u8>, AllocError>
    ensures { (fields : List Field) → writer.before ≡ [] → writer.tokens ≡ begin_object ∷ field_tokens fields
        → depth (object_of fields) ≤ max_depth → IfOk result (λ bytes. IsObject fields bytes.items) }
{
    writer.end_object()?;
    let mut text = writer.into_inner();
    text.push(b'\n')?;
    Ok(text)
}
