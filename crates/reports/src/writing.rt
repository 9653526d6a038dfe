//! Writing a finding.

ghost use Rattle.std.specs.Prelude.{◌≡◌, ℕ, false, List, Option, Bool, IfErr};
ghost use Rattle.devices.specs.Output.{WritesText};
ghost use Rattle.devices.specs.Watched.{device_of, has_failed};
ghost use Rattle.table_text.specs.TableText.{table_text};
ghost use Rattle.reports.specs.Bytes.{bytes_of, fault_line};
ghost use Rattle.reports.specs.Findings.{answer_of, fault_of, value_of, refused};
ghost use Rattle.reports.specs.Written.{MayLackMemory, WritesBytes};

use crate::fault::Fault;
use crate::fault_line::line_of;
use crate::finding::{Answer, Finding, TableReport};
use crate::lines::text_of;
use devices::fault::{EngineFault, OutFault};
use devices::output::send;
use devices::watched::Watched;
use std::alloc::Global;
use std::io::Write;
use std::thread::Threads;
use table_formula::write_formula;
use table_text::write_table_with_workers;

/// Writes the bytes of a finding.
///
/// Fails with `Write` exactly if a write failed or took no byte, and a prefix of them was written then;
/// with `Memory` if memory was refused, and nothing was written then. The refusals of a number of segments, of the
/// numbers of a formula and of a refutation that is too long need no memory.
pub fn write_finding<R: Threads + Sync, W: Write>(
    rt: &R,
    alloc: Global,
    finding: &Finding,
    writer: &mut Watched<W>,
) -> Result<(), EngineFault>
    requires { has_failed writer.old ≡ false }
    ensures writes { WritesBytes (bytes_of (value_of finding.now)) (W.contents (device_of writer.old))
        (W.contents (device_of writer.new)) (has_failed writer.new) result }
    ensures memory { IfErr result (MayLackMemory (value_of finding.now)) }
{
    match finding {
        Finding::Answer(answer) => write_answer(alloc, answer, writer),
        Finding::Table(report) => result_of(write_report(rt, alloc, report, writer)),
        Finding::Formula(formula) => result_of(write_formula(alloc, formula, writer)),
        Finding::Refused(fault) => write_fault(alloc, fault, writer),
    }
}

// Writes the text of a table.
fn write_report<R: Threads + Sync, W: Write>(
    rt: &R,
    alloc: Global,
    report: &TableReport,
    writer: &mut Watched<W>,
) -> Result<(), OutFault>
    requires { has_failed writer.old ≡ false }
    ensures { WritesText (table_text report.now.table report.now.separation) (W.contents (device_of writer.old))
        (W.contents (device_of writer.new)) (has_failed writer.new) result }
{
    write_table_with_workers(
        rt,
        alloc,
        &report.table,
        report.separation,
        report.workers,
        writer,
    )
}

// Writes the lines of an answer.
fn write_answer<W: Write>(
    alloc: Global,
    answer: &Answer,
    writer: &mut Watched<W>,
) -> Result<(), EngineFault>
    requires { has_failed writer.old ≡ false }
    ensures { WritesBytes (bytes_of (answer_of answer.now)) (W.contents (device_of writer.old))
        (W.contents (device_of writer.new)) (has_failed writer.new) result }
{
    let text = text_of(alloc, answer)?;
    send(writer, text.as_bytes())?;
    Ok(())
}

// Writes the line of a refusal.
fn write_fault<W: Write>(
    alloc: Global,
    fault: &Fault,
    writer: &mut Watched<W>,
) -> Result<(), EngineFault>
    requires { has_failed writer.old ≡ false }
    ensures writes { WritesBytes (fault_line (fault_of fault.now)) (W.contents (device_of writer.old))
        (W.contents (device_of writer.new)) (has_failed writer.new) result }
    ensures memory { IfErr result (MayLackMemory (refused (fault_of fault.now))) }
{
    let line = line_of(alloc, fault)?;
    send(writer, line.as_bytes())?;
    Ok(())
}

// Returns the result of writing a text, as that of a report.
fn result_of(written: Result<(), OutFault>) -> Result<(), EngineFault>
    ensures { (text : List ℕ) (before after : Option (List ℕ)) (failed : Bool)
        → WritesText text before after failed written → WritesBytes text before after failed result }
{
    match written {
        Ok(()) => Ok(()),
        Err(OutFault::Write) => Err(EngineFault::Write),
        Err(OutFault::Memory) => Err(EngineFault::Memory),
    }
}
