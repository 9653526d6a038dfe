//! Writing what was found, in a format.

ghost use Rattle.std.specs.Prelude.{◌≡◌, option_map, IfOk, OnOk};
ghost use Rattle.plan_print.specs.Formats.{told_text, HasMemory};

use crate::note::note_on;
use devices::fault::EngineFault;
use devices::watched::Watched;
use json_reports::{Report, write_json};
use node_program::OutOfMemory;
use reports::finding::Finding;
use reports::writing::write_finding;
use std::alloc::Global;
use std::io::Write;
use std::thread::Threads;
use task_words::format::Format;

// What was found in an input.
#[derive(Clone, Copy)]
pub(crate) struct Found<'a> {
    pub(crate) input: &'a [u8],
    pub(crate) finding: &'a Finding,
}

impl Found<'_> {
    ghost use Rattle.std.specs.Prelude.{◌≡◌, false, IfOk};
    ghost use Rattle.devices.specs.Watched.{device_of, has_failed};
    ghost use Rattle.plan_print.specs.Formats.{Writes};
    ghost use Rattle.plan_print.specs.Notes.{IsFound, IsNoteOn};
    ghost use Rattle.reports.specs.Findings.{value_of};
    ghost use Rattle.task_words.specs.declared.format.Format.TheVariants.{Json};

    // Writes what was found in this format, and returns the note on it, if it has one. Lines are written
    // before the note is made, so that it takes no memory from them; JSON has the note.
    //
    // Fails with `Write` exactly if a write failed or took no byte, and a prefix was written then; with
    // `Memory` if memory was refused, and nothing was written then. Without memory for the note lines are
    // written, and JSON is not.
    pub(crate) fn write<R: Threads + Sync, W: Write>(
        &self,
        rt: &R,
        alloc: Global,
        format: Format,
        writer: &mut Watched<W>,
    ) -> Result<Option<Result<String, OutOfMemory>>, EngineFault>
        requires found { IsFound self.now.input.now (value_of self.now.finding.now) }
        requires writes { has_failed writer.old ≡ false }
        ensures writes { Writes format self.now.input.now (value_of self.now.finding.now)
            (W.contents (device_of writer.old)) (W.contents (device_of writer.new)) (has_failed writer.new) result }
        ensures note { IfOk result (IsNoteOn self.now.input.now (value_of self.now.finding.now)) }
    {
        match format {
            Format::Lines => {
                write_finding(rt, alloc, self.finding, writer)?;
                Ok(note_on(alloc, self.input, self.finding))
            }
            Format::Json => {
                let note = note_on(alloc, self.input, self.finding);
                self.write_json(rt, alloc, &note, writer)?;
                Ok(note)
            }
        }
    }

    // Writes what was found in JSON, with this note.
    fn write_json<R: Threads + Sync, W: Write>(
        &self,
        rt: &R,
        alloc: Global,
        note: &Option<Result<String, OutOfMemory>>,
        writer: &mut Watched<W>,
    ) -> Result<(), EngineFault>
        requires note { IsNoteOn self.now.input.now (value_of self.now.finding.now) note.now }
        requires writes { has_failed writer.old ≡ false }
        ensures { Writes Json self.now.input.now (value_of self.now.finding.now) (W.contents (device_of writer.old))
            (W.contents (device_of writer.new)) (has_failed writer.new) result }
    {
        let note = text_of(note)?;
        let report = Report {
            text: self.input,
            finding: self.finding,
            note,
        };
        write_json(rt, alloc, report, writer)
    }
}

// Returns the text of a note, if there is one. Fails if memory for it was refused.
fn text_of(note: &Option<Result<String, OutOfMemory>>) -> Result<Option<&str>, OutOfMemory>
    ensures text { IfOk result (λ text. option_map (λ t. t.now) text ≡ told_text note.now) }
    ensures memory { OnOk result (HasMemory note.now) }
{
    match note {
        Some(Ok(text)) => Ok(Some(text)),
        Some(Err(_)) => Err(OutOfMemory),
        None => Ok(None),
    }
}
