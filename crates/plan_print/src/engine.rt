//! Doing a task: reading the whole input, then writing its report.

ghost use Rattle.std.specs.Prelude.{◌≡◌, false};
ghost use Rattle.task_words.specs.Task.{IsRunnable};
ghost use Rattle.task_words.specs.declared.format.Format.TheVariants.{Lines};
ghost use Rattle.devices.specs.Watched.{has_failed};
ghost use Rattle.plan_print.specs.Engine.{max_read, streams_of, DoesTask, WritesReport, TellsReport};

use crate::found::Found;
use crate::report::report_of;
use channel_tables::one_witness;
use devices::fault::EngineFault;
use devices::input::read_input;
use devices::watched::Watched;
use node_lang::LONGEST_TEXT;
use node_program::OutOfMemory;
use reports::status::Status;
use std::alloc::Global;
use std::io::{Read, Write};
use std::sync::Wait;
use std::thread::Threads;
use table_formula::LONGEST_REFUTATION;
use table_text::LONGEST_TABLE_TEXT;
use task_words::format::Format;
use task_words::request::Request;
use task_words::task::Task;

/// Reads the input of a task and writes its report. Returns the report's status.
///
/// Reads the whole input, or one byte more than the longest text of its kind if it is longer, in at
/// most as many reads; nothing for a formula. The task's number of workers, if it has one, must be 1 to
/// `MAX_COUNT`. If its ring can't be run in its number of segments, the report says so.
///
/// Fails with `Read` exactly if a read failed, with `Write` exactly if a write failed or took no
/// byte, with `Memory` if memory was refused, with `Thread` if the start of a thread was refused,
/// and with `Stranger` if a worker or a segment had that fault. `Thread` is returned only for a
/// task with two or more workers or segments, and `Stranger` only for one that names their number.
/// After `Write` a prefix of the report was written, after each other fault nothing.
pub fn engine<T: Threads + Wait + Sync, R: Read, W: Write>(
    rt: &T,
    alloc: Global,
    task: Task,
    reader: &mut Watched<R>,
    writer: &mut Watched<W>,
) -> Result<Status, EngineFault>
    requires runnable { IsRunnable task }
    requires reads { has_failed reader.old ≡ false }
    requires writes { has_failed writer.old ≡ false }
    ensures { DoesTask Lines task (streams_of R.remaining W.contents reader.old reader.new writer.old writer.new)
        WritesReport result }
{
    let request = Request {
        task,
        format: Format::Lines,
    };
    match engine_with_note(rt, alloc, request, reader, writer) {
        Ok(reported) => Ok(reported.status),
        Err(fault) => Err(fault),
    }
}

/// The status of a report that was written, and the note on what was found.
#[derive(Drop)]
pub struct Reported {
    pub status: Status,
    /// `None` if the finding is neither a refusal nor a no, nor a yes over no tuples or with a pattern that
    /// never matches. Without memory for the note it is an error.
    pub note: Option<Result<String, OutOfMemory>>,
}

/// Does the same as `engine`, with the report in the format that is requested, and returns the note on
/// what was found, if it has one. The note is not written, but JSON has it too. If memory for it was
/// refused, the report is written in lines, and in JSON the call fails with `Memory`.
pub fn engine_with_note<T: Threads + Wait + Sync, R: Read, W: Write>(
    rt: &T,
    alloc: Global,
    request: Request,
    reader: &mut Watched<R>,
    writer: &mut Watched<W>,
) -> Result<Reported, EngineFault>
    requires runnable { IsRunnable request.task }
    requires reads { has_failed reader.old ≡ false }
    requires writes { has_failed writer.old ≡ false }
    ensures { DoesTask request.format request.task
        (streams_of R.remaining W.contents reader.old reader.new writer.old writer.new) TellsReport result }
{
    one_witness();
    let Request { task, format } = request;
    let input = read_input(alloc, reader, max_read(&task))?;
    let finding = report_of(rt, alloc, task, &input)?;
    let found = Found {
        input: &input,
        finding: &finding,
    };
    let note = found.write(rt, alloc, format, writer)?;
    let status = finding.status();
    Ok(Reported { status, note })
}

// Returns the maximum number of bytes that are read of the input of a task.
fn max_read(task: &Task) -> usize
    ensures { result ≡ max_read task.now }
{
    match task {
        Task::Audit { .. } | Task::Apply { .. } | Task::Migrate => LONGEST_TABLE_TEXT + 1,
        Task::Formula { .. } => 0,
        Task::Refute { .. } => LONGEST_REFUTATION + 1,
        _ => LONGEST_TEXT + 1,
    }
}
