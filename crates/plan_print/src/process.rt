//! The program `nbhd` as a process: it passes its words, its standard input and its standard output
//! to the engine.

ghost use Rattle.std.specs.Prelude.{◌≡◌, ◌↔◌, false, IsTrue, IfOk, IfErr, IsErrOf};
ghost use Rattle.std.specs.Io.KnownBytes.{Appends};
ghost use Rattle.devices.specs.Watched.{device_of, has_failed};
ghost use Rattle.plan_print.specs.ExitCodes.{reported_code, IsAnswerFor, IsStatusFor, IsExitStatus};
ghost use Rattle.reports.specs.StatusCodes.{answer_code, exit_code};
ghost use Rattle.task_words.specs.Task.{IsRunnable};

use crate::engine::{Reported, engine_with_note};
use devices::fault::EngineFault;
use devices::output::send;
use devices::watched::Watched;
use reports::status::{Status, code_of};
use std::io;
use std::io::{ErrorKind, IsTerminal, Read, Write};
use std::rt::Env;
use std::sync::Wait;
use std::thread::Threads;
use task_words::request::Request;
use task_words::task::Task;
use task_words::words::WordsFault;
use task_words::{parse_request, print_words_fault};

/// Does what the words after the program's name request, and returns the exit status. Writes the
/// report or the help text to standard output, and prints faults and the note on a report to
/// standard error.
pub fn exit_status<T: AllocGlobal + Env + Input + Print + Eprint + Threads + Wait + Sync>(
    rt: &T,
) -> u8
where
    T::Reader: IsTerminal,
    ensures { IsExitStatus result }
{
    status_after(rt, parse_request(rt))
}

// Does the task, or prints the fault of the words. Returns the exit status.
fn status_after<T: AllocGlobal + Env + Input + Print + Eprint + Threads + Wait + Sync>(
    rt: &T,
    parsed: Result<Request, WordsFault>,
) -> u8
where
    T::Reader: IsTerminal,
    requires { IfOk parsed (λ request. IsRunnable request.task) }
    ensures { IsStatusFor parsed result }
{
    match parsed {
        Ok(request) => {
            tell_of_terminal(rt, &request.task);
            let mut reader = Watched::new(rt.reader());
            let answer = run_engine(rt, request, &mut reader);
            let status = print_result(rt, answer);
            tell_of_folder(rt, reader.failure());
            status
        }
        Err(WordsFault::Help(text)) => {
            let mut writer = Watched::new(io::writer(rt));
            print_fault(rt, write_text(&mut writer, &text))
        }
        Err(fault) => print_words_fault(rt, &fault),
    }
}

// Says on standard error that a text is awaited, if it is to come from a terminal.
fn tell_of_terminal<T: Input + Eprint>(rt: &T, task: &Task)
where
    T::Reader: IsTerminal,
{
    if !matches!(task, Task::Formula { .. }) && rt.reader().is_terminal() {
        let _ = eprintln!(rt; "nbhd: reads a text from standard input, which Ctrl-D ends");
    }
}

// Says on standard error that the input is a folder, if a read failed since it is one.
fn tell_of_folder<T: Eprint>(rt: &T, failure: Option<ErrorKind>) {
    if failure == Some(ErrorKind::IsADirectory) {
        let _ = eprintln!(rt; "nbhd: the input is a folder, not a text");
    }
}

// Prints a fault, if there is one, to standard error. Returns the exit status.
fn print_fault<T: Eprint>(rt: &T, answer: Result<Status, EngineFault>) -> u8
    ensures { result ≡ answer_code answer }
{
    if let Err(fault) = answer {
        let _ = eprintln!(rt; "{fault}");
    }
    code_of(answer)
}

// Prints the note on a report, or a fault, to standard error. Returns the exit status.
fn print_result<T: Eprint>(rt: &T, answer: Result<Reported, EngineFault>) -> u8
    ensures { result ≡ reported_code answer }
{
    match answer {
        Ok(reported) => print_note(rt, &reported),
        Err(fault) => print_fault(rt, Err(fault)),
    }
}

// Prints the note on a report, if there is one, to standard error. Returns the exit status.
fn print_note<T: Eprint>(rt: &T, reported: &Reported) -> u8
    ensures { result ≡ exit_code reported.now.status }
{
    if let Some(Ok(note)) = &reported.note {
        let _ = eprint!(rt; "{note}");
    }
    reported.status.code()
}

// Writes a text. The status is then `Done`.
fn write_text<W: Write>(writer: &mut Watched<W>, text: &str) -> Result<Status, EngineFault>
    requires { has_failed writer.old ≡ false }
    ensures done { IfOk result (λ status. (status ≡ Status.Done)
        × Appends (W.contents (device_of writer.old)) (W.contents (device_of writer.new)) text.now) }
    ensures fault { IfErr result (λ fault. fault ≡ EngineFault.Write) }
    ensures failed { IsErrOf result EngineFault.Write ↔ IsTrue (has_failed writer.new) }
{
    send(writer, text.as_bytes())?;
    Ok(Status::Done)
}

// Runs the engine for what is requested on this input and standard output.
fn run_engine<T: AllocGlobal + Print + Threads + Wait + Sync, R: Read>(
    rt: &T,
    request: Request,
    reader: &mut Watched<R>,
) -> Result<Reported, EngineFault>
    requires runnable { IsRunnable request.task }
    requires working { has_failed reader.old ≡ false }
    ensures { IsAnswerFor request.task result }
{
    let mut writer = Watched::new(io::writer(rt));
    engine_with_note(rt, rt.alloc(), request, reader, &mut writer)
}
