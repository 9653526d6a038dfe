//! Tasks of the engine on devices that give or take few bytes per call, or fail.

use crate::formulas::FORMULA;
use crate::refutations::{REFUTATION, REFUTED};
use crate::slow_devices::{Pace, SlowReader, SlowWriter};
use crate::slow_outputs::TABLE_OF_IDENTIFIERS;
use plan_print::engine::engine;
use plan_print::fault::EngineFault;
use plan_print::status::Status;
use plan_print::task::Task;
use plan_print::watched::Watched;
use ring_problems::Demand;
use std::alloc::Global;
use std::io::ErrorKind;
use std::sync::Wait;
use std::test::Fail;
use std::thread::Threads;
use table_formula::Separation;
use test_programs::{CV1, ID0};

/// The report of the run.
const REPORT: &[u8] = b"2 4 3 5\n";

/// The commands. All have near 1 and far 0, and those of formulas no rounds.
#[derive(Clone, Copy)]
pub(crate) enum Command {
    /// A check for 8 identifiers.
    Check,
    /// A run for 8 identifiers on the ring 5 1 3 7, in one segment.
    Run,
    /// A table of this many identifiers by one worker.
    Table(u32),
    /// The formula of two identifiers and two channels.
    Formula,
    /// A check of a refutation of the formula of two identifiers and one channel.
    Refute,
}

impl Command {
    /// Returns the command's task.
    fn task(self, alloc: Global) -> Option<Task> {
        let (workers, rounds, near, far) = (1, 0, 1, 0);
        let demand = Demand::Apart(Separation { near, far });
        Some(match self {
            Command::Check => Task::Check { ids: 8 },
            Command::Run => Task::Run {
                ids: 8,
                ring: [5, 1, 3, 7].to_vec(alloc).ok()?,
                segments: 1,
            },
            Command::Table(ids) => Task::Table {
                ids,
                workers,
                near,
                far,
            },
            Command::Formula => Task::Formula {
                ids: 2,
                rounds,
                channels: 2,
                demand,
            },
            Command::Refute => Task::Refute {
                ids: 2,
                rounds,
                channels: 1,
                demand,
            },
        })
    }
}

/// The devices of a task, and the bytes that it is to write.
#[derive(Clone, Copy)]
pub(crate) struct Streams<'a> {
    text: &'a [u8],
    reader: Pace,
    writer: Pace,
    want: &'a [u8],
}

impl<'a> Streams<'a> {
    /// Returns a reader of this text with this pace, and a writer that takes all bytes.
    pub(crate) fn reading(text: &'a [u8], reader: Pace, want: &'a [u8]) -> Streams<'a> {
        Streams {
            text,
            reader,
            writer: Pace::of(usize::MAX),
            want,
        }
    }
}

/// The outcome of a task: the engine's result, the numbers of reads and of writes, and whether the
/// bytes that were to be written were written, and no others.
#[derive(Clone, Copy, PartialEq, Eq)]
struct Outcome {
    answer: Result<Status, EngineFault>,
    reads: usize,
    writes: usize,
    as_wanted: bool,
}

/// Does a task with these devices. Returns the engine's result, the number of reads, and the
/// writer.
pub(crate) fn done<R: Threads + Wait + Sync>(
    rt: &R,
    alloc: Global,
    command: Command,
    streams: &Streams<'_>,
) -> Option<(Result<Status, EngineFault>, usize, SlowWriter)> {
    let task = command.task(alloc)?;
    if !task.is_runnable() {
        return None;
    }
    let mut reader = Watched::new(SlowReader::new(streams.text, streams.reader));
    let mut writer = Watched::new(SlowWriter::new(alloc, streams.writer));
    let answer = engine(rt, alloc, task, &mut reader, &mut writer);
    Some((answer, reader.into_device().calls, writer.into_device()))
}

/// Does a task with these devices.
fn outcome_of<R: Threads + Wait + Sync>(
    rt: &R,
    alloc: Global,
    command: Command,
    streams: &Streams<'_>,
) -> Option<Outcome> {
    let (answer, reads, writer) = done(rt, alloc, command, streams)?;
    Some(Outcome {
        answer,
        reads,
        writes: writer.calls,
        as_wanted: writer.taken.as_slice() == streams.want,
    })
}

// An input of single bytes needs one call for each byte, and one that finds the end. An input that
// is too long is read up to one byte more than its limit, and the formula has none.
#[test]
fn an_input_of_single_bytes_has_the_same_report(rt: HostRuntime) -> Result<(), Fail> {
    let blanks = vec![in rt.alloc(); b' '; 100_000]?;
    let too_long = b"text fault N1 at 65536\n".as_slice();
    let (single, failing) = (Pace::of(1), Pace::failing_at(1, ErrorKind::Other, 1));
    let of_run = CV1.len().saturating_add(1);
    let rows = [
        (Command::Run, CV1, single, REPORT, Status::Done, of_run),
        (
            Command::Refute,
            REFUTATION,
            single,
            REFUTED,
            Status::Done,
            13,
        ),
        (
            Command::Check,
            &blanks,
            single,
            too_long,
            Status::Refused,
            65_537,
        ),
        (Command::Formula, CV1, failing, FORMULA, Status::Done, 0),
    ];
    for (command, text, reader, report, status, reads) in rows {
        let streams = Streams::reading(text, reader, report);
        let outcome = Outcome {
            answer: Ok(status),
            reads,
            writes: 1,
            as_wanted: true,
        };
        assert!(rt;
            outcome_of(&rt, rt.alloc(), command, &streams) == Some(outcome),
            "{reads}"
        );
    }
    Ok(())
}

/// Returns whether a reader of this pace is called twice at least, can fail at each call, and is
/// not called again then, with nothing written.
fn reads_stop<R: Threads + Wait + Sync>(
    rt: &R,
    alloc: Global,
    command: Command,
    text: &[u8],
    pace: Pace,
) -> Option<bool> {
    let calls = outcome_of(rt, alloc, command, &Streams::reading(text, pace, b""))?.reads;
    let mut stop = calls >= 2;
    for call in 1..calls.saturating_add(1) {
        let reader = Pace::failing_at(call, pace.kind, pace.most);
        let outcome = Outcome {
            answer: Err(EngineFault::Read),
            reads: call,
            writes: 0,
            as_wanted: true,
        };
        let streams = Streams::reading(text, reader, b"");
        stop = stop && outcome_of(rt, alloc, command, &streams) == Some(outcome);
    }
    Some(stop)
}

#[test]
fn a_read_that_fails_at_each_call(rt: HostRuntime) {
    let rows = [
        (Command::Run, CV1, 1, ErrorKind::Interrupted),
        (Command::Run, CV1, 1, ErrorKind::Other),
        (Command::Run, CV1, 10, ErrorKind::Interrupted),
        (Command::Run, CV1, 10, ErrorKind::Other),
        (Command::Run, CV1, usize::MAX, ErrorKind::Interrupted),
        (Command::Run, CV1, usize::MAX, ErrorKind::Other),
        (Command::Refute, REFUTATION, 1, ErrorKind::Other),
    ];
    for (command, text, most, kind) in rows {
        let pace = Pace::failing_at(0, kind, most);
        assert!(rt;
            reads_stop(&rt, rt.alloc(), command, text, pace) == Some(true),
            "{most}"
        );
    }
    assert!(rt; EngineFault::Read.code() == 5);
}

/// Returns whether a writer of single bytes takes all that are wanted, and can fail at each call,
/// which leaves those before it.
fn writes_stop<R: Threads + Wait + Sync>(
    rt: &R,
    alloc: Global,
    command: Command,
    streams: &Streams<'_>,
) -> Option<bool> {
    let whole = outcome_of(rt, alloc, command, streams)?;
    let (bytes, kind) = (streams.want, streams.writer.kind);
    let mut stop = whole.answer == Ok(Status::Done)
        && whole.writes == bytes.len()
        && whole.as_wanted;
    for before in 0..bytes.len() {
        let call = before.saturating_add(1);
        let failing = Streams {
            writer: Pace::failing_at(call, kind, 1),
            want: &bytes[..before],
            ..*streams
        };
        let outcome = Outcome {
            answer: Err(EngineFault::Write),
            writes: call,
            ..whole
        };
        stop = stop && outcome_of(rt, alloc, command, &failing) == Some(outcome);
    }
    Some(stop)
}

#[test]
fn a_write_that_fails_at_each_call(rt: HostRuntime) {
    let (all, failing) = (
        Pace::of(usize::MAX),
        Pace::failing_at(1, ErrorKind::Other, 1),
    );
    let rows = [
        (Command::Run, CV1, all, REPORT, ErrorKind::Interrupted),
        (Command::Run, CV1, all, REPORT, ErrorKind::Other),
        (
            Command::Table(2),
            ID0,
            all,
            TABLE_OF_IDENTIFIERS,
            ErrorKind::Other,
        ),
        (Command::Formula, CV1, failing, FORMULA, ErrorKind::Other),
    ];
    for (command, text, reader, want, kind) in rows {
        let streams = Streams {
            text,
            reader,
            writer: Pace::failing_at(0, kind, 1),
            want,
        };
        assert!(rt; writes_stop(&rt, rt.alloc(), command, &streams) == Some(true));
    }
    assert!(rt; EngineFault::Write.code() == 5);
}

#[test]
fn a_report_of_which_no_byte_is_taken(rt: HostRuntime) -> Result<(), Fail> {
    let streams = Streams {
        text: CV1,
        reader: Pace::of(usize::MAX),
        writer: Pace::of(0),
        want: b"",
    };
    let outcome = outcome_of(&rt, rt.alloc(), Command::Run, &streams).ok_or("an outcome")?;
    let found = (outcome.answer, outcome.writes, outcome.as_wanted);
    assert!(rt; found == (Err(EngineFault::Write), 1, true));
    Ok(())
}
