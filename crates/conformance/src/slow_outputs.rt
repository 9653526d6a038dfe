//! Texts of tables at few bytes per call, and writes that fail.

use crate::slow_devices::{Pace, SlowWriter};
use crate::slow_tasks::{Command, Streams, done};
use plan_print::fault::{EngineFault, OutFault};
use plan_print::output::send;
use plan_print::watched::Watched;
use plan_print::{read_table, write_table};
use std::alloc::Global;
use std::io::ErrorKind;
use std::ops::Range;
use std::sync::Wait;
use std::test::Fail;
use std::thread::Threads;
use test_programs::CV1_OF_12;

/// The text of the table of two identifiers and no rounds that gives each identifier itself as its
/// channel, with near 1 and far 0.
pub(crate) const TABLE_OF_IDENTIFIERS: &[u8] =
    b"nbhd-table 2\nrounds 0 ids 2 channels 2 near 1 far 0\n0 : 0\n1 : 1\nend\n";

// Writes the table of a text to a writer of this pace. Returns the number of bytes that were taken,
// if they begin the text, and the fault is `Write`, and noted, exactly if some are missing.
fn taken_of(alloc: Global, text: &[u8], pace: Pace) -> Option<usize> {
    let (table, separation) = read_table(alloc, text).ok()?;
    let mut writer = Watched::new(SlowWriter::new(alloc, pace));
    let answer = write_table(alloc, &table, separation, &mut writer);
    let failed = writer.failed();
    let taken = writer.into_device().taken;
    let is_right = match answer {
        Ok(()) => !failed && taken.len() == text.len(),
        Err(fault) => fault == OutFault::Write && failed && taken.len() < text.len(),
    };
    if !is_right || !text.starts_with(&taken) {
        return None;
    }
    Some(taken.len())
}

// Returns whether a write of a single byte that fails after each of these numbers of bytes leaves
// just these bytes of the table's text.
fn stops_after(alloc: Global, text: &[u8], kind: ErrorKind, bytes: Range<usize>) -> bool {
    let mut stops = true;
    for count in bytes {
        let pace = Pace::failing_at(count.saturating_add(1), kind, 1);
        stops = stops && taken_of(alloc, text, pace) == Some(count);
    }
    stops
}

// The last failing call would come after the whole table.
#[test]
fn a_table_whose_write_fails_at_each_call(rt: HostRuntime) {
    for kind in [ErrorKind::Interrupted, ErrorKind::Other] {
        assert!(rt; stops_after(rt.alloc(), TABLE_OF_IDENTIFIERS, kind, 0..69));
    }
}

#[test]
fn a_table_of_which_no_byte_is_taken(rt: HostRuntime) {
    let taken = taken_of(rt.alloc(), TABLE_OF_IDENTIFIERS, Pace::of(0));
    assert!(rt; taken == Some(0));
}

// Returns the number of calls that write a table, of at most 65,536 bytes each, if a failed write
// is right at the edge of each, next to it and after it.
fn chunks_of(alloc: Global, text: &[u8]) -> Option<u32> {
    let mut edges = 0u32;
    let mut before = 0;
    for call in 1..9usize {
        let pace = Pace::failing_at(call, ErrorKind::Other, usize::MAX);
        let edge = taken_of(alloc, text, pace)?;
        if edge == text.len() {
            break;
        }
        let (near, later) = (edge.saturating_sub(1), edge.saturating_add(1000));
        if edge.saturating_sub(before) > 65_536
            || !stops_after(alloc, text, ErrorKind::Other, near..edge.saturating_add(2))
            || !stops_after(
                alloc,
                text,
                ErrorKind::Other,
                later..later.saturating_add(1),
            )
        {
            return None;
        }
        before = edge;
        edges = edges.saturating_add(1);
    }
    Some(edges)
}

// Writes the table of 24 identifiers.
fn table_of_24<R: Threads + Wait + Sync>(rt: &R, alloc: Global) -> Option<SlowWriter> {
    let streams = Streams::reading(CV1_OF_12, Pace::of(usize::MAX), b"");
    let (answer, _, writer) = done(rt, alloc, Command::Table(24), &streams)?;
    answer.ok()?;
    Some(writer)
}

// The text is written in sections of 2,000 windows, the first one with the lines before it and the
// last one with the line behind it. So the 12,144 windows have seven. The call for each of them
// fails, and one in the last byte.
#[test]
fn a_long_table_whose_write_fails_at_each_edge_of_a_chunk(rt: HostRuntime) -> Result<(), Fail> {
    let writer = table_of_24(&rt, rt.alloc()).ok_or("a table")?;
    let text = writer.taken.as_slice();
    let last = text.len().saturating_sub(1);
    assert!(rt; text.len() > 131_072 && text.len() < 196_608);
    assert!(rt; chunks_of(rt.alloc(), text) == Some(7));
    assert!(rt; stops_after(rt.alloc(), text, ErrorKind::Other, last..text.len()));
    Ok(())
}

// Sends bytes to a writer of this pace. Returns the result, whether a failure was noted, and the
// number of calls.
fn sent(alloc: Global, bytes: &[u8], pace: Pace) -> (Result<(), EngineFault>, bool, usize) {
    let mut writer = Watched::new(SlowWriter::new(alloc, pace));
    let answer = send(&mut writer, bytes);
    (answer, writer.failed(), writer.into_device().calls)
}

#[test]
fn single_bytes_are_sent(rt: HostRuntime) {
    assert!(rt; sent(rt.alloc(), b"0 1\n", Pace::of(1)) == (Ok(()), false, 4));
}

#[test]
fn a_failed_write_is_the_fault_at_once(rt: HostRuntime) {
    let pace = Pace::failing_at(4, ErrorKind::Interrupted, 1);
    assert!(rt; sent(rt.alloc(), b"0 1\n", pace) == (Err(EngineFault::Write), true, 4));
}

// No byte can be sent and none be written to a writer that takes nothing.
#[test]
fn a_write_that_takes_nothing_is_the_fault(rt: HostRuntime) {
    let mut writer = Watched::new(SlowWriter::new(rt.alloc(), Pace::of(0)));
    let nothing = send(&mut writer, b"");
    assert!(rt; nothing == Ok(()) && !writer.failed());
    let none = writer.write(b"");
    assert!(rt; none == Ok(0) && !writer.failed());
    let byte = send(&mut writer, b"0");
    assert!(rt; byte == Err(EngineFault::Write) && writer.failed());
}
