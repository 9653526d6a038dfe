//! Reads of few bytes, and reads that fail.

use crate::slow_devices::{Pace, SlowReader};
use plan_print::fault::EngineFault;
use plan_print::input::read_input;
use plan_print::watched::Watched;
use std::alloc::Global;
use std::io::ErrorKind;

// Reads at most four bytes of `start` at this pace. Returns whether they are the first four, or the
// fault, whether a failure was noted, and the number of calls.
fn four_read(alloc: Global, pace: Pace) -> (Result<bool, EngineFault>, bool, usize) {
    let mut reader = Watched::new(SlowReader::new(b"start", pace));
    let answer = match read_input(alloc, &mut reader, 4) {
        Ok(input) => Ok(input.as_slice() == b"star".as_slice()),
        Err(fault) => Err(fault),
    };
    (answer, reader.failed(), reader.into_device().calls)
}

#[test]
fn single_bytes_are_read_in_no_more_calls_than_bytes(rt: HostRuntime) {
    assert!(rt; four_read(rt.alloc(), Pace::of(1)) == (Ok(true), false, 4));
}

#[test]
fn a_failed_read_is_the_fault_at_once(rt: HostRuntime) {
    let pace = Pace::failing_at(3, ErrorKind::Interrupted, 1);
    assert!(rt; four_read(rt.alloc(), pace) == (Err(EngineFault::Read), true, 3));
}

#[test]
fn a_read_into_no_room_is_no_failure(rt: HostRuntime) {
    let pace = Pace::failing_at(2, ErrorKind::Interrupted, 1);
    let mut reader = Watched::new(SlowReader::new(b"start", pace));
    let first = reader.read(&mut []);
    assert!(rt; first == Ok(0) && !reader.failed());
    let second = reader.read(&mut []);
    assert!(rt; second == Err(EngineFault::Read) && reader.failed());
}
