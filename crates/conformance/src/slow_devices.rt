//! Devices for tests, which give or take few bytes per call, and fail at a call that the test
//! names.

use std::alloc::Global;
use std::io;
use std::io::{ErrorKind, Read, Write};

/// How a device works: it gives or takes at most `most` bytes per call, and the call with number
/// `failing`, counted from 1, fails with an error of this kind.
#[derive(Clone, Copy)]
pub(crate) struct Pace {
    pub(crate) most: usize,
    failing: usize,
    pub(crate) kind: ErrorKind,
}

impl Pace {
    /// Returns a pace at which no call fails.
    pub(crate) fn of(most: usize) -> Pace {
        Pace::failing_at(0, ErrorKind::Other, most)
    }

    /// Returns a pace at which only the call with this number fails.
    pub(crate) fn failing_at(call: usize, kind: ErrorKind, most: usize) -> Pace {
        Pace {
            most,
            failing: call,
            kind,
        }
    }

    /// Fails if this is the number of the call to fail.
    fn check(self, call: usize) -> io::Result<()> {
        if call == self.failing {
            return Err(io::Error::from(self.kind));
        }
        Ok(())
    }
}

/// A reader of a text, with the number of its calls.
#[derive(Drop)]
pub(crate) struct SlowReader<'a> {
    rest: &'a [u8],
    pace: Pace,
    pub(crate) calls: usize,
}

impl<'a> SlowReader<'a> {
    /// Returns a reader of a text.
    pub(crate) fn new(text: &'a [u8], pace: Pace) -> SlowReader<'a> {
        SlowReader {
            rest: text,
            pace,
            calls: 0,
        }
    }
}

impl<'a> Read for SlowReader<'a> {
    fn read(&mut self, buffer: &mut [u8]) -> io::Result<usize> {
        self.calls = self.calls.saturating_add(1);
        self.pace.check(self.calls)?;
        let count = self.pace.most.min(buffer.len()).min(self.rest.len());
        let (given, rest) = self.rest.split_at(count);
        buffer[..count].copy_from_slice(given);
        self.rest = rest;
        Ok(count)
    }
}

/// A writer to memory, with the bytes that it took and the number of its calls.
#[derive(Drop)]
pub(crate) struct SlowWriter {
    pub(crate) taken: Vec<u8>,
    pace: Pace,
    pub(crate) calls: usize,
}

impl SlowWriter {
    /// Returns a writer.
    pub(crate) fn new(alloc: Global, pace: Pace) -> SlowWriter {
        SlowWriter {
            taken: Vec::new(alloc),
            pace,
            calls: 0,
        }
    }
}

impl Write for SlowWriter {
    fn write(&mut self, bytes: &[u8]) -> io::Result<usize> {
        self.calls = self.calls.saturating_add(1);
        self.pace.check(self.calls)?;
        let count = self.pace.most.min(bytes.len());
        self.taken.extend_from_slice(&bytes[..count])?;
        Ok(count)
    }

    fn flush(&mut self) -> io::Result<()> {
        Ok(())
    }
}
