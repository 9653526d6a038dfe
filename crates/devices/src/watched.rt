//! Readers and writers that count their calls and note the failure of one.

ghost use Rattle.std.specs.Prelude.{◌≡◌, ◌<◌, false, length, IfOk};
ghost use Rattle.std.specs.Io.{ReadsAtMost, WritesAtMost};
ghost use Rattle.std.specs.Io.KnownBytes.{ReadConsumes, WriteAppends};
ghost use Rattle.devices.specs.Watched.{device_of, failure_of, has_failed, calls_of, outcome_of, IsCall, IsNoted};

use crate::fault::EngineFault;
use std::io::{self, ErrorKind, Read, Write};

/// A reader or a writer that counts its reads and writes, and notes the failure of one of them.
#[derive(Drop)]
pub struct Watched<D> {
    device: D,
    failure: Option<ErrorKind>,
    calls: usize,
}

impl<D> Watched<D> {
    /// Wraps a device that was not called yet.
    pub fn new(device: D) -> Watched<D>
        ensures device { device_of result ≡ device }
        ensures working { has_failed result ≡ false }
        ensures uncalled { calls_of result ≡ 0 }
    {
        Watched {
            device,
            failure: None,
            calls: 0,
        }
    }

    /// Returns whether a read or a write of the device failed.
    pub fn failed(&self) -> bool
        ensures { result ≡ has_failed self.now }
    {
        self.failure.is_some()
    }

    /// Returns the kind of the error with which a read or a write of the device failed, if one did:
    /// `WriteZero` if a write took no byte.
    pub fn failure(&self) -> Option<ErrorKind>
        ensures { result ≡ failure_of self.now }
    {
        self.failure
    }

    /// Returns the number of reads and writes of the device. The count stops at `usize::MAX`.
    pub fn calls(&self) -> usize
        ensures { result ≡ calls_of self.now }
    {
        self.calls
    }

    /// Returns the device, without the note.
    pub fn into_device(self) -> D
        ensures { result ≡ device_of self }
    {
        let Watched {
            device,
            failure: _,
            calls: _,
        } = self;
        device
    }

    // Counts a call that offered these bytes to the device, and notes the kind of its failure, if the
    // device's answer is one. Returns the number of bytes of the answer, or this fault.
    fn noted(
        &mut self,
        answer: io::Result<usize>,
        offered: &[u8],
        fault: EngineFault,
    ) -> Result<usize, EngineFault>
        ensures { IsNoted (outcome_of offered.now answer) fault self.old self.new result }
    {
        let outcome = outcome_of(answer, offered);
        self.calls = self.calls.saturating_add(1);
        self.failure = outcome.err();
        outcome.map_err(|_kind| fault)
    }
}

// Returns the number of bytes that a device answers to a call that offered it these bytes, or the
// kind of its failure: that of its error, or `WriteZero` if it took none of the bytes.
fn outcome_of(answer: io::Result<usize>, offered: &[u8]) -> Result<usize, ErrorKind>
    ensures { result ≡ outcome_of offered.now answer }
{
    match answer {
        Ok(0) if !offered.is_empty() => Err(ErrorKind::WriteZero),
        Ok(count) => Ok(count),
        Err(error) => Err(error.kind()),
    }
}

impl<R: Read> Watched<R> {
    /// Reads into `buffer` once and returns the number of bytes read: 0 only at the end of what the
    /// device has, or if `buffer` is empty.
    ///
    /// An error of the device is noted by its kind, and returned as `Read`. No call may have failed before.
    pub fn read(&mut self, buffer: &mut [u8]) -> Result<usize, EngineFault>
        requires working { has_failed self.old ≡ false }
        ensures bound { ReadsAtMost result buffer.new }
        ensures bytes { ReadConsumes (R.remaining (device_of self.old))
            (R.remaining (device_of self.new)) result buffer.new }
        ensures call { IsCall EngineFault.Read self.old self.new result }
    {
        let answer = self.device.read(buffer);
        self.noted(answer, &[], EngineFault::Read)
    }
}

impl<W: Write> Watched<W> {
    /// Writes from the start of `bytes` once and returns the number of bytes taken: 0 only if
    /// `bytes` is empty.
    ///
    /// An error of the device is noted by its kind and returned as `Write`, and so is an answer of 0
    /// to bytes that are not empty; nothing was written then. No call may have failed before.
    pub fn write(&mut self, bytes: &[u8]) -> Result<usize, EngineFault>
        requires working { has_failed self.old ≡ false }
        ensures bound { WritesAtMost result bytes.now }
        ensures some { IfOk result (λ taken. 0 < length bytes.now → 0 < taken) }
        ensures bytes { WriteAppends (W.contents (device_of self.old))
            (W.contents (device_of self.new)) result bytes.now }
        ensures call { IsCall EngineFault.Write self.old self.new result }
    {
        let answer = self.device.write(bytes);
        self.noted(answer, bytes, EngineFault::Write)
    }
}
