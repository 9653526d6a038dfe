//! Reading the input.

ghost use Rattle.std.specs.Prelude.{◌≡◌, ◌+◌, ◌≤◌, false, IfOk, OnErr};
ghost use Rattle.devices.specs.Input.{GivesInput, TakesFront};
ghost use Rattle.devices.specs.Watched.{device_of, has_failed, calls_of, FailsByReadOrMemory};

use crate::fault::EngineFault;
use crate::watched::Watched;
use std::alloc::Global;
use std::io::Read;

/// The maximum number of bytes requested in one read.
const CHUNK: usize = 1 << 16;

/// Reads the whole input, or the first `most` bytes of a longer one, in at most `most` reads.
///
/// Fails with `Read` exactly if a read failed, and with `Memory` if memory was refused; in both
/// cases up to `most` bytes were taken from the reader.
pub fn read_input<R: Read>(
    alloc: Global,
    reader: &mut Watched<R>,
    most: usize,
) -> Result<Vec<u8>, EngineFault>
    requires { has_failed reader.old ≡ false }
    ensures input { IfOk result (λ input. GivesInput (R.remaining (device_of reader.old))
        (R.remaining (device_of reader.new)) most input.items) }
    ensures refused { OnErr result (TakesFront (R.remaining (device_of reader.old))
        (R.remaining (device_of reader.new)) most) }
    ensures failed { FailsByReadOrMemory result (has_failed reader.new) }
    ensures asked { calls_of reader.new ≤ calls_of reader.old + most }
{
    let mut input = Vec::new(alloc);
    let mut chunk = [0u8; CHUNK];
    'reads: for _turn in 0..most {
        if input.len() >= most {
            break;
        }
        let room = CHUNK.min(most - input.len());
        let count = reader.read(&mut chunk[..room])?;
        if count == 0 {
            break;
        }
        input.extend_from_slice(&chunk[..count])?;
    }
    Ok(input)
}
