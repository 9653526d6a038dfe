//! Writing the report.

ghost use Rattle.std.specs.Prelude.{◌≡◌, false};
ghost use Rattle.devices.specs.Output.{SendsText};
ghost use Rattle.devices.specs.Watched.{device_of, has_failed};

use crate::fault::EngineFault;
use crate::watched::Watched;
use std::io::Write;

/// Writes all the bytes.
///
/// Fails with `Write` exactly if a write failed or took no byte; a prefix of the bytes was then
/// written, and nothing else.
pub fn send<W: Write>(writer: &mut Watched<W>, bytes: &[u8]) -> Result<(), EngineFault>
    requires { has_failed writer.old ≡ false }
    ensures { SendsText bytes.now (W.contents (device_of writer.old)) (W.contents (device_of writer.new))
        (has_failed writer.new) result }
{
    let mut sent = 0;
    while sent < bytes.len() {
        sent += writer.write(&bytes[sent..])?;
    }
    Ok(())
}
