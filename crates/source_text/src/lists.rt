//! Lists of numbers.

ghost use Rattle.std.specs.Prelude.{◌≡◌, ◌++◌, OnOk, string_bytes};
ghost use Rattle.source_text.specs.Lists.{joined};

use std::alloc::AllocError;
use std::fmt::Write;

/// Writes numbers in decimal, separated by `between`.
///
/// Fails if memory was refused; `out` can then have a part of the list.
pub fn write_joined(out: &mut String, numbers: &[u32], between: &str) -> Result<(), AllocError>
    ensures { OnOk result (string_bytes out.new ≡ string_bytes out.old ++ joined between.now numbers.now) }
{
    let [first, others @ ..] = numbers else {
        return Ok(());
    };
    write!(out, "{first}")?;
    'others: for number in others {
        write!(out, "{between}{number}")?;
    }
    Ok(())
}
