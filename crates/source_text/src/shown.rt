//! A line of a text, with a mark below one of its bytes.

ghost use Rattle.std.specs.Prelude.{◌≡◌, ◌≤◌, ◌++◌, length, take, replicate, OnOk, string_bytes};
ghost use Rattle.source_text.specs.Shown.{escaped, escaped_bytes, shown_byte, shown, seen_byte};
ghost use Rattle.source_text.specs.Shown.{marked_line, last_bytes};

use crate::lines::{line_before, line_from};
use std::alloc::AllocError;
use std::fmt::Write;

/// The maximum number of bytes of a line that are shown before a byte, and from it on.
pub const SHOWN_BYTES: usize = 60;

/// Writes the line of the byte at this offset, and a line with a mark below the byte. At most
/// `SHOWN_BYTES` bytes before the byte and as many from it on are written, as `write_shown` writes
/// them. The offset can be the text's length.
///
/// Fails if memory was refused; `out` can then have a part of the lines.
#[tactic(auto, unfolding(crate::specs::Shown::marked_line))]
pub fn write_marked_line(out: &mut String, text: &[u8], offset: usize) -> Result<(), AllocError>
    requires { offset ≤ length text.now }
    ensures { OnOk result (string_bytes out.new ≡ string_bytes out.old ++ marked_line text.now offset) }
{
    let before = last_of(line_before(text, offset), SHOWN_BYTES);
    let from = first_of(line_from(text, offset), SHOWN_BYTES);
    out.push_str("  ")?;
    write_shown(out, before)?;
    write_shown(out, from)?;
    out.push_str("\n  ")?;
    write_blanks(out, before)?;
    out.push_str("^\n")?;
    Ok(())
}

// Returns the last `count` bytes, or all if there are fewer.
fn last_of(bytes: &[u8], count: usize) -> &[u8]
    ensures { result.now ≡ last_bytes count bytes.entry.now }
{
    &bytes[bytes.len().saturating_sub(count)..]
}

/// Returns the first `count` bytes, or all if there are fewer.
#[tactic(auto, using(std::proofs::lemmas::List::take_all))]
pub fn first_of(bytes: &[u8], count: usize) -> &[u8]
    ensures { result.now ≡ take count bytes.entry.now }
{
    if bytes.len() <= count {
        return bytes;
    }
    &bytes[..count]
}

// Writes `\x` and two hexadecimal digits.
#[tactic(auto, using(std::proofs::lemmas::Fmt::hex_byte))]
fn write_escape(out: &mut String, byte: u8) -> Result<(), AllocError>
    ensures { OnOk result (string_bytes out.new ≡ string_bytes out.old ++ escaped byte) }
{
    write!(out, "\\x{byte:02x}")
}

// Writes a byte so that it is seen, a tab or a carriage return too.
fn write_seen_byte(out: &mut String, byte: u8) -> Result<(), AllocError>
    ensures { OnOk result (string_bytes out.new ≡ string_bytes out.old ++ seen_byte byte) }
{
    if byte >= b' ' && byte < 127 {
        return out.push(char::from(byte));
    }
    write_escape(out, byte)
}

// Writes a byte as it is shown.
fn write_byte(out: &mut String, byte: u8) -> Result<(), AllocError>
    ensures { OnOk result (string_bytes out.new ≡ string_bytes out.old ++ shown_byte byte) }
{
    if byte == b'\t' || byte == b'\r' {
        return out.push(' ');
    }
    write_seen_byte(out, byte)
}

/// Writes bytes as they are shown: a printable ASCII byte unchanged, a tab or a carriage return as
/// a blank, and any other byte as `\x` and two hexadecimal digits.
pub fn write_shown(out: &mut String, bytes: &[u8]) -> Result<(), AllocError>
    ensures { OnOk result (string_bytes out.new ≡ string_bytes out.old ++ shown bytes.now) }
{
    'bytes: for byte in bytes {
        write_byte(out, *byte)?;
    }
    Ok(())
}

/// Writes bytes so that each is seen: a printable ASCII byte unchanged, and any other byte, a tab and
/// a carriage return too, as `\x` and two hexadecimal digits.
///
/// Fails if memory was refused; `out` can then have a part of them.
pub fn write_escaped(out: &mut String, bytes: &[u8]) -> Result<(), AllocError>
    ensures { OnOk result (string_bytes out.new ≡ string_bytes out.old ++ escaped_bytes bytes.now) }
{
    'bytes: for byte in bytes {
        write_seen_byte(out, *byte)?;
    }
    Ok(())
}

// Returns a blank for each byte that `write_byte` writes for this byte.
fn blanks_of(byte: u8) -> &'static str
    ensures { result.now ≡ replicate (length (shown_byte byte)) 32 }
{
    if matches!(byte, b'\t' | b'\r' | b' '..=b'~') {
        return " ";
    }
    "    "
}

// Writes a blank for each byte that `write_shown` writes for these bytes.
fn write_blanks(out: &mut String, bytes: &[u8]) -> Result<(), AllocError>
    ensures { OnOk result (string_bytes out.new ≡ string_bytes out.old ++ replicate (length (shown bytes.now)) 32) }
{
    'bytes: for byte in bytes {
        out.push_str(blanks_of(*byte))?;
    }
    Ok(())
}
