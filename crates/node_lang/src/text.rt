//! Reading a program text.
ghost use Rattle.std.specs.Prelude.{◌≡◌, ◌≢◌, ℕ, ◌<◌, ◌≤◌, List, Some, Err, length, position, All, IfOk, IfErr};
ghost use Rattle.std.specs.Prelude.{IfSome, IfNone};
ghost use Rattle.node_lang.specs.declared.fault.FaultKind.TheVariants as kind;
ghost use Rattle.node_program.specs.Term.{ProgramTree};
ghost use Rattle.node_lang.specs.Grammar.{Reads};
ghost use Rattle.node_lang.specs.declared.fault.FaultKind.{FaultKind};
ghost use Rattle.node_lang.specs.declared.expected.Expected.TheVariants as expected;
ghost use Rattle.node_lang.specs.Following.{IsExpected};
ghost use Rattle.node_lang.specs.Faults.{FaultsAt, IsFirstHighByte};
ghost use Rattle.node_lang.specs.Parsing.{StopsAt};

use crate::expected::Expected;
use crate::fault::{FaultKind, Stop, TextFault};
use crate::limits::LONGEST_TEXT;
use crate::parser::Parser;
use node_program::{OutOfMemory, Program};
use std::alloc::Global;

// Returns the index of the first byte over 127.
fn high_byte(text: &[u8]) -> Option<usize>
    ensures found { IfSome result (IsFirstHighByte text.now) }
    ensures none { IfNone result (All (λ b. b < 128) text.now) }
{
    text.iter().position(|byte| *byte > 127)
}

// Parses a short ASCII text.
fn read(alloc: Global, text: &[u8]) -> Result<Program, Stop>
    requires short { length text.now ≤ LONGEST_TEXT }
    requires ascii { All (λ b. b < 128) text.now }
    ensures program { IfOk result (Reads text.now) }
    ensures stop { IfErr result (StopsAt text.now) }
{
    let mut parser = Parser {
        alloc,
        text,
        at: 0,
        nodes: 0,
    };
    parser.whole()
}

/// Parses a program text of at most `LONGEST_TEXT` bytes.
///
/// A longer text is `TooLong` at offset `LONGEST_TEXT`. In any other text, a byte over 127 is
/// `NotAscii` at the first such byte. Otherwise the fault is at the first offset at which the text is
/// no longer a prefix of a program: `BadWord` and `NumberTooLarge` at a token's first byte,
/// `HeaderRange` at a number of the header, `Unexpected` at a token that is not allowed there,
/// `TooDeep` and `TooManyNodes` at the first token of an expression node, and `EndOfText` at the
/// text's length. `OutOfMemory`, at offset 0, can replace any result but `TooLong` and `NotAscii`.
pub fn parse(alloc: Global, text: &[u8]) -> Result<Program, TextFault>
    ensures program { IfOk result (Reads text.now) }
    ensures none { IfErr result (λ f. f.kind ≢ kind.OutOfMemory → (p : ProgramTree) → Reads text.now p → ⊥) }
    ensures memory { IfErr result (λ f. f.kind ≡ kind.OutOfMemory → f.offset ≡ 0) }
    ensures fault { IfErr result (λ f. f.kind ≢ kind.OutOfMemory → FaultsAt text.now f.kind f.offset) }
    ensures too_long { LONGEST_TEXT < length text.now
        → result ≡ Err (record { kind = kind.TooLong; offset = LONGEST_TEXT }) }
    ensures not_ascii { (offset : ℕ) → length text.now ≤ LONGEST_TEXT → IsFirstHighByte text.now offset →
        result ≡ Err (record { kind = kind.NotAscii; offset = offset }) }
{
    if text.len() > LONGEST_TEXT {
        return Err(TextFault::at(FaultKind::TooLong, LONGEST_TEXT));
    }
    if let Some(offset) = high_byte(text) {
        return Err(TextFault::at(FaultKind::NotAscii, offset));
    }
    match read(alloc, text) {
        Ok(program) => Ok(program),
        Err(stop) => Err(TextFault::at(stop.kind, stop.offset)),
    }
}

/// Returns what is expected at the fault of a program text: what can follow the tokens before it.
/// Returns the end for a text without a fault, and `None` for a text that is too long or not ASCII.
/// Fails with `OutOfMemory` if memory was refused.
pub fn expected_in(alloc: Global, text: &[u8]) -> Result<Option<Expected>, OutOfMemory>
    ensures fault { IfOk result (λ found. (k : FaultKind) (offset : ℕ) → FaultsAt text.now k offset
        → IsExpected text.now k offset found) }
    ensures none { IfOk result (λ found. (p : ProgramTree) → Reads text.now p → found ≡ Some expected.End) }
{
    if text.len() > LONGEST_TEXT {
        return Ok(None);
    }
    if high_byte(text).is_some() {
        return Ok(None);
    }
    match read(alloc, text) {
        Ok(_) => Ok(Some(Expected::End)),
        Err(stop) => match stop.kind {
            FaultKind::OutOfMemory => Err(OutOfMemory),
            _ => Ok(Some(stop.expected)),
        },
    }
}
