//! The bounds of the register that makes channels too large.

ghost use Rattle.std.specs.Prelude.{◌≡◌, ◌≤◌, ◌++◌, length, slice_index, IfOk, OnOk, string_bytes};
ghost use Rattle.node_program.specs.Bounds as bounds;
ghost use Rattle.fault_notes.specs.BoundNotes as notes;

use lang_check::{bounds_after, register_over_channels};
use node_lang::{MAX_REGISTERS, Program};
use source_text::write_joined;
use std::alloc::{AllocError, Global};
use std::fmt::Write;

/// Writes a line with the bounds, after `start` and after each round, of the first register that
/// `finish` reads and whose last bound is not below the number of channels. Writes nothing if there
/// is none. Fails if memory was refused.
pub(crate) fn write_growth(
    alloc: Global,
    out: &mut String,
    program: &Program,
    ids: u32,
) -> Result<(), AllocError>
    ensures { OnOk result (string_bytes out.new ≡ string_bytes out.old ++ notes.growth_text program.now ids) }
{
    let Some(register) = register_over_channels(program, ids) else {
        return Ok(());
    };
    let bounds = bounds_in_time(alloc, program, ids, register)?;
    write_bounds(out, register, &bounds)
}

// Writes the line with these bounds of a register.
fn write_bounds(out: &mut String, register: u32, bounds: &[u32]) -> Result<(), AllocError>
    ensures { OnOk result (string_bytes out.new ≡ string_bytes out.old ++ notes.bounds_line register bounds.now) }
{
    write!(
        out,
        "nbhd: bounds of r{register} after `start` and each round: "
    )?;
    write_joined(out, bounds, " ")?;
    out.push_str("\n")
}

// Returns the bounds of a register after `start` and after each round.
fn bounds_in_time(
    alloc: Global,
    program: &Program,
    ids: u32,
    register: u32,
) -> Result<Vec<u32>, AllocError>
    ensures { IfOk result (λ bounds. bounds.items ≡ notes.bounds_in_time program.now ids register) }
{
    let mut bounds = Vec::new(alloc);
    for rounds in 0..program.rounds() + 1 {
        let bound = bound_after(program, ids, rounds, register);
        bounds.push(bound)?;
    }
    Ok(bounds)
}

// Returns the bound of a register after this many rounds, or 0 if the program lacks it.
fn bound_after(program: &Program, ids: u32, rounds: u32, register: u32) -> u32
    requires { rounds ≤ length program.now.steps }
    ensures { result ≡ slice_index (bounds.register_bounds program.now ids rounds) register }
{
    let mut cells = [0; MAX_REGISTERS as usize];
    let registers = &mut cells[..program.registers() as usize];
    bounds_after(program, ids, rounds, registers);
    registers.get(register as usize).copied().unwrap_or(0)
}
