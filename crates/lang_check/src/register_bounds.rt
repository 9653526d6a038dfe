//! Upper bounds of registers after each round.
ghost use Rattle.std.specs.Prelude.{◌≡◌, ◌-◌, ◌≤◌, map, length, Some};
ghost use Rattle.node_program.specs.Term.{term_of, step_of};
ghost use Rattle.node_program.specs.Bounds as bounds;
ghost use Rattle.lang_check.specs.Misplaced as misplaced;
ghost use Rattle.node_program.specs.Value.{env_of};

use crate::bounds::bound_of;
use crate::occurrences::register_over;
use node_program::{Env, Expr, MAX_REGISTERS, Program, Round};

/// Returns the bound of the channels of a program for `ids` identifiers.
#[tactic(auto, unfolding(node_program::specs::Bounds::finish_bound))]
pub fn bound_of_finish(program: &Program, ids: u32) -> u32
    ensures { result ≡ bounds.finish_bound program.now ids }
{
    let mut cells = [0; MAX_REGISTERS as usize];
    let count = program.registers() as usize;
    let registers = &mut cells[..count];
    bounds_after(program, ids, program.rounds(), registers);
    bound_of(program.finish(), limits(ids, 0, 0, registers))
}

/// Writes the bounds of the registers after this many rounds of a program, for `ids` identifiers. The
/// slice has one cell per register. No rounds are those after the assignments of `start`.
pub fn bounds_after(program: &Program, ids: u32, rounds: u32, registers: &mut [u32])
    requires rounds { rounds ≤ length program.now.steps }
    requires cells { length registers.old ≡ length program.now.start }
    ensures { registers.new ≡ bounds.register_bounds program.now ids rounds }
{
    assign_bounds(program.start(), limits(ids, 0, 0, &[]), registers);
    for round in 0..rounds as usize {
        round_bounds(&program.steps()[round], ids, registers);
    }
}

/// Returns the first register that the expression of `finish` reads and whose bound after the last
/// round is not below the number of channels, for `ids` identifiers.
pub fn register_over_channels(program: &Program, ids: u32) -> Option<u32>
    ensures { result ≡ misplaced.register_over_channels program.now ids }
{
    let mut cells = [0; MAX_REGISTERS as usize];
    let count = program.registers() as usize;
    let registers = &mut cells[..count];
    bounds_after(program, ids, program.rounds(), registers);
    register_over(program.channels(), registers, program.finish())
}

// Replaces the bounds of the registers before a round by those after it.
fn round_bounds(round: &Round, ids: u32, registers: &mut [u32])
    requires each { length registers.old ≡ length round.now.next.items }
    requires few { length registers.old ≤ MAX_REGISTERS }
    ensures { registers.new ≡ bounds.next_bounds (Some (step_of round.now)) ids registers.old }
{
    let mut cells = [0; MAX_REGISTERS as usize];
    let count = registers.len();
    let before = &mut cells[..count];
    before.copy_from_slice(registers);
    let to_left = bound_of(&round.left, limits(ids, 0, 0, before));
    let to_right = bound_of(&round.right, limits(ids, 0, 0, before));
    assign_bounds(
        &round.next,
        limits(ids, to_right, to_left, before),
        registers,
    );
}

// Writes the bound of each expression to the cell at its index, all from the same limits.
fn assign_bounds(expressions: &[Expr], limits: Env<'_>, out: &mut [u32])
    requires { length out.old ≡ length expressions.now }
    ensures { out.new ≡ map (λ e. bounds.bound e (env_of limits.entry)) (map term_of expressions.now) }
{
    for (i, expression) in expressions.iter().enumerate() {
        out[i] = bound_of(expression, limits);
    }
}

// Returns the bounds of what an expression may read, with this number of identifiers.
pub(crate) fn limits(ids: u32, left: u32, right: u32, registers: &[u32]) -> Env<'_>
    ensures id { result.id ≡ ids - 1 }
    ensures left { result.left ≡ left }
    ensures right { result.right ≡ right }
    ensures registers { result.registers.now ≡ registers.now }
{
    Env {
        id: ids.saturating_sub(1),
        left,
        right,
        registers,
    }
}
