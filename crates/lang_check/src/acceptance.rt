//! Which programs are accepted, and the order of refusals.
ghost use Rattle.std.specs.Prelude.{◌≡◌, ◌↔◌, length, IfOk, IfErr, IsOk};
ghost use Rattle.win_index.specs.ShapeRange.{IsShape};
ghost use Rattle.node_program.specs.Bounds.{finish_bound};
ghost use Rattle.lang_check.specs.Acceptance.{IsAccepted};
ghost use Rattle.lang_check.specs.Refusals.{IsFirstRefusal};

use crate::plan::Plan;
use crate::{bound_of_finish, id_is_misplaced, message_is_misplaced, missing_register};
use node_program::Program;
use win_index::{Shape, ShapeFault};

/// Why a program is not accepted for a number of identifiers.
#[derive(Clone, Copy, Debug, PartialEq, Eq)]
pub enum CheckFault {
    /// X1: fewer than `2t+2` identifiers for `t` rounds, or more than `MAX_IDS`.
    IdsOutOfRange,
    /// X2: more than `MAX_WINDOWS` windows of level `t`.
    TooManyWindows,
    /// C1: an expression reads this register, which the program does not have; it is the first such
    /// register in reading order.
    RegisterOutOfRange(u32),
    /// C2: `id` is read outside the assignments of `start`.
    IdOutsideStart,
    /// C3: `L` or `R` is read outside the assignments of a round.
    MessageOutsideStep,
    /// C4: the bound of the channels is this number, which is not below the number of channels.
    ChannelBound(u32),
}

/// Accepts a program for `ids` identifiers. Returns its plan, or the program and its first refusal,
/// in the order of `CheckFault`.
pub fn accept(program: Program, ids: u32) -> Result<Plan, (Program, CheckFault)>
    ensures ok { IfOk result (λ plan. (plan.program ≡ program) × (plan.ids ≡ ids)) }
    ensures exact { IsOk result ↔ IsAccepted ids program }
    ensures err { IfErr result (λ e. (e.0 ≡ program) × IsFirstRefusal ids program e.1) }
{
    let shape = match Shape::new(ids, program.rounds()) {
        Ok(shape) => shape,
        Err(ShapeFault::IdsOutOfRange) => return Err((program, CheckFault::IdsOutOfRange)),
        Err(ShapeFault::TooManyWindows) => return Err((program, CheckFault::TooManyWindows)),
    };
    match channel_bound(&program, ids) {
        Ok(bound) => Ok(Plan {
            program,
            shape,
            bound,
        }),
        Err(fault) => Err((program, fault)),
    }
}

// Returns the bound of the channels, or the first refusal of C1 to C4.
fn channel_bound(program: &Program, ids: u32) -> Result<u32, CheckFault>
    ensures ok { IsShape ids (length program.now.steps)
        → IfOk result (λ bound. IsAccepted ids program.now × (bound ≡ finish_bound program.now ids)) }
    ensures err { IsShape ids (length program.now.steps) → IfErr result (IsFirstRefusal ids program.now) }
{
    if let Some(register) = missing_register(program) {
        return Err(CheckFault::RegisterOutOfRange(register));
    }
    if id_is_misplaced(program) {
        return Err(CheckFault::IdOutsideStart);
    }
    if message_is_misplaced(program) {
        return Err(CheckFault::MessageOutsideStep);
    }
    let bound = bound_of_finish(program, ids);
    if bound >= program.channels() {
        return Err(CheckFault::ChannelBound(bound));
    }
    Ok(bound)
}
