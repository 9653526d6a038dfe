//! What a program must not read.
ghost use Rattle.std.specs.Prelude.{◌≡◌};
ghost use Rattle.lang_check.specs.Misplaced.{first_missing_register, reads_id_outside_start};
ghost use Rattle.lang_check.specs.Misplaced.{reads_message_outside_step};

use crate::occurrences::{
    any_uses_message, missing_in_rounds, missing_in_term, missing_in_terms, rounds_use_id,
    sends_use_message, uses_id, uses_message,
};
use node_program::Program;

/// Returns the first register in reading order that the program does not have.
pub fn missing_register(program: &Program) -> Option<u32>
    ensures { result ≡ first_missing_register program.now }
{
    let count = program.registers();
    let in_rounds = missing_in_rounds(count, program.steps());
    let later = in_rounds.or(missing_in_term(count, program.finish()));
    missing_in_terms(count, program.start()).or(later)
}

/// Returns whether the identifier is read outside the start.
pub fn id_is_misplaced(program: &Program) -> bool
    ensures { result ≡ reads_id_outside_start program.now }
{
    rounds_use_id(program.steps()) || uses_id(program.finish())
}

/// Returns whether a message is read outside the assignments of a round.
pub fn message_is_misplaced(program: &Program) -> bool
    ensures { result ≡ reads_message_outside_step program.now }
{
    any_uses_message(program.start())
        || sends_use_message(program.steps())
        || uses_message(program.finish())
}
