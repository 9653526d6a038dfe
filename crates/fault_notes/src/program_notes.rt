//! The note on a program that is not accepted.

ghost use Rattle.std.specs.Prelude.{◌≡◌, ◌≤◌, ◌↔◌, ◌++◌, ℕ, IsTrue, IfOk, IfSome, IfNone, string_bytes};
ghost use Rattle.win_index.specs.declared.limits.TheConstants.{MAX_ROUNDS};
ghost use Rattle.win_index.specs.ShapeRange.{IsShape};
ghost use Rattle.fault_notes.specs.Located.{located_note};
ghost use Rattle.fault_notes.specs.FaultTokens.{offset_of_cause};
ghost use Rattle.lang_check.specs.declared.acceptance.CheckFault.TheVariants as check;
ghost use Rattle.fault_notes.specs.ProgramNotes.{IsMostIds, IsIdsNote, IsCheckNote, register_cause, rounds_take};
ghost use Rattle.fault_notes.specs.ProgramNotes as notes;
ghost use Rattle.fault_notes.specs.BoundNotes.{growth_text};

use crate::bound_lines::write_growth;
use crate::cause_tokens::has_not;
use crate::located::located_note;
use lang_check::CheckFault;
use node_lang::{MAX_CHANNELS, Program};
use node_program::OutOfMemory;
use std::alloc::{AllocError, Global};
use win_index::{MAX_IDS, MAX_ROUNDS, Shape, count_of_windows};

/// Returns the note on the refusal of the program of a text for `ids` identifiers: the possible
/// numbers of identifiers, or the cause and the location of the first token that is the cause, or the
/// bound of the channels, the bounds of the register that makes it so large, and a line on `not` if
/// the text has it and no number of channels is above the bound. Fails if memory was refused.
pub fn check_note(
    alloc: Global,
    text: &[u8],
    program: &Program,
    ids: u32,
    fault: CheckFault,
) -> Result<String, OutOfMemory>
    ensures { IfOk result (λ note. IsCheckNote text.now program.now ids fault (string_bytes note)) }
{
    match fault {
        CheckFault::IdsOutOfRange | CheckFault::TooManyWindows => {
            ids_note(alloc, program.rounds(), ids)
        }
        CheckFault::RegisterOutOfRange(register) => register_note(alloc, text, register),
        CheckFault::IdOutsideStart => {
            let cause = "`id` can be read in `start` alone; keep it in a register";
            located_note(alloc, text, CheckFault::IdOutsideStart, cause)
        }
        CheckFault::MessageOutsideStep => {
            let cause =
                "`L` and `R` can be read in the assignments of a round alone; keep them in registers there";
            located_note(alloc, text, CheckFault::MessageOutsideStep, cause)
        }
        CheckFault::ChannelBound(bound) => bound_note(alloc, text, program, ids, bound),
    }
}

// Returns whether these numbers of identifiers and of rounds make a shape.
fn makes_shape(ids: u32, rounds: u32) -> bool
    requires { rounds ≤ MAX_ROUNDS }
    ensures { IsTrue result ↔ IsShape ids rounds }
{
    Shape::new(ids, rounds).is_ok()
}

// Returns the greatest number of identifiers that makes a shape with `rounds` rounds.
fn most_ids(rounds: u32) -> Option<u32>
    requires { rounds ≤ MAX_ROUNDS }
    ensures most { IfSome result (IsMostIds rounds) }
    ensures none { IfNone result ((m : ℕ) → ¬ IsShape m rounds) }
{
    count_of_windows();
    'fewer: for fewer in 0..MAX_IDS + 1 {
        let ids = MAX_IDS - fewer;
        if makes_shape(ids, rounds) {
            return Some(ids);
        }
    }
    None
}

// Returns the text after a number of rounds.
fn rounds_take(rounds: u32) -> &'static str
    ensures { result.now ≡ rounds_take rounds }
{
    if rounds == 1 {
        return " round takes ";
    }
    " rounds take "
}

// Returns the text for the possible numbers of identifiers.
fn ids_range(alloc: Global, least: u32, most: u32) -> Result<String, AllocError>
    ensures { IfOk result (λ range. string_bytes range ≡ notes.ids_range least most) }
{
    if least == most {
        return format!(in alloc; "exactly {least}");
    }
    format!(in alloc; "{least} to {most}")
}

/// Returns the note on a number of identifiers that makes no shape with a number of rounds: the
/// possible numbers. Fails if memory was refused.
pub fn ids_note(alloc: Global, rounds: u32, ids: u32) -> Result<String, OutOfMemory>
    requires { rounds ≤ MAX_ROUNDS }
    ensures { IfOk result (λ note. IsIdsNote rounds ids (string_bytes note)) }
{
    let Some(most) = most_ids(rounds) else {
        return Ok(format!(in alloc; "nbhd: so many rounds take no number of identifiers\n")?);
    };
    let take = rounds_take(rounds);
    let range = ids_range(alloc, 2 * rounds + 2, most)?;
    Ok(format!(in alloc; "nbhd: {rounds}{take}{range} identifiers, not {ids}\n")?)
}

// Returns the note on a register that the program does not have.
fn register_note(alloc: Global, text: &[u8], register: u32) -> Result<String, OutOfMemory>
    ensures { IfOk result (λ note. string_bytes note ≡ located_note text.now (register_cause register)
        (offset_of_cause text.now (check.RegisterOutOfRange register))) }
{
    let cause = format!(in alloc;
        "there is no register r{register}; `registers` says how many there are, from r0 to at most r7"
    )?;
    located_note(
        alloc,
        text,
        CheckFault::RegisterOutOfRange(register),
        &cause,
    )
}

// Returns the note on channels that could be too large, and on what makes them so.
fn bound_note(
    alloc: Global,
    text: &[u8],
    program: &Program,
    ids: u32,
    bound: u32,
) -> Result<String, OutOfMemory>
    ensures { IfOk result (λ note. string_bytes note
        ≡ (notes.bound_note program.now.channels bound ++ growth_text program.now ids)
        ++ notes.not_line text.now bound) }
{
    let mut note = channels_note(alloc, program.channels(), bound)?;
    write_growth(alloc, &mut note, program, ids)?;
    note.push_str(not_line(text, bound))?;
    Ok(note)
}

// Returns a line on `not` if a text has it and no number of channels is above the bound.
fn not_line(text: &[u8], bound: u32) -> &'static str
    ensures { result.now ≡ notes.not_line text.now bound }
{
    if bound < MAX_CHANNELS {
        return "";
    }
    if has_not(text) {
        return "nbhd: `not` changes all 32 bits of a number: the opposite of a condition x is `eq(x, 0)`\n";
    }
    ""
}

// Returns the note on a bound that is not below the number of channels.
fn channels_note(alloc: Global, channels: u32, bound: u32) -> Result<String, AllocError>
    ensures { IfOk result (λ note. string_bytes note ≡ notes.bound_note channels bound) }
{
    let most = channels.saturating_sub(1);
    if bound >= MAX_CHANNELS {
        return format!(in alloc;
            "nbhd: the bound of `finish` is {bound}, which its values need not reach, and `channels` is at most 4096: with `channels {channels}` write `finish min(.., {most})` if none exceeds {most}\n"
        );
    }
    let enough = bound + 1;
    format!(in alloc;
        "nbhd: the bound of `finish` is {bound}, which its values need not reach: write `channels {enough}` or more, or `finish min(.., {most})` if none exceeds {most}\n"
    )
}
