//! Rows of a border.
ghost use Rattle.std.specs.Prelude.{◌≡◌, ◌<◌, ◌^◌, ◌+◌, OnOk, OnErr};

use crate::miss::Miss;
use crate::tell::{tell, tell_numbers};
use border_exchange::Side::{Leftward, Rightward};
use border_exchange::{Border, PutFault, Seat, Side, Totals};
use std::marker::Brand;
use std::sync::Wait;
use std::sync::ledger::{Blank, Ledger};
use test_programs::Note;

/// What is done on a border.
#[derive(Clone, Copy)]
enum Step {
    /// The side of the seat; the side, the round and the value of the message.
    Put(Side, Side, u32, u32),
    /// The side and the round of the message.
    Take(Side, u32),
    Close,
}

/// Puts from both sides, two of them out of turn, and takes, before the border is closed twice and
/// after that.
const PUTS_AND_TAKES: [Step; 13] = [
    Step::Put(Rightward, Rightward, 0, 1),
    Step::Put(Rightward, Rightward, 0, 1),
    Step::Put(Rightward, Leftward, 1, 3),
    Step::Put(Leftward, Leftward, 0, 2),
    Step::Take(Rightward, 0),
    Step::Take(Leftward, 0),
    Step::Close,
    Step::Close,
    Step::Take(Rightward, 0),
    Step::Take(Leftward, 0),
    Step::Take(Rightward, 1),
    Step::Put(Rightward, Rightward, 1, 4),
    Step::Put(Leftward, Leftward, 1, 5),
];

/// Eight puts, in which the list of a side grows twice.
const EIGHT_PUTS: [Step; 8] = [
    Step::Put(Rightward, Rightward, 0, 0),
    Step::Put(Rightward, Rightward, 1, 1),
    Step::Put(Rightward, Rightward, 2, 2),
    Step::Put(Rightward, Rightward, 3, 3),
    Step::Put(Rightward, Rightward, 4, 4),
    Step::Put(Rightward, Rightward, 5, 5),
    Step::Put(Rightward, Rightward, 6, 6),
    Step::Put(Rightward, Rightward, 7, 7),
];

/// `Border::new` and `Border::put`: prints the results of puts and takes on a border, and its
/// messages at the end.
pub(crate) fn do_border<R: AllocGlobal + Print + Wait>(rt: &R) -> Result<(), Miss> {
    if use_new_border(rt, &PUTS_AND_TAKES)? {
        return Ok(());
    }
    tell(rt, "OutOfMemory");
    if use_new_border(rt, &PUTS_AND_TAKES)? {
        return Ok(());
    }
    Err(Miss::Wrong)
}

/// `Border::put`: prints the results of eight puts, and the border's messages at the end.
pub(crate) fn do_put<R: AllocGlobal + Print + Wait>(rt: &R) -> Result<(), Miss> {
    if use_new_border(rt, &EIGHT_PUTS)? {
        return Ok(());
    }
    Err(Miss::OtherCall)
}

// Uses a new border, and prints the results and its messages at the end. Returns `false` if the
// border could not be made.
fn use_new_border<R: AllocGlobal + Print + Wait>(rt: &R, steps: &[Step]) -> Result<bool, Miss> {
    let (right, left) = (Blank::new(1), Blank::new(1));
    use_border::<Brand, Brand, _>(rt, right, left, steps)
}

// Uses a border of the ledgers L and M in the same way.
fn use_border<L: Ledger, M: Ledger, R: AllocGlobal + Print + Wait>(
    rt: &R,
    right: Blank,
    left: Blank,
    steps: &[Step],
) -> Result<bool, Miss>
    requires right { (right.name ≡ L.name) × (right.parts ≡ L.parts) × (right.parts ≡ 1) }
    requires left { (left.name ≡ M.name) × (left.parts ≡ M.parts) × (left.parts ≡ 1) }
{
    let Ok((border, mut right, mut left)) = Border::<Note, L, M>::new(rt.alloc(), right, left)
    else {
        return Ok(false);
    };
    do_steps(rt, &border, &mut right, &mut left, steps)?;
    settle(rt, border, right, left)?;
    Ok(true)
}

// Ends a border with its two seats, and prints its messages.
fn settle<L: Ledger, M: Ledger, R: Print>(
    rt: &R,
    border: Border<Note, L, M>,
    right: Seat<L, M>,
    left: Seat<L, M>,
) -> Result<(), Miss>
    requires { (L.parts ≡ 1) × (M.parts ≡ 1) }
{
    if right.side() != Side::Rightward || left.side() != Side::Leftward {
        return Err(Miss::Wrong);
    }
    tell_totals(rt, &border.settle(right, left));
    Ok(())
}

// Prints the numbers of messages to the right and to the left, then their values in that order.
fn tell_totals<R: Print>(rt: &R, totals: &Totals<Note>) {
    let _ = println!(rt; "{} {}", totals.rightward.len(), totals.leftward.len());
    tell_values(rt, &totals.rightward);
    tell_values(rt, &totals.leftward);
}

// Uses a border by its seats, and prints the results.
fn do_steps<L: Ledger, M: Ledger, R: Print + Wait>(
    rt: &R,
    border: &Border<Note, L, M>,
    right: &mut Seat<L, M>,
    left: &mut Seat<L, M>,
    steps: &[Step],
) -> Result<(), Miss> {
    for step in steps {
        match *step {
            Step::Put(Rightward, side, round, value) => {
                put(rt, border, right, Note::new(side, round, value))?;
            }
            Step::Put(Leftward, side, round, value) => {
                put(rt, border, left, Note::new(side, round, value))?;
            }
            Step::Take(side, round) => take(rt, border, side, round),
            Step::Close => border.close(rt),
        }
    }
    Ok(())
}

// Puts a message, and prints the result. If memory was refused, puts the returned message a second
// time.
fn put<L: Ledger, M: Ledger, R: Print + Wait>(
    rt: &R,
    border: &Border<Note, L, M>,
    seat: &mut Seat<L, M>,
    message: Note,
) -> Result<(), Miss> {
    let before = seat.puts();
    if before > 8 {
        return Err(Miss::Wrong);
    }
    let answer = match border.put(rt, seat, message) {
        Err((back, PutFault::OutOfMemory)) if back == message && seat.puts() == before => {
            tell(rt, "OutOfMemory");
            border.put(rt, seat, back)
        }
        answer => answer,
    };
    match answer {
        Ok(()) => tell(rt, "put"),
        Err((back, PutFault::Misplaced)) if back == message => tell(rt, "misplaced"),
        Err((back, PutFault::Closed)) if back == message => tell(rt, "closed"),
        Err(_) => return Err(Miss::Wrong),
    }
    Ok(())
}

// Takes the message of a side and a round, and prints its value.
fn take<L: Ledger, M: Ledger, R: Print + Wait>(
    rt: &R,
    border: &Border<Note, L, M>,
    side: Side,
    round: u32,
) {
    match border.take(rt, side, round) {
        Some(note) => tell_numbers(rt, &[note.value]),
        None => tell(rt, "none"),
    }
}

// Prints the values of messages, one on a line.
fn tell_values<R: Print>(rt: &R, notes: &[Note]) {
    for note in notes {
        tell_numbers(rt, &[note.value]);
    }
}
