//! The trace of a ring: the registers and the messages of its places, round by round.

ghost use Rattle.std.specs.Prelude.{◌≡◌, ◌+◌, ◌<◌, length, map, IfOk, OnOk};
ghost use Rattle.round_eval.specs.Configuration.{quantity, CanRead};
ghost use Rattle.value_trees.specs.Rows.{of_places, register_rows, round_rows, rounds_rows, trace_rows};
ghost use Rattle.value_trees.specs.Rows.{items_of, rows_of_round, rows_of};

use lang_check::Plan;
use node_program::OutOfMemory;
use round_eval::{Configuration, Quantity};
use std::alloc::{AllocError, Global};
use win_index::Ring;

/// The values of a ring's places, round by round. A row has a number for each place, from place 0 on.
#[derive(Drop)]
pub struct Trace {
    /// A row for each register before the first round.
    pub start: Vec<Vec<u32>>,
    /// The rounds in order.
    pub rounds: Vec<RoundTrace>,
    /// The row of the channels.
    pub finish: Vec<u32>,
}

/// The values of a ring's places in a round.
#[derive(Drop)]
pub struct RoundTrace {
    /// The row of the messages to the left.
    pub left: Vec<u32>,
    /// The row of the messages to the right.
    pub right: Vec<u32>,
    /// A row for each register after the round.
    pub registers: Vec<Vec<u32>>,
}

/// Returns the trace of a ring by a plan. The ring must have the plan's number of identifiers. Fails
/// with `OutOfMemory` if memory was refused.
pub fn trace_of(alloc: Global, plan: &Plan, ring: &Ring) -> Result<Trace, OutOfMemory>
    requires { ring.now.ids ≡ plan.now.ids }
    ensures { IfOk result (λ trace. rows_of trace ≡ trace_rows plan.now.program ring.now.places) }
{
    let mut places = Configuration::new(alloc, plan, ring)?;
    let start = registers_of(alloc, &places)?;
    let rounds = rounds_of(alloc, &mut places, plan.shape().rounds())?;
    let finish = numbers_of(alloc, &places, Quantity::Channel)?;
    Ok(Trace {
        start,
        rounds,
        finish,
    })
}

// Returns the rows of all rounds, and does them.
fn rounds_of(
    alloc: Global,
    places: &mut Configuration<'_>,
    count: u32,
) -> Result<Vec<RoundTrace>, AllocError>
    requires start { places.old.round ≡ 0 }
    requires count { count ≡ length places.old.program.steps }
    ensures rows { IfOk result (λ rounds. map rows_of_round rounds.items
        ≡ rounds_rows places.old.program places.old.places) }
    ensures done { OnOk result (places.new ≡ record places.old { round = length places.old.program.steps }) }
{
    let mut rounds = Vec::with_capacity(alloc, count as usize)?;
    for _round in 0..count {
        rounds.push(next_round(alloc, places)?)?;
    }
    Ok(rounds)
}

// Returns the rows of the next round, and does it.
fn next_round(alloc: Global, places: &mut Configuration<'_>) -> Result<RoundTrace, AllocError>
    requires { places.old.round < length places.old.program.steps }
    ensures rows { IfOk result (λ round. rows_of_round round
        ≡ round_rows places.old.program places.old.places places.old.round) }
    ensures done { OnOk result (places.new ≡ record places.old { round = places.old.round + 1 }) }
{
    let left = numbers_of(alloc, places, Quantity::Left)?;
    let right = numbers_of(alloc, places, Quantity::Right)?;
    places.advance();
    let registers = registers_of(alloc, places)?;
    Ok(RoundTrace {
        left,
        right,
        registers,
    })
}

// Returns a row for each register.
fn registers_of(alloc: Global, places: &Configuration<'_>) -> Result<Vec<Vec<u32>>, AllocError>
    ensures { IfOk result (λ rows. items_of rows.items
        ≡ register_rows places.now.program places.now.places places.now.round) }
{
    let mut rows = Vec::with_capacity(alloc, places.registers() as usize)?;
    for register in 0..places.registers() {
        rows.push(numbers_of(alloc, places, Quantity::Register(register))?)?;
    }
    Ok(rows)
}

// Returns the number `what` of each place.
fn numbers_of(
    alloc: Global,
    places: &Configuration<'_>,
    what: Quantity,
) -> Result<Vec<u32>, AllocError>
    requires { CanRead places.now what }
    ensures { IfOk result (λ numbers. numbers.items ≡ of_places places.now.places (quantity places.now what)) }
{
    let mut numbers = Vec::with_capacity(alloc, places.places() as usize)?;
    for place in 0..places.places() {
        numbers.push(places.quantity(what, place))?;
    }
    Ok(numbers)
}
