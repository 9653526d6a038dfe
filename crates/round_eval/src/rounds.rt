//! All rounds of a ring on one thread.
ghost use Rattle.std.specs.Prelude.{◌≡◌, length, IfOk};
ghost use Rattle.node_program.specs.GlobalRounds.{channels_of};
ghost use Rattle.round_eval.specs.Shapes.{IsOfShape};

use crate::configuration::{Configuration, Quantity};
use lang_check::Plan;
use node_program::OutOfMemory;
use std::alloc::Global;
use win_index::Ring;

/// Runs all rounds of a plan on a ring of its shape, and returns the channels in the order of the
/// places. In each round all nodes send, and then all of them step.
pub fn plain_run(alloc: Global, plan: &Plan, ring: &Ring) -> Result<Vec<u32>, OutOfMemory>
    requires shape { IsOfShape ring.now plan.now }
    ensures { IfOk result (λ channels. channels.items ≡ channels_of plan.now.program ring.now.places) }
{
    let mut places = Configuration::new(alloc, plan, ring)?;
    for _round in 0..plan.shape().rounds() {
        places.advance();
    }
    channels_in(alloc, &places)
}

// Returns the channels of all places after the last round.
fn channels_in(alloc: Global, places: &Configuration<'_>) -> Result<Vec<u32>, OutOfMemory>
    requires { places.now.round ≡ length places.now.program.steps }
    ensures { IfOk result (λ channels. channels.items ≡ channels_of places.now.program places.now.places) }
{
    let count = places.places();
    let mut channels = Vec::with_capacity(alloc, count as usize)?;
    for place in 0..count {
        channels.push(places.quantity(Quantity::Channel, place))?;
    }
    Ok(channels)
}
