//! The pairs of channels that a separation forbids.
ghost use Rattle.std.specs.Prelude.{◌≡◌, ◌+◌, ◌-◌, ◌*◌, ◌^◌, ◌<◌, ◌≤◌, ◌++◌, ℕ, length, min, IfOk, OnOk};
ghost use Rattle.table_formula.specs.Formula.{close_to, close_pairs, close_in};
ghost use Rattle.table_formula.specs.declared.limits.TheConstants.{MAX_CLAUSES, MAX_VARIABLES};

use crate::limits::MAX_VARIABLES;
use channel_tables::Separation;
use std::alloc::{AllocError, Global};

/// Two channels that the windows at two places must not have: `first` at a place, and `second` at
/// the place `step` places to its right.
#[derive(Clone, Copy, Debug, PartialEq, Eq)]
pub struct Conflict {
    pub step: u32,
    pub first: u32,
    pub second: u32,
}

// Returns the pairs of channels below `channels` that the separation forbids, at most `MAX_CLAUSES`
// pairs.
pub(crate) fn conflicts_in(
    alloc: Global,
    channels: u32,
    separation: Separation,
) -> Result<Vec<Conflict>, AllocError>
    requires { length (close_in channels separation) ≤ MAX_CLAUSES }
    ensures { IfOk result (λ pairs. pairs.items ≡ close_in channels separation) }
{
    let mut pairs = Vec::new(alloc);
    push_close_pairs(&mut pairs, channels, 1, separation.near)?;
    push_close_pairs(&mut pairs, channels, 2, separation.far)?;
    Ok(pairs)
}

// Appends the pairs of channels below `channels` that are closer than the distance.
#[tactic(auto, using(crate::proofs::ClauseLists::flat_more, std::proofs::lemmas::Grind::common_steps))]
fn push_close_pairs(
    out: &mut Vec<Conflict>,
    channels: u32,
    step: u32,
    distance: u32,
) -> Result<(), AllocError>
    ensures { OnOk result (out.new.items ≡ out.old.items ++ close_pairs channels step distance) }
{
    for first in 0..channels {
        push_close_to(out, channels, step, distance, first)?;
    }
    Ok(())
}

// Appends those with this first channel.
#[tactic(auto, using(crate::proofs::CloseChannels::close_more_in, std::proofs::lemmas::Grind::common_steps))]
fn push_close_to(
    out: &mut Vec<Conflict>,
    channels: u32,
    step: u32,
    distance: u32,
    first: u32,
) -> Result<(), AllocError>
    requires { first < channels }
    ensures { OnOk result (out.new.items ≡ out.old.items ++ close_to channels step distance first) }
{
    for second in close_start(distance, first)..close_end(channels, distance, first) {
        out.push(Conflict {
            step,
            first,
            second,
        })?;
    }
    Ok(())
}

// Returns the number of pairs of channels below `channels` that the separation forbids.
pub(crate) fn conflict_count(channels: u32, separation: Separation) -> u64
    requires { channels ≤ MAX_VARIABLES }
    ensures { result ≡ length (close_in channels separation) }
{
    close_pair_count(channels, separation.near) + close_pair_count(channels, separation.far)
}

// Returns the number of pairs of channels below `channels` that are closer than the distance.
fn close_pair_count(channels: u32, distance: u32) -> u64
    requires { channels ≤ MAX_VARIABLES }
    ensures value { (step : ℕ) → result ≡ length (close_pairs channels step distance) }
    ensures few { result ≤ channels * channels }
{
    let mut count = 0;
    for first in 0..channels {
        count += u64::from(close_count(channels, distance, first));
    }
    count
}

// Returns the number of channels below `channels` that are closer to a channel than the distance.
fn close_count(channels: u32, distance: u32, first: u32) -> u32
    requires { first < channels }
    ensures value { (step : ℕ) → result ≡ length (close_to channels step distance first) }
    ensures few { result ≤ channels }
{
    close_end(channels, distance, first).saturating_sub(close_start(distance, first))
}

// Returns the first channel that is closer to a channel than the distance, if there is one.
fn close_start(distance: u32, first: u32) -> u32
    requires { first + 1 < 2 ^ 32 }
    ensures { result ≡ first + 1 - distance }
{
    (first + 1).saturating_sub(distance)
}

// Returns the channel after the last one below `channels` that is closer to a channel than the
// distance, if there is one.
fn close_end(channels: u32, distance: u32, first: u32) -> u32
    ensures { result ≡ min channels (first + distance) }
{
    channels.min(first.saturating_add(distance))
}
