//! The channels of the segments that ended.
ghost use Rattle.std.specs.Prelude.{◌≡◌, ℕ, ◌+◌, ◌<◌, ◌≤◌, OnOk, IfErr, length, vec_len, slice_index};
ghost use Rattle.node_program.specs.GlobalRounds.{channel_at, channels_of};
ghost use Rattle.border_exchange.specs.Segments.{first_of, places_of};
ghost use Rattle.border_exchange.specs.SegmentCounts.{IsSegmentCount};
ghost use Rattle.round_eval.specs.declared.fault.WorkFault.TheVariants.{Stranger};

use border_exchange::{Segment, segments_cover_the_ring};
use lang_check::Plan;
use round_eval::{WorkFault, channel, row_at, width_of};
use win_index::Ring;

// Writes the channels of the segments, with the first segment last in the list, if they are those
// of this run and all have done the last round.
pub(crate) fn gather(
    plan: &Plan,
    ring: &Ring,
    segments: u32,
    mut found: Vec<Segment<'_>>,
    channels: &mut [u32],
) -> Result<(), WorkFault>
    requires range { IsSegmentCount segments (length ring.now.places) }
    requires all { vec_len found ≡ segments }
    requires room { length channels.old ≡ length ring.now.places }
    ensures channels { OnOk result (channels.new ≡ channels_of plan.now.program ring.now.places) }
    ensures stranger { IfErr result (λ fault. fault ≡ Stranger) }
{
    segments_cover_the_ring();
    let places = ring.len();
    let mut first = 0;
    for index in 0..segments {
        let Some(segment) = found.pop() else {
            unreachable!()
        };
        if !segment.is_of(plan, ring, segments, index) || segment.round() != segment.rounds() {
            return Err(WorkFault::Stranger);
        }
        let end = (index + 1) * places / segments;
        write_part(plan, &segment, first as usize, end as usize, channels);
        first = end;
    }
    Ok(())
}

// Writes the channels of the places of a segment after its last round, behind those of the places
// before.
#[tactic(auto, using(std::proofs::lemmas::Nat::row_fits))]
fn write_part(plan: &Plan, segment: &Segment<'_>, first: usize, end: usize, channels: &mut [u32])
    requires done { (segment.now.plan ≡ plan.now) × (segment.now.round ≡ length plan.now.program.steps) }
    requires places { (first ≡ first_of segment.now) × (end ≡ first + places_of segment.now) }
    requires room { end ≤ length channels.old }
    requires before { (i : ℕ) → i < first
        → slice_index channels.old i ≡ channel_at plan.now.program segment.now.ring.places i }
    ensures { (i : ℕ) → i < end → slice_index channels.new i ≡ channel_at plan.now.program segment.now.ring.places i }
{
    let width = width_of(plan);
    let states = segment.states();
    for place in first..end {
        channels[place] = channel(plan, row_at(states, width, place - first));
    }
}
