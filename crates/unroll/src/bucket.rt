//! Buckets: the windows with a common prefix, all identifiers but the last.
ghost use Rattle.std.specs.Prelude.{◌≡◌, ◌+◌, IfSome};
ghost use Rattle.unroll.specs.MakeFaults.{LooksUp};
ghost use Rattle.unroll.specs.Parts.{window_in, IsWindowIn, IsAtIndex, IsFirstPart, IsFirstPartOf, IsNear, IsBucket};

use crate::fault::MakeFault;
use crate::parts::part_block;
use crate::upper_block::UpperBlock;
use round_eval::{Block, Source, first_number};
use win_index::{BucketPlaces, BucketPrefix};

// The first part of a window: its number, and the message of its node to the right in the next
// round.
#[derive(Clone, Copy)]
pub(crate) struct FirstPart {
    pub(crate) number: u32,
    pub(crate) sent: u32,
}

// What the windows of a bucket share: the number of the first window in the bucket of their last
// parts, the positions of these, their first part, and their middle part: its block, and the
// registers of its node.
#[derive(Clone, Copy)]
pub(crate) struct Bucket<'s> {
    pub(crate) start: u32,
    pub(crate) places: BucketPlaces,
    pub(crate) first: FirstPart,
    pub(crate) middle: &'s Block<'s>,
    pub(crate) own: &'s [u32],
}

// What was read last: a first part, and the blocks of a middle and of a last part. The parts of the
// next window are often the same or in the same blocks.
#[derive(Clone, Copy)]
pub(crate) struct Near<'s> {
    pub(crate) first: Option<FirstPart>,
    pub(crate) middle: Option<&'s Block<'s>>,
    pub(crate) last: Option<&'s Block<'s>>,
}

// A place that a gathering has reached: the index of a window in its block, the position of its last
// part, its bucket, and the block that held the last part before, if there was one.
#[derive(Clone, Copy)]
pub(crate) struct Reached<'s> {
    pub(crate) index: u32,
    pub(crate) place: u32,
    pub(crate) bucket: Bucket<'s>,
    pub(crate) last: Option<&'s Block<'s>>,
}

// Starts the bucket of the window at an index of an upper block, from its first two parts.
pub(crate) fn start_bucket<'s, S: Source<'s>>(
    upper: UpperBlock<'_>,
    source: &mut S,
    index: u32,
    prefix: BucketPrefix,
    near: Near<'s>,
) -> Result<Bucket<'s>, MakeFault>
    requires plan { S.plan source.old ≡ upper.plan.now }
    requires here { IsAtIndex upper index prefix }
    requires near { IsNear upper.plan.now (S.entries source.old) upper.below near }
    ensures { let u = upper.entry in
        LooksUp S.plan S.fixed S.entries source.old source.new u.plan.now.ids (u.below + 1) u.number
        (λ entries. IsBucket u.plan.now entries u.below (window_in u index)) result }
{
    let shape = upper.plan.shape();
    let below = upper.below;
    let first = first_part(upper, source, index, near.first)?;
    let (middle, at) = part_block(upper, source, index, prefix.middle, near.middle)?;
    Ok(Bucket {
        start: shape.last_bucket_start(below, prefix),
        places: shape.prefix_places(below, prefix),
        first,
        middle,
        own: middle.state(at),
    })
}

// Returns the first part of the window at an index of an upper block: `given` if it has the same
// number, else from the source.
fn first_part<'s, S: Source<'s>>(
    upper: UpperBlock<'_>,
    source: &mut S,
    index: u32,
    given: Option<FirstPart>,
) -> Result<FirstPart, MakeFault>
    requires plan { S.plan source.old ≡ upper.plan.now }
    requires here { IsWindowIn upper index }
    requires given { IfSome given (IsFirstPart upper.plan.now (S.entries source.old) upper.below) }
    ensures { let u = upper.entry in
        LooksUp S.plan S.fixed S.entries source.old source.new u.plan.now.ids (u.below + 1) u.number
        (λ entries. IsFirstPartOf u.plan.now entries u.below (window_in u index)) result }
{
    let shape = upper.plan.shape();
    let below = upper.below;
    let window = first_number(shape, below + 1, upper.number) + index;
    let number = shape.first_part_number(below, window);
    if let Some(first) = given
        && first.number == number
    {
        return Ok(first);
    }
    let (block, at) = part_block(upper, source, index, number, None)?;
    Ok(FirstPart {
        number,
        sent: block.to_right(at),
    })
}
