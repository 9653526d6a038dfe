//! The states of a block's windows, from the states of their parts in blocks one level lower.
ghost use Rattle.std.specs.Prelude.{◌≡◌, ℕ, ◌+◌, ◌-◌, ◌*◌, ◌<◌, [], ◌∷◌, length, slice_index};
ghost use Rattle.round_eval.specs.BlockStates.{IsKey, block_len, window_numbered};
ghost use Rattle.round_eval.specs.HeldStates.{HoldsSent};
ghost use Rattle.unroll.specs.MakeFaults.{KnowsAllBelow, LooksUp};
ghost use Rattle.unroll.specs.Parts.{IsFirstWindow, IsReached};
ghost use Rattle.unroll.specs.WideColumns.{AreGathered, AreTaken, HoldBlock, HoldFronts, IsReady};
ghost use Rattle.unroll.specs.WideColumns.{IsBucketGathered, ShareFronts};
ghost use Rattle.win_index.specs.Blocks.{block_count};

use crate::bucket::{Bucket, Near, Reached, start_bucket};
use crate::fault::MakeFault;
use crate::parts::{LastParts, part_block, put_lasts};
use crate::scratch::{Scratch, fill_some};
use crate::upper_block::UpperBlock;
use crate::{Code, next_columns, start_columns, to_left_columns, to_right_columns};
use node_program::MAX_REGISTERS;
use round_eval::{Block, Source, block_len, first_number, states_from_parts, step, width_of};
use win_index::{BLOCK_WINDOWS, MAX_WINDOW_LEN, Shape};

// Gathers the parts of each window of a block, whose first window is `window`, bucket by bucket.
// Where the round is evaluated once a bucket, it writes the states after it in place of the parts.
pub(crate) fn gather<'s, S: Source<'s>>(
    upper: UpperBlock<'_>,
    source: &mut S,
    window: &[u32],
    scratch: &mut Scratch,
) -> Result<(), MakeFault>
    requires plan { S.plan source.old ≡ upper.plan.now }
    requires window { IsFirstWindow upper.plan.now.ids (upper.below + 1) upper.number window.now }
    requires ready { IsReady upper.plan.now scratch.old }
    ensures ready { IsReady upper.entry.plan.now scratch.new }
    ensures gathered { let u = upper.entry in
        LooksUp S.plan S.fixed S.entries source.old source.new u.plan.now.ids (u.below + 1) u.number
        (λ entries _. AreGathered entries u (block_len u.plan.now.ids (u.below + 1) u.number) scratch.new) result }
{
    let shape = upper.plan.shape();
    let below = upper.below;
    let len = upper.len;
    let mut prefixes = shape.bucket_prefixes_from(below, window);
    let mut place = shape.place_in_bucket(below, window);
    let mut index = 0;
    let mut near = Near {
        first: None,
        middle: None,
        last: None,
    };
    loop {
        let bucket = start_bucket(upper, source, index, prefixes.prefix(), near)?;
        let reached = Reached {
            index,
            place,
            bucket,
            last: near.last,
        };
        let (after, block) = gather_bucket(upper, source, reached, &mut scratch.from_right)?;
        take_fronts(upper, bucket, index, after, scratch);
        if after == len {
            return Ok(());
        }
        let Some(next) = prefixes.next() else {
            unreachable!()
        };
        prefixes = next;
        place = shape.prefix_places(below, prefixes.prefix()).first();
        index = after;
        near = Near {
            first: Some(bucket.first),
            middle: Some(bucket.middle),
            last: Some(block),
        };
    }
}

// Asks for the blocks of the last parts of the windows in the bucket of the place that is reached,
// from that place on, and writes the messages of these parts to `sent` if the round reads them.
// Returns the index of the end of these windows, and the block that holds the last part of the last
// of them.
fn gather_bucket<'s, S: Source<'s>>(
    upper: UpperBlock<'_>,
    source: &mut S,
    reached: Reached<'s>,
    sent: &mut [u32],
) -> Result<(u32, &'s Block<'s>), MakeFault>
    requires plan { S.plan source.old ≡ upper.plan.now }
    requires reached { IsReached (S.entries source.old) upper reached }
    requires wide { length sent.old ≡ BLOCK_WINDOWS }
    requires taken { AreTaken (S.entries source.old) upper reached.index sent.old }
    ensures { let u = upper.entry in
        LooksUp S.plan S.fixed S.entries source.old source.new u.plan.now.ids (u.below + 1) u.number
        (λ entries r. IsBucketGathered entries u reached.entry.bucket reached.entry.index r.0 r.1.now sent.new) result }
{
    let len = upper.len;
    let Reached {
        index: from,
        place: mut at,
        bucket,
        mut last,
    } = reached;
    let mut place = from;
    loop {
        let (block, index) = part_block(upper, source, place, bucket.start + at, last)?;
        let count = bucket
            .places
            .series(at, (len - place).min(block.len() - index));
        let series = LastParts {
            block,
            index,
            count,
        };
        put_lasts(upper, series, place, sent);
        place += count;
        if place == len {
            return Ok((place, block));
        }
        let Some(next) = bucket.places.after(at + count - 1) else {
            return Ok((place, block));
        };
        at = next;
        last = Some(block);
    }
}

// Takes the first two parts of the windows of an upper block from one index to another, which are
// in one bucket: writes them to columns or, where the round is evaluated once a bucket, the
// windows' state after it.
fn take_fronts(
    upper: UpperBlock<'_>,
    bucket: Bucket<'_>,
    from: u32,
    end: u32,
    scratch: &mut Scratch,
)
    requires fronts { ShareFronts upper bucket from end }
    requires ready { IsReady upper.plan.now scratch.old }
    requires held { HoldFronts upper from scratch.old }
    ensures ready { IsReady upper.entry.plan.now scratch.new }
    ensures held { HoldFronts upper.entry end scratch.new × (scratch.new.from_right ≡ scratch.old.from_right) }
{
    states_from_parts();
    let place = from as usize;
    let count = (end - from) as usize;
    if !upper.once_a_bucket {
        fill_some(&mut scratch.from_left, place, count, bucket.first.sent);
        scratch.own.fill_states(place, count, bucket.own);
        return;
    }
    let mut cells = [0; MAX_REGISTERS as usize];
    let state = &mut cells[..width_of(upper.plan)];
    step(
        upper.plan,
        upper.below,
        bucket.own,
        bucket.first.sent,
        0,
        state,
    );
    scratch.made.fill_states(place, count, state);
}

// Writes the states of the windows of a block: at level 0 from their identifiers, above it from
// their parts.
pub(crate) fn write_states<'s, S: Source<'s>>(
    code: &Code<'_>,
    source: &mut S,
    level: u32,
    number: u32,
    scratch: &mut Scratch,
) -> Result<(), MakeFault>
    requires plan { S.plan source.old ≡ code.now }
    requires key { IsKey code.now level number }
    requires ready { IsReady code.now scratch.old }
    ensures ready { IsReady code.now scratch.new }
    ensures written { LooksUp S.plan S.fixed S.entries source.old source.new code.now.ids level number
        (λ entries _. HoldBlock code.now level number scratch.new.made.states
        × KnowsAllBelow entries code.now.ids level number) result
        × (level ≡ 0 → source.new ≡ source.old) }
{
    states_from_parts();
    let plan = code.plan();
    let shape = plan.shape();
    let mut ids = [0; MAX_WINDOW_LEN];
    let window = &mut ids[..2 * level as usize + 1];
    shape.window(level, first_number(shape, level, number), window);
    if level == 0 {
        start_states(code, number, window, scratch);
        return Ok(());
    }
    let below = level - 1;
    let reads_right = scratch.reads_right[below as usize];
    let upper = UpperBlock::new(plan, below, number, reads_right);
    gather(upper, source, window, scratch)?;
    if upper.once_a_bucket {
        return Ok(());
    }
    next_columns(
        code,
        below,
        &scratch.from_left,
        &scratch.own,
        &scratch.from_right,
        &mut scratch.work,
        &mut scratch.made,
    );
    Ok(())
}

// Writes the states of the windows of a block of level 0. `window` is the block's first window, and
// is advanced in place.
pub(crate) fn start_states(code: &Code<'_>, number: u32, window: &mut [u32], scratch: &mut Scratch)
    requires number { number < block_count code.now.ids 0 }
    requires window { IsFirstWindow code.now.ids 0 number window.old }
    requires ready { IsReady code.now scratch.old }
    ensures ready { IsReady code.now scratch.new }
    ensures states { HoldBlock code.now 0 number scratch.new.made.states }
{
    states_from_parts();
    let mut ids = [0; BLOCK_WINDOWS as usize];
    put_ids(code.plan().shape(), number, window, &mut ids);
    start_columns(code, &ids, &mut scratch.work, &mut scratch.made);
}

// Writes the identifiers of the windows of a block of level 0. `window` is the block's first
// window, and is advanced in place.
fn put_ids(shape: Shape, number: u32, window: &mut [u32], ids: &mut [u32])
    requires number { number < block_count shape.ids 0 }
    requires window { IsFirstWindow shape.ids 0 number window.old }
    requires ids { length ids.old ≡ BLOCK_WINDOWS }
    ensures { (i : ℕ) → i < block_len shape.ids 0 number
        → window_numbered shape.ids 0 (BLOCK_WINDOWS * number + i) ≡ slice_index ids.new i ∷ [] }
{
    for place in 0..block_len(shape, 0, number) as usize {
        ids[place] = window[0];
        shape.next_window(0, window);
    }
}

// Writes the messages in the next round of the windows of a block below the last level, from their
// states in the scratch columns.
pub(crate) fn send_states(
    code: &Code<'_>,
    level: u32,
    scratch: &mut Scratch,
    to_left: &mut [u32],
    to_right: &mut [u32],
)
    requires ready { IsReady code.now scratch.old }
    requires sizes { level < length code.now.program.steps
        → (length to_left.old ≡ BLOCK_WINDOWS) × (length to_right.old ≡ BLOCK_WINDOWS) }
    ensures ready { IsReady code.now scratch.new }
    ensures sent { (b : ℕ) → HoldBlock code.now level b scratch.old.made.states
        → HoldsSent code.now level b to_left.new to_right.new }
{
    if level < code.plan().shape().rounds() {
        let Scratch { work, made, .. } = scratch;
        to_left_columns(code, level, made, work, to_left);
        to_right_columns(code, level, made, work, to_right);
    }
}
