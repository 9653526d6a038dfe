//! Blocks above level 0, which are made from those one level below.
ghost use Rattle.std.specs.Prelude.{◌≡◌, ◌+◌, ◌<◌, ◌^◌, true, false, length};
ghost use Rattle.unroll.specs.RightReads.{round_reads_right};
ghost use Rattle.win_index.specs.Blocks.{block_count, window_count};
ghost use Rattle.round_eval.specs.BlockStates.{block_len};

use lang_check::Plan;
use round_eval::block_len;

// The number of windows from which on a bucket is long: evaluating a round once for all of them, at
// one node, is then faster than in columns.
const LONG_BUCKET: u32 = 16;

// A block above level 0 that is to be made: its plan, the level one below its own, its number, the
// number of its windows, whether the round to its level reads the message from the right, and
// whether that round is evaluated once for each bucket of its windows.
#[derive(Clone, Copy)]
pub(crate) struct UpperBlock<'p> {
    pub(crate) plan: &'p Plan,
    pub(crate) below: u32,
    pub(crate) number: u32,
    pub(crate) len: u32,
    pub(crate) reads_right: bool,
    pub(crate) once_a_bucket: bool,
    pub(crate) ghost above: { below < length plan.now.program.steps },
    pub(crate) ghost inside: { number < block_count plan.now.ids (below + 1) },
    pub(crate) ghost len_is: { len ≡ block_len plan.now.ids (below + 1) number },
    pub(crate) ghost few: { window_count plan.now.ids below < 2 ^ 32 },
    pub(crate) ghost reads: { reads_right ≡ round_reads_right plan.now.program below },
    pub(crate) ghost once: { once_a_bucket ≡ true → reads_right ≡ false },
}

impl<'p> UpperBlock<'p> {
    // Returns the block one level above `below` with this number. `reads_right` says whether the
    // round from that level reads the message from the right.
    pub(crate) fn new(plan: &'p Plan, below: u32, number: u32, reads_right: bool) -> UpperBlock<'p>
        requires below { below < length plan.now.program.steps }
        requires reads { reads_right ≡ round_reads_right plan.now.program below }
        requires number { number < block_count plan.now.ids (below + 1) }
        ensures { (result.plan.now ≡ plan.entry.now) × (result.below ≡ below) × (result.number ≡ number) }
    {
        let shape = plan.shape();
        // The proof takes the limit of the number of windows from this call.
        let _windows = shape.count(below);
        UpperBlock {
            plan,
            below,
            number,
            len: block_len(shape, below + 1, number),
            reads_right,
            once_a_bucket: !reads_right && shape.ids() >= 2 * below + 2 + LONG_BUCKET,
        }
    }
}
