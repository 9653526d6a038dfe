//! A worker's own reader of a memo.
ghost use Rattle.shared_memo.specs.Passes.{IsPassOf, IsPassOf-prop};

use round_eval::{Block, Source};
use shared_memo::{Memo, Pass, Stranger};

// A source of blocks that looks into a memo through a pass of its own. It returns no block for a
// cell that holds a stranger.
#[derive(Drop)]
pub(crate) struct OwnReader<'s, 'a> {
    pub(crate) memo: &'s Memo<'a>,
    pub(crate) pass: Pass<'a>,
    pub(crate) ghost pass_of: { IsPassOf memo.now pass } by { IsPassOf-prop memo.now pass },
}

impl<'s, 'a> Source<'s> for OwnReader<'s, 'a> {
    ghost use Rattle.shared_memo.specs.declared.memo.Memo.{Memo};
    ghost use Rattle.shared_memo.specs.Passes.{known};

    ghost plan = { λ r. r.pass.plan.now };

    ghost entries = { λ r. known r.pass };

    ghost Fixed = { Memo };

    ghost fixed = { λ r. r.memo.now };

    fn block(&mut self, level: u32, number: u32) -> Option<&'s Block<'s>> {
        match self.memo.look(&mut self.pass, level, number) {
            Ok(found) => found,
            Err(Stranger) => None,
        }
    }
}
