//! Sources of blocks.
ghost use Rattle.std.specs.Prelude.{◌≡◌, IfSome, IfNone, None};
ghost use Rattle.lang_check.specs.Plans.{ProgramForIds};
ghost use Rattle.round_eval.specs.BlockStates.{IsKey};
ghost use Rattle.round_eval.specs.Entries.{Entries, Asked, IsEntry};

use crate::block::Block;

/// A map from level and number to the known blocks of one plan. Entries are added, and never
/// changed or removed.
pub trait Source<'s> {
    ghost plan: { Self → ProgramForIds };

    ghost entries: { Self → Entries };

    ghost Fixed: { Type 0 };

    // What no call changes: the entries, if calls add none.
    ghost fixed: { Self → Fixed };

    /// Returns the block of a level of the plan and a number below the level's number of blocks,
    /// which is known from then on, or `None` if there is no entry.
    fn block(&mut self, level: u32, number: u32) -> Option<&'s Block<'s>>
        requires { IsKey (plan self.old) level number }
        ensures asked { Asked plan fixed entries self.old self.new }
        ensures found { IfSome result (λ b. IsEntry (plan self.new) (entries self.new) level number b.now) }
        ensures missing { IfNone result (entries self.new level number ≡ None) };
}
