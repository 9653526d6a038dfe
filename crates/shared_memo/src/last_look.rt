//! What the last look at a cell found.

/// What a thread's last look at a cell found.
#[derive(Clone, Copy, Drop)]
pub enum LastLook {
    /// It has not looked at the cell, or not since a block was refused there.
    Never,
    /// The cell was empty.
    Empty,
    /// A block of another plan, level or number.
    Strange,
    /// The right block.
    Right,
}

impl LastLook {
    ghost use Rattle.std.specs.Prelude.{◌≡◌};
    ghost use Rattle.shared_memo.specs.LastLooks.{finds_block, is_right, after_refusal};

    // Returns whether a block was found, right or not.
    pub(crate) fn found_block(self) -> bool
        ensures { result ≡ finds_block self }
    {
        matches!(self, LastLook::Strange | LastLook::Right)
    }

    // Returns whether the right block was found.
    pub(crate) fn found_right(self) -> bool
        ensures { result ≡ is_right self }
    {
        matches!(self, LastLook::Right)
    }

    // Returns what is still known once a block was refused at the cell: that it is empty is not.
    pub(crate) fn after_refusal(self) -> LastLook
        ensures { result ≡ after_refusal self }
    {
        match self {
            LastLook::Empty => LastLook::Never,
            last => last,
        }
    }
}
