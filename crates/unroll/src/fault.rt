//! Why a block is not made.
ghost use Rattle.std.specs.Prelude.{◌≡◌};
ghost use Rattle.unroll.specs.declared.fault.MakeFault.TheVariants.{OutOfMemory};

use node_program::OutOfMemory;

/// Why a block was not made.
#[derive(Clone, Copy, Debug, PartialEq, Eq)]
pub enum MakeFault {
    /// The source has no entry for the block of this level and number, which the block is made
    /// from.
    Missing(u32, u32),
    /// Memory could not be allocated.
    OutOfMemory,
}

impl From<OutOfMemory> for MakeFault {
    ghost from_gives = { λ _ fault. fault ≡ OutOfMemory };

    fn from(_refused: OutOfMemory) -> MakeFault {
        MakeFault::OutOfMemory
    }
}
