//! Names of borders, which keep the seats of different borders apart.
ghost use Rattle.std.specs.Prelude.{◌≡◌, ℕ};

use std::marker::{Brand, PhantomData};
use std::sync::ledger::{Blank, Ledger};

// The name of a border in a run: the names of the ledgers of its two sides. Each new border picks
// them.
pub(crate) trait BorderName {
    ghost rightward: { ℕ };

    ghost leftward: { ℕ };
}

impl BorderName for Brand {
    ghost rightward = { 0 };

    ghost leftward = { 0 };
}

// The ledger of a border's rightward side.
pub(crate) struct RightLedger<N> {
    of: PhantomData<N>,
}

impl<N: BorderName> Ledger for RightLedger<N> {
    ghost name = { N.rightward };

    ghost parts = { 1 };
}

// The ledger of a border's leftward side.
pub(crate) struct LeftLedger<N> {
    of: PhantomData<N>,
}

impl<N: BorderName> Ledger for LeftLedger<N> {
    ghost name = { N.leftward };

    ghost parts = { 1 };
}

// A blank for each side of a border.
#[derive(Drop)]
pub(crate) struct Blanks {
    pub(crate) right: Blank,
    pub(crate) left: Blank,
}

impl Blanks {
    pub(crate) fn new() -> Blanks
        ensures { (result.right.parts ≡ 1) × (result.left.parts ≡ 1) }
    {
        Blanks {
            right: Blank::new(1),
            left: Blank::new(1),
        }
    }
}
