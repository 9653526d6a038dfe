//! The operation of Cole and Vishkin.
ghost use Rattle.std.specs.Prelude.{◌≡◌};
ghost use Rattle.node_program.specs.Operations.{lowest_differing_bit};

/// Returns the least index of a bit in which `a` and `b` differ, or 0 if they are equal.
#[tactic(auto, using(crate::proofs::LowestDifference::differing))]
pub fn lowest_difference(a: u32, b: u32) -> u32
    ensures { result ≡ lowest_differing_bit a b }
{
    if a == b { 0 } else { (a ^ b).trailing_zeros() }
}
