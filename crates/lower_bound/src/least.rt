//! The least number of channels that the lower bound leaves.
ghost use Rattle.std.specs.Prelude.{ℕ, ◌*◌, ◌^◌, ◌≤◌, ◌↔◌};
ghost use Rattle.lower_bound.specs.Towers.{tower, spread};

/// Returns the least number of channels that the lower bound leaves for tables of so many
/// identifiers and rounds whose neighbours' channels differ by `near` or more, at least 1.
///
/// A table needs as many, but as many need not be enough. With 0 the bound says nothing.
pub fn linial_bound(ids: u32, rounds: u32, near: u32) -> u64
    requires { 1 ≤ near }
    ensures { (channels : ℕ) → (ids ≤ tower (2 * rounds) (spread channels near)) ↔ (result ≤ channels) }
{
    let apart = foot(ids, rounds);
    if apart == 0 {
        0
    } else {
        (u64::from(apart) - 1) * u64::from(near) + 1
    }
}

// Returns the least number over which the tower of height `2 * rounds` reaches `top`.
fn foot(top: u32, rounds: u32) -> u32
    ensures { (c : ℕ) → (top ≤ tower (2 * rounds) c) ↔ (result ≤ c) }
{
    let mut foot = top;
    for _round in 0..rounds {
        foot = exponent(exponent(foot));
    }
    foot
}

// Returns the least number `n` with `x` at most `2 ^ n`.
fn exponent(x: u32) -> u32
    ensures { (n : ℕ) → (x ≤ 2 ^ n) ↔ (result ≤ n) }
{
    if x < 2 { 0 } else { (x - 1).ilog2() + 1 }
}
