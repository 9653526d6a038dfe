//! What an expression reads at a node.
ghost use Rattle.std.specs.Prelude.{◌≡◌, slice_index};

/// What an expression can read: the node's identifier, the messages from the left and from the
/// right, and the registers; or a bound of each of these.
#[derive(Clone, Copy)]
pub struct Env<'a> {
    pub id: u32,
    pub left: u32,
    pub right: u32,
    pub registers: &'a [u32],
}

/// Returns the register with this number, or 0 if it does not exist.
pub fn register_or_zero(registers: &[u32], register: u32) -> u32
    ensures { result ≡ slice_index registers.now register }
{
    registers.get(register as usize).copied().unwrap_or(0)
}
