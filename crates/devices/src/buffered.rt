//! Texts in buffers.
ghost use Rattle.std.specs.Prelude.{◌≤◌, length};

/// A text: the first `len` bytes of a buffer.
#[derive(Clone, Copy)]
pub struct Buffered<'a> {
    pub buffer: &'a [u8],
    pub len: usize,
    pub ghost short: { len ≤ length buffer.now },
}
