//! Short texts in buffers of one length, so that one is stored by one copy.
ghost use Rattle.std.specs.Prelude.{◌≤◌};

use devices::buffered::Buffered;

// A text of at most 8 bytes: the first `len` of the buffer.
#[derive(Clone, Copy)]
pub(crate) struct Piece {
    pub(crate) bytes: [u8; 8],
    pub(crate) len: usize,
    pub(crate) ghost short: { len ≤ 8 },
}

impl Piece {
    ghost use Rattle.std.specs.Prelude.{◌≡◌, length};
    ghost use Rattle.devices.specs.Output.{buffered_text};
    ghost use Rattle.table_text.specs.Pieces.{piece_text};

    // Returns the text and its buffer.
    pub(crate) fn buffered(&self) -> Buffered<'_>
        ensures text { buffered_text result ≡ piece_text self.now }
        ensures buffer { length result.buffer.now ≡ 8 }
    {
        Buffered {
            buffer: &self.bytes,
            len: self.len,
        }
    }
}

// The pieces of all identifiers and of all channels of a table.
#[derive(Drop)]
pub(crate) struct Pieces {
    pub(crate) ids: Vec<Piece>,
    pub(crate) channels: Vec<Piece>,
}
