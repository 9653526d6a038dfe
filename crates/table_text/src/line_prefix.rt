//! The text of the identifiers that the windows of a bucket share.
ghost use Rattle.std.specs.Prelude.{◌≡◌, ◌<◌, ◌≤◌, [], All, length, take};
ghost use Rattle.table_text.specs.declared.line_prefix.TheConstants.{PREFIX_LEN, SHORT_LEN};

use crate::piece::Piece;
use devices::buffered::Buffered;
use devices::chunk::write_at;
use win_index::MAX_WINDOW_LEN;

// The length of a prefix's buffer: 8 bytes for each identifier of a window except the last.
pub(crate) const PREFIX_LEN: usize = 8 * (MAX_WINDOW_LEN - 1);

// A prefix that is not longer is copied with this many bytes of the buffer. Nearly all are.
pub(crate) const SHORT_LEN: usize = 16;

// A text of at most `PREFIX_LEN` bytes: the first `len` of a buffer of fixed length, which is
// stored by one copy.
#[derive(Clone, Copy)]
pub(crate) struct LinePrefix {
    pub(crate) bytes: [u8; PREFIX_LEN],
    pub(crate) len: usize,
    // The length of the text of the first identifiers, for each number of them.
    pub(crate) ends: [usize; MAX_WINDOW_LEN],
    pub(crate) ghost short: { len ≤ PREFIX_LEN },
}

impl LinePrefix {
    ghost use Rattle.win_index.specs.declared.limits.TheConstants.{MAX_WINDOW_LEN};
    ghost use Rattle.table_text.specs.TableText.{ids_then};
    ghost use Rattle.table_text.specs.Pieces.{prefix_text, id_text, AreTexts};
    ghost use Rattle.table_text.specs.Prefixes.{HasTexts};
    ghost use Rattle.devices.specs.Output.{buffered_text};

    // Returns the prefix of no identifiers.
    pub(crate) fn empty() -> LinePrefix
        ensures { HasTexts result.bytes result.ends [] }
    {
        LinePrefix {
            bytes: [0; PREFIX_LEN],
            len: 0,
            ends: [0; MAX_WINDOW_LEN],
        }
    }

    // Returns the text and its buffer.
    pub(crate) fn buffered(&self) -> Buffered<'_>
        ensures text { buffered_text result ≡ prefix_text self.now }
        ensures buffer { length result.buffer.now ≡ PREFIX_LEN }
    {
        Buffered {
            buffer: &self.bytes,
            len: self.len,
        }
    }

    // Returns the first bytes of the buffer. The text is short, so that they have all of it.
    pub(crate) fn start(&self) -> [u8; SHORT_LEN]
        requires { self.now.len ≤ SHORT_LEN }
        ensures { take self.now.len result ≡ prefix_text self.now }
    {
        let mut start = [0; SHORT_LEN];
        start.copy_from_slice(&self.bytes[..SHORT_LEN]);
        start
    }

    // Writes the text of these identifiers, each followed by a blank. That of the first `kept` is
    // written.
    pub(crate) fn show(&mut self, ids: &[Piece], front: &[u32], kept: usize)
        requires short { length front.now < MAX_WINDOW_LEN }
        requires ids { AreTexts id_text ids.now × All (λ id. id < length ids.now) front.now }
        requires kept { (kept ≤ length front.now) × HasTexts self.old.bytes self.old.ends (take kept front.now) }
        ensures texts { HasTexts self.new.bytes self.new.ends front.now }
        ensures text { prefix_text self.new ≡ ids_then front.now [] }
    {
        let mut len = self.ends[kept];
        for place in kept..front.len() {
            let piece = ids[front[place] as usize];
            write_at(&mut self.bytes, len, &piece.bytes);
            len += piece.len;
            self.ends[place + 1] = len;
        }
        self.len = len;
    }
}
