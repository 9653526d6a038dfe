//! The pieces from which the lines of windows are made.
ghost use Rattle.std.specs.Prelude.{◌≡◌, ◌≤◌, length, string_bytes, IfOk};
ghost use Rattle.node_program.specs.declared.limits.TheConstants.{MAX_CHANNELS};
ghost use Rattle.win_index.specs.declared.limits.TheConstants.{MAX_IDS};
ghost use Rattle.table_text.specs.Pieces.{piece_text, text_of, AreTexts, ArePieces};

use crate::piece::{Piece, Pieces};
use std::alloc::{AllocError, Global};

// Returns the pieces from which the lines of a table of so many identifiers and channels are made.
pub(crate) fn pieces_of(alloc: Global, ids: u32, channels: u32) -> Result<Pieces, AllocError>
    requires ids { ids ≤ MAX_IDS }
    requires channels { channels ≤ MAX_CHANNELS }
    ensures { IfOk result (ArePieces ids channels) }
{
    let ids = numbered_pieces(alloc, Kind::Id, ids)?;
    let channels = numbered_pieces(alloc, Kind::Channel, channels)?;
    Ok(Pieces { ids, channels })
}

// What the texts of pieces follow from: an identifier, or a channel.
#[derive(Clone, Copy)]
pub(crate) enum Kind {
    Id,
    Channel,
}

// Returns the piece of each number below `count`.
fn numbered_pieces(alloc: Global, kind: Kind, count: u32) -> Result<Vec<Piece>, AllocError>
    requires { count ≤ MAX_CHANNELS }
    ensures texts { IfOk result (λ pieces. AreTexts (text_of kind) pieces.items) }
    ensures count { IfOk result (λ pieces. length pieces.items ≡ count) }
{
    let mut pieces = Vec::with_capacity(alloc, count as usize)?;
    for number in 0..count {
        let text = text_of(alloc, kind, number)?;
        pieces.push(piece_of(text.as_bytes()))?;
    }
    Ok(pieces)
}

// Returns the text of an identifier and a blank, or the text that follows the identifiers of a line
// with a channel.
fn text_of(alloc: Global, kind: Kind, number: u32) -> Result<String, AllocError>
    ensures { IfOk result (λ text. string_bytes text ≡ text_of kind number) }
{
    match kind {
        Kind::Id => format!(in alloc; "{number} "),
        Kind::Channel => format!(in alloc; ": {number}\n"),
    }
}

// Copies a text of at most 8 bytes into a piece.
fn piece_of(text: &[u8]) -> Piece
    requires { length text.now ≤ 8 }
    ensures { piece_text result ≡ text.now }
{
    let mut bytes = [0; 8];
    bytes[..text.len()].copy_from_slice(text);
    Piece {
        bytes,
        len: text.len(),
    }
}
