//! The lines of a table text.

ghost use Rattle.std.specs.Prelude.{◌≡◌, ◌<◌, ◌≤◌, ◌^◌, ℕ, List, ◌++◌, length, MatchOption, IfSome, IfNone};
ghost use Rattle.channel_tables.specs.declared.separation.Separation.{Separation};
ghost use Rattle.table_text.specs.TableText.{title_then, counts_then, counts_end, distances_then, sizes_then, end_then};
ghost use Rattle.table_text.specs.Pieces.{piece_text, prefix_text, channel_text, AreTexts};
ghost use Rattle.table_text.specs.LineForms.{HasTitle, AreSizes, IsSeparationOf, HasSizes, IsEntry, HasEntry, HasEnd};
ghost use Rattle.table_text.specs.LinePrefixes.{IsLine};
ghost use Rattle.table_text.specs.Odometers.{HasPieces, window_of};

use crate::line_prefix::LinePrefix;
use crate::numbers::numbers_in;
use crate::odometer::Odometer;
use crate::piece::{Piece, Pieces};
use crate::version::Version;
use channel_tables::Separation;
use node_program::MAX_CHANNELS;
use numerals::{after, field};
use win_index::{MAX_ROUNDS, MAX_WINDOW_LEN, Shape};

// The first three numbers of the second line.
#[derive(Clone, Copy)]
struct HeaderCounts {
    rounds: u32,
    ids: u32,
    channels: u32,
}

// The contents of the second line.
#[derive(Clone, Copy)]
pub(crate) struct Header {
    pub(crate) shape: Shape,
    pub(crate) channels: u32,
    pub(crate) separation: Separation,
}

// The first line of a text at a place where the line of a window is expected.
pub(crate) enum WindowLine<'a> {
    // Its form is not that of such a line.
    Malformed,
    // Its identifiers are not the window.
    OtherWindow,
    // Its identifiers are the window. Its channel, and the text after the line.
    Entry(u32, &'a [u8]),
}

// Returns the version that the first line of a table text names, and the text after that line.
pub(crate) fn after_title(text: &[u8]) -> Option<(Version, &[u8])>
    ensures { MatchOption result (¬ HasTitle text.now) (λ read. text.now ≡ title_then read.0 read.1.now) }
{
    if let Some(rest) = after(text, b"nbhd-table 1\n") {
        return Some((Version::One, rest));
    }
    let rest = after(text, b"nbhd-table 2\n")?;
    Some((Version::Two, rest))
}

// Returns the text after the last line of a table text.
pub(crate) fn after_end(text: &[u8]) -> Option<&[u8]>
    ensures { MatchOption result (¬ HasEnd text.now) (λ rest. text.now ≡ end_then rest.now) }
{
    after(text, b"end\n")
}

// Returns the first three numbers of the second line, the last of which is followed by the byte
// `end`, and the text after that byte.
fn three_counts(text: &[u8], end: u8) -> Option<(HeaderCounts, &[u8])>
    requires { end < 48 }
    ensures counts { IfSome result
        (λ read. text.now ≡ counts_then read.0.rounds read.0.ids read.0.channels end read.1.now) }
    ensures fit { IfSome result (λ read. (read.0.rounds < 2 ^ 32) × (read.0.ids < 2 ^ 32)
        × (read.0.channels < 2 ^ 32)) }
    ensures none { IfNone result ((rounds ids channels : ℕ) (rest : List ℕ) → rounds < 2 ^ 32 → ids < 2 ^ 32
        → channels < 2 ^ 32 → text.now ≡ counts_then rounds ids channels end rest → ⊥) }
{
    let (rounds, rest) = field(text, b"rounds ", b' ')?;
    let (ids, rest) = field(rest, b"ids ", b' ')?;
    let (channels, rest) = field(rest, b"channels ", end)?;
    let counts = HeaderCounts {
        rounds,
        ids,
        channels,
    };
    Some((counts, rest))
}

// Returns the shape with these numbers of rounds and identifiers, or `None` if they and the number
// of channels are not those of a table.
fn shape_of(counts: HeaderCounts) -> Option<Shape>
    ensures shape { IfSome result (λ shape. (shape.ids ≡ counts.ids) × (shape.rounds ≡ counts.rounds)) }
    ensures range { IfSome result (λ _. AreSizes counts.rounds counts.ids counts.channels) }
    ensures none { IfNone result (¬ AreSizes counts.rounds counts.ids counts.channels) }
{
    if counts.rounds > MAX_ROUNDS {
        return None;
    }
    if counts.channels < 1 {
        return None;
    }
    if counts.channels > MAX_CHANNELS {
        return None;
    }
    Shape::new(counts.ids, counts.rounds).ok()
}

// Returns the last two numbers of the second line of version 2, and the text after the line.
fn two_distances(text: &[u8]) -> Option<(Separation, &[u8])>
    ensures told { IfSome result (λ read. IsSeparationOf Version.Two read.0) }
    ensures distances { IfSome result (λ read. text.now ≡ distances_then Version.Two read.0 read.1.now) }
    ensures none { IfNone result ((s : Separation) (rest : List ℕ) → IsSeparationOf Version.Two s
        → text.now ≡ distances_then Version.Two s rest → ⊥) }
{
    let (near, rest) = field(text, b"near ", b' ')?;
    let (far, rest) = field(rest, b"far ", b'\n')?;
    if near < 1 {
        return None;
    }
    if near > MAX_CHANNELS {
        return None;
    }
    if far > MAX_CHANNELS {
        return None;
    }
    Some((Separation { near, far }, rest))
}

// Returns the separation of a text of this version, read from the text after the first three
// numbers of the second line, and the text after that line.
fn separation_in(version: Version, text: &[u8]) -> Option<(Separation, &[u8])>
    ensures told { IfSome result (λ read. IsSeparationOf version read.0) }
    ensures distances { IfSome result (λ read. text.now ≡ distances_then version read.0 read.1.now) }
    ensures none { IfNone result ((s : Separation) (rest : List ℕ) → IsSeparationOf version s
        → text.now ≡ distances_then version s rest → ⊥) }
{
    match version {
        Version::One => Some((Separation { near: 1, far: 0 }, text)),
        Version::Two => two_distances(text),
    }
}

// Returns the byte after the number of channels.
fn counts_end(version: Version) -> u8
    ensures end { result ≡ counts_end version }
    ensures below { result < 48 }
{
    match version {
        Version::One => b'\n',
        Version::Two => b' ',
    }
}

// Returns the contents of the second line of a text of this version, and the text after it.
pub(crate) fn sizes(version: Version, text: &[u8]) -> Option<(Header, &[u8])>
    ensures range { IfSome result (λ read. AreSizes read.0.shape.rounds read.0.shape.ids read.0.channels) }
    ensures told { IfSome result (λ read. IsSeparationOf version read.0.separation) }
    ensures sizes { IfSome result (λ read. text.now ≡ sizes_then version read.0.shape.rounds read.0.shape.ids
        read.0.channels read.0.separation read.1.now) }
    ensures none { IfNone result (¬ HasSizes version text.now) }
{
    let (counts, distances) = three_counts(text, counts_end(version))?;
    let shape = shape_of(counts)?;
    let (separation, rest) = separation_in(version, distances)?;
    let header = Header {
        shape,
        channels: counts.channels,
        separation,
    };
    Some((header, rest))
}

// Reads the identifiers of a line into `ids`, as many as its length. Returns the line's channel and
// the text after the line.
fn entry<'a>(text: &'a [u8], ids: &mut [u32]) -> Option<(u32, &'a [u8])>
    ensures entry { IfSome result (λ read. IsEntry (length ids.old) text.entry.now ids.new read.0 read.1.now) }
    ensures none { IfNone result (¬ HasEntry (length ids.old) text.entry.now) }
{
    let after_ids = numbers_in(text, ids)?;
    field(after_ids, b": ", b'\n')
}

// Classifies the first line of the text, where the line of this window is expected. `ids` is
// scratch of the window's length.
fn line_in<'a>(window: &[u32], text: &'a [u8], ids: &mut [u32]) -> WindowLine<'a>
    requires { length ids.old ≡ length window.now }
    ensures { IsLine window.now text.entry.now result }
{
    match entry(text, ids) {
        None => WindowLine::Malformed,
        Some((channel, rest)) => {
            if &*ids == window {
                WindowLine::Entry(channel, rest)
            } else {
                WindowLine::OtherWindow
            }
        }
    }
}

// Classifies the first line of the text, where the line of this window is expected.
pub(crate) fn line_of<'a>(window: &[u32], text: &'a [u8]) -> WindowLine<'a>
    requires { length window.now ≤ MAX_WINDOW_LEN }
    ensures { IsLine window.now text.entry.now result }
{
    let mut cells = [0u32; MAX_WINDOW_LEN];
    line_in(window, text, &mut cells[..window.len()])
}

// Guesses the channel of a line from the text after its identifiers. Nothing is promised of the
// guess.
fn guess(text: &[u8]) -> u32
    requires { 6 ≤ length text.now }
{
    let first = u32::from(text[2]) & 15;
    if text[3] < b'0' {
        return first;
    }
    let second = 10 * first + (u32::from(text[3]) & 15);
    if text[4] < b'0' {
        return second;
    }
    let third = 10 * second + (u32::from(text[4]) & 15);
    if text[5] < b'0' {
        return third;
    }
    10 * third + (u32::from(text[5]) & 15)
}

// Returns the text after a piece, or `None` if the text does not begin with it.
fn after_piece<'a>(text: &'a [u8], piece: &Piece) -> Option<&'a [u8]>
    ensures { IfSome result (λ rest. text.entry.now ≡ piece_text piece.now ++ rest.now) }
{
    after(text, &piece.bytes[..piece.len])
}

// Returns the text after a prefix, or `None` if the text does not begin with it.
fn after_prefix<'a>(text: &'a [u8], prefix: &LinePrefix) -> Option<&'a [u8]>
    ensures { IfSome result (λ rest. text.entry.now ≡ prefix_text prefix.now ++ rest.now) }
{
    after(text, &prefix.bytes[..prefix.len])
}

// Returns the channel whose piece the text begins with, and the text after it, or `None` if that
// is not seen at once.
fn known_channel<'a>(ends: &[Piece], text: &'a [u8]) -> Option<(u32, &'a [u8])>
    requires { AreTexts channel_text ends.now }
    ensures { IfSome result (λ read. (read.0 < length ends.now)
        × (text.entry.now ≡ channel_text read.0 ++ read.1.now)) }
{
    if text.len() < 8 {
        return None;
    }
    let channel = guess(text);
    if channel as usize >= ends.len() {
        return None;
    }
    let rest = after_piece(text, &ends[channel as usize])?;
    Some((channel, rest))
}

// Returns the channel of the first line and the text after the line, if the line is that of the
// odometer's window, and that is seen at once from the pieces that are written for it.
fn known_line<'a>(odometer: &Odometer, pieces: &Pieces, text: &'a [u8]) -> Option<(u32, &'a [u8])>
    requires { HasPieces odometer.now pieces.now }
    ensures { IfSome result (λ read. IsEntry (length (window_of odometer.now)) text.entry.now
        (window_of odometer.now) read.0 read.1.now) }
{
    let ids: &[Piece] = &pieces.ids;
    let more = after_prefix(text, &odometer.prefix)?;
    let end = after_piece(more, &ids[odometer.last_id() as usize])?;
    known_channel(&pieces.channels, end)
}

// Classifies the first line of the text, where the line of the odometer's window is expected. The
// line is compared with the pieces that are written for it, and read only if it differs.
pub(crate) fn line_at<'a>(odometer: &Odometer, pieces: &Pieces, text: &'a [u8]) -> WindowLine<'a>
    requires { HasPieces odometer.now pieces.now }
    ensures { IsLine (window_of odometer.now) text.entry.now result }
{
    if let Some((channel, rest)) = known_line(odometer, pieces, text) {
        return WindowLine::Entry(channel, rest);
    }
    let mut cells = [0u32; MAX_WINDOW_LEN];
    let len = odometer.write_window(&mut cells);
    line_of(&cells[..len], text)
}
