//! Reading a table text, line by line.

ghost use Rattle.std.specs.Prelude.{◌≡◌, ◌<◌, ◌≤◌, ℕ, true, false, length, MatchResult, IfOk, OnOk, IfErr};
ghost use Rattle.std.specs.Prelude.{IfSome, IfNone};
ghost use Rattle.channel_tables.specs.declared.separation.Separation.{Separation};
ghost use Rattle.channel_tables.specs.Tables.{ChannelTable, IsTable};
ghost use Rattle.table_text.specs.TableText.{written, lines_then, text_of};
ghost use Rattle.table_text.specs.LineForms.{IsSeparation, IsHead, HasShape};
ghost use Rattle.table_text.specs.Texts.{IsTextOf, IsWritten};
ghost use Rattle.table_text.specs.Faults.{IsMalformed, IsFault};

use crate::fault::TableFault;
use crate::laws::{table_texts_are_apart, table_texts_are_read};
use crate::limits::LONGEST_TABLE_TEXT;
use crate::lines::{Header, WindowLine, after_end, after_title, line_at, sizes};
use crate::odometer::Odometer;
use crate::piece::Piece;
use crate::pieces::pieces_of;
use crate::version::Version;
use channel_tables::{Separation, Table, TableMaker};
use std::alloc::Global;
use win_index::Shape;

/// Returns the table and the separation whose text this is.
///
/// The text of a table of `t` rounds, `m` identifiers and `C` channels with near `P` and far `Q` is
/// the line `nbhd-table 2`, the line `rounds t ids m channels C near P far Q`, then a line for each
/// window of `2t+1` identifiers in the windows' order, which has the identifiers, a colon and the
/// window's channel, and the line `end`. A text of version 1 begins with the lines `nbhd-table 1`
/// and `rounds t ids m channels C`; its separation is near 1 and far 0. Near is 1 to
/// `MAX_CHANNELS`, and far at most `MAX_CHANNELS`. A line ends with a line feed, single blanks
/// separate its words, and numbers have no leading zeros.
///
/// Fails with `Syntax` if the text is longer than `LONGEST_TABLE_TEXT` bytes. Otherwise the lines
/// are checked in order, and the fault of the first wrong line is returned: `Syntax`, else
/// `WrongWindow`, else `ChannelTooLarge`. Fails with `OutOfMemory` if memory was refused, which can
/// replace any fault except that of the length.
pub fn read_table(alloc: Global, text: &[u8]) -> Result<(Table, Separation), TableFault>
    ensures table { IfOk result (λ read. IsTextOf text.now read.0 read.1) }
    ensures separation { IfOk result (λ read. IsSeparation read.1) }
    ensures fault { IfErr result (IsFault text.now) }
    ensures read { (t : ChannelTable) (s : Separation) → IsTextOf text.now t s
        → MatchResult result (λ read. (read.0 ≡ t) × (read.1 ≡ s)) (λ fault. fault ≡ TableFault.OutOfMemory) }
{
    table_texts_are_apart();
    table_texts_are_read();
    table_of(alloc, text)
}

/// Returns the shape that the first two lines of a table text give, or `None` if they do not have
/// their form.
pub fn shape_in(text: &[u8]) -> Option<Shape>
    ensures shape { IfSome result (λ shape. HasShape text.now shape.rounds shape.ids) }
    ensures one { IfSome result (λ shape. (rounds ids : ℕ) → HasShape text.now rounds ids
        → (rounds ≡ shape.rounds) × (ids ≡ shape.ids)) }
    ensures none { IfNone result ((rounds ids : ℕ) → ¬ HasShape text.now rounds ids) }
{
    let (version, second) = after_title(text)?;
    let (header, _) = sizes(version, second)?;
    Some(header.shape)
}

// Returns the table and the separation of a text, or a fault of the text.
fn table_of(alloc: Global, text: &[u8]) -> Result<(Table, Separation), TableFault>
    ensures table { IfOk result (λ read. IsTextOf text.now read.0 read.1) }
    ensures fault { IfErr result (IsFault text.now) }
{
    if text.len() > LONGEST_TABLE_TEXT {
        return Err(TableFault::Syntax(LONGEST_TABLE_TEXT as u32));
    }
    let (version, header, lines) = header_of(text)?;
    let (table, last) = entries(alloc, text, version, header, lines)?;
    ends(text, version, &table, header.separation, last)?;
    Ok((table, header.separation))
}

// Returns the fault of a text in which the first line that does not have its form begins with
// `rest`.
fn syntax(text: &[u8], rest: &[u8]) -> TableFault
    requires short { length text.now ≤ LONGEST_TABLE_TEXT }
    requires malformed { IsMalformed text.now rest.now }
    ensures { IsFault text.now result }
{
    TableFault::Syntax((text.len() - rest.len()) as u32)
}

// Returns the version and the contents of the first two lines, and the text after them.
fn header_of(text: &[u8]) -> Result<(Version, Header, &[u8]), TableFault>
    requires { length text.now ≤ LONGEST_TABLE_TEXT }
    ensures head { IfOk result (λ read. IsHead read.0 text.now read.1.shape.rounds read.1.shape.ids read.1.channels
        read.1.separation read.2.now) }
    ensures fault { IfErr result (IsFault text.now) }
{
    let Some((version, second)) = after_title(text) else {
        return Err(syntax(text, text));
    };
    let Some((header, rest)) = sizes(version, second) else {
        return Err(syntax(text, second));
    };
    Ok((version, header, rest))
}

// Returns the table whose entries are on the lines from `start` on, and the text after them.
fn entries<'a>(
    alloc: Global,
    text: &'a [u8],
    version: Version,
    header: Header,
    start: &'a [u8],
) -> Result<(Table, &'a [u8]), TableFault>
    requires short { length text.now ≤ LONGEST_TABLE_TEXT }
    requires head { IsHead version text.now header.shape.rounds header.shape.ids header.channels
        header.separation start.now }
    ensures table { IfOk result (λ read. IsTable read.0) }
    ensures lines { IfOk result
        (λ read. text.entry.now ≡ lines_then (written version read.0 header.separation) read.1.now) }
    ensures fault { IfErr result (IsFault text.entry.now) }
{
    let Ok(mut maker) = TableMaker::new(alloc, header.shape, header.channels) else {
        return Err(TableFault::OutOfMemory);
    };
    let shape = header.shape;
    let Ok(pieces) = pieces_of(alloc, shape.ids(), header.channels) else {
        return Err(TableFault::OutOfMemory);
    };
    let level = shape.rounds();
    let count = shape.count(level);
    let ids: &[Piece] = &pieces.ids;
    let mut odometer = Odometer::at(shape, 0, ids);
    let mut rest = start;
    'lines: for number in 0..count {
        match line_at(&odometer, &pieces, rest) {
            WindowLine::Malformed => return Err(syntax(text, rest)),
            WindowLine::OtherWindow => return Err(TableFault::WrongWindow(number + 3)),
            WindowLine::Entry(channel, after) => {
                if is_too_large(channel, header) {
                    return Err(TableFault::ChannelTooLarge(number + 3));
                }
                maker.push(channel);
                rest = after;
            }
        }
        odometer.advance(ids);
    }
    Ok((maker.done(), rest))
}

// Returns whether a channel is not below the number of channels of the second line.
fn is_too_large(channel: u32, header: Header) -> bool
    ensures yes { result ≡ true → header.channels ≤ channel }
    ensures no { result ≡ false → channel < header.channels }
{
    channel >= header.channels
}

// Fails unless `rest` is the last line and nothing more.
fn ends(
    text: &[u8],
    version: Version,
    table: &Table,
    separation: Separation,
    rest: &[u8],
) -> Result<(), TableFault>
    requires short { length text.now ≤ LONGEST_TABLE_TEXT }
    requires written { IsWritten (written version table.now separation) }
    requires lines { text.now ≡ lines_then (written version table.now separation) rest.now }
    ensures ok { OnOk result (text.now ≡ text_of (written version table.now separation)) }
    ensures fault { IfErr result (IsFault text.now) }
{
    let Some(more) = after_end(rest) else {
        return Err(syntax(text, rest));
    };
    if !more.is_empty() {
        return Err(syntax(text, more));
    }
    Ok(())
}
