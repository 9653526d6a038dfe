//! Sections of the lines of a table: those of consecutive windows, as many as a chunk has space for.

ghost use Rattle.std.specs.Prelude.{◌≡◌, ◌+◌, ◌*◌, ◌^◌, ◌<◌, ◌≤◌, [], ◌++◌, length, All};
ghost use Rattle.devices.specs.declared.chunk.TheConstants.{CHUNK_LEN};
ghost use Rattle.devices.specs.Output.{buffered_text};
ghost use Rattle.win_index.specs.declared.limits.TheConstants.{MAX_ROUNDS, MAX_WINDOWS};
ghost use Rattle.channel_tables.specs.Tables.{windows_of};
ghost use Rattle.table_text.specs.declared.sections.TheConstants.{LINES_LEN, LINE_LEN};
ghost use Rattle.table_text.specs.declared.line_prefix.TheConstants.{PREFIX_LEN};
ghost use Rattle.table_text.specs.Sections.{lines_from, bucket_lines, AreEmpty, AreFilled, Shows, ShowsBucket};
ghost use Rattle.table_text.specs.Pieces.{id_text, channel_text, AreTexts, ArePieces};

use crate::line_prefix::{PREFIX_LEN, SHORT_LEN};
use crate::odometer::Odometer;
use crate::piece::{Piece, Pieces};
use channel_tables::Table;
use devices::buffered::Buffered;
use devices::chunk::{Chunk, ToBytes, write_buffered};

/// The space for a line: a prefix, the piece of an identifier and that of a channel.
pub(crate) const LINE_LEN: usize = PREFIX_LEN + 16;

// The maximum number of bytes of a section.
const LINES_LEN: u32 = 64_000;

/// The space for a section. The last line is stored from buffers that are longer than its text.
pub(crate) const SECTION_LEN: usize = LINES_LEN as usize + LINE_LEN;

// Returns the number of windows of a section, if there are so many rounds. A line has at most 8 bytes
// for each identifier and 8 for the channel.
fn section_windows(rounds: u32) -> u32
    requires { rounds ≤ MAX_ROUNDS }
    ensures some { 0 < result }
    ensures fits { result * (16 * rounds + 16) ≤ LINES_LEN }
{
    LINES_LEN / (16 * rounds + 16)
}

/// The lines of a table, and what they are made from.
#[derive(Clone, Copy)]
pub(crate) struct Lines<'a> {
    table: &'a Table,
    pieces: &'a Pieces,
    /// The number of windows of a section.
    pub(crate) size: u32,
    pub(crate) ghost pieces_are: { ArePieces table.now.ids table.now.channels pieces.now },
    pub(crate) ghost full: { length table.now.entries ≡ length (windows_of table.now) },
    pub(crate) ghost some: { 0 < size },
    pub(crate) ghost fits: { size * (16 * table.now.rounds + 16) ≤ LINES_LEN },
}

impl<'a> Lines<'a> {
    /// Returns the lines of a table that are made from these pieces.
    pub(crate) fn new(table: &'a Table, pieces: &'a Pieces) -> Lines<'a>
        requires { ArePieces table.now.ids table.now.channels pieces.now }
        ensures table { result.table.now ≡ table.now }
    {
        let size = section_windows(table.shape().rounds());
        Lines {
            table,
            pieces,
            size,
        }
    }
}

impl Lines<'_> {
    /// Returns the number of lines.
    pub(crate) fn count(self) -> u32
        ensures value { result ≡ length (windows_of self.entry.table.now) }
        ensures some { 0 < result }
        ensures few { result ≤ MAX_WINDOWS }
    {
        let shape = self.table.shape();
        shape.count(shape.rounds())
    }

    /// Returns an odometer that shows the window with this number.
    pub(crate) fn odometer_at(self, number: u32) -> Odometer
        requires { number < length (windows_of self.table.now) }
        ensures { Shows self.entry.table.now number result }
    {
        Odometer::at(self.table.shape(), number, &self.pieces.ids)
    }

    /// Stores the lines of a section in each of these empty chunks, in order, from the section that
    /// begins with this window, as far as there are windows.
    pub(crate) fn store(self, chunks: &mut [Chunk], first: u32)
        requires empty { AreEmpty chunks.old }
        requires fits { first + length chunks.old * self.size < 2 ^ 32 }
        ensures { AreFilled self.entry.table.now first self.entry.size chunks.new }
    {
        if first < self.count() {
            let mut odometer = self.odometer_at(first);
            self.store_sections(&mut odometer, chunks, first);
        }
    }

    // Stores the same lines. The odometer shows this window.
    fn store_sections(self, odometer: &mut Odometer, chunks: &mut [Chunk], first: u32)
        requires empty { AreEmpty chunks.old }
        requires fits { first + length chunks.old * self.size < 2 ^ 32 }
        requires shows { Shows self.table.now first odometer.old }
        ensures { AreFilled self.entry.table.now first self.entry.size chunks.new }
    {
        let mut next = first;
        for index in 0..chunks.len() {
            self.store_section(odometer, &mut chunks[index], next);
            next += self.size;
        }
    }

    // Stores in an empty chunk the lines of the section that begins with this window, which the odometer
    // shows, as far as there are windows. It then shows the first window behind the section.
    fn store_section(self, odometer: &mut Odometer, chunk: &mut Chunk, first: u32)
        requires empty { chunk.old ≡ [] }
        requires shows { Shows self.table.now first odometer.old }
        ensures lines { chunk.new ≡ lines_from self.entry.table.now first self.entry.size }
        ensures shows { Shows self.entry.table.now (first + self.entry.size) odometer.new }
    {
        if first < self.count() {
            self.store_next(odometer, chunk, first);
        }
    }

    /// Appends to a chunk the lines of the section that begins with this window, which the odometer
    /// shows. It then shows the first window behind the section, if there is one.
    pub(crate) fn store_next(self, odometer: &mut Odometer, chunk: &mut Chunk, first: u32)
        requires room { length chunk.old + SECTION_LEN ≤ CHUNK_LEN }
        requires first { first < length (windows_of self.table.now) }
        requires shows { Shows self.table.now first odometer.old }
        ensures lines { chunk.new ≡ chunk.old ++ lines_from self.entry.table.now first self.entry.size }
        ensures shows { Shows self.entry.table.now (first + self.entry.size) odometer.new }
    {
        let end = first + self.size.min(self.count() - first);
        let ids: &[Piece] = &self.pieces.ids;
        let mut next = first;
        while next < end {
            let count = odometer.left().min(end - next);
            self.store_bucket(odometer, chunk, next, count);
            odometer.advance_by(count, ids);
            next += count;
        }
    }

    // Appends to a chunk the lines of so many windows from this one on, which the odometer shows. They
    // are of one bucket. It is not inlined, so that its loop has registers.
    #[inline(never)]
    fn store_bucket(self, odometer: &Odometer, chunk: &mut Chunk, first: u32, count: u32)
        requires room { length chunk.old + count * (16 * self.table.now.rounds + 16) + LINE_LEN ≤ CHUNK_LEN }
        requires bucket { ShowsBucket self.table.now first count odometer.now }
        ensures lines { chunk.new ≡ chunk.old ++ lines_from self.entry.table.now first count }
        ensures filled { length chunk.new ≤ length chunk.old + count * (16 * self.entry.table.now.rounds + 16) }
    {
        let from = first as usize;
        let channels = &self.table.entries()[from..from + count as usize];
        let last_ids = odometer.last_ids(count);
        let prefix = &odometer.prefix;
        let pieces = self.pieces;
        if prefix.len <= SHORT_LEN {
            let start = prefix.start();
            let prefix = Buffered {
                buffer: &start,
                len: prefix.len,
            };
            chunk.push_stored(&BucketLines {
                pieces,
                channels,
                prefix,
                last_ids,
            });
        } else {
            let prefix = prefix.buffered();
            chunk.push_stored(&BucketLines {
                pieces,
                channels,
                prefix,
                last_ids,
            });
        }
    }
}

// A line for each of these channels and the last identifier at its place, each line with this prefix.
#[derive(Clone, Copy)]
struct BucketLines<'t, 'o, 'p> {
    pieces: &'t Pieces,
    channels: &'t [u16],
    prefix: Buffered<'p>,
    last_ids: &'o [u32],
    ghost buffer: { length prefix.buffer.now ≤ PREFIX_LEN },
    ghost texts: { AreTexts id_text pieces.now.ids.items × AreTexts channel_text pieces.now.channels.items },
    ghost ids: { All (λ id. id < length pieces.now.ids.items) last_ids.now },
    ghost below: { All (λ channel. channel < length pieces.now.channels.items) channels.now },
    ghost count: { length last_ids.now ≡ length channels.now },
}

impl ToBytes for BucketLines<'_, '_, '_> {
    ghost text = { λ lines. bucket_lines (buffered_text lines.prefix) lines.last_ids.now lines.channels.now };

    ghost most = { λ lines. length lines.channels.now * (length (buffered_text lines.prefix) + 16) };

    ghost room = { λ lines. length lines.channels.now * (length (buffered_text lines.prefix) + 16) + LINE_LEN };

    // A piece is read right before it is written, so that few registers are needed.
    #[inline(always)]
    fn store(&self, bytes: &mut [u8], start: usize) -> usize {
        let ids: &[Piece] = &self.pieces.ids;
        let ends: &[Piece] = &self.pieces.channels;
        let mut end = start;
        for index in 0..self.channels.len() {
            end = write_buffered(bytes, end, self.prefix);
            let last = ids[self.last_ids[index] as usize];
            end = write_buffered(bytes, end, last.buffered());
            let channel = ends[self.channels[index] as usize];
            end = write_buffered(bytes, end, channel.buffered());
        }
        end
    }
}
