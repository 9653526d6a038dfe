//! Writing the text of a table.

ghost use Rattle.std.specs.Prelude.{◌≡◌, ◌≤◌, [], false, length, IfOk, string_bytes};
ghost use Rattle.devices.specs.declared.chunk.TheConstants.{CHUNK_LEN};
ghost use Rattle.devices.specs.Output.{SendsText, WritesText};
ghost use Rattle.devices.specs.Watched.{device_of, has_failed};
ghost use Rattle.table_text.specs.declared.version.Version.TheVariants.{Two};
ghost use Rattle.table_text.specs.LineForms.{IsSeparation};
ghost use Rattle.table_text.specs.TableText.{written, head_then, table_text};
ghost use Rattle.table_text.specs.Pieces.{ArePieces};

use crate::piece::Pieces;
use crate::pieces::pieces_of;
use crate::sections::{LINE_LEN, Lines, SECTION_LEN};
use channel_tables::{Separation, Table};
use devices::chunk::Chunk;
use devices::fault::{EngineFault, OutFault};
use devices::watched::Watched;
use std::alloc::{AllocError, Global};
use std::io::Write;

/// Writes the text of a table and a separation in version 2: a line with the version; a line with
/// the numbers of rounds, identifiers and channels, near and far; a line with each window and its
/// channel, in the windows' order; and the line `end`. Near must be 1 to `MAX_CHANNELS` and far at
/// most `MAX_CHANNELS`, as in every text that `read_table` accepts.
///
/// Fails with `Write` exactly if a write failed or took no byte; a prefix of the text was then
/// written. Fails with `Memory` if memory was refused; nothing was then written.
pub fn write_table<W: Write>(
    alloc: Global,
    table: &Table,
    separation: Separation,
    writer: &mut Watched<W>,
) -> Result<(), OutFault>
    requires separation { IsSeparation separation }
    requires writes { has_failed writer.old ≡ false }
    ensures { WritesText (table_text table.now separation) (W.contents (device_of writer.old))
        (W.contents (device_of writer.new)) (has_failed writer.new) result }
{
    let text = first_lines(alloc, table, separation)?;
    let pieces = pieces_of(alloc, table.shape().ids(), table.channels())?;
    let mut chunk = Chunk::new(alloc)?;
    chunk.push(text.as_bytes());
    match write_lines(writer, &mut chunk, &pieces, table, separation) {
        Ok(()) => Ok(()),
        Err(_) => Err(OutFault::Write),
    }
}

// Returns the lines before those of the windows.
pub(crate) fn first_lines(
    alloc: Global,
    table: &Table,
    separation: Separation,
) -> Result<String, AllocError>
    ensures head { IfOk result (λ text. string_bytes text ≡ head_then (written Two table.now separation) []) }
    ensures short { IfOk result (λ text. length (string_bytes text) ≤ CHUNK_LEN) }
{
    let shape = table.shape();
    let rounds = shape.rounds();
    let ids = shape.ids();
    let channels = table.channels();
    let near = separation.near;
    let far = separation.far;
    format!(in alloc;
        "nbhd-table 2\nrounds {rounds} ids {ids} channels {channels} near {near} far {far}\n"
    )
}

// Writes the first two lines, which are the chunk's contents, the lines of all windows and the last
// line.
fn write_lines<W: Write>(
    writer: &mut Watched<W>,
    chunk: &mut Chunk,
    pieces: &Pieces,
    table: &Table,
    separation: Separation,
) -> Result<(), EngineFault>
    requires working { has_failed writer.old ≡ false }
    requires first { chunk.old ≡ head_then (written Two table.now separation) [] }
    requires pieces { ArePieces table.now.ids table.now.channels pieces.now }
    ensures { SendsText (table_text table.now separation) (W.contents (device_of writer.old))
        (W.contents (device_of writer.new)) (has_failed writer.new) result }
{
    let lines = Lines::new(table, pieces);
    let count = lines.count();
    let mut odometer = lines.odometer_at(0);
    for section in 0..count.div_ceil(lines.size) {
        chunk.make_room(SECTION_LEN, writer)?;
        lines.store_next(&mut odometer, chunk, section * lines.size);
    }
    chunk.make_room(LINE_LEN, writer)?;
    chunk.push(b"end\n");
    chunk.send(writer)
}
