//! Writing a table as JSON.

ghost use Rattle.devices.specs.Output.{SendsText};
ghost use Rattle.devices.specs.Watched.{device_of, has_failed};
ghost use Rattle.json_reports.specs.Json.{size_fields, table_fields, table_head};
ghost use Rattle.json_reports.specs.Puts.{PutsFields};
ghost use Rattle.json_reports.specs.Reports.{IsRead};
ghost use Rattle.json_reports.specs.TableTexts.{head_text, rest_text, table_json};
ghost use Rattle.json_reports.specs.Values.{object_of};
ghost use Rattle.reports.specs.Written.{WritesBytes};
ghost use Rattle.std.specs.Prelude.{◌≡◌, ◌++◌, [], IfOk, OnOk, drop, false};

use crate::answers::{put_separation, put_sizes};
use crate::entries::{Entries, ROOM};
use crate::fields::put_text;
use channel_tables::{Separation, Table};
use devices::chunk::Chunk;
use devices::fault::EngineFault;
use devices::output::send;
use devices::watched::Watched;
use json::Writer;
use reports::finding::TableReport;
use std::alloc::{AllocError, Global};
use std::io::Write;

// The number of channels for which a chunk has space at once.
const SECTION: usize = 8_000;

// Writes the JSON text of a table and a separation, and a line feed.
//
// Fails with `Write` exactly if a write failed or took no byte, and a prefix was written then; with
// `Memory` if memory was refused, and nothing was written then.
pub(crate) fn write_table<W: Write>(
    alloc: Global,
    report: &TableReport,
    writer: &mut Watched<W>,
) -> Result<(), EngineFault>
    requires { has_failed writer.old ≡ false }
    ensures writes { WritesBytes (table_json report.now.table report.now.separation) (W.contents (device_of writer.old))
        (W.contents (device_of writer.new)) (has_failed writer.new) result }
    ensures reads { OnOk result (IsRead (object_of (table_fields report.now.table report.now.separation))) }
{
    let head = head_text(alloc, &report.table, report.separation)?;
    let mut chunk = Chunk::new(alloc)?;
    write_parts(writer, &head, &mut chunk, report.table.entries())
}

// Returns the text of a table up to the channel of its first window.
fn head_text(alloc: Global, table: &Table, separation: Separation) -> Result<Vec<u8>, AllocError>
    ensures { IfOk result (λ bytes. bytes.items ≡ head_text table.now separation) }
{
    let mut writer = Writer::new(Vec::new(alloc));
    writer.begin_object()?;
    put_table_head(&mut writer, table, separation)?;
    writer.key("entries")?;
    writer.begin_array()?;
    if let [first, ..] = table.entries() {
        writer.u64(u64::from(*first))?;
    }
    Ok(writer.into_inner())
}

// Appends the members of a table but for the channels of its windows.
fn put_table_head(
    writer: &mut Writer,
    table: &Table,
    separation: Separation,
) -> Result<(), AllocError>
    ensures { PutsFields result writer.old writer.new (table_head table.now separation) }
{
    put_text(writer, "kind", "table")?;
    put_table_sizes(writer, table)?;
    put_separation(writer, separation)
}

// Appends the numbers of identifiers, rounds and channels of a table.
fn put_table_sizes(writer: &mut Writer, table: &Table) -> Result<(), AllocError>
    ensures { PutsFields result writer.old writer.new (size_fields table.now.ids table.now.rounds table.now.channels) }
{
    let shape = table.shape();
    put_sizes(writer, shape.ids(), shape.rounds(), table.channels())
}

// Writes the head of a table, and the channels of all windows but the first one.
fn write_parts<W: Write>(
    writer: &mut Watched<W>,
    head: &[u8],
    chunk: &mut Chunk,
    entries: &[u16],
) -> Result<(), EngineFault>
    requires working { has_failed writer.old ≡ false }
    requires empty { chunk.old ≡ [] }
    ensures { SendsText (head.now ++ rest_text (drop 1 entries.now)) (W.contents (device_of writer.old))
        (W.contents (device_of writer.new)) (has_failed writer.new) result }
{
    send(writer, head)?;
    write_rest(writer, chunk, others(entries))
}

// Returns all but the first one.
fn others(entries: &[u16]) -> &[u16]
    ensures { result.now ≡ drop 1 entries.entry.now }
{
    match entries {
        [_first, others @ ..] => others,
        [] => entries,
    }
}

// Writes these channels, each after a comma, and the end of the table.
fn write_rest<W: Write>(
    writer: &mut Watched<W>,
    chunk: &mut Chunk,
    entries: &[u16],
) -> Result<(), EngineFault>
    requires working { has_failed writer.old ≡ false }
    requires empty { chunk.old ≡ [] }
    ensures { SendsText (rest_text entries.now) (W.contents (device_of writer.old)) (W.contents (device_of writer.new))
        (has_failed writer.new) result }
{
    let mut first = 0;
    while first < entries.len() {
        let count = SECTION.min(entries.len() - first);
        chunk.make_room(SECTION * ROOM, writer)?;
        chunk.push_stored(&Entries {
            entries: &entries[first..first + count],
        });
        first += count;
    }
    chunk.make_room(3, writer)?;
    chunk.push(b"]}\n");
    chunk.send(writer)
}
