//! Writing the text of a table whose lines are made by threads.

ghost use Rattle.std.specs.Prelude.{◌≡◌, ℕ, ◌+◌, ◌*◌, ◌^◌, ◌<◌, ◌≤◌, List, [], false, length, vec_len, slice_index_or};
ghost use Rattle.std.specs.Prelude.{IfOk, OnOk, flat_map};
ghost use Rattle.devices.specs.Output.{SendsText, WritesText};
ghost use Rattle.devices.specs.Watched.{device_of, has_failed};
ghost use Rattle.channel_tables.specs.Tables.{windows_of};
ghost use Rattle.table_text.specs.declared.parallel.TheConstants.{CHUNKS};
ghost use Rattle.table_text.specs.LineForms.{IsSeparation};
ghost use Rattle.table_text.specs.TableText.{entries_then, end_then, table_text};
ghost use Rattle.table_text.specs.Sections.{lines_from, AreEmpty, AreFilled};

use crate::pieces::pieces_of;
use crate::sections::Lines;
use crate::writing::{first_lines, write_table};
use channel_tables::{Separation, Table};
use devices::chunk::Chunk;
use devices::fault::{EngineFault, OutFault};
use devices::output::send;
use devices::watched::Watched;
use std::alloc::{AllocError, Global};
use std::io::Write;
use std::thread::{Threads, for_each_chunk_mut};

// The number of sections that are made before they are written.
const CHUNKS: usize = 32;

// The minimum number of lines that threads make. To start a thread costs more than fewer lines.
const MIN_LINES: u32 = 1 << 15;

/// Writes the same text as `write_table`, with the same faults. If there are two or more workers and
/// many windows, as many threads make the lines.
pub fn write_table_with_workers<R: Threads + Sync, W: Write>(
    rt: &R,
    alloc: Global,
    table: &Table,
    separation: Separation,
    workers: u32,
    writer: &mut Watched<W>,
) -> Result<(), OutFault>
    requires separation { IsSeparation separation }
    requires writes { has_failed writer.old ≡ false }
    ensures { WritesText (table_text table.now separation) (W.contents (device_of writer.old))
        (W.contents (device_of writer.new)) (has_failed writer.new) result }
{
    let shape = table.shape();
    if workers < 2 || shape.count(shape.rounds()) < MIN_LINES {
        return write_table(alloc, table, separation, writer);
    }
    let text = first_lines(alloc, table, separation)?;
    let pieces = pieces_of(alloc, shape.ids(), table.channels())?;
    let mut chunks = empty_chunks(alloc)?;
    let lines = Lines::new(table, &pieces);
    let Ok(()) = send(writer, text.as_bytes()) else {
        return Err(OutFault::Write);
    };
    match write_rest(rt, workers, lines, &mut chunks, writer) {
        Ok(()) => Ok(()),
        Err(_) => Err(OutFault::Write),
    }
}

// Allocates empty chunks.
fn empty_chunks(alloc: Global) -> Result<Vec<Chunk>, AllocError>
    ensures count { IfOk result (λ chunks. vec_len chunks ≡ CHUNKS) }
    ensures empty { IfOk result (λ chunks. AreEmpty chunks.items) }
{
    let mut chunks = Vec::with_capacity(alloc, CHUNKS)?;
    for _chunk in 0..CHUNKS {
        chunks.push_reserved(Chunk::new(alloc)?);
    }
    Ok(chunks)
}

// Writes the lines of all windows and the last line. At most `threads` threads make the lines.
fn write_rest<R: Threads + Sync, W: Write>(
    rt: &R,
    threads: u32,
    lines: Lines<'_>,
    chunks: &mut [Chunk],
    writer: &mut Watched<W>,
) -> Result<(), EngineFault>
    requires threads { 0 < threads }
    requires chunks { (length chunks.old ≡ CHUNKS) × AreEmpty chunks.old }
    requires working { has_failed writer.old ≡ false }
    ensures { SendsText (entries_then (windows_of lines.entry.table.now) lines.entry.table.now.entries (end_then []))
        (W.contents (device_of writer.old)) (W.contents (device_of writer.new)) (has_failed writer.new) result }
{
    let size = lines.size * CHUNKS as u32;
    for part in 0..lines.count().div_ceil(size) {
        fill_chunks(rt, threads, lines, part * size, chunks);
        send_chunks(chunks, writer)?;
    }
    send(writer, b"end\n")
}

// Stores the lines of a section in each chunk, in order, from the section that begins with this
// window. At most `threads` threads do so, each in consecutive chunks.
fn fill_chunks<R: Threads + Sync>(
    rt: &R,
    threads: u32,
    lines: Lines<'_>,
    first: u32,
    chunks: &mut [Chunk],
)
    requires threads { 0 < threads }
    requires empty { (length chunks.old ≡ CHUNKS) × AreEmpty chunks.old }
    requires fits { first + CHUNKS * lines.size < 2 ^ 32 }
    ensures { AreFilled lines.entry.table.now first lines.entry.size chunks.new }
{
    let each = CHUNKS.div_ceil(threads as usize);
    let part = move |start: usize, part: &mut [Chunk]|
        requires { (start + length part.now ≤ CHUNKS) × AreEmpty part.now × (first + CHUNKS * lines.size < 2 ^ 32) }
        ensures { (k : ℕ) (d : List ℕ) → k < length part.entry.now → slice_index_or part.exit.now k d
            ≡ lines_from lines.entry.table.now (first + (start + k) * lines.entry.size) lines.entry.size }
    { store_part(lines, first, start, part) };
    for_each_chunk_mut(rt, chunks, each, &part);
}

// Stores the lines of a section in each of these chunks, in order. The section at the index `start` is
// the first of them; that at the index 0 begins with the window `first`.
fn store_part(lines: Lines<'_>, first: u32, start: usize, part: &mut [Chunk])
    requires within { start + length part.old ≤ CHUNKS }
    requires empty { AreEmpty part.old }
    requires fits { first + CHUNKS * lines.size < 2 ^ 32 }
    ensures { (k : ℕ) (d : List ℕ) → k < length part.old → slice_index_or part.new k d
        ≡ lines_from lines.entry.table.now (first + (start + k) * lines.entry.size) lines.entry.size }
{
    lines.store(part, first + start as u32 * lines.size);
}

// Writes the contents of all chunks, in order, and empties them.
fn send_chunks<W: Write>(chunks: &mut [Chunk], writer: &mut Watched<W>) -> Result<(), EngineFault>
    requires { has_failed writer.old ≡ false }
    ensures sent { SendsText (flat_map (λ chunk. chunk) chunks.old) (W.contents (device_of writer.old))
        (W.contents (device_of writer.new)) (has_failed writer.new) result }
    ensures empty { OnOk result (AreEmpty chunks.new) }
{
    for index in 0..chunks.len() {
        chunks[index].send(writer)?;
    }
    Ok(())
}
