//! The channels of a ring's places, looked up in a table.

ghost use Rattle.std.specs.Prelude.{◌≡◌, ◌<◌, length, IfOk, Some};
ghost use Rattle.channel_tables.specs.Tables.{channel_of};
ghost use Rattle.reports.specs.Laws as law;
ghost use Rattle.reports.specs.Report.{AreTableChannels};
ghost use Rattle.win_index.specs.Arcs.{window_around};
ghost use Rattle.win_index.specs.Ring.{IsRing};

use channel_tables::Table;
use node_program::OutOfMemory;
use std::alloc::Global;
use win_index::{MAX_WINDOW_LEN, Ring, rings_have_windows, windows_have_numbers};

/// A table has a channel at each place of each ring of its shape.
pub fn tables_have_channels()
    ensures { law.TablesHaveChannels }
{
    rings_have_windows();
    windows_have_numbers();
}

/// A table has one list of channels on a ring: those that the table has there.
pub fn one_list_of_channels()
    ensures { law.OneListOfChannels }
{}

/// Returns the channels of a ring's places, from place 0 on, by a table of the ring's shape. Fails if
/// memory was refused.
pub fn table_channels(alloc: Global, table: &Table, ring: &Ring) -> Result<Vec<u32>, OutOfMemory>
    requires ids { ring.now.ids ≡ table.now.ids }
    requires rounds { ring.now.rounds ≡ table.now.rounds }
    ensures channels { IfOk result (λ channels. AreTableChannels table.now ring.now.places channels.items) }
    ensures valid { IsRing ring.now.ids ring.now.rounds ring.now.places }
{
    tables_have_channels();
    let mut channels = Vec::new(alloc);
    for place in 0..ring.len() {
        channels.push(channel_of_place(table, ring, place))?;
    }
    Ok(channels)
}

// Returns the table's channel at the window around a place.
fn channel_of_place(table: &Table, ring: &Ring, place: u32) -> u32
    requires ids { ring.now.ids ≡ table.now.ids }
    requires rounds { ring.now.rounds ≡ table.now.rounds }
    requires place { place < length ring.now.places }
    ensures { channel_of table.now (window_around ring.now.places table.now.rounds place) ≡ Some result }
{
    tables_have_channels();
    let rounds = table.shape().rounds();
    let mut cells = [0u32; MAX_WINDOW_LEN];
    let window = &mut cells[..2 * rounds as usize + 1];
    ring.window_at(place, rounds, window);
    match table.channel_at(window) {
        Some(channel) => channel,
        None => unreachable!(),
    }
}
