//! The channels of the windows that have the last identifier of a window first.
ghost use Rattle.std.specs.Prelude.{◌≡◌, ◌+◌, ◌*◌, ◌≤◌, IfOk, length};
ghost use Rattle.channel_tables.specs.Tables.{windows_of};
ghost use Rattle.nbhd_check.specs.ChannelsBefore.{AreBefore};
ghost use Rattle.nbhd_check.specs.MiddleBuckets.{AreMiddleBuckets, AreNextBuckets};
ghost use Rattle.nbhd_check.specs.Buckets.{wide};

use crate::bucket_search::{window_count, windows_per_bucket};
use crate::middle_buckets::MiddleBucket;
use crate::near::{SecondBuckets, channels_of};
use channel_tables::Table;
use node_program::OutOfMemory;
use std::alloc::Global;

/// Returns these channels, in the windows' order. The windows with the same `2t` first identifiers have
/// theirs one after another, so that the channels of all windows before a list of identifiers are in a
/// row. Fails if memory was refused.
pub(crate) fn channels_before(
    alloc: Global,
    table: &Table,
    middles: &[MiddleBucket],
) -> Result<Vec<u16>, OutOfMemory>
    requires buckets { AreMiddleBuckets table.now 0 middles.now }
    requires all { length middles.now * wide table.now ≡ length (windows_of table.now) }
    ensures before { IfOk result (λ before. AreBefore table.now (length (windows_of table.now)) before.items) }
    ensures size { IfOk result (λ before. length before.items ≡ length (windows_of table.now)) }
{
    let mut before = vec![in alloc; 0u16; window_count(table) as usize]?;
    write_all(table, middles, &mut before);
    Ok(before)
}

// Writes the channels of all windows to the cells of those that they are before.
fn write_all(table: &Table, middles: &[MiddleBucket], before: &mut [u16])
    requires buckets { AreMiddleBuckets table.now 0 middles.now }
    requires all { length middles.now * wide table.now ≡ length (windows_of table.now) }
    requires room { length before.old ≡ length (windows_of table.now) }
    ensures size { length before.new ≡ length before.old }
    ensures before { AreBefore table.now (length (windows_of table.now)) before.new }
{
    for bucket in 0..middles.len() {
        write_bucket(table, middles[bucket].next(bucket), before);
    }
}

// Writes the channels of a bucket's windows.
fn write_bucket(table: &Table, next: SecondBuckets, before: &mut [u16])
    requires next { AreNextBuckets table.now next }
    requires room { length before.old ≡ length (windows_of table.now) }
    requires before { AreBefore table.now (next.bucket * wide table.now) before.old }
    ensures size { length before.new ≡ length before.old }
    ensures before { AreBefore table.now (next.bucket * wide table.now + wide table.now) before.new }
{
    let each = windows_per_bucket(table);
    let channels = channels_of(table, next.bucket);
    for place in 0..each {
        before[next.bucket_at(place) * each + next.gap_at(place)] = channels[place];
    }
}
