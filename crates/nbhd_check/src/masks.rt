//! Masks of the channels of consecutive windows. They show quickly of most windows that no later
//! window is close.
ghost use Rattle.std.specs.Prelude.{◌≡◌, ℕ, List, ◌+◌, ◌*◌, ◌^◌, ◌<◌, ◌≤◌, ◌↔◌, IsTrue, drop, length, slice_index};
ghost use Rattle.std.specs.Bool.{OnFalse};
ghost use Rattle.channel_tables.specs.Tables.{IsTable};
ghost use Rattle.nbhd_check.specs.declared.masks.TheConstants.{MAX_MASKED_DISTANCE};
ghost use Rattle.nbhd_check.specs.Counts.{family_len};
ghost use Rattle.nbhd_check.specs.Masks.{AreMasks, Covers, HasBit, HasBitsOf, NoneClose};

use crate::bucket_search::window_count;
use crate::parallel::part_count;
use channel_tables::Table;
use std::alloc::Global;
use std::thread::{Threads, for_each_chunk_mut};

/// The greatest distance for which masks are made. They hardly help at greater ones.
pub(crate) const MAX_MASKED_DISTANCE: u32 = 8;

// The minimum number of windows of a group with a mask. A mask saves no time at smaller groups, and
// the masks of such groups take no more memory than the channels of their windows.
const MIN_GROUP_WINDOWS: usize = 4;

/// Returns `false` only if no channel of the group is close to this one. The masks are those of the
/// first groups.
pub(crate) fn may_hold(masks: &[u64], group: usize, channel: u16) -> bool
    ensures { (entries : List ℕ) (len distance : ℕ) → AreMasks entries len distance masks.now
        → OnFalse result (NoneClose entries len distance group channel) }
{
    match masks.get(group) {
        Some(mask) => has_bit(*mask, channel),
        None => true,
    }
}

/// Returns a number of first channels none of which is close to a channel of its group: that of the
/// first channel has this number, and the others follow. The masks are those of the first groups.
pub(crate) fn count_apart(masks: &[u64], group: usize, channels: &[u16]) -> usize
    requires { group + length channels.now < 2 ^ 64 }
    ensures few { result ≤ length channels.now }
    ensures apart { (entries : List ℕ) (len distance place : ℕ) → AreMasks entries len distance masks.now
        → place < result
        → NoneClose entries len distance (group + place) (slice_index channels.now place) }
{
    let end = group + channels.len();
    if masks.len() < end {
        return 0;
    }
    count_without_bits(channels, &masks[group..end])
}

// Returns the number of first channels that all lack their bit in the mask beside them.
fn count_without_bits(channels: &[u16], masks: &[u64]) -> usize
    requires { length channels.now ≡ length masks.now }
    ensures few { result ≤ length channels.now }
    ensures lack { (place : ℕ) → place < result
        → ¬ HasBit (slice_index masks.now place) (slice_index channels.now place) }
{
    for place in 0..channels.len() {
        if has_bit(masks[place], channels[place]) {
            return place;
        }
    }
    channels.len()
}

/// Returns whether the mask has the bit of this channel.
pub(crate) fn has_bit(mask: u64, channel: u16) -> bool
    ensures { IsTrue result ↔ HasBit mask channel }
{
    mask >> (channel % 64) & 1 == 1
}

/// Returns the number of windows of a family.
pub(crate) fn windows_per_family(table: &Table) -> usize
    requires some { 1 ≤ table.now.rounds }
    ensures value { result ≡ family_len table.now }
    ensures table { IsTable table.now }
{
    let shape = table.shape();
    let free = shape.ids() as usize - (2 * (shape.rounds() as usize - 1) + 1);
    free * (free - 1)
}

/// How the windows of a table are grouped, and the distance of channels that are not close.
#[derive(Clone, Copy)]
pub(crate) struct Grouping {
    /// The number of windows of a group.
    pub(crate) len: usize,
    /// The distance below which channels are close.
    pub(crate) distance: u32,
}

/// Returns a mask for each group of windows: bit `c % 64` for each channel `c` that is close to a
/// channel of the group. Returns none if they do not help, or if memory was refused. At most `threads`
/// threads make them.
pub(crate) fn group_masks<R: Threads + Sync>(
    rt: &R,
    alloc: Global,
    table: &Table,
    grouping: Grouping,
    threads: u32,
) -> Vec<u64>
    ensures { AreMasks table.now.entries grouping.len grouping.distance result.items }
{
    let Grouping { len, distance } = grouping;
    if distance > MAX_MASKED_DISTANCE || !masks_help(table, len) {
        return Vec::new(alloc);
    }
    let entries = table.entries();
    let groups = entries.len() / len;
    let Ok(mut masks) = vec![in alloc; 0u64; groups] else {
        return Vec::new(alloc);
    };
    let parts = part_count(window_count(table), threads) as usize;
    let size = groups.div_ceil(parts).max(1);
    fill_masks(rt, &mut masks, entries, grouping, size);
    masks
}

// Estimates from the first group whether masks of groups of `len` windows help.
fn masks_help(table: &Table, len: usize) -> bool
    ensures { IsTrue result → 1 ≤ len }
{
    let entries = table.entries();
    let first = &entries[..len.min(entries.len())];
    len >= MIN_GROUP_WINDOWS && !is_full(mask_of(first, 1), table.channels())
}

/// Returns a mask for each `count` groups of `len` windows: the bits of their masks, which are these.
/// Returns none if they do not help, or if memory was refused.
pub(crate) fn joined_masks(
    alloc: Global,
    table: &Table,
    masks: &[u64],
    len: usize,
    count: usize,
) -> Vec<u64>
    requires count { 1 ≤ count }
    requires len { len ≤ 2 ^ 16 }
    requires few { count ≤ 2 ^ 16 }
    ensures { (entries : List ℕ) (distance : ℕ) → AreMasks entries len distance masks.now
        → AreMasks entries (count * len) distance result.items }
{
    if !masks_help(table, count * len) {
        return Vec::new(alloc);
    }
    let Ok(mut joined) = vec![in alloc; 0u64; masks.len() / count] else {
        return Vec::new(alloc);
    };
    join_masks(&mut joined, masks, count);
    joined
}

// Joins the masks of `count` groups at a time.
fn join_masks(joined: &mut [u64], masks: &[u64], count: usize)
    requires room { length joined.old * count ≤ length masks.now }
    ensures { (group place : ℕ) → group < length joined.new → place < count
        → HasBitsOf (slice_index joined.new group) (slice_index masks.now (group * count + place)) }
{
    for group in 0..joined.len() {
        let start = group * count;
        joined[group] = union_of(&masks[start..start + count]);
    }
}

// Returns the bits of these masks.
fn union_of(masks: &[u64]) -> u64
    ensures { (place : ℕ) → place < length masks.now → HasBitsOf result (slice_index masks.now place) }
{
    let mut union = 0;
    for mask in masks {
        union |= *mask;
    }
    union
}

// Estimates whether a mask has the bits of nearly all channels, so that it hardly helps.
fn is_full(mask: u64, channels: u32) -> bool {
    mask.count_ones() * 16 > channels.min(64) * 15
}

// Makes the masks of the first groups, `size` at a time, each part on a thread of its own.
fn fill_masks<R: Threads + Sync>(
    rt: &R,
    masks: &mut [u64],
    entries: &[u16],
    grouping: Grouping,
    size: usize,
)
    requires few { grouping.distance ≤ MAX_MASKED_DISTANCE }
    requires some { 0 < size }
    requires room { length masks.old * grouping.len ≤ length entries.now }
    ensures { AreMasks entries.now grouping.len grouping.distance masks.new }
{
    for_each_chunk_mut(
        rt,
        masks,
        size,
        &|start: usize, part: &mut [u64]|
            requires { (grouping.distance ≤ MAX_MASKED_DISTANCE)
                × ((start + length part.old) * grouping.len ≤ length entries.now) }
            ensures { (length part.new ≡ length part.old)
                × AreMasks (drop (start * grouping.len) entries.entry.now) grouping.len grouping.distance part.new }
        { fill_part(part, &entries[start * grouping.len..], grouping) },
    );
}

// Makes the masks of the first groups, on the calling thread.
fn fill_part(masks: &mut [u64], entries: &[u16], grouping: Grouping)
    requires few { grouping.distance ≤ MAX_MASKED_DISTANCE }
    requires room { length masks.old * grouping.len ≤ length entries.now }
    ensures { AreMasks entries.now grouping.len grouping.distance masks.new }
{
    let Grouping { len, distance } = grouping;
    for group in 0..masks.len() {
        let start = group * len;
        masks[group] = mask_of(&entries[start..start + len], distance);
    }
}

// Returns the bits of the channels that are close to one of these.
fn mask_of(channels: &[u16], distance: u32) -> u64
    requires { distance ≤ MAX_MASKED_DISTANCE }
    ensures { (place : ℕ) → place < length channels.now → Covers result distance (slice_index channels.now place) }
{
    let mut mask = 0;
    for channel in channels {
        mask |= near_bits(*channel, distance);
    }
    mask
}

// Returns the bits of the channels that are close to this one.
fn near_bits(channel: u16, distance: u32) -> u64
    requires { distance ≤ MAX_MASKED_DISTANCE }
    ensures { Covers result distance channel }
{
    let channel = u32::from(channel);
    let mut bits = 0;
    if distance == 1 {
        bits |= 1 << (channel % 64);
        return bits;
    }
    for near in (channel + 1).saturating_sub(distance)..channel + distance {
        bits |= 1 << (near % 64);
    }
    bits
}
