//! Counts of the third windows that begin with one list of identifiers. Row `v` counts those with a
//! channel below `v`: cell `x` those that hold identifier `x`, and the last cell all of them.
ghost use Rattle.std.specs.Prelude.{◌≡◌, ◌==◌, ℕ, List, ◌+◌, ◌-◌, ◌*◌, ◌^◌, ◌<◌, ◌≤◌, ◌&&◌, true, Some, IfOk, All};
ghost use Rattle.std.specs.Prelude.{if◌then◌else◌, nat_lt, length, slice_get, slice_index};
ghost use Rattle.std.specs.Int.{abs_diff};
ghost use Rattle.win_index.specs.Windows.{IsWindow};
ghost use Rattle.channel_tables.specs.Tables.{windows_of};
ghost use Rattle.nbhd_check.specs.Counts.{held_count, shared_len, AreCells, AreCountsOf, AreSums, CountsFit, IsFamily};

use crate::bucket_search::window_count;
use channel_tables::Table;
use node_program::OutOfMemory;
use std::alloc::Global;
use win_index::MAX_WINDOW_LEN;

/// The counts of one family: of the windows that begin with the same identifiers, all but two.
#[derive(Drop)]
pub(crate) struct Counts {
    /// The rows, one after another.
    pub(crate) cells: Vec<u32>,
    /// The number of the last row. All channels are below it.
    pub(crate) limit: u32,
}

impl Counts {
    /// Allocates counts for the families of a table whose channels are below `limit`. Fails with
    /// `OutOfMemory` if memory was refused.
    pub(crate) fn new(alloc: Global, table: &Table, limit: u32) -> Result<Counts, OutOfMemory>
        requires limit { All (λ channel. channel < limit) table.now.entries }
        requires few { limit < 2 ^ 17 }
        ensures { IfOk result (CountsFit table.now) }
    {
        let len = (limit as usize + 1) * (table.shape().ids() as usize + 1);
        let cells = vec![in alloc; 0u32; len]?;
        Ok(Counts { cells, limit })
    }
}

/// Returns the greatest channel of the table plus one.
pub(crate) fn channel_limit(table: &Table) -> u32
    ensures limit { All (λ channel. channel < result) table.now.entries }
    ensures few { result < 2 ^ 17 }
{
    let mut limit = 1;
    for number in 0..window_count(table) {
        limit = limit.max(table.entry(number) + 1);
    }
    limit
}

// Counts a window with these last two identifiers in a row: in their cells and in the last one.
// `wide` is the length of a row.
fn count_window(cells: &mut [u32], wide: usize, row: usize, last: (usize, usize))
    requires columns { (last.0 + 1 < wide) × (last.1 + 1 < wide) }
    requires within { (row + 1) * wide ≤ length cells.old }
    requires few { (i : ℕ) → slice_index cells.old i + 3 < 2 ^ 32 }
    ensures counted { (v x : ℕ) → x < wide → slice_index cells.new (v * wide + x) ≡ slice_index cells.old (v * wide + x)
        + (if (v == row) && (x == last.0) then 1 else 0) + (if (v == row) && (x == last.1) then 1 else 0)
        + (if (v == row) && (x == wide - 1) then 1 else 0) }
    ensures few { (i : ℕ) → slice_index cells.new i ≤ slice_index cells.old i + 3 }
{
    let start = row * wide;
    cells[start + last.0] += 1;
    cells[start + last.1] += 1;
    cells[start + wide - 1] += 1;
}

// Counts each window of the family in the row after that of its channel. `window` is the family's
// first window, and is advanced in place.
fn count_windows(table: &Table, first: u32, count: u32, window: &mut [u32], cells: &mut [u32])
    requires rows { All (λ channel. (channel + 2) * (table.now.ids + 1) ≤ length cells.old) table.now.entries }
    requires empty { (i : ℕ) → slice_index cells.old i ≡ 0 }
    requires within { (1 ≤ table.now.rounds) × (first + count ≤ length (windows_of table.now)) }
    requires window { (slice_get (windows_of table.now) first ≡ Some window.old)
        × IsWindow (2 * table.now.rounds + 1) table.now.ids window.old }
    ensures { AreCells (λ v x. held_count table.now first count x (λ channel. v == channel + 1))
        (table.now.ids + 1) cells.new }
{
    let shape = table.shape();
    let wide = shape.ids() as usize + 1;
    let shared = 2 * (shape.rounds() as usize - 1) + 1;
    for number in first..first + count {
        let row = table.entry(number) as usize + 1;
        let last = (window[shared] as usize, window[shared + 1] as usize);
        count_window(cells, wide, row, last);
        shape.next_window(shape.rounds(), window);
    }
}

// Turns each row into its sum with all rows before it.
fn add_rows(table: &Table, first: u32, count: u32, cells: &mut [u32])
    requires rows { (last : ℕ) × (length cells.old ≡ (last + 1) * (table.now.ids + 1)) }
    requires few { count < 2 ^ 31 }
    requires counted { AreCells (λ v x. held_count table.now first count x (λ channel. v == channel + 1))
        (table.now.ids + 1) cells.old }
    ensures { AreSums table.now first count cells.new }
{
    let wide = table.shape().ids() as usize + 1;
    for at in wide..cells.len() {
        cells[at] += cells[at - wide];
    }
}

/// Counts the windows that begin with the identifiers `shared`, which are all but two of a window.
pub(crate) fn count_family(table: &Table, shared: &[u32], counts: &mut Counts)
    requires some { 1 ≤ table.now.rounds }
    requires shared { IsWindow (shared_len table.now) table.now.ids shared.now }
    requires fit { CountsFit table.now counts.old }
    ensures fit { CountsFit table.now counts.new }
    ensures counts { AreCountsOf table.now shared.now counts.new }
{
    let shape = table.shape();
    let others = shape.ids() - shared.len() as u32;
    let count = others * (others - 1);
    let first = shape.window_number(shape.rounds() - 1, shared) * count;
    let mut cells_of_window = [0; MAX_WINDOW_LEN];
    let window = &mut cells_of_window[..shared.len() + 2];
    shape.window(shape.rounds(), first, window);
    let cells: &mut [u32] = &mut counts.cells;
    cells.fill(0);
    count_windows(table, first, count, window, cells);
    add_rows(table, first, count, cells);
}

/// Returns the number of windows of the family that hold `x` and have a channel that differs from
/// `channel` by less than `distance`. The number of identifiers as `x` stands for all windows.
pub(crate) fn close_count(
    table: &Table,
    counts: &Counts,
    x: u32,
    channel: u32,
    distance: u32,
) -> u32
    requires some { 1 ≤ distance }
    requires channel { channel < counts.now.limit }
    requires x { x ≤ table.now.ids }
    requires fit { CountsFit table.now counts.now }
    ensures { (first n : ℕ) → AreSums table.now first n counts.now.cells.items
        → result ≡ held_count table.now first n x (λ other. nat_lt (abs_diff channel other) distance) }
{
    let wide = table.shape().ids() as usize + 1;
    let high = channel.saturating_add(distance).min(counts.limit) as usize;
    let low = (channel + 1).saturating_sub(distance) as usize;
    let cells: &[u32] = &counts.cells;
    cells[high * wide + x as usize].saturating_sub(cells[low * wide + x as usize])
}
