//! Exchanges of identifiers and of channels.
ghost use Rattle.std.specs.Prelude.{◌≡◌, ◌+◌, ◌*◌, ◌<◌, [], Some, length, map, slice_index_or};
ghost use Rattle.win_index.specs.Windows.{windows, number_of};
ghost use Rattle.table_formula.specs.Exchanges.{exchanged};

use win_index::{MAX_TUPLE_LEN, Shape};

/// Identifiers or channels that take each other's place in a table.
#[derive(Clone, Copy, Debug, PartialEq, Eq)]
pub enum Exchange {
    /// Two identifiers.
    Identifiers(u64, u64),
    /// Two channels.
    Channels(u64, u64),
    /// Each channel and the one that is as far from the other end: of `C` channels `c` and `C-1-c`.
    Mirror,
}

// Returns the number of the window that has two identifiers of the window with this number
// exchanged.
pub(crate) fn exchanged_number(shape: Shape, number: u32, first: u32, second: u32) -> u32
    requires number { number < length (windows (2 * shape.rounds + 1) shape.ids) }
    requires first { first < shape.ids }
    requires second { second < shape.ids }
    ensures value { number_of (2 * shape.rounds + 1) shape.ids
        (map (exchanged first second) (slice_index_or (windows (2 * shape.rounds + 1) shape.ids) number []))
        ≡ Some result }
    ensures below { result < length (windows (2 * shape.rounds + 1) shape.ids) }
{
    let rounds = shape.rounds();
    let mut cells = [0; MAX_TUPLE_LEN];
    let window = &mut cells[..2 * rounds as usize + 1];
    shape.window(rounds, number, window);
    exchange_in(window, first, second);
    shape.window_number(rounds, window)
}

// Exchanges two identifiers of a window.
fn exchange_in(window: &mut [u32], first: u32, second: u32)
    ensures { window.new ≡ map (exchanged first second) window.old }
{
    for id in window.iter_mut() {
        *id = other_of(*id, first, second);
    }
}

// Returns the other one of two numbers for each of them, and any other number itself.
pub(crate) fn other_of(number: u32, first: u32, second: u32) -> u32
    ensures { result ≡ exchanged first second number }
{
    if number == first {
        second
    } else if number == second {
        first
    } else {
        number
    }
}
