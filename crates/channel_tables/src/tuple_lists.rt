//! The tuples of a shape that are tested for a separation, as lists of identifiers.
ghost use Rattle.std.specs.Prelude.{◌≡◌, ◌+◌, ◌*◌, ◌<◌, ◌≤◌, Some, length, slice_get};
ghost use Rattle.win_index.specs.declared.limits.TheConstants.{MAX_TUPLE_LEN};
ghost use Rattle.win_index.specs.Arcs.{part_at};
ghost use Rattle.win_index.specs.Successor.{IsReplaced};
ghost use Rattle.win_index.specs.Windows.{windows, IsWindow};
ghost use Rattle.channel_tables.specs.Apart.{extra};

use crate::separation::Separation;
use win_index::{MAX_TUPLE_LEN, Shape, rings_have_windows, tuples_are_rings};

/// The tuples of a shape that are tested for a separation: lists of `2t+2` distinct identifiers if
/// far is 0, else of `2t+3`, in lexicographic order.
#[derive(Clone, Copy)]
pub struct TupleLists {
    pub shape: Shape,
    pub separation: Separation,
}

impl TupleLists {
    // Returns by how many identifiers a tuple is longer than a window: 1 if far is 0, so that only
    // neighbours are judged, else 2.
    fn extra(self) -> u32
        ensures { result ≡ extra self.separation }
    {
        if self.separation.far == 0 { 1 } else { 2 }
    }

    /// Returns the number of tuples. It is 0 if a tuple has more identifiers than there are.
    pub fn count(self) -> u64
        ensures { result ≡ length (windows (2 * self.shape.rounds + 1 + extra self.separation) self.shape.ids) }
    {
        self.shape.tuples(self.extra())
    }

    /// Returns the number of identifiers of a tuple.
    pub fn len(self) -> usize
        ensures length { result ≡ 2 * self.shape.rounds + 1 + extra self.separation }
        ensures few { result ≤ MAX_TUPLE_LEN }
    {
        2 * self.shape.rounds() as usize + 1 + self.extra() as usize
    }

    /// Writes the tuple with this number to the cells of `out`, one for each of its identifiers.
    pub fn write(self, number: u64, out: &mut [u32])
        requires below { number < length (windows (2 * self.shape.rounds + 1 + extra self.separation) self.shape.ids) }
        requires room { length out.old ≡ 2 * self.shape.rounds + 1 + extra self.separation }
        ensures item { slice_get (windows (2 * self.shape.rounds + 1 + extra self.separation) self.shape.ids) number
            ≡ Some out.new }
        ensures tuple { IsWindow (2 * self.shape.rounds + 1 + extra self.separation) self.shape.ids out.new }
    {
        self.shape.tuple(self.extra(), number, out);
    }

    /// Replaces a tuple by the next one and returns `true`, or returns `false` without a change if it
    /// is the last.
    pub fn write_next(self, tuple: &mut [u32]) -> bool
        requires { IsWindow (2 * self.shape.rounds + 1 + extra self.separation) self.shape.ids tuple.old }
        ensures { IsReplaced (2 * self.shape.rounds + 1 + extra self.separation) self.shape.ids result
            tuple.old tuple.new }
    {
        self.shape.after(self.extra(), tuple)
    }

    /// Returns the window at this offset in a tuple.
    pub fn window_in<'t>(self, tuple: &'t [u32], offset: usize) -> &'t [u32]
        requires tuple { IsWindow (2 * self.shape.rounds + 1 + extra self.separation) self.shape.ids tuple.now }
        requires offset { offset ≤ extra self.separation }
        ensures value { result.now ≡ part_at self.shape.rounds offset tuple.entry.now }
        ensures window { IsWindow (2 * self.shape.rounds + 1) self.shape.ids result.now }
    {
        tuples_are_rings();
        rings_have_windows();
        let len = 2 * self.shape.rounds() as usize + 1;
        &tuple[offset..offset + len]
    }
}
