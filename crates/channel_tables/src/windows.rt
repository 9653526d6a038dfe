//! What has a channel for each window of a shape.
ghost use Rattle.std.specs.Prelude.{◌≡◌, ◌+◌, ◌*◌, Some};
ghost use Rattle.win_index.specs.Windows.{IsWindow};
ghost use Rattle.channel_tables.specs.Tables.{ChannelTable, channel_of};

use crate::table::Table;
use win_index::Shape;

/// The windows of a shape with their channels, as a table has them, or as a program computes them.
pub trait Windows {
    // The table of these channels.
    ghost table: { Self → ChannelTable };

    /// Returns the shape of the windows.
    fn shape(&self) -> Shape
        ensures ids { result.ids ≡ (table self.now).ids }
        ensures rounds { result.rounds ≡ (table self.now).rounds };

    /// Returns the channel of a window of the last level.
    fn channel_of_window(&self, window: &[u32]) -> u32
        requires { IsWindow (2 * (table self.now).rounds + 1) (table self.now).ids window.now }
        ensures { channel_of (table self.now) window.now ≡ Some result };
}

impl Windows for Table {
    ghost table = { λ t. t };

    fn shape(&self) -> Shape {
        Table::shape(self)
    }

    fn channel_of_window(&self, window: &[u32]) -> u32 {
        let shape = Table::shape(self);
        self.entry(shape.window_number(shape.rounds(), window))
    }
}
