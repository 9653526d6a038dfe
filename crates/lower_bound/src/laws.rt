//! Linial's lower bound, by the proof of Laurinharju and Suomela (2014).
ghost use Rattle.lower_bound.specs.Laws as law;

use channel_tables::less_is_apart;
use win_index::{rings_have_windows, tuples_are_rings, window_of_number, windows_have_numbers};

/// If each window of `t` rounds has a channel below `c`, and neighbours' channels differ on every
/// ring of identifiers below `m`, then `m` is at most the tower of height `2t` over `c`.
pub fn windows_need_channels()
    ensures { law.WindowsNeedChannels }
{
    tuples_are_rings();
}

/// The number of identifiers of a table that keeps a separation on every ring is at most the tower
/// of height `2t` over the number of its channels that are apart by near, each two of them. Near
/// must be at least 1; if far is above 0, there must be at least `2t+3` identifiers.
pub fn tables_need_channels()
    ensures { law.TablesNeedChannels }
{
    windows_need_channels();
    window_of_number();
    windows_have_numbers();
    less_is_apart();
}

/// From `2t+3` identifiers on there is a ring of an odd number of nodes, for which two channels are
/// too few: a table has more channels than twice near.
pub fn odd_rings_need_three()
    ensures windows { law.OddRingsNeedThree }
    ensures tables { law.TablesNeedThree }
{
    rings_have_windows();
    window_of_number();
    windows_have_numbers();
    less_is_apart();
}

/// A ring whose number of nodes is no multiple of three needs four channels if those of places at
/// distance one and two differ, and a ring of five nodes needs five. So does a table with far above
/// 0 that has identifiers for such a ring.
pub fn nearby_places_need_four()
    ensures four { law.RingsNeedFour }
    ensures five { law.FiveNeedFive }
    ensures tables { law.TablesNeedFour }
    ensures tables_five { law.TablesNeedFive }
{
    rings_have_windows();
    window_of_number();
    windows_have_numbers();
    less_is_apart();
}
