//! Laws of tables: that of a program solves what the program does, and channels are apart on rings where the table's
//! are.

ghost use Rattle.headline.specs.Laws as law;

use table_fill::table_has_the_channels_of_rounds;

/// The table of a program keeps a separation on every ring if and only if the channels of
/// synchronous rounds do.
pub fn program_tables_are_apart()
    ensures { law.ProgramTablesAreApart }
{
    table_has_the_channels_of_rounds();
}

/// The table of a program solves a problem on every ring if and only if the channels of synchronous
/// rounds do.
pub fn program_tables_solve()
    ensures { law.ProgramTablesSolve }
{
    table_has_the_channels_of_rounds();
}

/// If a table keeps a separation on every ring, its channels on a ring with at least as many nodes as
/// a tuple are as far apart.
pub fn tables_are_apart_on_rings()
    ensures { law.TablesAreApartOnRings }
{}
