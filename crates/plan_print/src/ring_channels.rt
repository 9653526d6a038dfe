//! The channels of a ring's places, looked up in the table of a program.

ghost use Rattle.std.specs.Prelude.{◌≡◌, IfOk};
ghost use Rattle.node_program.specs.GlobalRounds.{channels_of};
ghost use Rattle.round_eval.specs.Shapes.{IsOfShape};
ghost use Rattle.table_fill.specs.ProgramTables.{table_of};

use channel_tables::Table;
use lang_check::Plan;
use node_program::OutOfMemory;
use reports::ring_channels::{one_list_of_channels, table_channels};
use std::alloc::Global;
use table_fill::table_has_the_channels_of_rounds;
use win_index::Ring;

// Returns the channels of a ring's places, from place 0 on, by the table of a plan's program.
pub(crate) fn plan_channels(
    alloc: Global,
    plan: &Plan,
    table: &Table,
    ring: &Ring,
) -> Result<Vec<u32>, OutOfMemory>
    requires table { table.now ≡ table_of plan.now.program plan.now.ids }
    requires shape { IsOfShape ring.now plan.now }
    ensures { IfOk result (λ channels. channels.items ≡ channels_of plan.now.program ring.now.places) }
{
    table_has_the_channels_of_rounds();
    one_list_of_channels();
    table_channels(alloc, table, ring)
}
