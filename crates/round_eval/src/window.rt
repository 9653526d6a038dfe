//! The state of one window.
ghost use Rattle.std.specs.Prelude.{◌≡◌, ◌+◌, ◌*◌, ◌/◌, ◌<◌, ◌≤◌, length};
ghost use Rattle.round_eval.specs.Rows.{rows};
ghost use Rattle.round_eval.specs.Line.{middle_state, shrunk};
ghost use Rattle.win_index.specs.Windows.{IsWindow};

pub(crate) mod laws;

use crate::node::{sent_to_left, sent_to_right};
use crate::row::{round_of_row, row_at, start_of_row, width_of};
use crate::window::laws::lines_are_rows;
use lang_check::Plan;
use node_program::MAX_REGISTERS;
use win_index::MAX_WINDOW_LEN;

// The maximum number of cells of a line: a row for each identifier of a window.
const CELLS: usize = MAX_WINDOW_LEN * MAX_REGISTERS as usize;

/// Writes the registers of a node after `r` rounds to `out`, which has a cell for each register,
/// from the window of the `2r+1` identifiers around it. The window can have any level up to the
/// plan's.
pub fn window_state(plan: &Plan, window: &[u32], out: &mut [u32])
    requires level { length window.now / 2 ≤ length plan.now.program.steps }
    requires window { IsWindow (2 * (length window.now / 2) + 1) plan.now.ids window.now }
    requires cells { length out.old ≡ length plan.now.program.start }
    ensures { out.new ≡ middle_state plan.now.program (length window.now / 2) window.now }
{
    let width = width_of(plan);
    let level = (window.len() / 2) as u32;
    let mut line = [0; CELLS];
    let mut next = [0; CELLS];
    start_of_row(plan, window, &mut line);
    for round in 0..level {
        let inner = 2 * (level - round) as usize - 1;
        shrink(plan, round, inner, &line, &mut next);
        line = next;
    }
    out.copy_from_slice(&line[..width]);
}

// Writes the registers of the inner nodes of a line after a round, from those of all its nodes
// before it.
fn shrink(plan: &Plan, round: u32, inner: usize, line: &[u32; CELLS], next: &mut [u32; CELLS])
    requires round { round < length plan.now.program.steps }
    requires some { 1 ≤ inner }
    requires few { inner + 2 ≤ MAX_WINDOW_LEN }
    ensures { rows (length plan.now.program.start) inner next.new
        ≡ shrunk plan.now.program round (rows (length plan.now.program.start) (inner + 2) line.now) }
{
    lines_are_rows();
    let width = width_of(plan);
    let (first, others) = line.split_at(width);
    let from_first = sent_to_right(plan, round, first);
    let from_last = sent_to_left(plan, round, row_at(others, width, inner));
    round_of_row(plan, round, inner, from_first, others, from_last, next);
}
