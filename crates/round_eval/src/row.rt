//! Rows of nodes. Their registers are one list, the cells of each node after those of the node
//! before.
ghost use Rattle.std.specs.Prelude.{◌≡◌, ℕ, ◌+◌, ◌*◌, ◌<◌, ◌≤◌, map, length, slice_index_or, All, [], ◌∷◌, ◌++◌};
ghost use Rattle.node_program.specs.Node as rounds;
ghost use Rattle.round_eval.specs.NodeCounts.{IsNodeCount};
ghost use Rattle.round_eval.specs.Rows.{row_after, rows};

pub(crate) mod laws;

use crate::node::{sent_to_left, sent_to_right, start_state, step};
use lang_check::Plan;
use node_program::{MAX_REGISTERS, MAX_ROUNDS};
use win_index::MAX_IDS;

/// Returns the number of registers of a plan's program, which is the width of a row of cells.
pub fn width_of(plan: &Plan) -> usize
    ensures value { result ≡ length plan.now.program.start }
    ensures some { 1 ≤ result }
    ensures few { result ≤ MAX_REGISTERS }
    ensures few_rounds { length plan.now.program.steps ≤ MAX_ROUNDS }
{
    let program = plan.program();
    program.registers() as usize
}

/// Returns the cells of the row at `place`, for rows of this width. Appended to the rows before it,
/// they are one row more.
#[tactic(auto, using(crate::proofs::RowLemmas::row_is, crate::proofs::RowLemmas::rows_more))]
pub fn row_at(cells: &[u32], width: usize, place: usize) -> &[u32]
    requires { place * width + width ≤ length cells.now }
    ensures value { (n : ℕ) → place < n → slice_index_or (rows width n cells.now) place [] ≡ result.now }
    ensures last { rows width (place + 1) cells.now ≡ rows width place cells.now ++ result.now ∷ [] }
    ensures size { length result.now ≡ width }
{
    &cells[place * width..place * width + width]
}

/// Writes the registers of each node of a row before the first round, from their identifiers.
#[tactic(auto, using(std::proofs::lemmas::Nat::row_fits))]
pub fn start_of_row(plan: &Plan, ids: &[u32], states: &mut [u32])
    requires below { All (λ id. id < plan.now.ids) ids.now }
    requires few { length ids.now ≤ MAX_IDS }
    requires room { length ids.now * length plan.now.program.start ≤ length states.old }
    ensures { rows (length plan.now.program.start) (length ids.now) states.new
        ≡ map (rounds.start plan.now.program) ids.now }
{
    let width = width_of(plan);
    for (place, id) in ids.iter().enumerate() {
        start_state(plan, *id, &mut states[place * width..place * width + width]);
    }
}

/// Writes the registers of each node of a row after a round to `out`: `from_left` is the message to
/// the first node in that round, `from_right` the one to the last. Rounds count from 0.
#[tactic(auto, using(std::proofs::lemmas::Nat::row_fits))]
pub fn round_of_row(
    plan: &Plan,
    round: u32,
    nodes: usize,
    from_left: u32,
    states: &[u32],
    from_right: u32,
    out: &mut [u32],
)
    requires round { round < length plan.now.program.steps }
    requires nodes { IsNodeCount nodes }
    requires size { nodes * length plan.now.program.start ≤ length states.now }
    requires out_size { nodes * length plan.now.program.start ≤ length out.old }
    ensures { rows (length plan.now.program.start) nodes out.new
        ≡ row_after plan.now.program round from_left
        (rows (length plan.now.program.start) nodes states.now) from_right }
{
    let width = width_of(plan);
    let last = nodes - 1;
    let mut left = from_left;
    for node in 0..last {
        let own = row_at(states, width, node);
        let right = sent_to_left(plan, round, row_at(states, width, node + 1));
        let cells = &mut out[node * width..node * width + width];
        step(plan, round, own, left, right, cells);
        left = sent_to_right(plan, round, own);
    }
    let own = row_at(states, width, last);
    let cells = &mut out[last * width..last * width + width];
    step(plan, round, own, left, from_right, cells);
}
