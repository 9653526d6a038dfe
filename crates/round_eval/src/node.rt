//! The start, the messages, a round and the channel of one node.
ghost use Rattle.std.specs.Prelude.{◌≡◌, ◌<◌, length};
ghost use Rattle.node_program.specs.Node as rounds;
ghost use Rattle.node_program.specs.Bounds.{register_bounds, IsWithin};

use crate::value::{assign, value_of};
use lang_check::{Plan, accepted_channels_are_below};
use node_program::Env;

/// Writes the registers of a node with the identifier `id` before the first round to `out`, which
/// has a cell for each register.
pub fn start_state(plan: &Plan, id: u32, out: &mut [u32])
    requires id { id < plan.now.ids }
    requires cells { length out.old ≡ length plan.now.program.start }
    ensures { out.new ≡ rounds.start plan.now.program id }
{
    let env = Env {
        id,
        left: 0,
        right: 0,
        registers: &[],
    };
    let program = plan.program();
    assign(program.start(), env, out);
}

/// Returns the messages of a node with these registers in a round, to its left and to its right.
/// Rounds count from 0.
pub fn messages(plan: &Plan, round: u32, own: &[u32]) -> (u32, u32)
    requires round { round < length plan.now.program.steps }
    requires cells { length own.now ≡ length plan.now.program.start }
    ensures to_left { result.0 ≡ rounds.to_left plan.now.program round own.now }
    ensures to_right { result.1 ≡ rounds.to_right plan.now.program round own.now }
{
    (
        sent_to_left(plan, round, own),
        sent_to_right(plan, round, own),
    )
}

/// Writes the registers of a node after a round to `out`: `l` is the message of its left neighbour
/// in that round, `r` that of its right neighbour. All assignments read the registers `own`. Rounds
/// count from 0.
#[tactic(auto, unfolding(node_program::specs::Node::next))]
pub fn step(plan: &Plan, round: u32, own: &[u32], l: u32, r: u32, out: &mut [u32])
    requires round { round < length plan.now.program.steps }
    requires own_cells { length own.now ≡ length plan.now.program.start }
    requires cells { length out.old ≡ length plan.now.program.start }
    ensures { out.new ≡ rounds.next plan.now.program round own.now l r }
{
    let program = plan.program();
    assign(
        &program.steps()[round as usize].next,
        reading_messages(own, l, r),
        out,
    );
}

/// Returns the channel of a node with these registers. It is below the number of channels if each
/// register is within its bound after the last round.
#[tactic(auto, unfolding(node_program::specs::Node::channel))]
pub fn channel(plan: &Plan, own: &[u32]) -> u32
    requires { length own.now ≡ length plan.now.program.start }
    ensures value { result ≡ rounds.channel plan.now.program own.now }
    ensures below { IsWithin own.now (register_bounds plan.now.program plan.now.ids (length plan.now.program.steps))
        → result < plan.now.program.channels }
{
    accepted_channels_are_below();
    let program = plan.program();
    value_of(program.finish(), reading_messages(own, 0, 0))
}

/// Returns the message of a node with these registers to its left in a round. Rounds count from 0.
#[tactic(auto, unfolding(node_program::specs::Node::to_left))]
pub fn sent_to_left(plan: &Plan, round: u32, own: &[u32]) -> u32
    requires { round < length plan.now.program.steps }
    ensures { result ≡ rounds.to_left plan.now.program round own.now }
{
    let program = plan.program();
    value_of(
        &program.steps()[round as usize].left,
        reading_messages(own, 0, 0),
    )
}

/// Returns the message of a node with these registers to its right in a round. Rounds count from 0.
#[tactic(auto, unfolding(node_program::specs::Node::to_right))]
pub fn sent_to_right(plan: &Plan, round: u32, own: &[u32]) -> u32
    requires { round < length plan.now.program.steps }
    ensures { result ≡ rounds.to_right plan.now.program round own.now }
{
    let program = plan.program();
    value_of(
        &program.steps()[round as usize].right,
        reading_messages(own, 0, 0),
    )
}

// Returns what an expression reads in a round: the registers and both messages.
fn reading_messages(registers: &[u32], left: u32, right: u32) -> Env<'_>
    ensures id { result.id ≡ 0 }
    ensures left { result.left ≡ left }
    ensures right { result.right ≡ right }
    ensures registers { result.registers.now ≡ registers.now }
{
    Env {
        id: 0,
        left,
        right,
        registers,
    }
}
