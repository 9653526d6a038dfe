//! Rounds of many nodes at once, compared with rounds of single nodes.

ghost use Rattle.std.specs.Prelude.{◌≡◌, ◌<◌, ◌≤◌, length};
ghost use Rattle.unroll.specs.Room.{HasRoomFor};
ghost use Rattle.unroll.specs.States.{SameSize};

use lang_check::Plan;
use round_eval::{messages, step};
use std::alloc::Global;
use test_programs::plan_of;
use unroll::{Code, Columns, Work, step_columns};

// Three rounds of six registers, which compute each of the seventeen operations.
const OPERATIONS: &[u8] =
    b"rounds 3\nchannels 1\nregisters 6\nstart\nr0 = 0\nr1 = 0\nr2 = 0\nr3 = 0\nr4 = 0\nr5 = 0\nround\nsend left r0\nsend right r1\nr0 = not(L)\nr1 = and(R, L)\nr2 = or(R, L)\nr3 = xor(R, L)\nr4 = shl(R, L)\nr5 = shr(R, L)\nround\nsend left r2\nsend right r3\nr0 = add(R, L)\nr1 = sub(R, L)\nr2 = min(R, L)\nr3 = max(R, L)\nr4 = ldb(R, L)\nr5 = bit(R, L)\nround\nsend left r4\nsend right r5\nr0 = eq(R, L)\nr1 = ne(R, L)\nr2 = lt(R, L)\nr3 = le(R, L)\nr4 = if(L, R, r0)\nr5 = r0\nfinish 0\n";

// Returns a number that looks like any other, but a small one in three of four cases.
fn varied(node: u32, register: u32) -> u32 {
    let mixed = node
        .wrapping_mul(6)
        .wrapping_add(register)
        .wrapping_mul(2_654_435_761);
    match mixed.wrapping_shr(8) & 3 {
        0 => mixed,
        1 => mixed.wrapping_shr(26),
        2 => mixed.wrapping_shr(31),
        _ => 0,
    }
}

// Returns the registers of a node.
fn state_of(node: u32) -> [u32; 6] {
    [
        varied(node, 0),
        varied(node, 1),
        varied(node, 2),
        varied(node, 3),
        varied(node, 4),
        varied(node, 5),
    ]
}

// Writes the registers of each node.
fn write_states(nodes: &mut Columns)
    requires { nodes.old.registers ≡ 6 }
    ensures { SameSize nodes.old nodes.new }
{
    for i in 0..nodes.width() {
        nodes.fill_states(i, 1, &state_of(i as u32));
    }
}

// Returns whether a node has these registers.
fn has_state(nodes: &Columns, i: usize, state: &[u32; 6]) -> bool
    requires registers { nodes.now.registers ≡ 6 }
    requires node { i < length nodes.now.states }
{
    for (register, value) in state.iter().enumerate() {
        if nodes.get(register, i) != *value {
            return false;
        }
    }
    true
}

// Returns whether each node has the registers that it has after a round in which it is its own
// neighbour on both sides.
fn are_after_round(plan: &Plan, round: u32, nodes: &Columns) -> bool
    requires round { round < length plan.now.program.steps }
    requires plan { length plan.now.program.start ≡ 6 }
    requires registers { nodes.now.registers ≡ 6 }
{
    for i in 0..nodes.width() {
        let own = state_of(i as u32);
        let (to_left, to_right) = messages(plan, round, &own);
        let mut next = [0; 6];
        step(plan, round, &own, to_right, to_left, &mut next);
        if !has_state(nodes, i, &next) {
            return false;
        }
    }
    true
}

// Returns whether the nodes do each round as they do it one by one.
fn do_each_round(code: &Code<'_>, nodes: &Columns, work: &mut Work, out: &mut Columns) -> bool
    requires registers { length code.now.program.start ≡ 6 }
    requires room { HasRoomFor work.old code.now nodes.now }
    requires out { SameSize nodes.now out.old }
{
    for round in 0..code.plan().shape().rounds() {
        step_columns(code, round, nodes, nodes, nodes, work, out);
        if !are_after_round(code.plan(), round, out) {
            return false;
        }
    }
    true
}

// Returns the same with memory for the rounds.
fn do_rounds(alloc: Global, code: &Code<'_>, nodes: &Columns) -> Option<bool>
    requires code { length code.now.program.start ≡ 6 }
    requires registers { nodes.now.registers ≡ 6 }
{
    let mut work = Work::new(alloc, code, nodes.width()).ok()?;
    let mut out = Columns::new(alloc, 6, nodes.width()).ok()?;
    Some(do_each_round(code, nodes, &mut work, &mut out))
}

// Returns the same for this many nodes.
fn do_rounds_of(alloc: Global, code: &Code<'_>, width: usize) -> Option<bool>
    requires code { length code.now.program.start ≡ 6 }
    requires some { 1 ≤ width }
    requires few { width ≤ 256 }
{
    let mut nodes = Columns::new(alloc, 6, width).ok()?;
    write_states(&mut nodes);
    do_rounds(alloc, code, &nodes)
}

// Returns the same for 1, for 255 and for 256 nodes.
fn do_rounds_of_plan(alloc: Global, plan: &Plan) -> Option<[bool; 3]> {
    if plan.program().registers() != 6 {
        return None;
    }
    let code = Code::new(alloc, plan).ok()?;
    Some([
        do_rounds_of(alloc, &code, 1)?,
        do_rounds_of(alloc, &code, 255)?,
        do_rounds_of(alloc, &code, 256)?,
    ])
}

// Returns the same for the program above.
fn do_all_operations(alloc: Global) -> Option<[bool; 3]> {
    let plan = plan_of(alloc, OPERATIONS, 8).ok()?;
    do_rounds_of_plan(alloc, &plan)
}

#[test]
fn nodes_do_the_same_together_as_alone(rt: HostRuntime) {
    assert!(rt; do_all_operations(rt.alloc()) == Some([true; 3]));
}
