//! How a place of a ring computes, round by round: each expression of the program as a tree of values.

ghost use Rattle.std.specs.Prelude.{◌≡◌, ◌+◌, ◌++◌, ◌<◌, ◌≤◌, All, IfOk, OnOk, length, map};
ghost use Rattle.node_program.specs.Term.{depth as depth_of, term_of, step_of};
ghost use Rattle.node_program.specs.Limits.{AreSmall, IsSmallRound};
ghost use Rattle.node_program.specs.declared.limits.TheConstants.{MAX_REGISTERS, MAX_ROUNDS};
ghost use Rattle.node_program.specs.Value.{env_of};
ghost use Rattle.node_program.specs.Node as node;
ghost use Rattle.node_program.specs.GlobalRounds.{left_of, right_of, state};
ghost use Rattle.value_trees.specs.ValueTrees.{tree_at, assigned_trees, trees_of_round, trees_of_rounds};
ghost use Rattle.value_trees.specs.ValueTrees.{value_trees, tree_value};

use crate::parts::{TreePart, push_parts};
use lang_check::Plan;
use node_program::{Env, Expr, MAX_DEPTH, OutOfMemory, Round};
use round_eval::{Configuration, Quantity};
use std::alloc::{AllocError, Global};
use win_index::Ring;

/// What an expression of a program gives.
#[derive(Clone, Copy)]
pub enum Given {
    /// The value of this register.
    Register(u32),
    /// The message to the left.
    Left,
    /// The message to the right.
    Right,
    /// The channel.
    Channel,
}

/// How a place computes what an expression gives.
#[derive(Drop)]
pub struct ValueTree<'p> {
    /// The round: 0 for the registers before the first round, and for the channel the last one.
    pub round: u32,
    /// What the expression gives.
    pub given: Given,
    /// The parts of the expression in the order of their lines, itself first.
    pub parts: Vec<TreePart<'p>>,
}

// A place that is explained, and the memory that its trees take.
#[derive(Clone, Copy)]
struct Explained {
    alloc: Global,
    place: u32,
}

/// Returns how a place of a ring computes by a plan: each expression of the program in the order of
/// the text, as a tree with the value of every part that counts. The ring must have the plan's
/// number of identifiers. Fails with `OutOfMemory` if memory was refused.
pub fn trees_of<'p>(
    alloc: Global,
    plan: &'p Plan,
    ring: &Ring,
    place: u32,
) -> Result<Vec<ValueTree<'p>>, OutOfMemory>
    requires ids { ring.now.ids ≡ plan.now.ids }
    requires place { place < length ring.now.places }
    ensures { IfOk result (λ trees. map tree_value trees.items ≡ value_trees plan.now.program ring.now.places place) }
{
    let mut trees = Vec::new(alloc);
    let mut places = Configuration::new(alloc, plan, ring)?;
    let program = plan.program();
    let known = knowing(ring.id(place));
    push_assigned(&mut trees, alloc, known, 0, program.start())?;
    push_rounds(
        &mut trees,
        Explained { alloc, place },
        program.steps(),
        &mut places,
    )?;
    let last = environment(places.held_by(place), 0, 0);
    trees.push(tree_of(
        alloc,
        places.round(),
        Given::Channel,
        last,
        program.finish(),
    )?)?;
    Ok(trees)
}

// Returns what an expression reads before the first round: the identifier alone.
fn knowing(id: u32) -> Env<'static>
    ensures { env_of result ≡ node.knowing_id id }
{
    Env {
        id,
        left: 0,
        right: 0,
        registers: &[],
    }
}

// Returns what an expression reads during and after the rounds: the registers and both messages.
fn environment(registers: &[u32], left: u32, right: u32) -> Env<'_>
    ensures { env_of result ≡ node.reading_messages registers.now left right }
{
    Env {
        id: 0,
        left,
        right,
        registers,
    }
}

// Appends the trees of all rounds of a place, and does them.
fn push_rounds<'p>(
    trees: &mut Vec<ValueTree<'p>>,
    explained: Explained,
    rounds: &'p [Round],
    places: &mut Configuration<'_>,
) -> Result<(), AllocError>
    requires small { All IsSmallRound rounds.now × (length rounds.now ≤ MAX_ROUNDS) }
    requires few { All (λ round. length round.next.items ≤ MAX_REGISTERS) rounds.now }
    requires rounds { map step_of rounds.now ≡ places.old.program.steps }
    requires start { (places.old.round ≡ 0) × (explained.place < length places.old.places) }
    ensures trees { OnOk result (map tree_value trees.new.items ≡ map tree_value trees.old.items
        ++ trees_of_rounds places.old.program places.old.places explained.place 0 places.old.program.steps) }
    ensures done { OnOk result (places.new ≡ record places.old { round = length places.old.program.steps }) }
{
    'rounds: for (done, round) in rounds.iter().enumerate() {
        push_round(trees, explained, round, done as u32 + 1, places)?;
        places.advance();
    }
    Ok(())
}

// Appends the trees of the next round of a place, whose number is `number`.
fn push_round<'p>(
    trees: &mut Vec<ValueTree<'p>>,
    explained: Explained,
    round: &'p Round,
    number: u32,
    places: &Configuration<'_>,
) -> Result<(), AllocError>
    requires small { IsSmallRound round.now }
    requires few { length round.now.next.items ≤ MAX_REGISTERS }
    requires number { number ≡ places.now.round + 1 }
    requires more { places.now.round < length places.now.program.steps }
    requires place { explained.place < length places.now.places }
    ensures { OnOk result (map tree_value trees.new.items ≡ map tree_value trees.old.items
        ++ trees_of_round places.now.program places.now.places explained.place places.now.round (step_of round.now)) }
{
    let Explained { alloc, place } = explained;
    let own = places.held_by(place);
    let before = environment(own, 0, 0);
    trees.push(tree_of(alloc, number, Given::Left, before, &round.left)?)?;
    trees.push(tree_of(alloc, number, Given::Right, before, &round.right)?)?;
    let (left, right) = received(places, place);
    push_assigned(
        trees,
        alloc,
        environment(own, left, right),
        number,
        &round.next,
    )
}

// Returns the messages to a place in the next round, from its left and from its right neighbour.
fn received(places: &Configuration<'_>, place: u32) -> (u32, u32)
    requires place { place < length places.now.places }
    requires more { places.now.round < length places.now.program.steps }
    ensures left { result.0 ≡ node.to_right places.now.program places.now.round
        (state places.now.program places.now.places places.now.round (left_of places.now.places place)) }
    ensures right { result.1 ≡ node.to_left places.now.program places.now.round
        (state places.now.program places.now.places places.now.round (right_of places.now.places place)) }
{
    let count = u64::from(places.places());
    let left = (u64::from(place) + count - 1) % count;
    let right = (u64::from(place) + 1) % count;
    (
        places.quantity(Quantity::Right, left as u32),
        places.quantity(Quantity::Left, right as u32),
    )
}

// Appends the trees of the assignments in a round.
fn push_assigned<'p>(
    trees: &mut Vec<ValueTree<'p>>,
    alloc: Global,
    env: Env<'_>,
    round: u32,
    expressions: &'p [Expr],
) -> Result<(), AllocError>
    requires small { AreSmall expressions.now }
    requires few { length expressions.now ≤ MAX_REGISTERS }
    ensures { OnOk result (map tree_value trees.new.items ≡ map tree_value trees.old.items
        ++ assigned_trees round (env_of env.entry) 0 (map term_of expressions.now)) }
{
    'registers: for (register, expression) in expressions.iter().enumerate() {
        let given = Given::Register(register as u32);
        trees.push(tree_of(alloc, round, given, env, expression)?)?;
    }
    Ok(())
}

// Returns the tree of an expression that gives this in a round.
#[tactic(auto, unfolding(crate::specs::ValueTrees::tree_at))]
fn tree_of<'p>(
    alloc: Global,
    round: u32,
    given: Given,
    env: Env<'_>,
    expression: &'p Expr,
) -> Result<ValueTree<'p>, AllocError>
    requires { depth_of (term_of expression.now) ≤ MAX_DEPTH }
    ensures { IfOk result (λ tree. tree_value tree ≡ tree_at round given (env_of env.entry) (term_of expression.now)) }
{
    let mut parts = Vec::new(alloc);
    push_parts(&mut parts, env, 0, expression)?;
    Ok(ValueTree {
        round,
        given,
        parts,
    })
}
