//! The text of how a place of a ring computes: each expression of the program as a tree below a heading.

ghost use Rattle.std.specs.Prelude.{◌≡◌, ◌++◌, ◌<◌, ◌^◌, IfOk, OnOk, length, map, string_bytes};
ghost use Rattle.value_trees.specs.Explanation.{phase, registers_read, explanation};
ghost use Rattle.value_trees.specs.Explanation.{register_heading, side_heading, finish_heading};
ghost use Rattle.value_trees.specs.ValueTrees.{tree_value};
ghost use Rattle.value_trees.specs.ToldTrees.{heading, told_tree, told_trees};

use crate::tree::write_parts;
use crate::trees::{Given, ValueTree, trees_of};
use lang_check::Plan;
use node_program::OutOfMemory;
use numerals::Base;
use std::alloc::{AllocError, Global};
use std::fmt::Write;
use win_index::Ring;

/// Returns how a place of a ring computes by a plan: each expression of the program in the order of
/// the text, under a heading, as a tree with the value of every part that counts. The ring must have
/// the plan's number of identifiers. Fails with `OutOfMemory` if memory was refused.
pub fn explanation_text(
    alloc: Global,
    base: Base,
    plan: &Plan,
    ring: &Ring,
    place: u32,
) -> Result<String, OutOfMemory>
    requires ids { ring.now.ids ≡ plan.now.ids }
    requires place { place < length ring.now.places }
    ensures { IfOk result (λ text. string_bytes text ≡ explanation base plan.now.program ring.now.places place) }
{
    let trees = trees_of(alloc, plan, ring, place)?;
    let mut text = String::new(alloc);
    write_trees(alloc, &mut text, base, &trees)?;
    Ok(text)
}

// Appends trees, each below its heading.
fn write_trees(
    alloc: Global,
    text: &mut String,
    base: Base,
    trees: &[ValueTree<'_>],
) -> Result<(), AllocError>
    ensures { OnOk result (string_bytes text.new
        ≡ string_bytes text.old ++ told_trees base (map tree_value trees.now)) }
{
    'trees: for tree in trees {
        write_tree(alloc, text, base, tree)?;
    }
    Ok(())
}

// Appends a tree below its heading.
fn write_tree(
    alloc: Global,
    text: &mut String,
    base: Base,
    tree: &ValueTree<'_>,
) -> Result<(), AllocError>
    ensures { OnOk result (string_bytes text.new ≡ string_bytes text.old ++ told_tree base (tree_value tree.now)) }
{
    write_heading(text, tree.round as usize, tree.given)?;
    text.push_str("\n")?;
    write_parts(alloc, text, base, &tree.parts)
}

// Appends the heading of what an expression gives in a round.
fn write_heading(text: &mut String, round: usize, given: Given) -> Result<(), AllocError>
    requires { round < 2 ^ 32 }
    ensures { OnOk result (string_bytes text.new ≡ string_bytes text.old ++ heading round given) }
{
    match given {
        Given::Register(register) => write_register(text, round, register),
        Given::Left => write_side(text, round, " left"),
        Given::Right => write_side(text, round, " right"),
        Given::Channel => write_finish(text, round),
    }
}

// Appends the heading of a register in a round.
fn write_register(text: &mut String, round: usize, register: u32) -> Result<(), AllocError>
    ensures { OnOk result (string_bytes text.new ≡ string_bytes text.old ++ register_heading round register) }
{
    write_phase(text, round)?;
    write!(text, " r{register}")?;
    write_registers_read(text, round)
}

// Appends the heading of a message of a round, with the word of its side and a blank before it.
fn write_side(text: &mut String, round: usize, side: &str) -> Result<(), AllocError>
    ensures { OnOk result (string_bytes text.new ≡ string_bytes text.old ++ side_heading side.now round) }
{
    write_phase(text, round)?;
    text.push_str(side)?;
    write_registers_read(text, round)
}

// Appends the heading of the last expression, which is evaluated after this many rounds.
fn write_finish(text: &mut String, rounds: usize) -> Result<(), AllocError>
    requires { rounds < 2 ^ 32 }
    ensures { OnOk result (string_bytes text.new ≡ string_bytes text.old ++ finish_heading rounds) }
{
    text.push_str("finish")?;
    write_registers_read(text, rounds + 1)
}

// Appends what a heading in this round says of the registers that are read there.
fn write_registers_read(text: &mut String, round: usize) -> Result<(), AllocError>
    ensures { OnOk result (string_bytes text.new ≡ string_bytes text.old ++ registers_read round) }
{
    if round > 0 {
        text.push_str(", registers of ")?;
        write_phase(text, round - 1)?;
    }
    Ok(())
}

// Appends the heading of what gives the registers after this many rounds.
pub(crate) fn write_phase(text: &mut String, rounds: usize) -> Result<(), AllocError>
    ensures { OnOk result (string_bytes text.new ≡ string_bytes text.old ++ phase rounds) }
{
    if rounds == 0 {
        text.push_str("start")
    } else {
        write!(text, "round {rounds}")
    }
}
