//! The members of an explanation. Each call fails only if memory was refused.

ghost use Rattle.json_reports.specs.Json.{explanation_fields, given_name, part_fields, part_value as part_json};
ghost use Rattle.json_reports.specs.Json.{tree_fields, tree_value as tree_json};
ghost use Rattle.json_reports.specs.Puts.{PutsFields, PutsValues};
ghost use Rattle.json_reports.specs.Values.{array_of};
ghost use Rattle.json.specs.Json.{string};
ghost use Rattle.node_lang.specs.Printed.{own_word};
ghost use Rattle.node_program.specs.Term.{term_of};
ghost use Rattle.std.specs.Prelude.{◌≡◌, [], ◌∷◌, codes, map, IfOk, string_bytes};
ghost use Rattle.value_trees.specs.ValueTrees.{part_value, tree_value, value_trees};

use crate::fields::{put_boolean, put_number, put_text};
use json::Writer;
use node_lang::write_word;
use node_program::{Expr, OutOfMemory};
use reports::finding::PlaceTree;
use std::alloc::{AllocError, Global};
use value_trees::{Given, TreePart, ValueTree, trees_of};

// Appends the members of the explanation of a place.
pub(crate) fn put_explanation(
    alloc: Global,
    writer: &mut Writer,
    tree: &PlaceTree,
) -> Result<(), OutOfMemory>
    ensures { PutsFields result writer.old writer.new
        (explanation_fields tree.now.place (value_trees tree.now.plan.program tree.now.ring.places tree.now.place)) }
{
    let trees = trees_of(alloc, &tree.plan, &tree.ring, tree.place)?;
    put_place_trees(alloc, writer, tree.place, &trees)?;
    Ok(())
}

// Appends the members of the explanation of a place by these trees.
fn put_place_trees(
    alloc: Global,
    writer: &mut Writer,
    place: u32,
    trees: &[ValueTree<'_>],
) -> Result<(), AllocError>
    ensures { PutsFields result writer.old writer.new (explanation_fields place (map tree_value trees.now)) }
{
    put_text(writer, "kind", "explanation")?;
    put_number(writer, "place", place)?;
    put_trees(alloc, writer, trees)
}

// Appends the trees of an explanation.
fn put_trees(alloc: Global, writer: &mut Writer, trees: &[ValueTree<'_>]) -> Result<(), AllocError>
    ensures { PutsFields result writer.old writer.new
        ((codes "trees", array_of (map tree_json (map tree_value trees.now))) ∷ []) }
{
    writer.key("trees")?;
    put_tree_array(alloc, writer, trees)
}

// Appends an array of trees.
fn put_tree_array(
    alloc: Global,
    writer: &mut Writer,
    trees: &[ValueTree<'_>],
) -> Result<(), AllocError>
    ensures { PutsValues result writer.old writer.new (array_of (map tree_json (map tree_value trees.now)) ∷ []) }
{
    writer.begin_array()?;
    put_each_tree(alloc, writer, trees)?;
    writer.end_array()
}

// Appends trees.
fn put_each_tree(
    alloc: Global,
    writer: &mut Writer,
    trees: &[ValueTree<'_>],
) -> Result<(), AllocError>
    ensures { PutsValues result writer.old writer.new (map tree_json (map tree_value trees.now)) }
{
    for tree in trees {
        put_tree(alloc, writer, tree)?;
    }
    Ok(())
}

// Appends a tree.
fn put_tree(alloc: Global, writer: &mut Writer, tree: &ValueTree<'_>) -> Result<(), AllocError>
    ensures { PutsValues result writer.old writer.new (tree_json (tree_value tree.now) ∷ []) }
{
    writer.begin_object()?;
    put_tree_fields(alloc, writer, tree)?;
    writer.end_object()
}

// Appends the members of a tree.
fn put_tree_fields(
    alloc: Global,
    writer: &mut Writer,
    tree: &ValueTree<'_>,
) -> Result<(), AllocError>
    ensures { PutsFields result writer.old writer.new (tree_fields (tree_value tree.now)) }
{
    put_number(writer, "round", tree.round)?;
    put_given(alloc, writer, tree.given)?;
    put_parts(alloc, writer, &tree.parts)
}

// Appends what an expression gives.
fn put_given(alloc: Global, writer: &mut Writer, given: Given) -> Result<(), AllocError>
    ensures { PutsFields result writer.old writer.new ((codes "gives", string (given_name given)) ∷ []) }
{
    let name = given_name(alloc, given)?;
    put_text(writer, "gives", &name)
}

// Returns the name of what an expression gives.
fn given_name(alloc: Global, given: Given) -> Result<String, AllocError>
    ensures { IfOk result (λ name. string_bytes name ≡ given_name given) }
{
    match given {
        Given::Register(register) => format!(in alloc; "r{register}"),
        Given::Left => String::from_str(alloc, "left"),
        Given::Right => String::from_str(alloc, "right"),
        Given::Channel => String::from_str(alloc, "finish"),
    }
}

// Appends the parts of an expression.
fn put_parts(alloc: Global, writer: &mut Writer, parts: &[TreePart<'_>]) -> Result<(), AllocError>
    ensures { PutsFields result writer.old writer.new
        ((codes "parts", array_of (map part_json (map part_value parts.now))) ∷ []) }
{
    writer.key("parts")?;
    put_part_array(alloc, writer, parts)
}

// Appends an array of parts.
fn put_part_array(
    alloc: Global,
    writer: &mut Writer,
    parts: &[TreePart<'_>],
) -> Result<(), AllocError>
    ensures { PutsValues result writer.old writer.new (array_of (map part_json (map part_value parts.now)) ∷ []) }
{
    writer.begin_array()?;
    put_each_part(alloc, writer, parts)?;
    writer.end_array()
}

// Appends parts.
fn put_each_part(
    alloc: Global,
    writer: &mut Writer,
    parts: &[TreePart<'_>],
) -> Result<(), AllocError>
    ensures { PutsValues result writer.old writer.new (map part_json (map part_value parts.now)) }
{
    for part in parts {
        put_part(alloc, writer, part)?;
    }
    Ok(())
}

// Appends a part.
fn put_part(alloc: Global, writer: &mut Writer, part: &TreePart<'_>) -> Result<(), AllocError>
    ensures { PutsValues result writer.old writer.new (part_json (part_value part.now) ∷ []) }
{
    writer.begin_object()?;
    put_part_fields(alloc, writer, part)?;
    writer.end_object()
}

// Appends the members of a part.
fn put_part_fields(
    alloc: Global,
    writer: &mut Writer,
    part: &TreePart<'_>,
) -> Result<(), AllocError>
    ensures { PutsFields result writer.old writer.new (part_fields (part_value part.now)) }
{
    put_number(writer, "depth", part.depth)?;
    put_word(alloc, writer, part.expression)?;
    put_number(writer, "value", part.value)?;
    put_boolean(writer, "taken", part.counts)
}

// Appends the word of an expression.
fn put_word(alloc: Global, writer: &mut Writer, expression: &Expr) -> Result<(), AllocError>
    ensures { PutsFields result writer.old writer.new
        ((codes "word", string (own_word (term_of expression.now))) ∷ []) }
{
    let mut word = String::new(alloc);
    write_word(&mut word, expression)?;
    put_text(writer, "word", &word)
}
