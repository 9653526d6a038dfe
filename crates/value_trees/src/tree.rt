//! The text of a tree: a line for each part of an expression that has one, with the value of the part.

ghost use Rattle.std.specs.Prelude.{◌≡◌, ◌++◌, IfOk, OnOk, map, string_bytes, replicate};
ghost use Rattle.std.specs.List.{flat_map};
ghost use Rattle.value_trees.specs.Parts.{beginning, ending};
ghost use Rattle.value_trees.specs.ValueTrees.{part_value, unvalued};
ghost use Rattle.value_trees.specs.ToldTrees.{part_values, told_value, told_values};

use crate::parts::TreePart;
use node_lang::write_word;
use numerals::{Base, Form, form_of, write_number};
use std::alloc::{AllocError, Global};

// Appends the lines of parts, with their values in this base.
pub(crate) fn write_parts(
    alloc: Global,
    text: &mut String,
    base: Base,
    parts: &[TreePart<'_>],
) -> Result<(), AllocError>
    ensures { OnOk result (string_bytes text.new
        ≡ string_bytes text.old ++ told_values base (map part_value parts.now)) }
{
    let values = values_of(alloc, parts)?;
    write_lines(text, form_of(base, &values), parts)
}

// Returns the values of parts.
fn values_of(alloc: Global, parts: &[TreePart<'_>]) -> Result<Vec<u32>, AllocError>
    ensures { IfOk result (λ values. values.items ≡ part_values (map part_value parts.now)) }
{
    let mut values = Vec::with_capacity(alloc, parts.len())?;
    'parts: for part in parts {
        values.push(part.value)?;
    }
    Ok(values)
}

// Appends the lines of parts, with their values in this form.
fn write_lines(text: &mut String, form: Form, parts: &[TreePart<'_>]) -> Result<(), AllocError>
    ensures { OnOk result (string_bytes text.new
        ≡ string_bytes text.old ++ flat_map (told_value form) (map part_value parts.now)) }
{
    'parts: for part in parts {
        write_beginning(text, *part)?;
        write_number(text, form, part.value)?;
        write_ending(text, part.counts)?;
    }
    Ok(())
}

// Appends what stands before the value of a part: a blank and one more for each step of its depth,
// the word of the expression, and a blank.
fn write_beginning(text: &mut String, part: TreePart<'_>) -> Result<(), AllocError>
    ensures { OnOk result (string_bytes text.new
        ≡ string_bytes text.old ++ beginning (unvalued (part_value part.entry))) }
{
    text.push_str(" ")?;
    write_blanks(text, part.depth)?;
    write_word(text, part.expression)?;
    text.push_str(" ")
}

// Appends blanks.
fn write_blanks(text: &mut String, count: u32) -> Result<(), AllocError>
    ensures { OnOk result (string_bytes text.new ≡ string_bytes text.old ++ replicate count 32) }
{
    'blanks: for _blank in 0..count {
        text.push_str(" ")?;
    }
    Ok(())
}

// Ends the line of a part, and says if it does not count.
fn write_ending(text: &mut String, counts: bool) -> Result<(), AllocError>
    ensures { OnOk result (string_bytes text.new ≡ string_bytes text.old ++ ending counts) }
{
    if counts {
        text.push_str("\n")
    } else {
        text.push_str(" (not taken)\n")
    }
}
