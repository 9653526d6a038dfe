//! Values and members of JSON objects. Each call fails only if memory was refused.

ghost use Rattle.std.specs.Prelude.{[], ◌∷◌, map};
ghost use Rattle.json.specs.Json.{boolean, string};
ghost use Rattle.json_reports.specs.Puts.{PutsFields, PutsValues};
ghost use Rattle.json_reports.specs.Values.{numbers, numeral, rows};

use json::Writer;
use std::alloc::AllocError;

// Appends a member whose value is a number.
pub(crate) fn put_number(writer: &mut Writer, name: &str, value: u32) -> Result<(), AllocError>
    ensures { PutsFields result writer.old writer.new ((name.now, numeral value) ∷ []) }
{
    put_count(writer, name, u64::from(value))
}

// Appends a member whose value is a number of 64 bits.
pub(crate) fn put_count(writer: &mut Writer, name: &str, value: u64) -> Result<(), AllocError>
    ensures { PutsFields result writer.old writer.new ((name.now, numeral value) ∷ []) }
{
    writer.key(name)?;
    writer.u64(value)
}

// Appends a member whose value is a text.
pub(crate) fn put_text(writer: &mut Writer, name: &str, text: &str) -> Result<(), AllocError>
    ensures { PutsFields result writer.old writer.new ((name.now, string text.now) ∷ []) }
{
    writer.key(name)?;
    writer.string(text)
}

// Appends a member whose value is true or false.
pub(crate) fn put_boolean(writer: &mut Writer, name: &str, value: bool) -> Result<(), AllocError>
    ensures { PutsFields result writer.old writer.new ((name.now, boolean value) ∷ []) }
{
    writer.key(name)?;
    writer.boolean(value)
}

// Appends a member whose value is an array of numbers.
pub(crate) fn put_numbers(writer: &mut Writer, name: &str, list: &[u32]) -> Result<(), AllocError>
    ensures { PutsFields result writer.old writer.new ((name.now, numbers list.now) ∷ []) }
{
    writer.key(name)?;
    put_array(writer, list)
}

// Appends a member whose value is an array of arrays of numbers.
pub(crate) fn put_rows(
    writer: &mut Writer,
    name: &str,
    lists: &[Vec<u32>],
) -> Result<(), AllocError>
    ensures { PutsFields result writer.old writer.new ((name.now, rows (map (λ list. list.items) lists.now)) ∷ []) }
{
    writer.key(name)?;
    put_array_of_arrays(writer, lists)
}

// Appends an array of arrays of numbers.
fn put_array_of_arrays(writer: &mut Writer, lists: &[Vec<u32>]) -> Result<(), AllocError>
    ensures { PutsValues result writer.old writer.new (rows (map (λ list. list.items) lists.now) ∷ []) }
{
    writer.begin_array()?;
    put_arrays(writer, lists)?;
    writer.end_array()
}

// Appends arrays of numbers.
fn put_arrays(writer: &mut Writer, lists: &[Vec<u32>]) -> Result<(), AllocError>
    ensures { PutsValues result writer.old writer.new (map numbers (map (λ list. list.items) lists.now)) }
{
    for list in lists {
        put_array(writer, list)?;
    }
    Ok(())
}

// Appends an array of numbers.
fn put_array(writer: &mut Writer, list: &[u32]) -> Result<(), AllocError>
    ensures { PutsValues result writer.old writer.new (numbers list.now ∷ []) }
{
    writer.begin_array()?;
    put_numerals(writer, list)?;
    writer.end_array()
}

// Appends numbers.
fn put_numerals(writer: &mut Writer, list: &[u32]) -> Result<(), AllocError>
    ensures { PutsValues result writer.old writer.new (map numeral list.now) }
{
    for number in list {
        writer.u64(u64::from(*number))?;
    }
    Ok(())
}
