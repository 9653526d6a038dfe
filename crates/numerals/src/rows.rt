//! Numbers that are written together: in another base than ten all of them are as wide as the widest.

ghost use Rattle.std.specs.Prelude.{◌≡◌, ◌++◌, OnOk, replicate, string_bytes};
ghost use Rattle.numerals.specs.Numerals.{padded, widest as widest_of, form_of as form_in, row};

use crate::base::Base;
use std::alloc::AllocError;

/// How a number is written: its base, and the number of digits that it has at least. Zeros stand
/// before a number with fewer.
#[derive(Clone, Copy)]
pub struct Form {
    pub base: Base,
    pub width: usize,
}

/// Returns the form of numbers that are written together in this base: they are as wide as the widest
/// of them, but in base ten they have no leading zeros.
pub fn form_of(base: Base, numbers: &[u32]) -> Form
    ensures { result ≡ form_in base numbers.now }
{
    let width = if base.radix() == 10 {
        0
    } else {
        widest(base, numbers)
    };
    Form { base, width }
}

// Returns the number of digits of the widest of some numbers.
fn widest(base: Base, numbers: &[u32]) -> usize
    ensures { result ≡ widest_of base numbers.now }
{
    let mut most = 0;
    'numbers: for number in numbers {
        most = base.digit_count(*number).max(most);
    }
    most
}

/// Appends a number in this form. Fails if memory was refused.
pub fn write_number(text: &mut String, form: Form, number: u32) -> Result<(), AllocError>
    ensures { OnOk result (string_bytes text.new ≡ string_bytes text.old ++ padded form number) }
{
    let digits = form.base.digit_count(number);
    write_zeros(text, form.width.saturating_sub(digits))?;
    form.base.write_numeral(text, number)
}

fn write_zeros(text: &mut String, count: usize) -> Result<(), AllocError>
    ensures { OnOk result (string_bytes text.new ≡ string_bytes text.old ++ replicate count 48) }
{
    'zeros: for _zero in 0..count {
        text.push_str("0")?;
    }
    Ok(())
}

/// Appends numbers in this base, each after a blank, in the form of numbers that are written
/// together, and ends the line. Fails if memory was refused.
pub fn write_row(text: &mut String, base: Base, numbers: &[u32]) -> Result<(), AllocError>
    ensures { OnOk result (string_bytes text.new ≡ string_bytes text.old ++ row base numbers.now) }
{
    let form = form_of(base, numbers);
    'numbers: for number in numbers {
        text.push_str(" ")?;
        write_number(text, form, *number)?;
    }
    text.push_str("\n")
}
