//! Numbers in a base.

ghost use Rattle.std.specs.Prelude.{◌≤◌};
ghost use Rattle.numerals.specs.declared.base.TheConstants.{MAX_BASE, MIN_BASE};

use std::alloc::AllocError;
use std::fmt::Write;

/// The smallest base.
pub const MIN_BASE: u32 = 2;

/// The largest base.
pub const MAX_BASE: u32 = 10;

/// The base in which numbers are written, from `MIN_BASE` to `MAX_BASE`.
#[derive(Clone, Copy)]
pub struct Base {
    radix: u32,
    ghost low: { MIN_BASE ≤ radix },
    ghost high: { radix ≤ MAX_BASE },
}

impl Base {
    ghost use Rattle.std.specs.Prelude.{◌≡◌, ◌+◌, ◌≤◌, ◌++◌, OnOk, length, string_bytes};
    ghost use Rattle.numerals.specs.Numerals.{numeral, radix};

    /// Returns the base that is this number.
    pub fn of(number: u32) -> Base
        requires low { MIN_BASE ≤ number }
        requires high { number ≤ MAX_BASE }
        ensures { radix result ≡ number }
    {
        Base { radix: number }
    }

    /// Returns the base as a number.
    pub fn radix(self) -> u32
        ensures value { result ≡ radix self }
        ensures low { MIN_BASE ≤ result }
        ensures high { result ≤ MAX_BASE }
    {
        self.radix
    }

    // Returns the number of digits that a number has without leading zeros.
    #[tactic(auto, using(crate::proofs::Digits::one_long, crate::proofs::Digits::one_longer))]
    pub(crate) fn digit_count(self, number: u32) -> usize
        ensures count { result ≡ length (numeral self number) }
        ensures few { result ≤ number + 1 }
    {
        if number < self.radix {
            return 1;
        }
        self.digit_count(number / self.radix) + 1
    }

    // Appends a number without leading zeros. Each digit is below ten, and is written as a number.
    #[tactic(auto, using(crate::proofs::Digits::one_digit, crate::proofs::Digits::more_digits))]
    pub(crate) fn write_numeral(self, text: &mut String, number: u32) -> Result<(), AllocError>
        ensures { OnOk result (string_bytes text.new ≡ string_bytes text.old ++ numeral self number) }
    {
        if number < self.radix {
            return write!(text, "{number}");
        }
        self.write_numeral(text, number / self.radix)?;
        let digit = number % self.radix;
        write!(text, "{digit}")
    }
}
