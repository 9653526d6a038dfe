//! Prints results and refusals, and repeats a refused call.
ghost use Rattle.std.specs.Prelude.{◌≡◌, Ok, IfOk};

use crate::miss::Miss;

/// The answer of a call. If the call is refused, prints the refusal's name and makes the call a
/// second time.
macro_rules! again {
    ($rt:expr, $call:expr, $($refusal:pat => $name:literal),+) => {
        match $call {
            $(Err($refusal) => {
                tell($rt, $name);
                $call
            })+
            answer => answer,
        }
    };
}

pub(crate) use again;

/// Prints a line. A line whose write fails is left out, as by all functions that print.
pub(crate) fn tell<R: Print>(rt: &R, line: &str) {
    let _ = println!(rt; "{line}");
}

/// Prints numbers on a line, separated by single blanks. Allocates no memory.
pub(crate) fn tell_numbers<R: Print>(rt: &R, numbers: &[u32]) {
    for (i, number) in numbers.iter().enumerate() {
        let blank = if i == 0 { "" } else { " " };
        let _ = print!(rt; "{blank}{number}");
    }
    let _ = println!(rt);
}

/// Returns the value of a call. Fails with this miss if it has none.
pub(crate) fn value_or<T: Drop, F: Drop>(answer: Result<T, F>, miss: Miss) -> Result<T, Miss>
    ensures { IfOk result (λ value. answer ≡ Ok value) }
{
    match answer {
        Ok(value) => Ok(value),
        Err(_) => Err(miss),
    }
}
