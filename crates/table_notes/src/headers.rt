//! Advice on the second line of a table text.

use node_program::MAX_CHANNELS;
use numerals::field;
use win_index::MAX_ROUNDS;

// Rows of numbers: name, range, and what is said where one is missing and where it is out of its range.
macro_rules! fields {
    ($($name:literal $low:literal to $high:expr => $missing:literal, $range:literal;)+) => {
        [$(($name, $low, $high, $missing, $range)),+]
    };
}

const FIELDS: [(&[u8], u32, u32, &str, &str); 5] = fields! {
    b"rounds " 0 to MAX_ROUNDS => "; it begins with `rounds` and a number", "; `rounds` is 0 to 4";
    b"ids " 0 to u32::MAX => "; `ids` and a number come second, in this line", "";
    b"channels " 1 to MAX_CHANNELS => "; `channels` and a number come third, in this line", "; `channels` is 1 to 4096";
    b"near " 1 to MAX_CHANNELS => "; version 2 has `near` and `far` in this line", "; `near` is 1 to 4096";
    b"far " 0 to MAX_CHANNELS => "; `far` and a number come last, in this line", "; `far` is 0 to 4096";
};

// Returns advice on the second line of a text of version 1, or else of version 2, which does not
// have its form. The text is given from that line on.
pub(crate) fn header_advice(is_first_version: bool, text: &[u8]) -> &'static str {
    let fields = if is_first_version { 3 } else { 5 };
    let mut rest = text;
    for (name, low, high, missing, range) in &FIELDS[..fields] {
        let last = field(rest, name, b'\n');
        let Some((number, behind)) = field(rest, name, b' ').or(last) else {
            return missing;
        };
        if number < *low || number > *high {
            return range;
        }
        rest = if last.is_some() { b"" } else { behind };
    }
    match rest {
        [] =>
            "; the numbers of this line do not fit one another: 0 rounds take 2 to 1024 `ids`, 1 round 4 to 162, 2 rounds 6 to 23, 3 rounds 8 to 12, and 4 rounds 10",
        _ if is_first_version => "; version 1 ends this line with `channels` and its number",
        _ => "; `far` and a number come last, in this line",
    }
}
