//! The text of a formula.

use plan_print::watched::Watched;
use ring_problems::{Entry, Pattern};
use std::alloc::Global;
use table_formula::{Formula, Separation, write_formula};
use win_index::Shape;

/// The formula of two identifiers, no rounds and two channels, with near 1 and far 0.
pub(crate) const FORMULA: &[u8] = b"p cnf 4 6\n1 2 0\n3 4 0\n-1 -3 0\n-2 -4 0\n-3 -1 0\n-4 -2 0\n";

/// Two neighbours must not both have channel 1, and no node channel 7, which a table of two channels
/// lacks.
const FORBIDDEN: [Pattern; 2] = [
    Pattern {
        first: Entry::Channel(1),
        second: Entry::Channel(1),
        third: Entry::Wildcard,
    },
    Pattern {
        first: Entry::Channel(7),
        second: Entry::Wildcard,
        third: Entry::Wildcard,
    },
];

/// The formula of two identifiers, no rounds and two channels with these patterns.
const FORMULA_OF_PATTERNS: &[u8] = b"c forbid 1,1 7\np cnf 4 4\n1 2 0\n3 4 0\n-2 -4 0\n-4 -2 0\n";

// Returns whether the text of a formula of two identifiers and two channels is this one.
fn writes_formula(alloc: Global, near: u32, forbidden: &[Pattern], text: &[u8]) -> Option<bool> {
    let shape = Shape::new(2, 0).ok()?;
    let separation = Separation { near, far: 0 };
    let formula = Formula::new(alloc, shape, 2, separation, forbidden).ok()?;
    let mut writer = Watched::new(Vec::new(alloc));
    write_formula(alloc, &formula, &mut writer).ok()?;
    Some(writer.into_device().as_slice() == text)
}

#[test]
fn the_text_of_two_identifiers(rt: HostRuntime) {
    assert!(rt; writes_formula(rt.alloc(), 1, &[], FORMULA) == Some(true));
}

#[test]
fn the_text_of_forbidden_patterns(rt: HostRuntime) {
    assert!(rt; writes_formula(rt.alloc(), 0, &FORBIDDEN, FORMULA_OF_PATTERNS) == Some(true));
}
