//! Refutations that neighbours have different channels where there is one channel.

use std::alloc::Global;
use table_formula::{Formula, LineFault, RefuteError, Separation, refute};
use win_index::Shape;

/// A refutation of the formula of two identifiers, no rounds and one channel.
pub(crate) const REFUTATION: &[u8] = b"5 0 1 2 3 0\n";

/// The report on it.
pub(crate) const REFUTED: &[u8] = b"refuted: ids 2 rounds 0 channels 1 near 1 far 0\n";

// Texts that refute it: by a step, and by exchanges.
const REFUTATIONS: [&str; 4] = [
    "c one step\n5 d 4 9 0\n\n6 0 01 2 3 0\nnot read",
    "5 i 0 1 -2 0 2 3 0\n6 0 5 2 0",
    "5 c 0 0 -2 0 1 3 0\n6 0 5 2 0",
    "5 m -2 0 1 3 0\n6 0 5 2 0",
];

// Texts that do not, each with the line of its first fault.
const FAULTS: [(&str, u64, LineFault); 13] = [
    ("5 0 1 2 3", 1, LineFault::Form),
    ("4 0 1 2 3 0", 1, LineFault::NumberNotAscending),
    ("5 -3 0 1 2 3 0", 1, LineFault::UnknownVariable),
    ("5 i 0 -2 0 2 3 0", 1, LineFault::Form),
    ("5 i 0 2 -2 0 2 3 0", 1, LineFault::Exchange),
    ("5 c 0 1 -2 0 2 3 0", 1, LineFault::Exchange),
    ("5 i 0 1 -2 0 1 3 0", 1, LineFault::OneLeft(3)),
    ("1 d 3 0\n5 0 1 2 3 0", 2, LineFault::UnknownHint(3)),
    ("5 0 1 2 3 4 0", 1, LineFault::EarlyConflict(3)),
    ("5 0 3 1 2 0", 1, LineFault::SeveralLeft(3)),
    ("5 0 1 2 0", 1, LineFault::OneLeft(2)),
    ("5 -1 0 0", 1, LineFault::NoHints),
    ("5 -1 0 2 3 0\n", 2, LineFault::NoEmptyClause),
];

// Returns the verdict on a text for two identifiers. The clauses of the formula are 1, 2, -1 -2 and
// -2 -1.
fn verdict_on(alloc: Global, text: &str) -> Option<Result<(), RefuteError>> {
    let shape = Shape::new(2, 0).ok()?;
    let separation = Separation { near: 1, far: 0 };
    let formula = Formula::new(alloc, shape, 1, separation, &[]).ok()?;
    Some(refute(alloc, &formula, text.as_bytes()))
}

#[test]
fn steps_and_exchanges_refute(rt: HostRuntime) {
    for text in REFUTATIONS {
        assert!(rt; verdict_on(rt.alloc(), text) == Some(Ok(())), "{text}");
    }
}

#[test]
fn a_text_has_the_fault_of_its_line(rt: HostRuntime) {
    for (text, line, fault) in FAULTS {
        let want = Some(Err(RefuteError::At { line, fault }));
        assert!(rt; verdict_on(rt.alloc(), text) == want, "{text}");
    }
}
