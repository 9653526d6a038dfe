//! Why a text is no refutation.
use std::alloc::AllocError;

/// Why a text is not a refutation.
#[derive(Clone, Copy, Debug, PartialEq, Eq)]
pub enum RefuteError {
    /// The text is longer than `LONGEST_REFUTATION` bytes.
    TooLong,
    /// The first fault of the text, and the number of its line, counted from 1.
    At { line: u64, fault: LineFault },
    /// Memory was refused. This can replace any fault except `TooLong`.
    OutOfMemory,
}

/// The first fault of a text, and the number of its line, counted from 1.
#[derive(Clone, Copy)]
pub(crate) struct FirstFault {
    pub(crate) line: u64,
    pub(crate) fault: LineFault,
}

/// What is wrong with a line of a text.
#[derive(Clone, Copy, Debug, PartialEq, Eq)]
pub enum LineFault {
    /// The line is not a comment, a deletion or an addition.
    Form,
    /// The number of the added clause is not above those of the formula's clauses and of the
    /// clauses that were added before.
    NumberNotAscending,
    /// The added clause has a literal whose variable is not one of the formula.
    UnknownVariable,
    /// The tables of the problem do not stay such tables by the exchange.
    Exchange,
    /// This hint names no clause.
    UnknownHint(u64),
    /// The clause of this hint has several literals that are not known to be false.
    SeveralLeft(u64),
    /// The clause of this hint has no literal that is not known to be false, and another hint follows.
    EarlyConflict(u64),
    /// The clause of this hint, the last one, has one literal that is not known to be false.
    OneLeft(u64),
    /// The added clause has no hints.
    NoHints,
    /// The text ends before the empty clause is added.
    NoEmptyClause,
}

impl From<AllocError> for RefuteError {
    ghost use Rattle.std.specs.Prelude.{◌≡◌};
    ghost use Rattle.table_formula.specs.declared.refutation.fault.RefuteError.TheVariants.{OutOfMemory};

    ghost from_gives = { λ _ fault. fault ≡ OutOfMemory };

    fn from(_refused: AllocError) -> RefuteError {
        RefuteError::OutOfMemory
    }
}
