//! The outcome of unit propagation along the hints of a step.

/// What the hints of a step show.
#[derive(Clone, Copy, Debug, PartialEq, Eq)]
pub enum Outcome {
    /// The clause of the step follows from the clauses of the hints.
    Follows,
    /// There is no clause with the number of this hint.
    UnknownHint(u64),
    /// The clause of this hint has several literals that are not known to be false.
    SeveralLeft(u64),
    /// The clause of this hint, which is not the last one, has only literals that are known to be false.
    EarlyConflict(u64),
    /// The clause of this hint, the last one, has one literal that is not known to be false.
    OneLeft(u64),
    /// There is no hint.
    NoHints,
}
