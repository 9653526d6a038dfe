//! The law of inclusion and exclusion, on which counts rest.
ghost use Rattle.nbhd_check.specs.Pairs.{PairsThatAvoidTwo};

/// Inclusion and exclusion: the number of pairs of a class that hold neither of two elements is
/// that of all its pairs, less those that hold the one, less those that hold the other, plus those
/// that hold both.
pub fn pairs_that_avoid_two()
    ensures { PairsThatAvoidTwo }
{}
