//! Laws of problems: tuples suffice for all rings.
ghost use Rattle.ring_problems.specs.Laws as law;

/// No tuple of a table is bad exactly if no ring breaks the problem. The ring of a bad tuple breaks it
/// at place `t`.
#[tactic(auto, using(crate::proofs::Suffices::bad_ring))]
pub fn tuples_suffice()
    ensures exact { law.TuplesSuffice }
    ensures bad_ring { law.BadTuplesAreRings }
{}

/// A table has at most one witness: the ring, the place and the pattern of the judge's no. A table
/// that solves the problem everywhere has none. The ring of a witness breaks the problem at its
/// place.
pub fn one_witness()
    ensures one { law.OneWitness }
    ensures none { law.SolvedTablesHaveNoWitness }
    ensures rings { law.WitnessesAreOnRings }
{}

/// A table keeps a separation exactly if no ring of as many nodes as the separation's tuples, or more,
/// breaks the problem that forbids all pairs of closer channels. With far 0 these are all rings.
pub fn separations_are_problems()
    ensures from { law.SeparationsAreProblems }
    ensures near { law.NearIsProblem }
{}
