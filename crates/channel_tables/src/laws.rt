//! Laws of tuples: they suffice for all rings.
ghost use Rattle.channel_tables.specs.Laws as law;

/// No tuple breaks a separation exactly if no ring with as many nodes as a tuple or more does. A
/// bad tuple, taken as a ring, breaks it at the places `t` and `t+1`, or `t` and `t+2`.
#[tactic(auto, using(crate::proofs::Witnesses::bad_ring))]
pub fn tuples_suffice()
    ensures exact { law.TuplesSuffice }
    ensures bad_ring { law.BadTuplesAreRings }
{}

/// The tuples of a table keep the separation of near 1 and far 0 exactly if the table is proper.
/// Its channels keep that separation on every ring exactly if neighbours' channels differ on every
/// ring.
pub fn one_apart_differs()
    ensures proper { law.OneApartIsProper }
    ensures good { law.OneApartIsGood }
{}

/// A table has at most one witness: the ring, the places and the channels of the judge's no. A
/// table whose channels are apart everywhere has none. Both places are places of the ring.
#[tactic(auto, using(crate::proofs::Witnesses::one_witness))]
pub fn one_witness()
    ensures one { law.OneWitness }
    ensures none { law.ApartTablesHaveNoWitness }
    ensures places { law.WitnessesAreOnRings }
{}

/// Channels that are apart everywhere by a separation are so by each smaller one. If far becomes 0,
/// there must be at least `2t+3` identifiers for `t` rounds.
pub fn less_is_apart()
    ensures { law.LessIsApart }
{}
