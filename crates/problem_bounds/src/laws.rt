//! Lower bounds of problems.
ghost use Rattle.problem_bounds.specs.Laws as law;

use lower_bound::windows_need_channels;

/// The number of identifiers of a table of `t` rounds, of any size, that has a maximal independent set
/// on every ring is at most the tower of height `2t+2` over 3 (Linial 1992): one more round makes three
/// colours of the set.
pub fn independent_sets_need_rounds()
    ensures { law.IndependentSetsNeedRounds }
{
    windows_need_channels();
}

/// The number of identifiers of a table of `t` rounds, of any size, that has a maximal matching on every
/// ring is at most the tower of height `2t` over 3: its channels are three colours.
pub fn matchings_need_rounds()
    ensures { law.MatchingsNeedRounds }
{
    windows_need_channels();
}
