//! Laws of the states of windows: locality, and states from parts.
ghost use Rattle.round_eval.specs.WindowLaws as law;

use lang_check::{next_is_within, start_is_within};
use win_index::places_of_arcs;

/// A round on a line is a round on the row of its inner nodes, between the messages of its first
/// and its last node.
#[tactic(auto, using(crate::proofs::Lines::shrunk_row))]
pub fn lines_are_rows()
    ensures { law.LinesAreRows }
{}

/// Locality (Linial 1992): the registers of a node of a ring after `r` rounds are determined by the
/// `2r+1` identifiers around it, by a line of their states that shrinks by two in each round.
pub fn locality()
    ensures { law.Locality }
{
    places_of_arcs();
}

/// The state of a window after its rounds is within the bounds of the registers after
/// that many rounds.
#[tactic(auto, using(crate::proofs::Within::middle_within))]
pub fn windows_are_within()
    ensures { law.WindowsAreWithin }
{
    start_is_within();
    next_is_within();
}

/// After `r` rounds the line of `2r+1` identifiers has one state.
#[tactic(auto, using(crate::proofs::Lines::one_remains))]
pub fn one_state_remains()
    ensures { law.OneStateRemains }
{}

/// The state of a window is made from the states of its three parts, by
/// one round more. Of one identifier it is the start state.
#[tactic(auto, using(crate::proofs::Lines::start_remains, crate::proofs::Lines::parts_joined))]
pub fn states_from_parts()
    ensures start { law.StartStateRemains }
    ensures next { law.PartsAreJoined }
{}
