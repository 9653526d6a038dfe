//! The messages of a run.
ghost use Rattle.std.specs.Prelude.{◌≡◌, ◌↔◌, IsTrue};
ghost use Rattle.border_exchange.specs.Messages.{message_at};

use crate::{Dated, Side};
use lang_check::Plan;
use win_index::Ring;

/// A message of a run of a plan on a ring: the one of its place to its side in its round. Rounds
/// count from 0.
#[derive(Clone, Copy)]
pub struct Msg<'a> {
    pub(crate) plan: &'a Plan,
    pub(crate) ring: &'a Ring,
    pub(crate) place: u32,
    pub(crate) side: Side,
    pub(crate) round: u32,
    pub(crate) value: u32,
    pub(crate) ghost sent: { value ≡ message_at plan.now.program ring.now.places round place side },
}

impl<'a> Dated for Msg<'a> {
    ghost side_of = { λ m. m.side };

    ghost round_of = { λ m. m.round };

    fn side(&self) -> Side {
        self.side
    }

    fn round(&self) -> u32 {
        self.round
    }
}

impl<'a> Msg<'a> {
    ghost use Rattle.border_exchange.specs.Headings.{heading_of};
    ghost use Rattle.border_exchange.specs.Messages.{sent_under};

    /// Returns the plan of its run.
    pub fn plan(&self) -> &'a Plan
        ensures { result.now ≡ (heading_of self.now).plan }
    {
        self.plan
    }

    /// Returns the ring of its run.
    pub fn ring(&self) -> &'a Ring
        ensures { result.now ≡ (heading_of self.now).ring }
    {
        self.ring
    }

    /// Returns the place that sends it.
    pub fn place(&self) -> u32
        ensures { result ≡ (heading_of self.now).place }
    {
        self.place
    }

    /// Returns its value.
    pub fn value(&self) -> u32
        ensures { result ≡ sent_under (heading_of self.now) }
    {
        self.value
    }

    // Returns whether it is the message of this place to this side in this round, in a run of this
    // plan on this ring.
    pub(crate) fn is_from(
        &self,
        plan: &Plan,
        ring: &Ring,
        place: u32,
        side: Side,
        round: u32,
    ) -> bool
        ensures { IsTrue result ↔ (heading_of self.now
            ≡ record { plan = plan.now; ring = ring.now; place = place; side = side; round = round }) }
    {
        place == self.place
            && side == self.side
            && round == self.round
            && self.plan.same(plan)
            && self.ring.same(ring)
    }
}
