//! The right to put on one side of a border.
ghost use Rattle.std.specs.Prelude.{◌≡◌, ◌+◌, ◌^◌, ◌<◌, ◌∷◌, ◌++◌, [], OnOk, OnErr, IfErr, length};

use crate::border::lists::BorderLists;
use crate::{Dated, Side};
use std::marker::Model;
use std::sync::ledger::{Ledger, Share};

/// The one share of the ledger of a side.
#[derive(Drop)]
pub(crate) enum SideShare<R: Ledger, L: Ledger> {
    Rightward(Share<R>),
    Leftward(Share<L>),
}

/// The right to put on one side of a border, and how many messages were put by it.
#[derive(Drop)]
pub struct Seat<R: Ledger, L: Ledger> {
    puts: u32,
    share: SideShare<R, L>,
}

impl<R: Ledger, L: Ledger> Model for Seat<R, L> {
    ghost use Rattle.std.specs.Prelude.{◌≡◌};
    ghost use Rattle.border_exchange.specs.SeatState.{SeatState};

    ghost Value = { SeatState };

    ghost use Rattle.border_exchange.specs.SideShares.{side_of_share, amount_of_share, parts_of_share};

    ghost view = { λ s. record { side = side_of_share s.share; puts = s.puts } };

    ghost invariant = { λ s. (parts_of_share s.share ≡ 1) × (amount_of_share s.share ≡ s.puts) };
}

impl<R: Ledger, L: Ledger> Seat<R, L> {
    ghost use Rattle.border_exchange.specs.declared.Side.TheVariants.{Rightward, Leftward};
    ghost use Rattle.border_exchange.specs.BorderContents.{messages_of, with_message};
    ghost use Rattle.border_exchange.specs.SeatState.{IsNext};

    pub(crate) fn rightward(share: Share<R>) -> Seat<R, L>
        requires { (share.parts ≡ 1) × (share.amount ≡ 0) }
        ensures { result ≡ record { side = Rightward; puts = 0 } }
    {
        Seat {
            puts: 0,
            share: SideShare::Rightward(share),
        }
    }

    pub(crate) fn leftward(share: Share<L>) -> Seat<R, L>
        requires { (share.parts ≡ 1) × (share.amount ≡ 0) }
        ensures { result ≡ record { side = Leftward; puts = 0 } }
    {
        Seat {
            puts: 0,
            share: SideShare::Leftward(share),
        }
    }

    /// Returns the side on which this seat puts.
    pub fn side(&self) -> Side
        ensures { result ≡ self.now.side }
    {
        match &self.share {
            SideShare::Rightward(_) => Side::Rightward,
            SideShare::Leftward(_) => Side::Leftward,
        }
    }

    /// Returns the number of messages put by this seat.
    pub fn puts(&self) -> u32
        ensures { result ≡ self.now.puts }
    {
        self.puts
    }

    /// Proves that the seat has put as many messages as there are on its side.
    pub(crate) fn audit<M: Dated + Copy>(&mut self, lists: &mut BorderLists<M, R, L>)
        ensures unchanged { (self.new ≡ self.old) × (lists.new ≡ lists.old) }
        ensures counted { self.old.puts ≡ length (messages_of lists.old self.old.side) }
    {
        match &mut self.share {
            SideShare::Rightward(share) => lists.rightward.audit(share),
            SideShare::Leftward(share) => lists.leftward.audit(share),
        }
    }

    /// Appends the message to the list of the seat's side and counts it. If the list can't grow,
    /// the message is returned and nothing else changes.
    pub(crate) fn append<M: Dated + Copy>(
        &mut self,
        lists: &mut BorderLists<M, R, L>,
        message: M,
    ) -> Result<(), M>
        requires next { IsNext M.side_of M.round_of self.old message × (self.old.puts < 2 ^ 24) }
        requires counted { self.old.puts ≡ length (messages_of lists.old self.old.side) }
        ensures put { OnOk result ((self.new ≡ record self.old { puts = self.old.puts + 1 })
            × (lists.new ≡ with_message lists.old self.old.side message)) }
        ensures refused { IfErr result (λ m. m ≡ message) }
        ensures unchanged { OnErr result ((self.new ≡ self.old) × (lists.new ≡ lists.old)) }
    {
        match &mut self.share {
            SideShare::Rightward(share) => lists.rightward.append(share, message)?,
            SideShare::Leftward(share) => lists.leftward.append(share, message)?,
        }
        self.puts += 1;
        Ok(())
    }

    pub(crate) fn into_right(self) -> Share<R>
        requires { self.side ≡ Rightward }
        ensures parts { result.parts ≡ 1 }
        ensures amount { result.amount ≡ self.puts }
    {
        match self.share {
            SideShare::Rightward(share) => share,
            SideShare::Leftward(_) => unreachable!(),
        }
    }

    pub(crate) fn into_left(self) -> Share<L>
        requires { self.side ≡ Leftward }
        ensures parts { result.parts ≡ 1 }
        ensures amount { result.amount ≡ self.puts }
    {
        match self.share {
            SideShare::Leftward(share) => share,
            SideShare::Rightward(_) => unreachable!(),
        }
    }
}
