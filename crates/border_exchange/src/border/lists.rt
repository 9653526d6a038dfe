//! The content of a border under its lock.
ghost use Rattle.std.specs.Prelude.{◌≡◌, ◌+◌, ◌^◌, ◌<◌, ◌≤◌, ◌↔◌, [], IsTrue, true, false, Err, OnOk, OnErr, IfErr};
ghost use Rattle.std.specs.Prelude.{IfOk, IfSome, length, slice_get};
ghost use Rattle.border_exchange.specs.InRounds.{AreInRounds};
ghost use Rattle.border_exchange.specs.BorderContents.{messages_of, with_message};
ghost use Rattle.border_exchange.specs.SeatState.{IsNext, IsPutFault};
ghost use Rattle.border_exchange.specs.declared.Side.TheVariants.{Rightward, Leftward};
ghost use Rattle.border_exchange.specs.declared.border.fault.PutFault.TheVariants.{Closed};

use crate::border::seat::Seat;
use crate::border::side_list::SideList;
use crate::{Dated, PutFault, Side, Totals};
use node_program::OutOfMemory;
use std::alloc::Global;
use std::marker::Model;
use std::sync::ledger::{Book, Ledger};

/// The lists of both sides, and whether the border was closed.
#[derive(Drop)]
pub(crate) struct BorderLists<M: Dated, R: Ledger, L: Ledger> {
    pub(crate) rightward: SideList<M, R>,
    pub(crate) leftward: SideList<M, L>,
    closed: bool,
}

impl<M: Dated, R: Ledger, L: Ledger> Model for BorderLists<M, R, L> {
    ghost use Rattle.std.specs.Prelude.{◌≡◌};
    ghost use Rattle.border_exchange.specs.BorderContents.{BorderContents};
    ghost use Rattle.border_exchange.specs.declared.Side.TheVariants.{Rightward, Leftward};

    ghost Value = { BorderContents M };

    ghost view = { λ b. record {
      rightward = b.rightward.messages;
      leftward = b.leftward.messages;
      closed = b.closed;
    } };

    ghost invariant = { λ b. (b.rightward.side ≡ Rightward) × (b.leftward.side ≡ Leftward) };
}

impl<M: Dated + Copy, R: Ledger, L: Ledger> BorderLists<M, R, L> {
    pub(crate) fn new(
        alloc: Global,
        right: Book<R>,
        left: Book<L>,
    ) -> Result<BorderLists<M, R, L>, OutOfMemory>
        requires empty { (right.total ≡ 0) × (left.total ≡ 0) }
        requires whole { (R.parts ≡ 1) × (L.parts ≡ 1) }
        ensures { IfOk result (λ lists. lists ≡ record { rightward = []; leftward = []; closed = false }) }
    {
        Ok(BorderLists {
            rightward: SideList::new(alloc, Side::Rightward, right)?,
            leftward: SideList::new(alloc, Side::Leftward, left)?,
            closed: false,
        })
    }

    fn len(&self, side: Side) -> usize
        ensures { result ≡ length (messages_of self.now side) }
    {
        match side {
            Side::Rightward => self.rightward.len(),
            Side::Leftward => self.leftward.len(),
        }
    }

    /// Returns whether a taker of this side and round has to wait: the border is open, and the list
    /// of that side ends before that round.
    pub(crate) fn lacks(&self, side: Side, round: u32) -> bool
        ensures { IsTrue result ↔ ((self.now.closed ≡ false) × (length (messages_of self.now side) ≤ round)) }
    {
        !self.closed && self.len(side) <= round as usize
    }

    /// Returns a copy of the message of this side and round, if there is one.
    pub(crate) fn get(&self, side: Side, round: u32) -> Option<M>
        ensures found { result ≡ slice_get (messages_of self.now side) round }
        ensures dated { IfSome result (λ m. (M.side_of m ≡ side) × (M.round_of m ≡ round)) }
    {
        match side {
            Side::Rightward => self.rightward.get(round),
            Side::Leftward => self.leftward.get(round),
        }
    }

    /// Stops taking messages.
    pub(crate) fn close(&mut self)
        ensures { self.new ≡ record self.old { closed = true } }
    {
        self.closed = true;
    }

    /// Appends to the list of the seat's side, as `Border::put` does.
    pub(crate) fn put(&mut self, seat: &mut Seat<R, L>, message: M) -> Result<(), (M, PutFault)>
        requires { seat.old.puts < 2 ^ 24 }
        ensures put { OnOk result ((seat.new ≡ record seat.old { puts = seat.old.puts + 1 })
            × (self.new ≡ with_message self.old seat.old.side message) × IsNext M.side_of M.round_of seat.old message) }
        ensures unchanged { OnErr result ((self.new ≡ self.old) × (seat.new ≡ seat.old)) }
        ensures refused { IfErr result (λ e. (e.0 ≡ message) × IsPutFault M.side_of M.round_of seat.old message e.1) }
        ensures closed { (result ≡ Err (message, Closed)) ↔ (self.old.closed ≡ true) }
    {
        if self.closed {
            return Err((message, PutFault::Closed));
        }
        seat.audit(self);
        if message.side() != seat.side() || message.round() != seat.puts() {
            return Err((message, PutFault::Misplaced));
        }
        match seat.append(self, message) {
            Ok(()) => Ok(()),
            Err(message) => Err((message, PutFault::OutOfMemory)),
        }
    }

    /// Returns the messages of both sides, on each as many as its seat has put.
    pub(crate) fn settle(self, right: Seat<R, L>, left: Seat<R, L>) -> Totals<M>
        requires sides { (right.side ≡ Rightward) × (left.side ≡ Leftward) }
        ensures counted { (length result.rightward.items ≡ right.puts) × (length result.leftward.items ≡ left.puts) }
        ensures rightward { AreInRounds M.side_of M.round_of Rightward result.rightward.items }
        ensures leftward { AreInRounds M.side_of M.round_of Leftward result.leftward.items }
    {
        let BorderLists {
            rightward,
            leftward,
            closed: _,
        } = self;
        Totals {
            rightward: rightward.settle(right.into_right()),
            leftward: leftward.settle(left.into_left()),
        }
    }
}
