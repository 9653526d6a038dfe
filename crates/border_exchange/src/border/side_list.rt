//! The message list of one side.
ghost use Rattle.std.specs.Prelude.{◌≡◌, ◌+◌, ◌<◌, [], ◌∷◌, ◌++◌, length, Some, OnOk, OnErr, IfErr, IfOk};
ghost use Rattle.std.specs.Prelude.{IfSome, slice_get};
ghost use Rattle.border_exchange.specs.InRounds.{AreInRounds};

use crate::{Dated, Side};
use node_program::OutOfMemory;
use std::alloc::Global;
use std::marker::Model;
use std::sync::ledger::{Book, Ledger, Share};

/// A list of messages, of which message `k` is of this side and of round `k`. The book of its
/// ledger, which has one share, has counted them.
#[derive(Drop)]
pub(crate) struct SideList<M: Dated, L: Ledger> {
    side: Side,
    messages: Vec<M>,
    book: Book<L>,
}

impl<M: Dated, L: Ledger> Model for SideList<M, L> {
    ghost use Rattle.std.specs.Prelude.{◌≡◌, length};
    ghost use Rattle.border_exchange.specs.SideMessages.{SideMessages};
    ghost use Rattle.border_exchange.specs.InRounds.{AreInRounds};

    ghost Value = { SideMessages M };

    ghost view = { λ w. record { side = w.side; messages = w.messages.items } };

    ghost invariant = { λ w. (w.book.total ≡ length w.messages.items)
        × AreInRounds M.side_of M.round_of w.side w.messages.items × (L.parts ≡ 1) };
}

impl<M: Dated + Copy, L: Ledger> SideList<M, L> {
    pub(crate) fn new(
        alloc: Global,
        side: Side,
        book: Book<L>,
    ) -> Result<SideList<M, L>, OutOfMemory>
        requires empty { book.total ≡ 0 }
        requires whole { L.parts ≡ 1 }
        ensures { IfOk result (λ w. w ≡ record { side = side; messages = [] }) }
    {
        Ok(SideList {
            side,
            messages: Vec::with_capacity(alloc, 1)?,
            book,
        })
    }

    pub(crate) fn len(&self) -> usize
        ensures { result ≡ length self.now.messages }
    {
        self.messages.len()
    }

    /// Returns a copy of the message of this round, if there is one.
    pub(crate) fn get(&self, round: u32) -> Option<M>
        ensures found { result ≡ slice_get self.now.messages round }
        ensures dated { IfSome result (λ m. (M.side_of m ≡ self.now.side) × (M.round_of m ≡ round)) }
    {
        self.messages.get(round as usize).copied()
    }

    /// Proves that the side's one share has counted as many messages as there are.
    pub(crate) fn audit(&mut self, share: &mut Share<L>)
        requires { share.old.parts ≡ 1 }
        ensures counted { share.old.amount ≡ length self.old.messages }
        ensures list { self.new ≡ self.old }
        ensures share { (share.new.amount ≡ share.old.amount) × (share.new.parts ≡ share.old.parts) }
    {
        self.book.audit(share);
    }

    /// Appends a message, and counts it in the book and in the share. If the list can't grow, the
    /// message is returned and nothing else changes.
    pub(crate) fn append(&mut self, share: &mut Share<L>, message: M) -> Result<(), M>
        requires { (0 < share.old.parts) × (M.side_of message ≡ self.old.side)
            × (M.round_of message ≡ length self.old.messages) }
        ensures appended { OnOk result ((self.new ≡ record self.old { messages = self.old.messages ++ message ∷ [] })
            × (share.new.amount ≡ share.old.amount + 1)) }
        ensures parts { share.new.parts ≡ share.old.parts }
        ensures refused { IfErr result (λ m. m ≡ message) }
        ensures unchanged { OnErr result ((self.new ≡ self.old) × (share.new ≡ share.old)) }
    {
        if let Err(refused) = self.messages.push(message) {
            return Err(refused.value);
        }
        self.book.add(share, 1);
        Ok(())
    }

    /// Returns the messages, as many as the side's one share has counted.
    pub(crate) fn settle(self, share: Share<L>) -> Vec<M>
        requires { share.parts ≡ 1 }
        ensures items { result.items ≡ self.messages }
        ensures counted { length result.items ≡ share.amount }
        ensures dated { AreInRounds M.side_of M.round_of self.side result.items }
    {
        let SideList {
            side: _,
            messages,
            mut book,
        } = self;
        let mut share = share;
        book.audit(&mut share);
        messages
    }
}
