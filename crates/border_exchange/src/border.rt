//! The link between two neighbours.
ghost use Rattle.std.specs.Prelude.{◌≡◌, ◌+◌, ◌^◌, ◌<◌, OnOk, OnErr, IfErr, IfOk, IfSome, length};
ghost use Rattle.border_exchange.specs.InRounds.{AreInRounds};
ghost use Rattle.border_exchange.specs.SeatState.{IsNext, IsPutFault};
ghost use Rattle.border_exchange.specs.declared.Side.TheVariants.{Rightward, Leftward};

pub(crate) mod fault;
pub(crate) mod lists;
pub(crate) mod seat;
pub(crate) mod side_list;
pub(crate) mod totals;

use crate::border::lists::BorderLists;
use crate::border::seat::Seat;
use crate::{Dated, PutFault, Side, Totals};
use node_program::OutOfMemory;
use std::alloc::Global;
use std::sync::ledger::{Blank, Ledger};
use std::sync::{Condvar, Mutex, Wait};

/// The message lists of two neighbours: for each side a list, to which its seat appends and which
/// anyone may read. `R` and `L` are the ledgers of the rightward and of the leftward side, each
/// with one share.
#[derive(Drop)]
pub struct Border<M: Dated, R: Ledger, L: Ledger> {
    lists: Mutex<BorderLists<M, R, L>>,
    moved: Condvar,
}

impl<M: Dated + Copy, R: Ledger, L: Ledger> Border<M, R, L> {
    /// Returns a border without messages, its rightward seat and its leftward seat. Fails with
    /// `OutOfMemory` if memory for the lists was refused; the blanks are then used up.
    pub fn new(
        alloc: Global,
        right: Blank,
        left: Blank,
    ) -> Result<(Border<M, R, L>, Seat<R, L>, Seat<R, L>), OutOfMemory>
        requires right { (right.name ≡ R.name) × (right.parts ≡ R.parts) × (right.parts ≡ 1) }
        requires left { (left.name ≡ L.name) × (left.parts ≡ L.parts) × (left.parts ≡ 1) }
        ensures rightward { IfOk result (λ b. b.1 ≡ record { side = Rightward; puts = 0 }) }
        ensures leftward { IfOk result (λ b. b.2 ≡ record { side = Leftward; puts = 0 }) }
    {
        let (right_book, right_share) = right.open::<R>();
        let (left_book, left_share) = left.open::<L>();
        let lists = BorderLists::new(alloc, right_book, left_book)?;
        let border = Border {
            lists: Mutex::new(lists),
            moved: Condvar::new(),
        };
        Ok((
            border,
            Seat::rightward(right_share),
            Seat::leftward(left_share),
        ))
    }

    /// Appends a message to the list of the seat's side, and counts one more put of the seat. The
    /// seat must have fewer than `2^24` puts.
    ///
    /// Fails with `Closed` if the border was closed, else with `Misplaced` if the message's side is
    /// not the seat's, or its round is not both the number of the seat's puts and the number of
    /// messages on that side, else with `OutOfMemory` if the list was refused memory to grow. After
    /// a failure the border and the seat are unchanged, and the message is returned.
    pub fn put<W: Wait>(
        &self,
        rt: &W,
        seat: &mut Seat<R, L>,
        message: M,
    ) -> Result<(), (M, PutFault)>
        requires { seat.old.puts < 2 ^ 24 }
        ensures put { OnOk result (seat.new ≡ record seat.old { puts = seat.old.puts + 1 }) }
        ensures placed { OnOk result (IsNext M.side_of M.round_of seat.old message) }
        ensures unchanged { OnErr result (seat.new ≡ seat.old) }
        ensures refused { IfErr result (λ e. (e.0 ≡ message) × IsPutFault M.side_of M.round_of seat.old message e.1) }
    {
        let outcome = self.lists.lock(rt).put(seat, message);
        self.moved.notify_all();
        outcome
    }

    /// Returns a copy of the message of this side and round, which stays in its list. If there is
    /// none, waits until there is one or the border is closed, and returns `None` if it is closed
    /// without such a message.
    pub fn take<W: Wait>(&self, rt: &W, side: Side, round: u32) -> Option<M>
        ensures { IfSome result (λ m. (M.side_of m ≡ side) × (M.round_of m ≡ round)) }
    {
        let lists = self
            .moved
            .wait_while(rt, self.lists.lock(rt), |lists| lists.lacks(side, round));
        lists.get(side, round)
    }

    /// Closes the border: it takes no more messages, and no taker waits. Closing it again has no
    /// effect.
    pub fn close<W: Wait>(&self, rt: &W) {
        self.lists.lock(rt).close();
        self.moved.notify_all();
    }

    /// Ends the border with its two seats, and returns all messages: on each side as many as its
    /// seat has put, where message `k` is of that side and of round `k`.
    pub fn settle(self, right: Seat<R, L>, left: Seat<R, L>) -> Totals<M>
        requires sides { (right.side ≡ Rightward) × (left.side ≡ Leftward) }
        ensures counted { (length result.rightward.items ≡ right.puts) × (length result.leftward.items ≡ left.puts) }
        ensures rightward { AreInRounds M.side_of M.round_of Rightward result.rightward.items }
        ensures leftward { AreInRounds M.side_of M.round_of Leftward result.leftward.items }
    {
        let Border { lists, moved: _ } = self;
        lists.into_inner().settle(right, left)
    }
}
