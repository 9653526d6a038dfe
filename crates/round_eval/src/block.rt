//! Blocks of states, with the next messages of their nodes.

pub(crate) mod numbers;
pub(crate) mod source;

use crate::row::{row_at, width_of};
use lang_check::Plan;
use std::marker::Model;

/// The states of up to `BLOCK_WINDOWS` consecutive windows of one level of a plan: block `b` holds
/// those from number `BLOCK_WINDOWS * b` on. The state of a window is the registers of its middle
/// node after as many rounds as the level. Below the last level a block also holds that node's
/// messages in the next round, from which blocks of the level above are made.
///
/// A block carries a number that names its maker.
#[derive(Drop)]
pub struct Block<'a> {
    plan: &'a Plan,
    level: u32,
    number: u32,
    maker: u32,
    len: u32,
    states: Vec<u32>,
    to_left: Vec<u32>,
    to_right: Vec<u32>,
}

impl<'a> Model for Block<'a> {
    ghost use Rattle.round_eval.specs.BlockStates.{MadeBlock, block_code};
    ghost use Rattle.round_eval.specs.HeldStates.{HoldsStates};

    ghost Value = { MadeBlock };

    ghost coded = { block_code };

    ghost view = { λ b. record { plan = b.plan.now; level = b.level; number = b.number; maker = b.maker } };

    ghost invariant = { λ b. HoldsStates b.plan.now b.level b.number b.len b.states.items b.to_left.items
        b.to_right.items };
}

/// What a block holds: the states of its windows, row by row, with a cell for each register, and
/// below the last level the messages of their middle nodes in the next round, perhaps followed by
/// other numbers.
#[derive(Drop)]
pub struct BlockLists {
    pub states: Vec<u32>,
    pub to_left: Vec<u32>,
    pub to_right: Vec<u32>,
}

impl<'a> Block<'a> {
    ghost use Rattle.std.specs.Prelude.{◌≡◌, ℕ, ◌*◌, ◌<◌, ◌≤◌, [], length, slice_index, slice_index_or};
    ghost use Rattle.node_program.specs.Node.{to_left, to_right};
    ghost use Rattle.round_eval.specs.Rows.{rows};
    ghost use Rattle.round_eval.specs.BlockStates.{block_len, block_state};
    ghost use Rattle.round_eval.specs.HeldStates.{HoldsStates};
    ghost use Rattle.win_index.specs.Blocks.{block_count};

    /// Returns the block of this level, number and maker that holds these lists.
    pub fn new(plan: &'a Plan, level: u32, number: u32, maker: u32, lists: BlockLists) -> Block<'a>
        requires { HoldsStates plan.now level number (block_len plan.now.ids level number)
            lists.states.items lists.to_left.items lists.to_right.items }
        ensures { result ≡ record { plan = plan.entry.now; level = level; number = number; maker = maker } }
    {
        let len = numbers::block_len(plan.shape(), level, number);
        let BlockLists {
            states,
            to_left,
            to_right,
        } = lists;
        Block {
            plan,
            level,
            number,
            maker,
            len,
            states,
            to_left,
            to_right,
        }
    }

    /// Returns the plan whose states it holds.
    pub fn plan(&self) -> &'a Plan
        ensures { result.now ≡ self.now.plan }
    {
        self.plan
    }

    /// Returns the level of its windows, at most the number of rounds.
    pub fn level(&self) -> u32
        ensures value { result ≡ self.now.level }
        ensures few { result ≤ length self.now.plan.program.steps }
    {
        self.level
    }

    /// Returns its number among the blocks of its level.
    pub fn number(&self) -> u32
        ensures value { result ≡ self.now.number }
        ensures inside { result < block_count self.now.plan.ids self.now.level }
    {
        self.number
    }

    /// Returns the number of its maker.
    pub fn maker(&self) -> u32
        ensures { result ≡ self.now.maker }
    {
        self.maker
    }

    /// Returns the number of its states, at most `BLOCK_WINDOWS`.
    pub fn len(&self) -> u32
        ensures { result ≡ block_len self.now.plan.ids self.now.level self.now.number }
    {
        self.len
    }

    /// Returns the states of all its windows, row by row, with a cell for each register.
    pub fn states(&self) -> &[u32]
        ensures size { length result.now
            ≡ block_len self.now.plan.ids self.now.level self.now.number * length self.now.plan.program.start }
        ensures rows { (i : ℕ) → let len = block_len self.now.plan.ids self.now.level self.now.number in
            i < len → slice_index_or (rows (length self.now.plan.program.start) len result.now) i []
            ≡ block_state self.now.plan self.now.level self.now.number i }
    {
        &self.states
    }

    /// Returns the state of its `i`-th window, which has number `BLOCK_WINDOWS * b + i` in block
    /// `b`, with a cell for each register.
    pub fn state(&self, i: u32) -> &[u32]
        requires { i < block_len self.now.plan.ids self.now.level self.now.number }
        ensures value { result.now ≡ block_state self.now.plan self.now.level self.now.number i }
        ensures cells { length result.now ≡ length self.now.plan.program.start }
    {
        let plan = self.plan;
        row_at(&self.states, width_of(plan), i as usize)
    }

    /// Returns the message of each window's middle node to the left in the next round, perhaps
    /// followed by other numbers.
    pub fn to_left(&self) -> &[u32]
        requires level { self.now.level < length self.now.plan.program.steps }
        ensures size { block_len self.now.plan.ids self.now.level self.now.number ≤ length result.now }
        ensures sent { (i : ℕ) → i < block_len self.now.plan.ids self.now.level self.now.number
            → slice_index result.now i
            ≡ to_left self.now.plan.program self.now.level
            (block_state self.now.plan self.now.level self.now.number i) }
    {
        &self.to_left
    }

    /// Returns the message of the `i`-th window's middle node to the right in the next round.
    pub fn to_right(&self, i: u32) -> u32
        requires level { self.now.level < length self.now.plan.program.steps }
        requires place { i < block_len self.now.plan.ids self.now.level self.now.number }
        ensures { result ≡ to_right self.now.plan.program self.now.level
            (block_state self.now.plan self.now.level self.now.number i) }
    {
        self.to_right[i as usize]
    }
}
