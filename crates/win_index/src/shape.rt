//! Shapes, and the numbers of their windows and tuples.
ghost use Rattle.std.specs.Prelude.{◌≡◌, ◌≢◌, ◌≤◌, length, AllPairs};
ghost use Rattle.win_index.specs.declared.limits.TheConstants.{MAX_ROUNDS, MAX_EXTRA};
ghost use Rattle.win_index.specs.ShapeRange.{HasIds, HasFewWindows};
ghost use Rattle.win_index.specs.Windows.{unused};

use crate::arrangement::{Arrangements, are_few, unused_below};
use crate::limits::{MAX_IDS, MAX_ROUNDS, MAX_WINDOWS};

/// Why a number of identifiers and a number of rounds are no shape.
#[derive(Clone, Copy, Debug, PartialEq, Eq)]
pub enum ShapeFault {
    /// X1: fewer than `2t+2` identifiers for `t` rounds, or more than `MAX_IDS`.
    IdsOutOfRange,
    /// X2: more than `MAX_WINDOWS` windows of level `t`.
    TooManyWindows,
}

/// A number of identifiers and a number of rounds: `t` rounds, at most `MAX_ROUNDS`, and `2t+2` to
/// `MAX_IDS` identifiers, with at most `MAX_WINDOWS` windows of level `t`. Identifiers are the
/// numbers below their number.
///
/// A window of level `r` is a list of `2r+1` distinct identifiers, for `r` from 0 to `t`, and a
/// tuple is a list of `2t+1+extra` distinct identifiers, where `extra` is 1 or 2. Windows of a
/// level, and tuples of an `extra`, are numbered in lexicographic order.
#[derive(Clone, Copy, Debug, PartialEq, Eq)]
pub struct Shape {
    pub(crate) ids: u32,
    pub(crate) rounds: u32,
    pub ghost few_rounds: { rounds ≤ MAX_ROUNDS },
    pub ghost in_range: { HasIds ids rounds },
    pub ghost few_windows: { HasFewWindows ids rounds },
}

impl Shape {
    ghost use Rattle.std.specs.Prelude.{◌≡◌, ℕ, List, ◌+◌, ◌*◌, ◌<◌, ◌↔◌, IsTrue, IfOk, IfErr, IfSome, IsOk, Some};
    ghost use Rattle.std.specs.Prelude.{length, take, slice_get};
    ghost use Rattle.win_index.specs.Windows.{windows, number_of, IsWindow};
    ghost use Rattle.win_index.specs.Buckets.{IsBucketStart, IsReplacedByBucket};
    ghost use Rattle.win_index.specs.Successor.{IsReplaced};
    ghost use Rattle.win_index.specs.ShapeRange.{IsShape, IsExtra};
    ghost use Rattle.win_index.specs.ShapeFaults.{IsFirstShapeFault};

    /// Returns the shape of `ids` identifiers and `rounds` rounds. Fails exactly if there is none,
    /// with its first fault: `IdsOutOfRange`, else `TooManyWindows`.
    pub fn new(ids: u32, rounds: u32) -> Result<Shape, ShapeFault>
        requires { rounds ≤ MAX_ROUNDS }
        ensures ok { IfOk result (λ shape. (shape.ids ≡ ids) × (shape.rounds ≡ rounds)) }
        ensures exact { IsOk result ↔ IsShape ids rounds }
        ensures err { IfErr result (IsFirstShapeFault ids rounds) }
    {
        if ids < 2 * rounds + 2 || ids > MAX_IDS {
            return Err(ShapeFault::IdsOutOfRange);
        }
        if !are_few(ids, 2 * rounds as usize + 1, MAX_WINDOWS) {
            return Err(ShapeFault::TooManyWindows);
        }
        Ok(Shape { ids, rounds })
    }

    /// Returns the number of identifiers; identifiers are the numbers below it.
    pub fn ids(&self) -> u32
        ensures { result ≡ self.now.ids }
    {
        self.ids
    }

    /// Returns the number of rounds, at most `MAX_ROUNDS`.
    pub fn rounds(&self) -> u32
        ensures { result ≡ self.now.rounds }
    {
        self.rounds
    }

    /// Returns the number of windows of this level.
    pub fn count(&self, level: u32) -> u32
        requires { level ≤ self.now.rounds }
        ensures value { result ≡ length (windows (2 * level + 1) self.now.ids) }
        ensures some { 0 < result }
    {
        self.lists(2 * level + 1).count() as u32
    }

    /// Returns the number of tuples of `2t+1+extra` identifiers, for an `extra` of 1 or 2. It is 0
    /// if the shape has fewer identifiers.
    #[tactic(auto, using(crate::proofs::Sizes::no_windows))]
    pub fn tuples(&self, extra: u32) -> u64
        requires extra { IsExtra extra }
        ensures value { result ≡ length (windows (2 * self.now.rounds + 1 + extra) self.now.ids) }
        ensures some { 2 * self.now.rounds + 1 + extra ≤ self.now.ids → 0 < result }
    {
        let len = 2 * self.rounds + 1 + extra;
        if len > self.ids {
            return 0;
        }
        self.lists(len).count()
    }

    /// Returns the number of a window of this level, or `None` if the list is not one.
    pub fn number(&self, level: u32, list: &[u32]) -> Option<u32>
        requires { level ≤ self.now.rounds }
        ensures number { result ≡ number_of (2 * level + 1) self.now.ids list.now }
        ensures below { IfSome result (λ n. n < length (windows (2 * level + 1) self.now.ids)) }
    {
        let number = self.lists(2 * level + 1).find(list)?;
        Some(number as u32)
    }

    /// Returns the number of a list that must be a window of this level.
    pub fn window_number(&self, level: u32, window: &[u32]) -> u32
        requires level { level ≤ self.now.rounds }
        requires window { IsWindow (2 * level + 1) self.now.ids window.now }
        ensures number { number_of (2 * level + 1) self.now.ids window.now ≡ Some result }
        ensures item { slice_get (windows (2 * level + 1) self.now.ids) result ≡ Some window.now }
    {
        self.lists(2 * level + 1).number(window) as u32
    }

    /// Returns the number of the first window of this level with these `2r` identifiers as its
    /// prefix. The windows with that prefix are consecutive, in the order of their last
    /// identifiers.
    #[tactic(auto, using(crate::proofs::Levels::few_of_shape))]
    pub fn bucket_start(&self, level: u32, front: &[u32]) -> u32
        requires level { level ≤ self.now.rounds }
        requires front { IsWindow (2 * level) self.now.ids front.now }
        ensures { IsBucketStart (2 * level) self.now.ids front.now result }
    {
        self.lists(2 * level).bucket_start(front) as u32
    }

    /// Writes the window of this level with this number to the `2r+1` cells of `out`.
    pub fn window(&self, level: u32, number: u32, out: &mut [u32])
        requires level { level ≤ self.now.rounds }
        requires below { number < length (windows (2 * level + 1) self.now.ids) }
        requires room { length out.old ≡ 2 * level + 1 }
        ensures item { slice_get (windows (2 * level + 1) self.now.ids) number ≡ Some out.new }
        ensures window { IsWindow (2 * level + 1) self.now.ids out.new }
    {
        self.lists(2 * level + 1).write(u64::from(number), out);
    }

    /// Replaces a window of this level by the next one and returns `true`, or returns `false`
    /// without a change if it is the last.
    pub fn next_window(&self, level: u32, window: &mut [u32]) -> bool
        requires level { level ≤ self.now.rounds }
        requires window { IsWindow (2 * level + 1) self.now.ids window.old }
        ensures { IsReplaced (2 * level + 1) self.now.ids result window.old window.new }
    {
        self.lists(2 * level + 1).write_next(window)
    }

    /// Replaces a window of this level by the first one after it with another prefix and returns
    /// `true`, or returns `false` without a change if there is none. A prefix is all identifiers
    /// but the last.
    pub fn next_bucket(&self, level: u32, window: &mut [u32]) -> bool
        requires level { level ≤ self.now.rounds }
        requires window { IsWindow (2 * level + 1) self.now.ids window.old }
        ensures { IsReplacedByBucket (2 * level + 1) self.now.ids result window.old window.new }
    {
        self.lists(2 * level + 1).write_next_bucket(window)
    }

    /// Returns the number of a tuple of this `extra`, or `None` if the list is not one.
    pub fn tuple_number(&self, extra: u32, list: &[u32]) -> Option<u64>
        requires extra { IsExtra extra }
        ensures { result ≡ number_of (2 * self.now.rounds + 1 + extra) self.now.ids list.now }
    {
        let len = 2 * self.rounds + 1 + extra;
        if len > self.ids {
            return None;
        }
        self.lists(len).find(list)
    }

    /// Writes the tuple with this number to the `2t+1+extra` cells of `out`.
    #[tactic(auto, using(crate::proofs::Sizes::no_windows))]
    pub fn tuple(&self, extra: u32, number: u64, out: &mut [u32])
        requires extra { IsExtra extra }
        requires below { number < length (windows (2 * self.now.rounds + 1 + extra) self.now.ids) }
        requires room { length out.old ≡ 2 * self.now.rounds + 1 + extra }
        ensures item { slice_get (windows (2 * self.now.rounds + 1 + extra) self.now.ids) number ≡ Some out.new }
        ensures tuple { IsWindow (2 * self.now.rounds + 1 + extra) self.now.ids out.new }
    {
        self.lists(2 * self.rounds + 1 + extra).write(number, out);
    }

    /// Replaces a tuple by the next one and returns `true`, or returns `false` without a change if
    /// it is the last.
    pub fn after(&self, extra: u32, tuple: &mut [u32]) -> bool
        requires extra { IsExtra extra }
        requires tuple { IsWindow (2 * self.now.rounds + 1 + extra) self.now.ids tuple.old }
        ensures { IsReplaced (2 * self.now.rounds + 1 + extra) self.now.ids result tuple.old tuple.new }
    {
        self.lists(2 * self.rounds + 1 + extra).write_next(tuple)
    }

    // Returns the lists of this length, which are windows, their prefixes or tuples.
    #[tactic(auto, using(crate::proofs::Levels::few_of_shape, crate::proofs::Levels::few_tuples))]
    pub(crate) fn lists(&self, len: u32) -> Arrangements
        requires short { len ≤ self.now.ids }
        requires few { len ≤ 2 * self.now.rounds + 1 + MAX_EXTRA }
        ensures ids { result.ids ≡ self.now.ids }
        ensures len { result.len ≡ len }
        ensures few { len ≤ 2 * self.now.rounds + 1 → length (windows len self.now.ids) ≤ MAX_WINDOWS }
    {
        Arrangements {
            ids: self.ids,
            len: len as usize,
        }
    }
}

/// Returns the number of identifiers below `id` that are not in a list of distinct ones. It is the
/// position of `id` among the identifiers that the list lacks, if `id` is one of them.
#[tactic(auto, using(crate::proofs::Unused::unused_below))]
pub fn place_among_unused(list: &[u32], id: u32) -> u32
    requires { AllPairs (λ a b. a ≢ b) list.now }
    ensures { result ≡ length (unused id list.now) }
{
    unused_below(list, id) as u32
}
