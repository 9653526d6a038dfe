//! The least bad tuple of a table for a problem: that of the first window that begins one.
ghost use Rattle.std.specs.Prelude.{◌≡◌, ℕ, List, ◌*◌, ◌%◌, ◌<◌, ◌≤◌, length};
ghost use Rattle.std.specs.Bool.{OnFalse};
ghost use Rattle.ring_problems.specs.declared.pattern.Pattern.{Pattern};
ghost use Rattle.ring_problems.specs.Problems.{IsLeastIn};
ghost use Rattle.ring_problems.specs.Problems as problems;
ghost use Rattle.nbhd_check.specs.PatternBits.{AreBits};
ghost use Rattle.nbhd_check.specs.PatternSearch.{BeginsForbidden, IsNoMiddle};
ghost use Rattle.nbhd_check.specs.Buckets.{AreFree};
ghost use Rattle.nbhd_check.specs.ChannelSets.{HasWords};

use crate::bucket_search::window_count;
use crate::channel_sets::{Words, words_of};
use crate::pattern_bits::{pattern_bits, thirds_after};
use crate::patterns::PatternSearch;
use crate::search::{Search, free_windows};
use channel_tables::Table;
use ring_problems::ProblemTuples;
use std::alloc::Global;
use std::thread::Threads;

// The maximum number of tuples that are tested before memory is taken, so that an early no does not pay
// for it.
const FIRST_TUPLES: u64 = 1 << 10;

/// Returns the least number of a tuple that a pattern matches, by at most `threads` threads.
pub(crate) fn least_of_problem<R: Threads + Sync>(
    rt: &R,
    alloc: Global,
    tuples: ProblemTuples<'_, Table>,
    threads: u32,
) -> Option<u64>
    ensures { let t = tuples.entry.windows.now in
        let problem = tuples.entry.problem.now in
        IsLeastIn t problem 0 (length (problems.tuples t problem)) result }
{
    let first = first_windows(rt, alloc, tuples, threads);
    let shape = tuples.windows.shape();
    let each = u64::from(shape.ids()) - (2 * u64::from(shape.rounds()) + 1);
    tuples.least_from(u64::from(first) * each)
}

// Returns a number of windows such that none of the windows below it begins a bad tuple. The number is 0
// if one of the first tuples is bad, or if memory was refused.
fn first_windows<R: Threads + Sync>(
    rt: &R,
    alloc: Global,
    tuples: ProblemTuples<'_, Table>,
    threads: u32,
) -> u32
    ensures { AreFree tuples.entry.windows.now
        (BeginsForbidden tuples.entry.windows.now tuples.entry.problem.now) 0 result }
{
    let first = tuples.count().min(FIRST_TUPLES);
    if tuples.least_bad(0, first).is_some() {
        return 0;
    }
    if tuples.windows.shape().rounds() == 0 {
        return single_windows(alloc, tuples);
    }
    let most = window_count(tuples.windows);
    match PatternSearch::new(rt, alloc, tuples, threads) {
        Ok(search) => free_windows(rt, Search::Patterns(&search), most, threads),
        Err(_) => 0,
    }
}

// Like `first_windows`, for no rounds: the number of all windows, or 0. A window is one identifier then,
// and each other one can be before it and after it.
fn single_windows(alloc: Global, tuples: ProblemTuples<'_, Table>) -> u32
    ensures { AreFree tuples.entry.windows.now
        (BeginsForbidden tuples.entry.windows.now tuples.entry.problem.now) 0 result }
{
    let ProblemTuples {
        windows: table,
        problem,
    } = tuples;
    let limit = table.channels().min(64) as usize;
    let Ok(bits) = pattern_bits(alloc, problem, limit) else {
        return 0;
    };
    let words = words_of(table.entries());
    for number in 0..window_count(table) {
        if may_be_middle(table, &bits, limit, words, number) {
            return 0;
        }
    }
    window_count(table)
}

// Returns `false` only if no pattern with two other windows forbids this one between them. The words are
// those of all windows.
fn may_be_middle(table: &Table, bits: &[u64], limit: usize, words: Words, number: u32) -> bool
    requires limit { limit ≤ 64 }
    requires room { length bits.now ≡ 64 * 64 }
    requires number { number < length table.now.entries }
    requires words { HasWords table.now.entries words }
    ensures { (problem : List Pattern) → AreBits problem limit bits.now
        → ((c : ℕ) → c < table.now.channels → c % 64 < limit)
        → OnFalse result (IsNoMiddle table.now problem number) }
{
    let channel = table.entries()[number as usize];
    let others = words.without(channel);
    thirds_after(bits, limit, others, channel) & others != 0
}
