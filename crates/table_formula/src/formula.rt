//! The formula of all tables of a shape that keep a separation and solve a problem of forbidden patterns.
ghost use Rattle.std.specs.Prelude.{◌≡◌, ◌+◌, ◌*◌, ◌<◌, ◌≤◌, [], IfOk, IfErr, OnOk, MatchOption, filter, length};
ghost use Rattle.channel_tables.specs.Apart.{extra};
ghost use Rattle.ring_problems.specs.Patterns.{is_below};
ghost use Rattle.table_formula.specs.declared.limits.TheConstants.{MAX_CLAUSES};
ghost use Rattle.table_formula.specs.Formula.{close_in, apart_formula, formula, patterns_of, tuples_of};
ghost use Rattle.table_formula.specs.Problems.{problem_of};
ghost use Rattle.table_formula.specs.Limits.{IsWithinLimits};
ghost use Rattle.table_formula.specs.FormulaFaults.{IsFormulaFault};

pub(crate) mod conflict;
pub(crate) mod exchange;
pub(crate) mod laws;
pub(crate) mod pattern_exchange;
pub(crate) mod text;

use crate::formula::conflict::{Conflict, conflict_count, conflicts_in};
use crate::formula::exchange::{Exchange, exchanged_number, other_of};
use crate::formula::pattern_exchange::ChannelMap;
use crate::limits::{MAX_CLAUSES, MAX_VARIABLES};
use crate::literal::Literal;
use channel_tables::{Separation, TupleLists};
use node_program::MAX_CHANNELS;
use ring_problems::{Entry, Pattern, tuple_count, tuple_extra, write_tuple};
use std::alloc::{AllocError, Global};
use std::marker::Model;
use win_index::{MAX_TUPLE_LEN, Shape};

/// Why a problem has no formula here.
#[derive(Clone, Copy, Debug, PartialEq, Eq)]
pub enum FormulaFault {
    /// V1: it would have more than `MAX_VARIABLES` variables.
    TooManyVariables,
    /// V2: it would have more than `MAX_CLAUSES` clauses.
    TooManyClauses,
    /// Memory for the pairs of channels that are too close was refused.
    OutOfMemory,
}

/// The formula of a problem: whether there is a table of a shape with at most some number of
/// channels that keeps a separation and on no ring has a forbidden pattern. It has at most `MAX_VARIABLES`
/// variables and at most `MAX_CLAUSES` clauses. A clause is made when it is asked for, by its index.
#[derive(Drop)]
pub struct Formula {
    shape: Shape,
    channels: u32,
    separation: Separation,
    conflicts: Vec<Conflict>,
    forbidden: Vec<Pattern>,
    possible: Vec<Pattern>,
    apart: u64,
    clauses: u64,
}

impl Model for Formula {
    ghost use Rattle.table_formula.specs.Problems.{Problem, problem_of, problem_code};
    ghost use Rattle.table_formula.specs.Limits.{IsKept};

    ghost Value = { Problem };

    ghost coded = { problem_code };

    ghost view = { λ f. problem_of f.shape f.channels f.separation f.forbidden.items };

    ghost invariant = { λ f. IsKept (problem_of f.shape f.channels f.separation f.forbidden.items) f.conflicts.items
        f.possible.items f.apart f.clauses };
}

impl Formula {
    ghost use Rattle.std.specs.Prelude.{◌≡◌, ◌+◌, ◌*◌, ◌<◌, ◌≤◌, ◌++◌, IfOk, IfErr, OnOk, Some, length, take, true};
    ghost use Rattle.std.specs.Prelude.{All, slice_get, slice_index_or};
    ghost use Rattle.win_index.specs.declared.limits.TheConstants.{MAX_TUPLE_LEN};
    ghost use Rattle.win_index.specs.Windows.{IsWindow};
    ghost use Rattle.channel_tables.specs.Apart.{extra};
    ghost use Rattle.table_formula.specs.declared.limits.TheConstants.{MAX_CLAUSES, MAX_VARIABLES};
    ghost use Rattle.table_formula.specs.Formula.{windows_of, tuples_of, variable_of, variable_count, conflicts_of};
    ghost use Rattle.table_formula.specs.Formula.{window_in, some_channel, not_both, IsPair, apart_formula, lacks};
    ghost use Rattle.table_formula.specs.Formula.{no_match, patterns_of, pattern_clauses, formula};
    ghost use Rattle.table_formula.specs.Formula.{clause_room, BeginsWithClause};
    ghost use Rattle.ring_problems.specs.Patterns.{is_below, is_channel, is_entry_below, extra as long};
    ghost use Rattle.ring_problems.specs.TupleLists.{IsTuple};
    ghost use Rattle.table_formula.specs.Exchanges.{can_exchange, exchanged_window, exchanged_literal};
    ghost use Rattle.table_formula.specs.Problems.{problem_of};
    ghost use Rattle.table_formula.specs.Limits.{IsWithinLimits};
    ghost use Rattle.table_formula.specs.FormulaFaults.{IsFormulaFault};

    /// Returns the formula of the tables of this shape with at most `channels` channels that keep
    /// the separation and on no ring have one of the forbidden patterns. Fails with `TooManyVariables`,
    /// else with `TooManyClauses`, exactly if it is not within these limits; else with `OutOfMemory` if
    /// memory was refused.
    pub fn new(
        alloc: Global,
        shape: Shape,
        channels: u32,
        separation: Separation,
        forbidden: &[Pattern],
    ) -> Result<Formula, FormulaFault>
        ensures ok { IfOk result (λ f. f ≡ problem_of shape channels separation forbidden.now) }
        ensures limits { OnOk result (IsWithinLimits (problem_of shape channels separation forbidden.now)) }
        ensures err { IfErr result (IsFormulaFault (problem_of shape channels separation forbidden.now)) }
    {
        let (apart, clauses) = clauses_of(shape, channels, separation, forbidden)?;
        let Ok(conflicts) = conflicts_for(alloc, shape, channels, separation) else {
            return Err(FormulaFault::OutOfMemory);
        };
        let Ok((forbidden, possible)) = patterns_for(alloc, channels, forbidden) else {
            return Err(FormulaFault::OutOfMemory);
        };
        Ok(Formula {
            shape,
            channels,
            separation,
            conflicts,
            forbidden,
            possible,
            apart,
            clauses,
        })
    }

    /// Returns the number of clauses.
    pub fn count(&self) -> u64
        ensures value { result ≡ length (formula self.now) }
        ensures few { result ≤ MAX_CLAUSES }
    {
        self.clauses
    }

    /// Returns the number of variables. Variables are the numbers below it.
    pub fn variables(&self) -> u32
        ensures value { result ≡ variable_count self.now }
        ensures few { result ≤ MAX_VARIABLES }
    {
        self.windows() * self.channels
    }

    /// Returns the forbidden patterns.
    pub(crate) fn forbidden(&self) -> &[Pattern]
        ensures { result.now ≡ self.now.forbidden }
    {
        &self.forbidden
    }

    /// Returns whether tables that are asked for stay so after an exchange: it is one of identifiers
    /// of the shape; or of channels, and the separation only tells which channels differ; or the
    /// mirror. Of channels there must be at most `MAX_CHANNELS`, and by other channels the forbidden
    /// patterns that the tables can match must map to themselves.
    pub fn can_exchange(&self, exchange: Exchange) -> bool
        ensures { result ≡ can_exchange self.now exchange }
    {
        match exchange {
            Exchange::Identifiers(first, second) => {
                let ids = u64::from(self.shape.ids());
                first < ids && second < ids
            }
            Exchange::Channels(first, second) => {
                let channels = u64::from(self.channels);
                first < channels
                    && second < channels
                    && self.channels <= MAX_CHANNELS
                    && self.separation.near <= 1
                    && self.separation.far <= 1
                    && ChannelMap::Exchange(first as u32, second as u32).keeps(&self.possible)
            }
            Exchange::Mirror => {
                self.channels <= MAX_CHANNELS
                    && ChannelMap::Mirror(self.channels).keeps(&self.possible)
            }
        }
    }

    /// Returns the literal that says after an exchange what this one says.
    pub fn exchanged(&self, exchange: Exchange, l: Literal) -> Literal
        requires can { can_exchange self.now exchange ≡ true }
        requires known { l.variable < variable_count self.now }
        ensures value { result ≡ exchanged_literal self.now exchange l }
        ensures known { result.variable < variable_count self.now }
    {
        let window = l.variable() / self.channels;
        let channel = l.variable() % self.channels;
        match exchange {
            Exchange::Identifiers(first, second) => {
                let other = self.exchanged_window(window, first as u32, second as u32);
                self.known_literal(other, channel, l.is_positive())
            }
            Exchange::Channels(first, second) => {
                let other = other_of(channel, first as u32, second as u32);
                self.known_literal(window, other, l.is_positive())
            }
            Exchange::Mirror => {
                self.known_literal(window, self.channels - 1 - channel, l.is_positive())
            }
        }
    }

    // Returns the number of the window that has two identifiers of this one exchanged.
    fn exchanged_window(&self, number: u32, first: u32, second: u32) -> u32
        requires number { number < length (windows_of self.now) }
        requires first { first < self.now.ids }
        requires second { second < self.now.ids }
        ensures value { result ≡ exchanged_window self.now first second number }
        ensures below { result < length (windows_of self.now) }
    {
        exchanged_number(self.shape, number, first, second)
    }

    /// Returns how many literals have room for each clause.
    pub fn clause_room(&self) -> usize
        ensures { result ≡ clause_room self.now }
    {
        3.max(self.channels) as usize
    }

    /// Writes the clause with this index in the formula to the first cells of `out`, and returns
    /// the number of its literals. The other cells can be overwritten too.
    pub fn write_clause(&self, index: u64, out: &mut [Literal]) -> usize
        requires index { index < length (formula self.now) }
        requires room { clause_room self.now ≤ length out.old }
        ensures len { length out.new ≡ length out.old }
        ensures written { BeginsWithClause self.now index result out.new }
    {
        if index < self.apart {
            self.write_apart(index, out)
        } else {
            self.write_of_pattern(index - self.apart, out)
        }
    }

    // Writes the clause with this index among those of the separation.
    fn write_apart(&self, index: u64, out: &mut [Literal]) -> usize
        requires index { index < length (apart_formula self.now) }
        requires room { clause_room self.now ≤ length out.old }
        ensures fits { result ≤ length out.old }
        ensures item { slice_get (apart_formula self.now) index ≡ Some (take result out.new) }
        ensures within { All (λ l. l.variable < variable_count self.now) (take result out.new) }
    {
        let windows = u64::from(self.windows());
        if index < windows {
            self.write_some_channel(index as u32, out)
        } else {
            self.write_pair(index - windows, out)
        }
    }

    // Writes the clause of a tuple and a pattern that has this index among those clauses.
    fn write_of_pattern(&self, index: u64, out: &mut [Literal]) -> usize
        requires below { index < length (pattern_clauses self.now) }
        requires room { 3 ≤ length out.old }
        ensures fits { result ≤ 3 }
        ensures item { slice_get (pattern_clauses self.now) index ≡ Some (take result out.new) }
    {
        let count = self.possible.len() as u64;
        let len = 2 * self.shape.rounds() as usize + 1 + tuple_extra(&self.forbidden) as usize;
        let mut cells = [0; MAX_TUPLE_LEN];
        let tuple = &mut cells[..len];
        write_tuple(self.shape, &self.forbidden, index / count, tuple);
        self.write_no_match(tuple, self.possible[(index % count) as usize], out)
    }

    // Writes the clause of a tuple and a pattern.
    fn write_no_match(&self, tuple: &[u32], pattern: Pattern, out: &mut [Literal]) -> usize
        requires tuple { IsTuple self.now.ids self.now.rounds self.now.forbidden tuple.now }
        requires below { is_below self.now.channels pattern ≡ true }
        requires third { is_channel pattern.third ≡ true → 2 ≤ long self.now.forbidden }
        requires room { 3 ≤ length out.old }
        ensures fits { result ≤ 3 }
        ensures items { take result out.new ≡ no_match self.now tuple.now pattern }
    {
        let used = self.write_lacks(tuple, 0, pattern.first, 0, out);
        let used = self.write_lacks(tuple, 1, pattern.second, used, out);
        self.write_lacks(tuple, 2, pattern.third, used, out)
    }

    // Writes, after the first `used` cells, that the window at this offset in a tuple does not have the
    // channel that an entry asks for, if it asks for one.
    fn write_lacks(
        &self,
        tuple: &[u32],
        offset: usize,
        entry: Entry,
        used: usize,
        out: &mut [Literal],
    ) -> usize
        requires tuple { IsTuple self.now.ids self.now.rounds self.now.forbidden tuple.now }
        requires below { is_entry_below self.now.channels entry ≡ true }
        requires offset { is_channel entry ≡ true → offset ≤ long self.now.forbidden }
        requires room { used < length out.old }
        ensures items { take result out.new ≡ take used out.old ++ lacks self.now tuple.now offset entry }
        ensures more { result ≤ used + 1 }
        ensures len { length out.new ≡ length out.old }
    {
        match entry {
            Entry::Wildcard => used,
            Entry::Channel(channel) => {
                out[used] = self.literal(self.part_at(tuple, offset), channel, false);
                used + 1
            }
        }
    }

    // Returns the number of the window from an offset on in a tuple of the patterns.
    fn part_at(&self, tuple: &[u32], offset: usize) -> u32
        requires tuple { IsTuple self.now.ids self.now.rounds self.now.forbidden tuple.now }
        requires offset { offset ≤ long self.now.forbidden }
        ensures value { result ≡ window_in self.now tuple.now offset }
        ensures below { result < length (windows_of self.now) }
    {
        let len = 2 * self.shape.rounds() as usize + 1;
        self.shape
            .window_number(self.shape.rounds(), &tuple[offset..offset + len])
    }

    // Returns the number of windows.
    fn windows(&self) -> u32
        ensures value { result ≡ length (windows_of self.now) }
        ensures some { 0 < result }
    {
        self.shape.count(self.shape.rounds())
    }

    // Writes the clause of a window.
    fn write_some_channel(&self, window: u32, out: &mut [Literal]) -> usize
        requires window { window < length (windows_of self.now) }
        requires room { self.now.channels ≤ length out.old }
        ensures count { result ≡ self.now.channels }
        ensures items { take result out.new ≡ some_channel self.now window }
    {
        for channel in 0..self.channels {
            out[channel as usize] = self.literal(window, channel, true);
        }
        self.channels as usize
    }

    // Writes the clause of a tuple and a pair of channels that has this index among those clauses.
    fn write_pair(&self, index: u64, out: &mut [Literal]) -> usize
        requires below { length (windows_of self.now) + index < length (apart_formula self.now) }
        requires room { 2 ≤ length out.old }
        ensures count { result ≡ 2 }
        ensures item { slice_get (apart_formula self.now) (length (windows_of self.now) + index)
            ≡ Some (take 2 out.new) }
        ensures within { All (λ l. l.variable < variable_count self.now) (take 2 out.new) }
    {
        let count = self.conflict_count();
        let lists = self.lists();
        let mut cells = [0; MAX_TUPLE_LEN];
        let tuple = &mut cells[..lists.len()];
        lists.write(index / count, tuple);
        let conflict = self.conflict((index % count) as usize);
        self.write_not_both(tuple, conflict, out);
        2
    }

    // Returns the number of pairs of channels that the separation forbids.
    fn conflict_count(&self) -> u64
        requires { 0 < length (tuples_of self.now) }
        ensures { result ≡ length (conflicts_of self.now) }
    {
        self.conflicts.len() as u64
    }

    // Returns the pair with this index.
    #[tactic(auto, using(crate::proofs::Numbered::all_pairs))]
    fn conflict(&self, index: usize) -> Conflict
        requires some { 0 < length (tuples_of self.now) }
        requires below { index < length (conflicts_of self.now) }
        ensures item { slice_index_or (conflicts_of self.now) index result ≡ result }
        ensures pair { IsPair self.now result }
    {
        self.conflicts[index]
    }

    // Returns the tuples, as lists.
    fn lists(&self) -> TupleLists
        ensures rounds { result.shape.rounds ≡ self.now.rounds }
        ensures ids { result.shape.ids ≡ self.now.ids }
        ensures separation { result.separation ≡ self.now.separation }
    {
        TupleLists {
            shape: self.shape,
            separation: self.separation,
        }
    }

    // Writes the two literals of the clause of a tuple and a pair of channels.
    fn write_not_both(&self, tuple: &[u32], conflict: Conflict, out: &mut [Literal])
        requires tuple { IsWindow (2 * self.now.rounds + 1 + extra self.now.separation) self.now.ids tuple.now }
        requires pair { IsPair self.now conflict }
        requires room { 2 ≤ length out.old }
        ensures items { take 2 out.new ≡ not_both self.now tuple.now conflict }
        ensures within { All (λ l. l.variable < variable_count self.now) (take 2 out.new) }
    {
        let here = self.window_at(tuple, 0);
        let there = self.window_at(tuple, conflict.step as usize);
        out[0] = self.literal(here, conflict.first, false);
        out[1] = self.literal(there, conflict.second, false);
    }

    // Returns the number of the window from an offset on in a tuple.
    fn window_at(&self, tuple: &[u32], offset: usize) -> u32
        requires tuple { IsWindow (2 * self.now.rounds + 1 + extra self.now.separation) self.now.ids tuple.now }
        requires offset { offset ≤ extra self.now.separation }
        ensures value { result ≡ window_in self.now tuple.now offset }
        ensures below { result < length (windows_of self.now) }
    {
        let window = self.lists().window_in(tuple, offset);
        self.shape.window_number(self.shape.rounds(), window)
    }

    // Returns the literal that a window has a channel, or that it does not; its variable is one of
    // the formula.
    #[tactic(auto, using(crate::proofs::Numbered::variable_below))]
    fn known_literal(&self, window: u32, channel: u32, is_positive: bool) -> Literal
        requires window { window < length (windows_of self.now) }
        requires channel { channel < self.now.channels }
        ensures value { result ≡ record { variable = variable_of self.now window channel; is_positive = is_positive } }
        ensures known { result.variable < variable_count self.now }
    {
        self.literal(window, channel, is_positive)
    }

    // Returns the literal that a window has a channel, or that it does not.
    #[tactic(auto, using(crate::proofs::Numbered::variable_below))]
    fn literal(&self, window: u32, channel: u32, is_positive: bool) -> Literal
        requires window { window < length (windows_of self.now) }
        requires channel { channel < self.now.channels }
        ensures { result ≡ record { variable = variable_of self.now window channel; is_positive = is_positive } }
    {
        Literal::new(window * self.channels + channel, is_positive)
    }
}

// Returns the number of clauses of the separation and that of all clauses of a formula, or its fault if
// it is not within the limits.
fn clauses_of(
    shape: Shape,
    channels: u32,
    separation: Separation,
    forbidden: &[Pattern],
) -> Result<(u64, u64), FormulaFault>
    ensures ok { IfOk result
        (λ counts. (counts.0 ≡ length (apart_formula (problem_of shape channels separation forbidden.now)))
        × (counts.1 ≡ length (formula (problem_of shape channels separation forbidden.now)))) }
    ensures limits { OnOk result (IsWithinLimits (problem_of shape channels separation forbidden.now)) }
    ensures err { IfErr result (IsFormulaFault (problem_of shape channels separation forbidden.now)) }
{
    let windows = u64::from(shape.count(shape.rounds()));
    if windows * u64::from(channels) > MAX_VARIABLES {
        return Err(FormulaFault::TooManyVariables);
    }
    let tuples = TupleLists { shape, separation }.count();
    let pairs = conflict_count(channels, separation);
    let Some(apart) = clause_count(windows, tuples, pairs) else {
        return Err(FormulaFault::TooManyClauses);
    };
    let rings = tuple_count(shape, forbidden);
    let possible = possible_count(channels, forbidden);
    let Some(clauses) = clause_count(apart, rings, possible) else {
        return Err(FormulaFault::TooManyClauses);
    };
    Ok((apart, clauses))
}

// Returns how many clauses there are with those of each tuple, or `None` if these are over `MAX_CLAUSES`.
fn clause_count(windows: u64, tuples: u64, conflicts: u64) -> Option<u64>
    ensures { MatchOption result (MAX_CLAUSES < windows + tuples * conflicts)
        (λ count. (count ≡ windows + tuples * conflicts) × (count ≤ MAX_CLAUSES)) }
{
    let count = tuples.checked_mul(conflicts)?.checked_add(windows)?;
    if count > MAX_CLAUSES {
        return None;
    }
    Some(count)
}

// Returns the pairs of channels that a formula keeps: those that the separation forbids, or none if
// there are no tuples. So within the limits there are no more pairs than clauses.
fn conflicts_for(
    alloc: Global,
    shape: Shape,
    channels: u32,
    separation: Separation,
) -> Result<Vec<Conflict>, AllocError>
    requires { length (apart_formula (problem_of shape channels separation [])) ≤ MAX_CLAUSES }
    ensures some { 0 < length (tuples_of (problem_of shape channels separation [])) →
        IfOk result (λ pairs. pairs.items ≡ close_in channels separation) }
    ensures none { length (tuples_of (problem_of shape channels separation [])) ≡ 0
        → IfOk result (λ pairs. pairs.items ≡ []) }
{
    let lists = TupleLists { shape, separation };
    if lists.count() == 0 {
        return Ok(Vec::new(alloc));
    }
    conflicts_in(alloc, channels, separation)
}

// Returns the number of patterns that channels below `channels` can match.
fn possible_count(channels: u32, patterns: &[Pattern]) -> u64
    ensures value { result ≡ length (filter (is_below channels) patterns.now) }
    ensures few { result ≤ length patterns.now }
{
    let mut count = 0;
    for pattern in patterns {
        if pattern.is_below(channels) {
            count += 1;
        }
    }
    count
}

// Returns the patterns, and those that channels below `channels` can match.
fn patterns_for(
    alloc: Global,
    channels: u32,
    patterns: &[Pattern],
) -> Result<(Vec<Pattern>, Vec<Pattern>), AllocError>
    ensures { IfOk result (λ both. (both.0.items ≡ patterns.now)
        × (both.1.items ≡ filter (is_below channels) patterns.now)) }
{
    let mut possible = Vec::new(alloc);
    for pattern in patterns {
        if pattern.is_below(channels) {
            possible.push(*pattern)?;
        }
    }
    Ok((patterns.to_vec(alloc)?, possible))
}
