//! Forbidden thirds as words: the channels that no place may have after two others.
ghost use Rattle.std.specs.Prelude.{◌≡◌, ℕ, ◌+◌, ◌*◌, ◌%◌, ◌<◌, ◌≤◌, IfOk, Some, length, slice_index};
ghost use Rattle.std.specs.Bool.{OnFalse};
ghost use Rattle.ring_problems.specs.Patterns.{Fits, IsForbidden};
ghost use Rattle.nbhd_check.specs.Masks.{HasBit, HasBitsOf};
ghost use Rattle.nbhd_check.specs.PatternBits.{AreBits};

use crate::masks::has_bit;
use node_program::OutOfMemory;
use ring_problems::{Entry, Pattern};
use std::alloc::Global;

/// Returns a word for each two channels modulo 64 below a limit: bit `c % 64` for each channel `c` that
/// is forbidden after them. Word `b` of row `a` is that of `a` and `b`, in rows of 64. Fails if memory
/// was refused.
pub(crate) fn pattern_bits(
    alloc: Global,
    problem: &[Pattern],
    limit: usize,
) -> Result<Vec<u64>, OutOfMemory>
    requires { limit ≤ 64 }
    ensures { IfOk result (λ bits. AreBits problem.now limit bits.items) }
{
    let mut bits = vec![in alloc; 0u64; 64 * 64]?;
    fill_bits(problem, limit, &mut bits);
    Ok(bits)
}

// Writes the words, row by row.
fn fill_bits(problem: &[Pattern], limit: usize, bits: &mut [u64])
    requires limit { limit ≤ 64 }
    requires room { length bits.old ≡ 64 * 64 }
    ensures { AreBits problem.now limit bits.new }
{
    for first in 0..limit {
        fill_row(
            problem,
            limit,
            first,
            &mut bits[64 * first..64 * first + 64],
        );
    }
}

// Writes the words of this first channel.
fn fill_row(problem: &[Pattern], limit: usize, first: usize, row: &mut [u64])
    requires limit { limit ≤ 64 }
    requires first { first < limit }
    requires room { length row.old ≡ 64 }
    ensures room { length row.new ≡ 64 }
    ensures each { (a b c : ℕ) → a % 64 ≡ first → b % 64 < limit → IsForbidden problem.now (Some a) (Some b) (Some c)
        → HasBit (slice_index row.new (b % 64)) c }
{
    for second in 0..limit {
        row[second] = third_bits(problem, first as u32, second as u32);
    }
}

// Returns the bits of the channels that are forbidden after two with these remainders modulo 64.
fn third_bits(problem: &[Pattern], first: u32, second: u32) -> u64
    ensures { (a b c : ℕ) → a % 64 ≡ first → b % 64 ≡ second → IsForbidden problem.now (Some a) (Some b) (Some c)
        → HasBit result c }
{
    let mut bits = 0;
    for pattern in problem {
        bits |= bits_after(*pattern, first, second);
    }
    bits
}

// Returns the bits of the channels that a pattern forbids after two with these remainders.
fn bits_after(pattern: Pattern, first: u32, second: u32) -> u64
    ensures { (a b c : ℕ) → a % 64 ≡ first → b % 64 ≡ second → Fits pattern.first (Some a)
        → Fits pattern.second (Some b)
        → Fits pattern.third (Some c) → HasBit result c }
{
    if may_fit(pattern.first, first) && may_fit(pattern.second, second) {
        bits_of(pattern.third)
    } else {
        0
    }
}

// Returns `false` only if the entry asks for a channel with another remainder modulo 64.
fn may_fit(entry: Entry, remainder: u32) -> bool
    ensures { OnFalse result ((a : ℕ) → a % 64 ≡ remainder → ¬ Fits entry (Some a)) }
{
    match entry {
        Entry::Wildcard => true,
        Entry::Channel(channel) => channel % 64 == remainder,
    }
}

// Returns the bits of the channels that are as this entry says.
fn bits_of(entry: Entry) -> u64
    ensures { (c : ℕ) → Fits entry (Some c) → HasBit result c }
{
    match entry {
        Entry::Wildcard => u64::MAX,
        Entry::Channel(channel) => 1 << (channel % 64),
    }
}

/// Returns the channels that are forbidden after a first one of this set and this second one.
pub(crate) fn thirds_after(bits: &[u64], limit: usize, first: u64, second: u16) -> u64
    requires limit { limit ≤ 64 }
    requires room { length bits.now ≡ 64 * 64 }
    ensures { (a : ℕ) → a % 64 < limit → HasBit first a
        → HasBitsOf result (slice_index bits.now (a % 64 * 64 + second % 64)) }
{
    let mut thirds = 0;
    for channel in 0..limit {
        thirds |= word_if(first, channel, bits[64 * channel + second as usize % 64]);
    }
    thirds
}

// Returns the word if the set has this channel, else 0.
fn word_if(set: u64, channel: usize, word: u64) -> u64
    requires { channel < 64 }
    ensures { (a : ℕ) → a % 64 ≡ channel → HasBit set a → result ≡ word }
{
    if has_bit(set, channel as u16) {
        word
    } else {
        0
    }
}

/// Returns the channels that are forbidden after a first one of this set and each second one modulo 64
/// below the limit.
pub(crate) fn thirds_after_each(bits: &[u64], limit: usize, first: u64) -> [u64; 64]
    requires limit { limit ≤ 64 }
    requires room { length bits.now ≡ 64 * 64 }
    ensures { (a b : ℕ) → a % 64 < limit → b % 64 < limit → HasBit first a
        → HasBitsOf (slice_index result (b % 64)) (slice_index bits.now (a % 64 * 64 + b % 64)) }
{
    let mut thirds = [0; 64];
    for channel in 0..limit {
        let row = &bits[64 * channel..64 * channel + limit];
        unite_if(first, channel, &mut thirds[..limit], row);
    }
    thirds
}

// Adds the bits of each word to those of another, if the set has this channel.
fn unite_if(set: u64, channel: usize, words: &mut [u64], others: &[u64])
    requires channel { channel < 64 }
    requires length { length words.old ≡ length others.now }
    ensures length { length words.new ≡ length words.old }
    ensures old { (i : ℕ) → i < length words.old → HasBitsOf (slice_index words.new i) (slice_index words.old i) }
    ensures other { (a i : ℕ) → a % 64 ≡ channel → HasBit set a → i < length words.old
        → HasBitsOf (slice_index words.new i) (slice_index others.now i) }
{
    if has_bit(set, channel as u16) {
        unite(words, others);
    }
}

// Adds the bits of each word to those of another.
fn unite(words: &mut [u64], others: &[u64])
    requires { length words.old ≡ length others.now }
    ensures length { length words.new ≡ length words.old }
    ensures old { (i : ℕ) → i < length words.old → HasBitsOf (slice_index words.new i) (slice_index words.old i) }
    ensures other { (i : ℕ) → i < length words.old → HasBitsOf (slice_index words.new i) (slice_index others.now i) }
{
    for place in 0..words.len() {
        words[place] |= others[place];
    }
}
