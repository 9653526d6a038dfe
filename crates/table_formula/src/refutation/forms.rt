//! What a line says.
ghost use Rattle.std.specs.Prelude.{◌≡◌, List, option_map, None, Some, IfOk, if◌then◌else◌};
ghost use Rattle.table_formula.specs.Split.{parts_left};
ghost use Rattle.table_formula.specs.Words as spelled;
ghost use Rattle.table_formula.specs.Lines as said;
ghost use Rattle.table_formula.specs.Lines.{Deletion};
ghost use Rattle.table_formula.specs.Forms.{line_of};
ghost use Rattle.table_formula.specs.declared.literal.Literal.{Literal as Lit};

use crate::formula::exchange::Exchange;
use crate::literal::Literal;
use crate::refutation::numbers_and_literals::{Spelled, is_end, number_in};
use crate::refutation::split::Split;
use std::alloc::AllocError;

/// The form of a line. The clause, and the hints or the deleted numbers, stand beside it.
#[derive(Clone, Copy)]
pub(crate) enum LineForm {
    Malformed,
    Comment,
    Deletion,
    Addition(Option<Exchange>, u64),
}

// The letter that can follow the number of a line: it is a deletion, or an addition after an
// exchange.
#[derive(Clone, Copy)]
pub(crate) enum Letter {
    Deletion,
    Identifiers,
    Channels,
    Mirror,
}

// Returns whether a line is empty or begins with the letter c.
fn is_comment(line: &[u8]) -> bool
    ensures { result ≡ said.is_comment line.now }
{
    match line {
        [] => true,
        [first, ..] => *first == b'c',
    }
}

// Returns the letter that a word is.
fn letter_of(word: &[u8]) -> Option<Letter>
    ensures { result ≡ said.letter_of word.now }
{
    match word {
        [b'd'] => Some(Letter::Deletion),
        [b'i'] => Some(Letter::Identifiers),
        [b'c'] => Some(Letter::Channels),
        [b'm'] => Some(Letter::Mirror),
        _ => None,
    }
}

// Reads the items of a list. Returns whether they are followed by a word that ends the list.
fn read_list<T: Spelled>(words: &mut Split, items: &mut Vec<T>) -> Result<bool, AllocError>
    ensures { IfOk result (λ is_list. said.list_in T.item_in (parts_left words.old)
        ≡ (if is_list then Some (items.new.items, parts_left words.new) else None)) }
{
    items.clear();
    while let Some(word) = words.next() {
        if is_end(word) {
            return Ok(true);
        }
        let Some(item) = T::of_word(word) else {
            return Ok(false);
        };
        items.push(item)?;
    }
    Ok(false)
}

// Reads numbers up to the last word, which ends their list. Returns whether the words are such.
fn read_all_numbers(words: Split, numbers: &mut Vec<u64>) -> Result<bool, AllocError>
    ensures { IfOk result (λ is_list. said.numbers_in (parts_left words.entry)
        ≡ (if is_list then Some numbers.new.items else None)) }
{
    let mut rest = words;
    let is_list = read_list(&mut rest, numbers)?;
    Ok(is_list && rest.next().is_none())
}

/// Reads a line. Returns its form, and writes its clause, and its hints or deleted numbers.
pub(crate) fn read_line(
    line: &[u8],
    clause: &mut Vec<Literal>,
    numbers: &mut Vec<u64>,
) -> Result<LineForm, AllocError>
    ensures { IfOk result (λ form. said.line_in line.now ≡ line_of form clause.new.items numbers.new.items) }
{
    if is_comment(line) {
        return Ok(LineForm::Comment);
    }
    let mut words = Split::new(line, b' ');
    match words.next() {
        Some(word) => read_numbered(number_in(word), words, clause, numbers),
        None => Ok(LineForm::Malformed),
    }
}

// Reads the words after the first, which spells this number.
fn read_numbered(
    number: Option<u64>,
    words: Split,
    clause: &mut Vec<Literal>,
    numbers: &mut Vec<u64>,
) -> Result<LineForm, AllocError>
    ensures { IfOk result (λ form. said.numbered_line number (parts_left words.entry)
        ≡ line_of form clause.new.items numbers.new.items) }
{
    let Some(number) = number else {
        return Ok(LineForm::Malformed);
    };
    let mut rest = words;
    let Some(word) = rest.next() else {
        return Ok(LineForm::Malformed);
    };
    match letter_of(word) {
        Some(letter) => read_lettered(letter, number, rest, clause, numbers),
        None => read_addition(None, number, words, clause, numbers),
    }
}

// Reads the words after a number and this letter.
fn read_lettered(
    letter: Letter,
    number: u64,
    words: Split,
    clause: &mut Vec<Literal>,
    numbers: &mut Vec<u64>,
) -> Result<LineForm, AllocError>
    ensures { IfOk result (λ form. said.lettered_line letter number (parts_left words.entry)
        ≡ line_of form clause.new.items numbers.new.items) }
{
    if matches!(letter, Letter::Deletion) {
        return read_deletion(words, numbers);
    }
    let mut rest = words;
    match exchange_in(letter, &mut rest) {
        Some(exchange) => read_addition(Some(exchange), number, rest, clause, numbers),
        None => Ok(LineForm::Malformed),
    }
}

// Reads the numbers of a deletion.
fn read_deletion(words: Split, numbers: &mut Vec<u64>) -> Result<LineForm, AllocError>
    ensures { IfOk result (λ form. (clause : List Lit)
        → option_map Deletion (said.numbers_in (parts_left words.entry)) ≡ line_of form clause numbers.new.items) }
{
    if read_all_numbers(words, numbers)? {
        Ok(LineForm::Deletion)
    } else {
        Ok(LineForm::Malformed)
    }
}

// Reads the literals and the hints of an addition.
fn read_addition(
    exchange: Option<Exchange>,
    number: u64,
    words: Split,
    clause: &mut Vec<Literal>,
    numbers: &mut Vec<u64>,
) -> Result<LineForm, AllocError>
    ensures { IfOk result (λ form. said.addition_of exchange number
        (said.list_in spelled.literal_in (parts_left words.entry))
        ≡ line_of form clause.new.items numbers.new.items) }
{
    let mut rest = words;
    if read_list(&mut rest, clause)? && read_all_numbers(rest, numbers)? {
        Ok(LineForm::Addition(exchange, number))
    } else {
        Ok(LineForm::Malformed)
    }
}

// Takes the words of an exchange with this letter.
fn exchange_in(letter: Letter, words: &mut Split) -> Option<Exchange>
    ensures { said.exchange_in letter (parts_left words.old)
        ≡ option_map (λ exchange. (exchange, parts_left words.new)) result }
{
    match letter {
        Letter::Deletion => None,
        Letter::Identifiers => {
            let (first, second) = two_numbers(words)?;
            Some(Exchange::Identifiers(first, second))
        }
        Letter::Channels => {
            let (first, second) = two_numbers(words)?;
            Some(Exchange::Channels(first, second))
        }
        Letter::Mirror => Some(Exchange::Mirror),
    }
}

// Takes two words, and returns the numbers that they spell.
fn two_numbers(words: &mut Split) -> Option<(u64, u64)>
    ensures { said.two_numbers (parts_left words.old) ≡ option_map (λ two. (two, parts_left words.new)) result }
{
    let first = words.next()?;
    let second = words.next()?;
    Some((number_in(first)?, number_in(second)?))
}
