//! Writing the text of a formula.

ghost use Rattle.std.specs.Prelude.{◌≡◌, ◌+◌, ◌≤◌, ◌++◌, ◌∷◌, [], IfOk, drop, false, length, string_bytes};
ghost use Rattle.std.specs.Fmt.{decimal};
ghost use Rattle.devices.specs.declared.chunk.TheConstants.{CHUNK_LEN};
ghost use Rattle.devices.specs.Output.{SendsText, SendsSoFar, WritesText};
ghost use Rattle.devices.specs.Watched.{device_of, has_failed};
ghost use Rattle.table_formula.specs.Formula.{formula as clauses_of, clause_room};
ghost use Rattle.table_formula.specs.Texts.{literal_text, clause_text, clauses_text, head_text};
ghost use Rattle.table_formula.specs.Texts.{formula_text, patterns_line};

use crate::formula::Formula;
use crate::literal::Literal;
use devices::chunk::Chunk;
use devices::fault::{EngineFault, OutFault};
use devices::output::send;
use devices::watched::Watched;
use itoa::{Buffer, write_digits};
use ring_problems::{Pattern, patterns_text};
use std::alloc::{AllocError, Global};
use std::io::Write;

// The maximum length of the text of a literal: a sign, ten digits and a blank.
const LITERAL_LEN: usize = 12;

/// Writes the text of a formula in DIMACS, as a solver reads it: a comment `c forbid` with the forbidden
/// patterns, if there are any, a line `p cnf` with the numbers of variables and of clauses, and a line
/// for each clause, in order. That line has the literals, each
/// as the number of its variable, counted from 1, with a `-` before that of a negation, and a 0.
///
/// Fails with `Write` exactly if a write failed or took no byte; a prefix of the text was then
/// written. Fails with `Memory` if memory was refused; nothing was then written.
pub fn write_formula<W: Write>(
    alloc: Global,
    formula: &Formula,
    writer: &mut Watched<W>,
) -> Result<(), OutFault>
    requires { has_failed writer.old ≡ false }
    ensures { WritesText (formula_text formula.now) (W.contents (device_of writer.old))
        (W.contents (device_of writer.new)) (has_failed writer.new) result }
{
    let comment = patterns_line(alloc, formula.forbidden())?;
    let mut clause = vec![in alloc; Literal::new(0, true); formula.clause_room()]?;
    let mut chunk = Chunk::new(alloc)?;
    push_head(&mut chunk, formula);
    match write_lines(writer, comment.as_bytes(), &mut chunk, &mut clause, formula) {
        Ok(()) => Ok(()),
        Err(_) => Err(OutFault::Write),
    }
}

// Returns a comment with the patterns, or nothing if there are none.
fn patterns_line(alloc: Global, patterns: &[Pattern]) -> Result<String, AllocError>
    ensures { IfOk result (λ text. string_bytes text ≡ patterns_line patterns.now) }
{
    let mut line = String::new(alloc);
    if !patterns.is_empty() {
        line.push_str("c forbid")?;
        line.push_str(&patterns_text(alloc, patterns)?)?;
        line.push_str("\n")?;
    }
    Ok(line)
}

// Writes a comment, the line of the chunk's contents, and the lines of all clauses. `clause` is scratch
// for the longest one.
fn write_lines<W: Write>(
    writer: &mut Watched<W>,
    comment: &[u8],
    chunk: &mut Chunk,
    clause: &mut [Literal],
    formula: &Formula,
) -> Result<(), EngineFault>
    requires working { has_failed writer.old ≡ false }
    requires first { chunk.old ≡ head_text formula.now }
    requires room { clause_room formula.now ≤ length clause.old }
    ensures { SendsText (comment.now ++ clauses_text formula.now) (W.contents (device_of writer.old))
        (W.contents (device_of writer.new)) (has_failed writer.new) result }
{
    send(writer, comment)?;
    write_clauses(writer, chunk, clause, formula)
}

// Appends the first line to an empty chunk.
fn push_head(chunk: &mut Chunk, formula: &Formula)
    requires { chunk.old ≡ [] }
    ensures { chunk.new ≡ head_text formula.now }
{
    chunk.push(b"p cnf ");
    push_number(chunk, u64::from(formula.variables()), b' ');
    push_number(chunk, formula.count(), b'\n');
}

// Appends a number and the byte `end`.
fn push_number(chunk: &mut Chunk, number: u64, end: u8)
    requires { length chunk.old + 64 ≤ CHUNK_LEN }
    ensures text { chunk.new ≡ chunk.old ++ (decimal number ++ end ∷ []) }
    ensures len { length chunk.new ≤ length chunk.old + 41 }
{
    let mut buffer = Buffer::new();
    chunk.push(buffer.format(number).as_bytes());
    chunk.push(&[end]);
}

// Writes the first line, which is the chunk's contents, and the lines of all clauses. `clause` is
// scratch for the longest one.
fn write_clauses<W: Write>(
    writer: &mut Watched<W>,
    chunk: &mut Chunk,
    clause: &mut [Literal],
    formula: &Formula,
) -> Result<(), EngineFault>
    requires working { has_failed writer.old ≡ false }
    requires first { chunk.old ≡ head_text formula.now }
    requires room { clause_room formula.now ≤ length clause.old }
    ensures { SendsText (clauses_text formula.now) (W.contents (device_of writer.old))
        (W.contents (device_of writer.new)) (has_failed writer.new) result }
{
    for index in 0..formula.count() {
        let len = formula.write_clause(index, clause);
        write_clause(writer, chunk, &clause[..len])?;
    }
    chunk.send(writer)
}

// Writes the contents of the chunk and the line of a clause, whose end can be left in the chunk.
fn write_clause<W: Write>(
    writer: &mut Watched<W>,
    chunk: &mut Chunk,
    clause: &[Literal],
) -> Result<(), EngineFault>
    requires { has_failed writer.old ≡ false }
    ensures { SendsSoFar (chunk.old ++ clause_text clause.now) chunk.new (W.contents (device_of writer.old))
        (W.contents (device_of writer.new)) (has_failed writer.new) result }
{
    for l in clause {
        chunk.make_room(LITERAL_LEN, writer)?;
        push_literal(chunk, *l);
    }
    chunk.make_room(2, writer)?;
    chunk.push(b"0\n");
    Ok(())
}

// Appends a literal and a blank.
fn push_literal(chunk: &mut Chunk, l: Literal)
    requires { length chunk.old + LITERAL_LEN ≤ CHUNK_LEN }
    ensures { chunk.new ≡ chunk.old ++ literal_text l }
{
    let mut bytes = [b' '; LITERAL_LEN];
    let start = write_literal(l, &mut bytes);
    chunk.push(&bytes[start..]);
}

// Writes a literal before the last byte, which is a blank, and returns where it starts.
fn write_literal(l: Literal, bytes: &mut [u8; LITERAL_LEN]) -> usize
    requires { drop 11 bytes.old ≡ 32 ∷ [] }
    ensures start { result ≤ LITERAL_LEN }
    ensures text { drop result bytes.new ≡ literal_text l }
{
    let start = write_digits(u64::from(l.variable()) + 1, bytes, LITERAL_LEN - 1);
    if l.is_positive() {
        return start;
    }
    bytes[start - 1] = b'-';
    start - 1
}
