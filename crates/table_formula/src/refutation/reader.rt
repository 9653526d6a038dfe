//! Reads the lines of a text one after another.
ghost use Rattle.std.specs.Prelude.{◌+◌, ◌^◌, ◌<◌, length};
ghost use Rattle.table_formula.specs.Split.{parts_left};

use crate::limits::LONGEST_REFUTATION;
use crate::literal::Literal;
use crate::refutation::forms::{LineForm, read_line};
use crate::refutation::split::Split;
use std::alloc::{AllocError, Global};

/// The lines of a text that are left, the number of those before, and what the last of these says:
/// its form, its clause, and its hints or deleted numbers.
#[derive(Drop)]
pub(crate) struct Reader<'t> {
    left: Split<'t>,
    count: u64,
    pub(crate) form: LineForm,
    pub(crate) clause: Vec<Literal>,
    pub(crate) numbers: Vec<u64>,
    ghost countable: { count + length (parts_left left) < 2 ^ 64 },
}

impl<'t> Reader<'t> {
    ghost use Rattle.std.specs.Prelude.{◌≡◌, ◌≤◌};
    ghost use Rattle.table_formula.specs.Words.{lines_of};
    ghost use Rattle.table_formula.specs.Reader.{lines_left, lines_read, ReadsNext};

    /// Returns the reader of all lines of a text.
    pub(crate) fn new(alloc: Global, text: &'t [u8]) -> Reader<'t>
        requires { length text.now ≤ LONGEST_REFUTATION }
        ensures left { lines_left result ≡ lines_of text.now }
        ensures read { lines_read result ≡ 0 }
    {
        Reader {
            left: Split::new(text, b'\n'),
            count: 0,
            form: LineForm::Comment,
            clause: Vec::new(alloc),
            numbers: Vec::new(alloc),
        }
    }

    /// Returns the number of lines that were read.
    pub(crate) fn count(&self) -> u64
        ensures { result ≡ lines_read self.now }
    {
        self.count
    }

    /// Reads the next line. Returns whether there is one. If memory is refused, the line is left.
    pub(crate) fn next(&mut self) -> Result<bool, AllocError>
        ensures { ReadsNext self.old self.new result }
    {
        let mut left = self.left;
        let Some(line) = left.next() else {
            return Ok(false);
        };
        self.form = read_line(line, &mut self.clause, &mut self.numbers)?;
        self.left = left;
        self.count += 1;
        Ok(true)
    }
}
