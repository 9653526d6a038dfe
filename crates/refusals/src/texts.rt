//! Rows of writing a table.
ghost use Rattle.std.specs.Prelude.{◌≡◌, [], length, IfOk};
ghost use Rattle.channel_tables.specs.Tables.{windows_of};

use crate::miss::Miss;
use crate::tell::{again, tell, tell_numbers, value_or};
use channel_tables::{Table, TableMaker};
use devices::fault::OutFault;
use devices::watched::Watched;
use nbhd_check::Separation;
use node_lang::OutOfMemory;
use std::io;
use table_text::{TableFault, read_table, write_table};
use win_index::Shape;

/// The text of the table of two identifiers that gives each itself as its channel.
const TABLE: &[u8] = b"nbhd-table 2\nrounds 0 ids 2 channels 2 near 2 far 1\n0 : 0\n1 : 1\nend\n";

/// A text of version 1 with its third and its fourth line exchanged.
const EXCHANGED: &[u8] = b"nbhd-table 1\nrounds 0 ids 2 channels 2\n1 : 1\n0 : 0\nend\n";

/// A text of version 1 with a channel of 2.
const OVER: &[u8] = b"nbhd-table 1\nrounds 0 ids 2 channels 2\n0 : 0\n1 : 2\nend\n";

/// `TableMaker::new` and `write_table`: prints the text of the table of two identifiers that gives
/// each itself as its channel.
pub(crate) fn do_write_table<R: AllocGlobal + Print>(rt: &R) -> Result<(), Miss> {
    let mut maker = maker_of(rt)?;
    maker.push(0);
    maker.push(1);
    let table = maker.done();
    let answer = again!(rt, write(rt, &table), OutFault::Memory => "OutOfMemory");
    value_or(answer, Miss::Wrong)
}

// Returns a table of two windows and two channels, without entries.
fn maker_of<R: AllocGlobal + Print>(rt: &R) -> Result<TableMaker, Miss>
    ensures windows { IfOk result (λ maker. length (windows_of maker) ≡ 2) }
    ensures channels { IfOk result (λ maker. maker.channels ≡ 2) }
    ensures empty { IfOk result (λ maker. maker.entries ≡ []) }
{
    let shape = Shape::new(2, 0).ok().ok_or(Miss::Wrong)?;
    if shape.rounds() != 0 || shape.count(0) != 2 {
        return Err(Miss::Wrong);
    }
    let answer = again!(rt, TableMaker::new(rt.alloc(), shape, 2), OutOfMemory => "OutOfMemory");
    value_or(answer, Miss::Wrong)
}

// Writes the text of a table whose neighbours' channels have to differ.
fn write<R: AllocGlobal + Print>(rt: &R, table: &Table) -> Result<(), OutFault> {
    let separation = Separation { near: 1, far: 0 };
    let mut writer = Watched::new(io::writer(rt));
    write_table(rt.alloc(), table, separation, &mut writer)
}

/// `read_table`: prints the numbers of rounds, identifiers and channels and the entries of the
/// table of a text, near and far, and the faults of three other texts.
pub(crate) fn do_read_table<R: AllocGlobal + Print>(rt: &R) {
    for text in [TABLE, EXCHANGED, OVER, &TABLE[..66]] {
        tell_read(rt, text);
    }
}

// Prints the table and the separation of a text, or its fault. Reads the text a second time if
// memory was refused.
fn tell_read<R: AllocGlobal + Print>(rt: &R, text: &[u8]) {
    let answer = again!(
        rt,
        read_table(rt.alloc(), text),
        TableFault::OutOfMemory => "OutOfMemory"
    );
    match answer {
        Ok((table, separation)) => {
            tell_table(rt, &table);
            tell_numbers(rt, &[separation.near, separation.far]);
        }
        Err(fault) => {
            let _ = println!(rt; "{fault:?}");
        }
    }
}

// Prints the numbers of rounds, identifiers and channels of a table, and its entries.
fn tell_table<R: Print>(rt: &R, table: &Table) {
    let shape = table.shape();
    tell_numbers(rt, &[shape.rounds(), shape.ids(), table.channels()]);
    for number in 0..shape.count(shape.rounds()) {
        tell_numbers(rt, &[table.entry(number)]);
    }
}
