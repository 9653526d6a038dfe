//! The rows by their names.
use crate::blocks::do_block_maker;
use crate::borders::{do_border, do_put};
use crate::columns::do_columns;
use crate::desks::do_desk;
use crate::events::do_fill_replay;
use crate::findings::do_findings;
use crate::language::do_parse;
use crate::memos::do_memo;
use crate::messages::do_run;
use crate::miss::Miss;
use crate::rounds::do_plain_run;
use crate::segments::do_ring_replay;
use crate::tables::do_compile;
use crate::texts::{do_read_table, do_write_table};
use crate::words::{do_ring_of, do_task_of, do_words_fault};
use std::sync::Wait;
use std::thread::Threads;
use test_programs::{CV1, RED};

/// A ring of eight places.
const EIGHT: [u32; 8] = [5, 1, 3, 7, 0, 2, 4, 6];

/// A ring of four places.
const FOUR: [u32; 4] = [5, 1, 3, 7];

/// A row, with the numbers of its call.
#[derive(Clone, Copy)]
enum Row {
    Parse,
    PlainRun,
    Columns,
    Memo,
    BlockMaker,
    Desk,
    FillReplay,
    RingReplay,
    WriteTable,
    ReadTable,
    RingOf,
    TaskOf,
    WordsFault,
    Border,
    Put,
    Compile(u32),
    Findings(u32),
    RunOfFour(u32),
    RunOfEight(u32),
}

/// The names of the rows.
const ROWS: [(&str, Row); 26] = [
    ("parse", Row::Parse),
    ("plain_run", Row::PlainRun),
    ("columns", Row::Columns),
    ("memo", Row::Memo),
    ("block_maker", Row::BlockMaker),
    ("desk", Row::Desk),
    ("fill_replay", Row::FillReplay),
    ("ring_replay", Row::RingReplay),
    ("write_table", Row::WriteTable),
    ("read_table", Row::ReadTable),
    ("ring_of", Row::RingOf),
    ("task_of", Row::TaskOf),
    ("words_fault", Row::WordsFault),
    ("border", Row::Border),
    ("put", Row::Put),
    ("compile_1", Row::Compile(1)),
    ("compile_2", Row::Compile(2)),
    ("compile_3", Row::Compile(3)),
    ("findings_1_1", Row::Findings(1)),
    ("findings_2_2", Row::Findings(2)),
    ("run_4_1", Row::RunOfFour(1)),
    ("run_4_2", Row::RunOfFour(2)),
    ("run_4_4", Row::RunOfFour(4)),
    ("run_8_1", Row::RunOfEight(1)),
    ("run_8_3", Row::RunOfEight(3)),
    ("run_8_8", Row::RunOfEight(8)),
];

/// Runs the row with this name.
pub(crate) fn do_row<R: AllocGlobal + Print + Threads + Wait + Sync>(
    rt: &R,
    name: &str,
) -> Result<(), Miss> {
    for (known, row) in &ROWS {
        if *known == name {
            return do_call(rt, *row);
        }
    }
    Err(Miss::NoRow)
}

/// Makes the call of a row.
fn do_call<R: AllocGlobal + Print + Threads + Wait + Sync>(rt: &R, row: Row) -> Result<(), Miss> {
    match row {
        Row::Parse => do_parse(rt),
        Row::PlainRun => do_plain_run(rt),
        Row::Columns => do_columns(rt),
        Row::Memo => do_memo(rt),
        Row::BlockMaker => do_block_maker(rt),
        Row::Desk => do_desk(rt),
        Row::FillReplay => do_fill_replay(rt),
        Row::RingReplay => do_ring_replay(rt),
        Row::WriteTable => do_write_table(rt),
        Row::ReadTable => {
            do_read_table(rt);
            Ok(())
        }
        Row::RingOf => do_ring_of(rt),
        Row::TaskOf => do_task_of(rt),
        Row::WordsFault => do_words_fault(rt),
        Row::Border => do_border(rt),
        Row::Put => do_put(rt),
        Row::Compile(workers) => do_compile(rt, workers),
        Row::Findings(count) => do_findings(rt, count),
        Row::RunOfFour(segments) => do_run(rt, CV1, &FOUR, segments),
        Row::RunOfEight(segments) => do_run(rt, RED, &EIGHT, segments),
    }
}
