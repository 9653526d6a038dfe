//! Rows of compiling a table.
ghost use Rattle.std.specs.Prelude.{◌≡◌};
ghost use Rattle.shared_memo.specs.Passes.{IsPassOf, memo_plan};

use crate::miss::Miss;
use crate::plans::plan_of;
use crate::tell::{again, tell, value_or};
use channel_tables::Table;
use lang_check::Plan;
use round_eval::OpenGate;
use shared_memo::{Memo, Pass};
use std::sync::Wait;
use std::thread::Threads;
use table_fill::{FillFault, compile};
use test_programs::CV1;

/// `compile`: prints the entries of a table that `workers` workers filled. If they were refused,
/// the second call has the same memo and the same pass.
pub(crate) fn do_compile<R: AllocGlobal + Print + Threads + Wait + Sync>(
    rt: &R,
    workers: u32,
) -> Result<(), Miss> {
    let plan = plan_of(rt.alloc(), CV1)?;
    tell_table_of(rt, &plan, workers)
}

// Prints the entries of the table of a plan, with a memo of its own.
fn tell_table_of<R: AllocGlobal + Print + Threads + Wait + Sync>(
    rt: &R,
    plan: &Plan,
    workers: u32,
) -> Result<(), Miss> {
    let memo = value_or(Memo::new(rt.alloc(), plan), Miss::OtherCall)?;
    tell_table_with(rt, plan, &memo, workers)
}

// Prints the entries of the table of a plan, with a pass of a memo.
fn tell_table_with<R: AllocGlobal + Print + Threads + Wait + Sync>(
    rt: &R,
    plan: &Plan,
    memo: &Memo<'_>,
    workers: u32,
) -> Result<(), Miss>
    requires { memo_plan memo.now ≡ plan.now }
{
    let mut pass = value_or(memo.pass(rt.alloc()), Miss::OtherCall)?;
    let table = filled(rt, plan, memo, &mut pass, workers)?;
    tell_entries(rt, &table);
    Ok(())
}

// Returns the table of a plan that `workers` workers filled.
fn filled<'a, R: AllocGlobal + Print + Threads + Wait + Sync>(
    rt: &R,
    plan: &Plan,
    memo: &Memo<'a>,
    pass: &mut Pass<'a>,
    workers: u32,
) -> Result<Table, Miss>
    requires plan { memo_plan memo.now ≡ plan.now }
    requires pass { IsPassOf memo.now pass.old }
{
    let answer = again!(
        rt,
        compile(rt, rt.alloc(), plan, memo, pass, workers, &OpenGate),
        FillFault::OutOfMemory => "OutOfMemory",
        FillFault::NoThread => "NoThread"
    );
    value_or(answer, Miss::Wrong)
}

// Prints the entries of a table, in the order of their windows.
fn tell_entries<R: Print>(rt: &R, table: &Table) {
    let shape = table.shape();
    for number in 0..shape.count(shape.rounds()) {
        let blank = if number == 0 { "" } else { " " };
        let _ = print!(rt; "{blank}{}", table.entry(number));
    }
    let _ = println!(rt);
}
