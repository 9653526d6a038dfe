//! A memo of blocks, by its public calls.
ghost use Rattle.std.specs.Prelude.{◌≡◌};
ghost use Rattle.shared_memo.specs.Passes.{IsPassOf};

use crate::blocks::first_block;
use lang_check::Plan;
use round_eval::Source;
use shared_memo::{Memo, Pass, Reader};
use std::alloc::Global;
use std::test::Fail;
use std::thread;
use std::thread::Threads;
use test_programs::{CV1, plan_of};

/// Returns the maker of the block in the cell of a job, or `None` if the cell is empty or there is
/// no such job.
pub fn maker_of<'a>(memo: &Memo<'a>, pass: &mut Pass<'a>, job: u32) -> Option<u32>
    requires { IsPassOf memo.now pass.old }
    ensures { IsPassOf memo.now pass.new }
{
    let shape = memo.plan().shape();
    if job >= shape.jobs() {
        return None;
    }
    let (level, number) = shape.job(job);
    match memo.look(pass, level, number) {
        Ok(Some(block)) => Some(block.maker()),
        _ => None,
    }
}

/// Hands in the first block of a memo's plan, made by this maker. Returns whether it was handed in.
fn hand_in<'a>(alloc: Global, memo: &Memo<'a>, pass: &mut Pass<'a>, maker: u32) -> Option<bool>
    requires { IsPassOf memo.now pass.old }
    ensures { IsPassOf memo.now pass.new }
{
    let block = Box::new(alloc, first_block(alloc, memo.plan(), maker)?).ok()?;
    Some(memo.install(pass, block).is_ok())
}

/// Hands in the first block, and returns the maker of the block that the cell has then.
fn install_and_look(alloc: Global, memo: &Memo<'_>, maker: u32) -> Option<u32> {
    let mut pass = memo.pass(alloc).ok()?;
    let _ = hand_in(alloc, memo, &mut pass, maker)?;
    maker_of(memo, &mut pass, 0)
}

/// Returns the makers of the block that two threads see, each of which hands in one of its own.
fn makers_of_two<R: Threads + Sync>(
    rt: &R,
    alloc: Global,
    plan: &Plan,
) -> Option<(Option<u32>, Option<u32>)> {
    let memo = Memo::new(alloc, plan).ok()?;
    let lent = &memo;
    Some(thread::join(
        rt,
        || install_and_look(alloc, lent, 1),
        || install_and_look(alloc, lent, 2),
    ))
}

#[test]
fn two_threads_see_one_block(rt: HostRuntime) -> Result<(), Fail> {
    let plan = plan_of(rt.alloc(), CV1, 8)?;
    let makers = makers_of_two(&rt, rt.alloc(), &plan);
    let both = |maker| Some((Some(maker), Some(maker)));
    assert!(rt; makers == both(1) || makers == both(2));
    Ok(())
}

/// Returns whether a reader finds the first block through this pass.
fn finds_first<'a>(memo: &Memo<'a>, pass: &mut Pass<'a>) -> bool
    requires { IsPassOf memo.now pass.old }
{
    if memo.plan().shape().blocks(0) == 0 {
        return false;
    }
    Reader::new(memo, pass).block(0, 0).is_some()
}

/// Returns whether the first block is there before one is installed, and whether readers with the
/// same pass and with another one find it then.
fn found_by_two(alloc: Global, memo: &Memo<'_>) -> Option<[bool; 3]> {
    let mut a = memo.pass(alloc).ok()?;
    let mut b = memo.pass(alloc).ok()?;
    let before = maker_of(memo, &mut a, 0).is_some();
    let _ = hand_in(alloc, memo, &mut a, 1)?;
    Some([before, finds_first(memo, &mut a), finds_first(memo, &mut b)])
}

/// Returns the same with a memo of its own.
fn found_in_memo(alloc: Global, plan: &Plan) -> Option<[bool; 3]> {
    let memo = Memo::new(alloc, plan).ok()?;
    found_by_two(alloc, &memo)
}

#[test]
fn a_reader_finds_what_another_pass_installed(rt: HostRuntime) -> Result<(), Fail> {
    let plan = plan_of(rt.alloc(), CV1, 8)?;
    assert!(rt; found_in_memo(rt.alloc(), &plan) == Some([false, true, true]));
    Ok(())
}
