//! Rows of the memo.
ghost use Rattle.std.specs.Prelude.{◌≡◌, None, IfOk};
ghost use Rattle.shared_memo.specs.Passes.{IsPassOf, memo_plan};
ghost use Rattle.shared_memo.specs.PlanJobs.{IsKey};
ghost use Rattle.round_eval.specs.Entries.{Entries};

use crate::blocks::tell_states;
use crate::miss::Miss;
use crate::plans::{has_block, plan_of};
use crate::tell::{again, tell, tell_numbers, value_or};
use lang_check::Plan;
use node_lang::OutOfMemory;
use round_eval::{Block, Source};
use shared_memo::{Installed, Memo, Pass, Reader};
use test_programs::{CV1, RED};
use unroll::{MakeFault, make_block};

/// A source without blocks.
#[derive(Drop)]
struct NoBlocks<'s> {
    plan: &'s Plan,
}

impl<'s> Source<'s> for NoBlocks<'s> {
    ghost plan = { λ s. s.plan.now };

    ghost entries = { λ _ _ _. None };

    ghost Fixed = { Entries };

    ghost fixed = { λ _ _ _. None };

    fn block(&mut self, _level: u32, _number: u32) -> Option<&'s Block<'s>> {
        None
    }
}

/// `Memo::new`, `Memo::pass` and `make_block`: prints what becomes of the first block of a plan in
/// two passes, made by 1 and by 2, what both look at then, and what becomes of a block of another
/// plan, made by 3; then the block that is missing for the first block of level 1 without blocks,
/// and the number of states of the second block of that level, with the first of them.
pub(crate) fn do_memo<R: AllocGlobal + Print>(rt: &R) -> Result<(), Miss> {
    let plan = plan_of(rt.alloc(), CV1)?;
    tell_memo_of(rt, &plan)
}

// Prints the row for a plan and that of `RED`.
fn tell_memo_of<R: AllocGlobal + Print>(rt: &R, plan: &Plan) -> Result<(), Miss> {
    let other = plan_of(rt.alloc(), RED)?;
    tell_memo(rt, plan, &other)
}

// Prints the row for two plans.
fn tell_memo<'a, R: AllocGlobal + Print>(
    rt: &R,
    plan: &'a Plan,
    other: &'a Plan,
) -> Result<(), Miss> {
    let memo = memo_of(rt, plan)?;
    tell_first_pass(rt, &memo, other)
}

// Prints the row for a memo and another plan.
fn tell_first_pass<'a, R: AllocGlobal + Print>(
    rt: &R,
    memo: &Memo<'a>,
    other: &'a Plan,
) -> Result<(), Miss> {
    let mut a = pass_of(rt, memo)?;
    tell_both_passes(rt, memo, &mut a, other)
}

// Prints the row for a memo, one of its passes and another plan.
fn tell_both_passes<'a, R: AllocGlobal + Print>(
    rt: &R,
    memo: &Memo<'a>,
    a: &mut Pass<'a>,
    other: &'a Plan,
) -> Result<(), Miss>
    requires { IsPassOf memo.now a.old }
{
    let mut b = pass_of(rt, memo)?;
    tell_installs(rt, memo, a, &mut b, other)?;
    tell_blocks(rt, memo.plan(), &mut Reader::new(memo, &mut b))
}

// Installs a block with each of two passes, looks with both, and installs a block of another plan.
fn tell_installs<'a, R: AllocGlobal + Print>(
    rt: &R,
    memo: &Memo<'a>,
    a: &mut Pass<'a>,
    b: &mut Pass<'a>,
    other: &'a Plan,
) -> Result<(), Miss>
    requires a { IsPassOf memo.now a.old }
    requires b { IsPassOf memo.now b.old }
    ensures { IsPassOf memo.now b.new }
{
    install(rt, memo, a, memo.plan(), 1)?;
    install(rt, memo, b, memo.plan(), 2)?;
    look(rt, memo, a)?;
    look(rt, memo, b)?;
    install(rt, memo, a, other, 3)
}

// Returns a memo of empty cells.
fn memo_of<'a, R: AllocGlobal + Print>(rt: &R, plan: &'a Plan) -> Result<Memo<'a>, Miss> {
    let answer = again!(rt, Memo::new(rt.alloc(), plan), OutOfMemory => "OutOfMemory");
    value_or(answer, Miss::Wrong)
}

// Returns a pass of a memo.
fn pass_of<'a, R: AllocGlobal + Print>(rt: &R, memo: &Memo<'a>) -> Result<Pass<'a>, Miss>
    ensures { IfOk result (IsPassOf memo.now) }
{
    let answer = again!(rt, memo.pass(rt.alloc()), OutOfMemory => "OutOfMemory");
    value_or(answer, Miss::Wrong)
}

// Installs the first block of a plan, made by this maker, and prints the result.
fn install<'a, R: AllocGlobal + Print>(
    rt: &R,
    memo: &Memo<'a>,
    pass: &mut Pass<'a>,
    plan: &'a Plan,
    maker: u32,
) -> Result<(), Miss>
    requires { IsPassOf memo.now pass.old }
    ensures { IsPassOf memo.now pass.new }
{
    let block = first_block(rt, plan, maker)?;
    match memo.install(pass, block) {
        Ok(Installed::Fresh) => tell(rt, "fresh"),
        Ok(Installed::Stood(back)) => tell_maker(rt, "stood", &back),
        Err(back) => tell_maker(rt, "bad block", &back),
    }
    Ok(())
}

// Looks at the first block of a memo's plan, and prints its maker.
fn look<'a, R: Print>(rt: &R, memo: &Memo<'a>, pass: &mut Pass<'a>) -> Result<(), Miss>
    requires { IsPassOf memo.now pass.old }
    ensures { IsPassOf memo.now pass.new }
{
    if !has_block(memo.plan(), 0, 0) {
        return Err(Miss::Wrong);
    }
    match memo.look(pass, 0, 0) {
        Ok(Some(block)) => tell_maker(rt, "found", block),
        _ => return Err(Miss::Wrong),
    }
    Ok(())
}

// Prints a word and a block's maker.
fn tell_maker<R: Print>(rt: &R, word: &str, block: &Block<'_>) {
    let _ = println!(rt; "{word} {}", block.maker());
}

// Returns the first block of level 0 of a plan, made by this maker.
fn first_block<'a, R: AllocGlobal + Print>(
    rt: &R,
    plan: &'a Plan,
    maker: u32,
) -> Result<Box<Block<'a>>, Miss> {
    if !has_block(plan, 0, 0) {
        return Err(Miss::Wrong);
    }
    let block = made(rt, plan, &mut NoBlocks { plan }, (0, 0), maker)?;
    value_or(Box::new(rt.alloc(), block), Miss::OtherCall)
}

// Returns the block of a level and a number, made from the blocks of a source.
fn made<'a, 's, S: Source<'s>, R: AllocGlobal + Print>(
    rt: &R,
    plan: &'a Plan,
    source: &mut S,
    key: (u32, u32),
    maker: u32,
) -> Result<Block<'a>, Miss>
    requires plan { S.plan source.old ≡ plan.now }
    requires key { IsKey plan.now key.0 key.1 }
{
    let alloc = rt.alloc();
    let (level, number) = key;
    let answer = again!(
        rt,
        make_block(alloc, plan, source, level, number, maker),
        MakeFault::OutOfMemory => "OutOfMemory"
    );
    value_or(answer, Miss::Wrong)
}

// Prints the missing block, and the states of the second block of level 1.
fn tell_blocks<R: AllocGlobal + Print>(
    rt: &R,
    plan: &Plan,
    reader: &mut Reader<'_, '_, '_>,
) -> Result<(), Miss>
    requires { reader.old.pass.now.plan.now ≡ plan.now }
{
    if !has_block(plan, 1, 0) || !has_block(plan, 1, 1) {
        return Err(Miss::Wrong);
    }
    tell_missing(rt, plan)?;
    let block = made(rt, plan, reader, (1, 1), 4)?;
    tell_states(rt, &block)
}

// Prints the block that is missing for the first block of level 1, without blocks.
fn tell_missing<R: AllocGlobal + Print>(rt: &R, plan: &Plan) -> Result<(), Miss>
    requires { IsKey plan.now 1 0 }
{
    let mut nothing = NoBlocks { plan };
    let answer = again!(
        rt,
        make_block(rt.alloc(), plan, &mut nothing, 1, 0, 4),
        MakeFault::OutOfMemory => "OutOfMemory"
    );
    match answer {
        Err(MakeFault::Missing(level, number)) => tell_numbers(rt, &[level, number]),
        _ => return Err(Miss::Wrong),
    }
    Ok(())
}
