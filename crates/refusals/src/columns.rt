//! Rows of evaluation in columns.
ghost use Rattle.std.specs.Prelude.{◌≡◌, length, IfOk};
ghost use Rattle.unroll.specs.Room.{HasRoomFor};
ghost use Rattle.unroll.specs.States.{HasSize};

use crate::miss::Miss;
use crate::plans::plan_of;
use crate::tell::{again, tell, tell_numbers, value_or};
use lang_check::Plan;
use node_lang::OutOfMemory;
use test_programs::{CV1, LDB};
use unroll::{Code, Columns, Work, channel_columns, step_columns};

/// `Code::new`, `Columns::new` and `Work::new`: prints the numbers of columns that the expressions
/// of two programs need, then the registers of three nodes after a round of the second program, and
/// their channels.
pub(crate) fn do_columns<R: AllocGlobal + Print>(rt: &R) -> Result<(), Miss> {
    let plan = plan_of(rt.alloc(), LDB)?;
    tell_stack(rt, &plan)?;
    do_three_nodes(rt)
}

// Prints the number of columns that the expressions of a plan need.
fn tell_stack<R: AllocGlobal + Print>(rt: &R, plan: &Plan) -> Result<(), Miss> {
    let code = code_of(rt, plan)?;
    tell_numbers(rt, &[code.stack()]);
    Ok(())
}

// Prints that number for `CV1`, and three nodes after its round.
fn do_three_nodes<R: AllocGlobal + Print>(rt: &R) -> Result<(), Miss> {
    let plan = plan_of(rt.alloc(), CV1)?;
    if plan.shape().rounds() != 1 || plan.program().registers() != 1 {
        return Err(Miss::Wrong);
    }
    tell_three_nodes(rt, &plan)
}

// Prints that number and three nodes after the round of a plan of one register.
fn tell_three_nodes<R: AllocGlobal + Print>(rt: &R, plan: &Plan) -> Result<(), Miss>
    requires rounds { length plan.now.program.steps ≡ 1 }
    requires registers { length plan.now.program.start ≡ 1 }
{
    let code = code_of(rt, plan)?;
    tell_numbers(rt, &[code.stack()]);
    tell_between(rt, &code)
}

// Returns the code of a plan.
fn code_of<'p, R: AllocGlobal + Print>(rt: &R, plan: &'p Plan) -> Result<Code<'p>, Miss>
    ensures { IfOk result (λ code. code ≡ plan.entry.now) }
{
    let answer = again!(rt, Code::new(rt.alloc(), plan), OutOfMemory => "OutOfMemory");
    value_or(answer, Miss::Wrong)
}

// Prints the nodes 5, 1 and 3 between 7, 5 and 1 and 1, 3 and 7 after a round.
fn tell_between<R: AllocGlobal + Print>(rt: &R, code: &Code<'_>) -> Result<(), Miss>
    requires rounds { length code.now.program.steps ≡ 1 }
    requires registers { length code.now.program.start ≡ 1 }
{
    let left = column_of(rt, [7, 5, 1])?;
    let right = column_of(rt, [1, 3, 7])?;
    tell_round(rt, code, &left, &right)
}

// Prints the nodes 5, 1 and 3 after a round between others.
fn tell_round<R: AllocGlobal + Print>(
    rt: &R,
    code: &Code<'_>,
    left: &Columns,
    right: &Columns,
) -> Result<(), Miss>
    requires rounds { length code.now.program.steps ≡ 1 }
    requires registers { length code.now.program.start ≡ 1 }
    requires left { HasSize 3 1 left.now }
    requires right { HasSize 3 1 right.now }
{
    let own = column_of(rt, [5, 1, 3])?;
    let mut work = work_of(rt, code, &own)?;
    tell_after(rt, code, left, &own, right, &mut work)
}

// Prints nodes after a round between others, and their channels.
fn tell_after<R: AllocGlobal + Print>(
    rt: &R,
    code: &Code<'_>,
    left: &Columns,
    own: &Columns,
    right: &Columns,
    work: &mut Work,
) -> Result<(), Miss>
    requires rounds { length code.now.program.steps ≡ 1 }
    requires registers { length code.now.program.start ≡ 1 }
    requires left { HasSize 3 1 left.now }
    requires own { HasSize 3 1 own.now }
    requires right { HasSize 3 1 right.now }
    requires room { HasRoomFor work.old code.now own.now }
{
    let mut out = three_nodes(rt)?;
    step_columns(code, 0, left, own, right, work, &mut out);
    tell_numbers(rt, &[out.get(0, 0), out.get(0, 1), out.get(0, 2)]);
    let mut channels = [0; 3];
    channel_columns(code, &out, work, &mut channels);
    tell_numbers(rt, &channels);
    Ok(())
}

// Returns room for a code at three nodes.
fn work_of<R: AllocGlobal + Print>(rt: &R, code: &Code<'_>, nodes: &Columns) -> Result<Work, Miss>
    requires { HasSize 3 (length code.now.program.start) nodes.now }
    ensures { IfOk result (λ work. HasRoomFor work code.now nodes.now) }
{
    let answer = again!(rt, Work::new(rt.alloc(), code, 3), OutOfMemory => "OutOfMemory");
    value_or(answer, Miss::Wrong)
}

// Returns three nodes of one register, which holds these values.
fn column_of<R: AllocGlobal + Print>(rt: &R, values: [u32; 3]) -> Result<Columns, Miss>
    ensures { IfOk result (HasSize 3 1) }
{
    let mut nodes = three_nodes(rt)?;
    let [first, second, third] = values;
    nodes.set(0, 0, first);
    nodes.set(0, 1, second);
    nodes.set(0, 2, third);
    Ok(nodes)
}

// Returns three nodes of one register.
fn three_nodes<R: AllocGlobal + Print>(rt: &R) -> Result<Columns, Miss>
    ensures { IfOk result (HasSize 3 1) }
{
    let answer = again!(rt, Columns::new(rt.alloc(), 1, 3), OutOfMemory => "OutOfMemory");
    value_or(answer, Miss::Wrong)
}
