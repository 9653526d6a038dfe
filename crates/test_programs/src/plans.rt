//! The plan of a program text.
ghost use Rattle.std.specs.Prelude.{◌≡◌, IfOk};

use lang_check::{Plan, accept};
use node_lang::parse;
use std::alloc::Global;

/// Returns the plan of a program text for this many identifiers. Fails with the name of what it
/// lacks: a program or a plan.
///
/// A text that is refused is parsed a second time, since memory for it could have been refused the
/// first time.
pub fn plan_of(alloc: Global, text: &[u8], ids: u32) -> Result<Plan, &'static str>
    ensures { IfOk result (λ plan. plan.ids ≡ ids) }
{
    let program = match parse(alloc, text) {
        Err(_) => parse(alloc, text),
        parsed => parsed,
    };
    let program = program.ok().ok_or("a program")?;
    accept(program, ids).ok().ok_or("a plan")
}
