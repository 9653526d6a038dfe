//! Runs the worked example of one call that allocates or starts threads, and prints its result. The
//! word after the program's name selects the example. If the call is refused memory or a thread,
//! the program prints the refusal's name, makes the same call a second time, and continues with
//! that result. So the output shows both that the refusal has a name of its own, and that a refused
//! call does not change its arguments.
//!
//! The program is run while each growth and each thread start of the process is refused in turn.
#![tactic(auto)]

mod blocks;
mod borders;
mod columns;
mod desks;
mod events;
mod findings;
mod language;
mod memos;
mod messages;
mod miss;
mod plans;
mod rounds;
mod rows;
mod segments;
mod tables;
mod tell;
mod texts;
mod words;

use miss::Miss;
use rows::do_row;
use std::alloc::Global;
use std::process::ExitCode;
use std::rt::Env;
use std::sync::Wait;
use std::thread::Threads;
use std::{env, io};
use tell::value_or;

fn main(rt: HostRuntime) -> ExitCode {
    match named_row(&rt) {
        Ok(()) => ExitCode::from(0),
        Err(Miss::NoRow) => ExitCode::from(2),
        Err(miss) => {
            let _ = println!(rt; "{}", miss.name());
            ExitCode::from(0)
        }
    }
}

/// Runs the row that the first word after the program's name names.
fn named_row<R: AllocGlobal + Env + Print + Threads + Wait + Sync>(rt: &R) -> Result<(), Miss> {
    let args: io::Result<env::Args<Global>> = env::args(rt);
    let mut args = value_or(args, Miss::OtherCall)?;
    let _name = args.next();
    match args.next() {
        Some(word) => do_row(rt, &word),
        None => Err(Miss::NoRow),
    }
}
