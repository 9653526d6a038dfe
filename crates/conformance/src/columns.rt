//! Tables that are filled by columns, compared with the states of single windows.

use crate::filling::table_by;
use channel_tables::Table;
use lang_check::Plan;
use node_lang::MAX_REGISTERS;
use round_eval::{channel, width_of, window_state};
use std::alloc::Global;
use std::sync::Wait;
use std::thread::Threads;
use test_programs::{CV1, EIGHT_REGISTERS, RED, TWO_REGISTERS, plan_of};
use win_index::MAX_WINDOW_LEN;

/// Returns whether the window with this number has the channel of its state after the rounds.
fn has_its_channel(plan: &Plan, table: &Table, number: u32) -> bool {
    let shape = plan.shape();
    let level = shape.rounds();
    if number >= shape.count(level) {
        return false;
    }
    let mut ids = [0; MAX_WINDOW_LEN];
    let window = &mut ids[..2 * level as usize + 1];
    shape.window(level, number, window);
    let mut cells = [0; MAX_REGISTERS as usize];
    let state = &mut cells[..width_of(plan)];
    window_state(plan, window, state);
    table.channel_at(window) == Some(channel(plan, state))
}

/// Returns how many of the first windows have the channels of their states after the rounds.
fn agreeing(plan: &Plan, table: &Table, windows: u32) -> u32 {
    let mut agreeing = 0u32;
    for number in 0..windows {
        if has_its_channel(plan, table, number) {
            agreeing = agreeing.saturating_add(1);
        }
    }
    agreeing
}

/// Returns that number for the table of a program and eight identifiers, filled by two workers.
fn agreeing_windows<R: Threads + Wait + Sync>(
    rt: &R,
    alloc: Global,
    text: &[u8],
    windows: u32,
) -> Option<u32> {
    let plan = plan_of(alloc, text, 8).ok()?;
    let table = table_by(rt, alloc, &plan, 2)?;
    Some(agreeing(&plan, &table, windows))
}

#[test]
fn tables_have_the_channels_of_single_windows(rt: HostRuntime) {
    let alloc = rt.alloc();
    let found = [
        agreeing_windows(&rt, alloc, CV1, 336),
        agreeing_windows(&rt, alloc, TWO_REGISTERS, 336),
        agreeing_windows(&rt, alloc, EIGHT_REGISTERS, 40_320),
        agreeing_windows(&rt, alloc, RED, 40_320),
    ];
    assert!(rt; found == [Some(336), Some(336), Some(40_320), Some(40_320)]);
}
