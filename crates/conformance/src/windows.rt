//! The numbers of windows, of tuples and of jobs, and the states of windows.

use lang_check::Plan;
use round_eval::window_state;
use std::test::Fail;
use test_programs::{CV1, RED, TWO_REGISTERS, plan_of};
use win_index::{MAX_ROUNDS, Shape};

// Levels of eight identifiers, windows of them, and their numbers.
const WINDOWS: [(u32, &[u32], Option<u32>); 9] = [
    (1, &[0, 1, 2], Some(0)),
    (1, &[6, 0, 5], Some(256)),
    (1, &[7, 5, 1], Some(325)),
    (1, &[7, 6, 5], Some(335)),
    (3, &[5, 1, 3, 7, 0, 2, 4], Some(26_256)),
    (3, &[7, 6, 5, 4, 3, 2, 1], Some(40_319)),
    (1, &[7, 5, 7], None),
    (1, &[7, 5, 8], None),
    (1, &[7, 5], None),
];

// Whether a list of a level has this number, and the window with this number is the list.
fn has_number(shape: Shape, level: u32, list: &[u32], want: Option<u32>) -> bool {
    if level > 3 || level > shape.rounds() {
        return false;
    }
    let number = shape.number(level, list);
    let Some(known) = number else {
        return want == None;
    };
    if known >= shape.count(level) {
        return false;
    }
    let mut cells = [0; 7];
    let window = &mut cells[..2 * level as usize + 1];
    shape.window(level, known, window);
    number == want && *window == *list
}

#[test]
fn windows_of_eight_identifiers(rt: HostRuntime) -> Result<(), Fail> {
    let shape = Shape::new(8, 3).ok().ok_or("a shape")?;
    for (level, list, want) in &WINDOWS {
        assert!(rt; has_number(shape, *level, list, *want));
    }
    Ok(())
}

// Whether the window of a level and a number has these identifiers and this state.
fn has_state(plan: &Plan, level: u32, number: u32, identifiers: &[u32], want: &[u32]) -> bool {
    let shape = plan.shape();
    if level > 3 || level > shape.rounds() || number >= shape.count(level) {
        return false;
    }
    let mut cells = [0; 7];
    let window = &mut cells[..2 * level as usize + 1];
    shape.window(level, number, window);
    let mut registers = [0; 8];
    let state = &mut registers[..plan.program().registers() as usize];
    window_state(plan, window, state);
    *window == *identifiers && *state == *want
}

#[test]
fn windows_have_their_states(rt: HostRuntime) -> Result<(), Fail> {
    let rows: [(&[u8], u32, u32, &[u32], &[u32]); 3] = [
        (CV1, 1, 325, &[7, 5, 1], &[2]),
        (TWO_REGISTERS, 1, 325, &[7, 5, 1], &[0, 12]),
        (RED, 3, 26_256, &[5, 1, 3, 7, 0, 2, 4], &[1]),
    ];
    for (text, level, number, identifiers, want) in rows {
        let plan = plan_of(rt.alloc(), text, 8)?;
        assert!(rt; has_state(&plan, level, number, identifiers, want));
    }
    Ok(())
}

// Numbers of identifiers and of rounds, the numbers of blocks of each level and of all jobs, and a
// job with its level and block.
const JOBS: [(u32, u32, &[u32], u32, u32, (u32, u32)); 4] = [
    (8, 1, &[1, 2], 3, 2, (1, 1)),
    (8, 3, &[1, 2, 27, 158], 188, 3, (2, 0)),
    (8, 3, &[1, 2, 27, 158], 188, 187, (3, 157)),
    (10, 4, &[1, 3, 119, 2363, 14_175], 16_661, 4, (2, 0)),
];

// Whether a shape has these numbers of blocks and of jobs, and the job with this number has this
// level and block.
fn has_jobs(shape: Shape, blocks: &[u32], jobs: u32, number: u32, job: (u32, u32)) -> bool {
    for level in 0..shape.rounds() + 1 {
        if blocks.get(level as usize) != Some(&shape.blocks(level)) {
            return false;
        }
    }
    shape.jobs() == jobs && number < jobs && shape.job(number) == job
}

#[test]
fn jobs_are_in_the_order_of_levels(rt: HostRuntime) -> Result<(), Fail> {
    for (ids, rounds, blocks, jobs, number, job) in &JOBS {
        assert!(rt; *rounds <= MAX_ROUNDS);
        let shape = Shape::new(*ids, *rounds).ok().ok_or("a shape")?;
        assert!(rt; has_jobs(shape, *blocks, *jobs, *number, *job));
    }
    Ok(())
}

// Whether there is a tuple after one of four identifiers; and the next one, or the same if there is
// none, with its number.
fn after(shape: Shape, list: &[u32; 4]) -> Option<(bool, [u32; 4], Option<u64>)> {
    let number = shape.tuple_number(1, list)?;
    if shape.rounds() != 1 || number >= shape.tuples(1) {
        return None;
    }
    let mut tuple = [0; 4];
    shape.tuple(1, number, &mut tuple);
    let moved = shape.after(1, &mut tuple);
    Some((moved, tuple, shape.tuple_number(1, &tuple)))
}

#[test]
fn a_tuple_is_followed_by_the_next(rt: HostRuntime) -> Result<(), Fail> {
    let shape = Shape::new(8, 1).ok().ok_or("a shape")?;
    let found = [after(shape, &[0, 1, 2, 7]), after(shape, &[7, 6, 5, 4])];
    let want = [
        Some((true, [0, 1, 3, 2], Some(5))),
        Some((false, [7, 6, 5, 4], Some(1679))),
    ];
    assert!(rt; found == want);
    Ok(())
}
