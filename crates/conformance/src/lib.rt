//! Worked examples, as tests through the public calls. They stand in one crate, because a crate with
//! tests is proved twice, and each program of tests is linked with all crates below it.
#![tactic(auto)]

#[cfg(test)]
mod blocks;
#[cfg(test)]
mod borders;
#[cfg(test)]
mod columns;
#[cfg(test)]
mod desks;
#[cfg(test)]
mod faults;
#[cfg(test)]
mod filling;
#[cfg(test)]
mod findings;
#[cfg(test)]
mod formulas;
#[cfg(test)]
mod gates;
#[cfg(test)]
mod hold;
#[cfg(test)]
mod judged_parts;
#[cfg(test)]
mod memo;
#[cfg(test)]
mod operations;
#[cfg(test)]
mod plain_runs;
#[cfg(test)]
mod refutations;
#[cfg(test)]
mod ring_gates;
#[cfg(test)]
mod segments;
#[cfg(test)]
mod slow_devices;
#[cfg(test)]
mod slow_inputs;
#[cfg(test)]
mod slow_outputs;
#[cfg(test)]
mod slow_tasks;
#[cfg(test)]
mod windows;
