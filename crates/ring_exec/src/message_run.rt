//! The run of a ring by messages, a thread for each segment.
ghost use Rattle.std.specs.Prelude.{◌≡◌, ◌+◌, ◌-◌, ◌<◌, ◌↔◌, ℕ, [], None, IfOk, OnOk, IfErr, IfSome, IsErrOf, length};
ghost use Rattle.std.specs.Prelude.{vec_len, slice_get};
ghost use Rattle.node_program.specs.GlobalRounds.{channels_of};
ghost use Rattle.ring_exec.specs.Borders.{AreBlanksOf};
ghost use Rattle.ring_exec.specs.Courses.{AreWaiting};
ghost use Rattle.ring_exec.specs.Outcomes.{AreFalling};
ghost use Rattle.ring_exec.specs.RunNeeds.{CanRun};
ghost use Rattle.border_exchange.specs.SegmentCounts.{IsSegmentCount};
ghost use Rattle.round_eval.specs.Shapes.{IsOfShape};

use crate::border_name::{Blanks, BorderName};
use crate::course::{Course, ended};
use crate::end::new_border;
use crate::fault::{RunFault, ThreadFault};
use crate::gathering::gather;
use crate::joined::Joined;
use crate::progress::Progress;
use crate::relay::run_all;
use crate::runner::Shared;
use border_exchange::{MAX_SEGMENTS, Msg, Segment};
use lang_check::Plan;
use node_program::OutOfMemory;
use round_eval::Gate;
use std::alloc::Global;
use std::marker::Brand;
use std::sync::Wait;
use std::thread::Threads;
use win_index::Ring;

/// Runs all rounds of a plan on a ring by messages, and returns the channels in the order of the
/// places. The ring is cut into segments, each runs on a thread of its own, the last one on the
/// caller's, and neighbours exchange messages at borders. The gate is called for each round of each
/// segment, before the segment sends. The ring must have the plan's shape.
///
/// Fails with `SegmentsOutOfRange` exactly if the number of segments is not 1 to `MAX_SEGMENTS` or
/// is above the number of places, which is checked first; then with `NoThread` if the start of a
/// thread was refused, which a single segment does not need; else with the fault of the lowest
/// segment that has one. All threads have ended before the call returns.
pub fn run<'a, R: Threads + Wait + Sync, G: Gate + Sync>(
    rt: &'a R,
    alloc: Global,
    plan: &'a Plan,
    ring: &'a Ring,
    segments: u32,
    gate: &'a G,
) -> Result<Vec<u32>, RunFault>
    requires shape { IsOfShape ring.now plan.now }
    ensures channels { IfOk result (λ channels. channels.items ≡ channels_of plan.now.program ring.now.places) }
    ensures in_range { OnOk result (IsSegmentCount segments (length ring.now.places)) }
    ensures out_of_range { IfErr result (λ fault. (fault ≡ RunFault.SegmentsOutOfRange)
        ↔ (¬ IsSegmentCount segments (length ring.now.places))) }
    ensures alone { IsErrOf result RunFault.NoThread → 1 < segments }
{
    if segments == 0 || segments > MAX_SEGMENTS || segments > ring.len() {
        return Err(RunFault::SegmentsOutOfRange);
    }
    let shared = Shared { rt, alloc, gate };
    let channels = run_named::<R, G, Brand>(&shared, plan, ring, segments, Blanks::new())?;
    Ok(channels)
}

// Runs with the name L for the last border.
fn run_named<'a, R: Threads + Wait + Sync, G: Gate + Sync, L: BorderName + Send + Sync + 'a>(
    shared: &'a Shared<'a, R, G>,
    plan: &'a Plan,
    ring: &'a Ring,
    segments: u32,
    blanks: Blanks,
) -> Result<Vec<u32>, ThreadFault>
    requires run { CanRun plan.now ring.now segments }
    requires blanks { AreBlanksOf blanks L.rightward L.leftward }
    ensures channels { IfOk result (λ channels. channels.items ≡ channels_of plan.now.program ring.now.places) }
    ensures alone { IfErr result (λ fault. fault ≡ ThreadFault.NoThread → 1 < segments) }
{
    let mut channels = vec![in shared.alloc; 0; ring.len() as usize]?;
    let found = run_segments::<R, G, L>(shared, plan, ring, segments, blanks)?;
    gather(plan, ring, segments, found, &mut channels)?;
    Ok(channels)
}

// Runs the segments, and returns those that ended, with the first one last. That they are those of
// the plan and the ring is checked later. All memory is allocated before the first thread starts. A
// single segment runs on this thread, and none is started.
fn run_segments<'a, R: Threads + Wait + Sync, G: Gate + Sync, L: BorderName + Send + Sync + 'a>(
    shared: &'a Shared<'a, R, G>,
    plan: &'a Plan,
    ring: &'a Ring,
    segments: u32,
    blanks: Blanks,
) -> Result<Vec<Segment<'a>>, ThreadFault>
    requires run { CanRun plan.now ring.now segments }
    requires blanks { AreBlanksOf blanks L.rightward L.leftward }
    ensures all { IfOk result (λ found. (vec_len found ≡ segments) × AreFalling found.items) }
    ensures alone { IfErr result (λ fault. fault ≡ ThreadFault.NoThread → 1 < segments) }
{
    let progress = no_progress(shared.alloc, plan, ring, segments)?;
    let (last, before) = new_border::<Msg<'a>, L>(shared.alloc, blanks)?;
    let course = Course {
        shared,
        before: Some(before),
        last,
        progress,
    };
    let joined = if segments == 1 {
        ended(course)
    } else {
        run_all(course, segments)
    };
    joined.into_segments()
}

// Returns a run before its first segment has started, with room for its threads and their outcomes.
fn no_progress<'a>(
    alloc: Global,
    plan: &'a Plan,
    ring: &'a Ring,
    segments: u32,
) -> Result<Progress<'a>, OutOfMemory>
    requires { CanRun plan.now ring.now segments }
    ensures no_fault { IfOk result (λ progress. progress.joined.fault ≡ None) }
    ensures first { IfOk result (λ progress. (progress.index ≡ 0) × (vec_len progress.threads ≡ 0)
        × (progress.joined.segments.items ≡ [])) }
    ensures waiting { IfOk result (λ progress. vec_len progress.waiting ≡ segments) }
    ensures next { IfOk result
        (λ progress. AreWaiting progress.index (vec_len progress.threads) progress.waiting.items) }
{
    let waiting = waiting_segments(alloc, plan, ring, segments)?;
    let threads = Vec::with_capacity(alloc, segments as usize)?;
    let ended = Vec::with_capacity(alloc, segments as usize)?;
    Ok(Progress {
        index: 0,
        waiting,
        threads,
        joined: Joined::new(ended),
    })
}

// Returns the segments of a run before their first round, with the first one last.
fn waiting_segments<'a>(
    alloc: Global,
    plan: &'a Plan,
    ring: &'a Ring,
    segments: u32,
) -> Result<Vec<Segment<'a>>, OutOfMemory>
    requires { CanRun plan.now ring.now segments }
    ensures count { IfOk result (λ waiting. vec_len waiting ≡ segments) }
    ensures opening { IfOk result (λ waiting. (i : ℕ) → IfSome (slice_get waiting.items i)
        (λ s. s ≡ record {
          plan = plan.now;
          ring = ring.now;
          segments = segments;
          index = segments - 1 - i;
          round = 0;
        })) }
{
    let Ok(mut waiting) = Vec::with_capacity(alloc, segments as usize) else {
        return Err(OutOfMemory);
    };
    for started in 0..segments {
        let segment = Segment::new(alloc, plan, ring, segments, segments - 1 - started)?;
        if waiting.push(segment).is_err() {
            return Err(OutOfMemory);
        }
    }
    Ok(waiting)
}
