//! The course of a run: the segments that run, and those that are still to start.
ghost use Rattle.std.specs.Prelude.{◌≡◌, ◌≢◌, ◌+◌, ◌≤◌, None, Some, IsNone, IsSome, vec_len, vec_capacity};
ghost use Rattle.ring_exec.specs.Courses.{HasEnded, HasNextSegment};
ghost use Rattle.ring_exec.specs.Outcomes.{AreInOrder, HasMore};
ghost use Rattle.ring_exec.specs.declared.fault.ThreadFault.TheVariants.{NoThread};

use crate::border_name::BorderName;
use crate::end::{Edge, RightEnd};
use crate::joined::Joined;
use crate::progress::Progress;
use crate::runner::{Runner, SegmentThread, Shared};
use border_exchange::Msg;
use round_eval::Gate;
use std::sync::Wait;
use std::thread::Threads;

// A run that has reached one of its segments: the end of the border before it, unless the run can't
// go on; the end of the last segment's border; and its segments and threads.
#[derive(Drop)]
pub(crate) struct Course<'a, R, G, B: BorderName, L: BorderName> {
    pub(crate) shared: &'a Shared<'a, R, G>,
    pub(crate) before: Option<Edge<Msg<'a>, B>>,
    pub(crate) last: RightEnd<Msg<'a>, L>,
    pub(crate) progress: Progress<'a>,
}

// Runs the last segment on this thread, if the run went on so far, and joins the threads of the
// others.
pub(crate) fn ended<'a, R: Threads + Wait, G: Gate, B: BorderName, L: BorderName>(
    course: Course<'a, R, G, B, L>,
) -> Joined<'a>
    requires next { IsSome course.before → HasNextSegment course.progress }
    requires stopped { IsNone course.before → course.progress.joined.fault ≢ None }
    ensures all { HasEnded course.entry.progress 1 result }
    ensures no_thread { result.fault ≡ Some NoThread → course.entry.progress.joined.fault ≡ Some NoThread }
{
    let Course {
        shared,
        before,
        last,
        progress,
    } = course;
    let Progress {
        index,
        mut waiting,
        threads,
        mut joined,
    } = progress;
    let Some(edge) = before else {
        return join_all(shared.rt, threads, joined);
    };
    let Some(segment) = waiting.pop() else {
        unreachable!()
    };
    let runner = Runner {
        shared,
        index,
        segment,
        left: edge.end,
        right: last.end,
    };
    joined.add(runner.run());
    join_all(shared.rt, threads, joined)
}

// Joins the threads that were started, the last one first, and adds their outcomes.
fn join_all<'a, R: Threads + Wait>(
    rt: &R,
    mut threads: Vec<SegmentThread<'a>>,
    mut joined: Joined<'a>,
) -> Joined<'a>
    requires in_order { AreInOrder (λ thread. thread.promise.0) threads.items }
    requires room { vec_len joined.segments + vec_len threads ≤ vec_capacity joined.segments }
    ensures all { HasMore joined.entry (vec_len threads.entry) result }
    ensures no_thread { result.fault ≡ Some NoThread → joined.entry.fault ≡ Some NoThread }
{
    while let Some(thread) = threads.pop() {
        joined.add(thread.join(rt));
    }
    joined
}
