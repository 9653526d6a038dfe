//! The recursion of a run over its segments: each segment beside the segments after it.
ghost use Rattle.std.specs.Prelude.{◌≡◌, ◌+◌, ◌<◌, IsNone, IsSome, IfErr, IfSome, OnOk};
ghost use Rattle.border_exchange.specs.declared.Side.TheVariants.{Leftward};
ghost use Rattle.ring_exec.specs.Borders.{AreBlanksOf};
ghost use Rattle.ring_exec.specs.Courses.{HasEnded, HasNextSegment, HasRefused, HasRefusedNext, HasStarted};
ghost use Rattle.ring_exec.specs.Courses.{HasStartedNext, IsOnCourse};
ghost use Rattle.ring_exec.specs.Seats.{AreSeatsOf};

use crate::border_name::{Blanks, BorderName};
use crate::course::{Course, ended};
use crate::end::{Edge, End, new_border};
use crate::fault::ThreadFault;
use crate::joined::Joined;
use crate::progress::Progress;
use crate::runner::{Runner, SegmentAt, SegmentThread, Shared};
use border_exchange::{Msg, Segment};
use round_eval::Gate;
use std::marker::Brand;
use std::sync::Wait;
use std::thread;
use std::thread::{Scope, Threads};

// Runs all segments from the first one on.
pub(crate) fn run_all<
    'a,
    R: Threads + Wait + Sync,
    G: Gate + Sync,
    L: BorderName + Send + Sync + 'a,
>(course: Course<'a, R, G, L, L>, segments: u32) -> Joined<'a>
    requires some { 0 < segments }
    requires on_course { IsOnCourse course.before course.progress segments }
    ensures { HasEnded course.entry.progress segments result }
{
    thread::scope(
        thread::scope_env(),
        course.shared.rt,
        |scope| -> Joined
            requires some { 0 < segments }
            requires on_course { IsOnCourse course.before course.progress segments }
            ensures { HasEnded course.entry.progress segments result }
        {
            let stage = Stage { scope, course };
            stage.run(segments)
        },
    )
}

// The course of a run within the scope of its threads.
#[derive(Drop)]
struct Stage<'c, 's, 'e, 'a, R, G, B: BorderName, L: BorderName> {
    scope: &'c Scope<'s, &'e ()>,
    course: Course<'a, R, G, B, L>,
}

impl<
    'c,
    's,
    'e,
    'a: 'e,
    R: Threads + Wait + Sync,
    G: Gate + Sync,
    B: BorderName + Send + Sync + 'a,
    L: BorderName + Send + Sync + 'a,
> Stage<'c, 's, 'e, 'a, R, G, B, L> {
    // Runs this many segments, the last ones.
    fn run(self, segments: u32) -> Joined<'a>
        requires some { 0 < segments }
        requires on_course { IsOnCourse self.course.before self.course.progress segments }
        ensures { HasEnded self.entry.course.progress segments result }
    {
        self.after::<Brand>(segments - 1, Blanks::new())
    }

    // Runs on, with this many segments before the last one. Each border has a name of its own, so
    // the inner call has other type parameters, and its proof is written by hand. It is short
    // because `begin` and `finish` have the type parameters, the parameters and the requirements of
    // `after`.
    fn after<N: BorderName + Send + Sync + 'a>(self, count: u32, blanks: Blanks) -> Joined<'a>
        requires blanks { AreBlanksOf blanks N.rightward N.leftward }
        requires on_course { IsOnCourse self.course.before self.course.progress (count + 1) }
        ensures { HasEnded self.entry.course.progress (count + 1) result }
    {
        if count == 0 {
            return self.finish::<N>(count, blanks);
        }
        let next = self.begin::<N>(count, blanks);
        next.after::<Brand>(count - 1, Blanks::new())
    }

    // Makes the next segment's right border and starts the segment, so that `_count` segments are
    // left to start. If one of the two is refused, the run can't go on: the borders before the
    // segment and after the last one are closed.
    fn begin<N: BorderName + Send + Sync + 'a>(
        self,
        _count: u32,
        blanks: Blanks,
    ) -> Stage<'c, 's, 'e, 'a, R, G, N, L>
        requires blanks { AreBlanksOf blanks N.rightward N.leftward }
        requires on_course { IsOnCourse self.course.before self.course.progress (_count + 1) }
        ensures on_course { IsOnCourse result.course.before result.course.progress _count }
        ensures started { HasStarted self.entry.course.progress result.course.progress }
        ensures refused { IsSome self.entry.course.before → IsNone result.course.before
            → HasRefused self.entry.course.progress result.course.progress }
    {
        let Stage { scope, course } = self;
        let Course {
            shared,
            before,
            last,
            mut progress,
        } = course;
        let Some(Edge { end: left, closer }) = before else {
            let course = Course {
                shared,
                before: None,
                last,
                progress,
            };
            return Stage { scope, course };
        };
        let next = match Self::start_next::<N>(scope, shared, &mut progress, left, blanks) {
            Ok(next) => Some(next),
            Err(fault) => {
                closer.close(shared.rt);
                last.end.close(shared.rt);
                progress.joined.blame(fault);
                None
            }
        };
        let course = Course {
            shared,
            before: next,
            last,
            progress,
        };
        Stage { scope, course }
    }

    // Runs the last segment and joins the others.
    fn finish<N: BorderName + Send + Sync + 'a>(self, _count: u32, _blanks: Blanks) -> Joined<'a>
        requires blanks { AreBlanksOf _blanks N.rightward N.leftward }
        requires on_course { IsOnCourse self.course.before self.course.progress (_count + 1) }
        ensures { HasEnded self.entry.course.progress 1 result }
    {
        let Stage { scope: _, course } = self;
        ended(course)
    }

    // Starts the next segment between the border before it and a new one, and returns the other end
    // of the new one. Fails with `NoThread` exactly if it tried to start the segment, and else for
    // want of memory.
    fn start_next<N: BorderName + Send + Sync + 'a>(
        scope: &'c Scope<'s, &'e ()>,
        shared: &'a Shared<'a, R, G>,
        progress: &mut Progress<'a>,
        left: End<Msg<'a>, B>,
        blanks: Blanks,
    ) -> Result<Edge<Msg<'a>, N>, ThreadFault>
        requires blanks { AreBlanksOf blanks N.rightward N.leftward }
        requires seat { left.seat ≡ record { side = Leftward; puts = 0 } }
        requires next { HasNextSegment progress.old }
        ensures started { OnOk result (HasStartedNext progress.old progress.new) }
        ensures refused { IfErr result (HasRefusedNext progress.old progress.new) }
    {
        let Some(segment) = progress.waiting.pop() else {
            unreachable!()
        };
        let (right, next) = new_border::<Msg<'a>, N>(shared.alloc, blanks)?;
        let runner = Runner {
            shared,
            index: progress.index,
            segment,
            left,
            right: right.end,
        };
        progress.keep(Self::start_one(scope, runner))?;
        Ok(next)
    }

    // Starts a thread for a segment, or returns `None` if the start was refused.
    fn start_one<N: BorderName + Send + Sync + 'a>(
        scope: &'c Scope<'s, &'e ()>,
        runner: Runner<'a, Segment<'a>, Msg<'a>, R, G, B, N>,
    ) -> Option<SegmentThread<'a>>
        requires seats { AreSeatsOf runner.segment runner.left.seat runner.right.seat }
        requires index { runner.segment.index ≡ runner.index }
        ensures { IfSome result (λ thread. thread.promise.0 ≡ runner.entry.index) }
    {
        let promise = SegmentAt(runner.index);
        scope.spawn_with(promise, move || runner.run()).ok()
    }
}
