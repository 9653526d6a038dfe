//! The request of a command, from the values of its options.

ghost use Rattle.std.specs.Prelude.{◌≡◌, ◌⊎◌, IfErr, IfOk, IfSome, OnOk, codes};
ghost use Rattle.task_words.specs.Counts.{IsFar, IsNear};
ghost use Rattle.task_words.specs.DemandValues.{IsProblemIn};
ghost use Rattle.task_words.specs.Formats.{HasFormat, format_of};
ghost use Rattle.task_words.specs.Options.{IsBetween, IsCall, IsCallFault, IsGoodCall, IsRequestFault};
ghost use Rattle.task_words.specs.Options.{IsSeparationName, IsTaken, values_of};
ghost use Rattle.task_words.specs.Task.{HasFewPatterns, IsDemandInRange, IsInRange};
ghost use Rattle.task_words.specs.Words.{HasNumber, HasRing, IsDemandFor, IsDemandName, IsRingBad};
ghost use Rattle.task_words.specs.Words.{IsRingName, IsTaskFor};
ghost use Rattle.task_words.specs.WordsFault.{FailsBy, IsFormatRefusal, IsUnknownFormat};

use crate::demands::problem_of;
use crate::format::{Format, format_named};
use crate::option_rows::{
    BASE, CHANNELS, FAR, FORMAT, IDS, NEAR, OptionRow, PLACE, RING, ROUNDS, SEGMENTS, WORKERS,
};
use crate::request::Request;
use crate::ring_text::ring_of;
use crate::task::Task;
use crate::words::WordsFault;
use channel_tables::Separation;
use clap::ArgMatches;
use numerals::Base;
use ring_problems::{Demand, Problem};
use std::alloc::Global;

// A call of a command: its name, and the values of its options.
#[derive(Clone, Copy)]
pub(crate) struct Call<'a, 'w> {
    pub(crate) name: &'a str,
    pub(crate) options: &'a ArgMatches<'w>,
}

// Returns the fault of words with this value of `--format`, which is the name of no form: as that of
// `clap` on such a value.
fn unknown_format(alloc: Global, name: &str) -> WordsFault
    ensures { IsUnknownFormat name.now result }
{
    let text = format!(in alloc;
        "error: invalid value '{name}' for '--format <FORMAT>'\n  [possible values: lines, json]\n\nFor more information, try '--help'.\n"
    );
    match text {
        Ok(text) => WordsFault::Usage(text),
        Err(_) => WordsFault::OutOfMemory,
    }
}

impl Call<'_, '_> {
    // Returns the request of the call: its task, and the form of its report. Fails with `Usage` if the
    // value of `--format` is the name of no form, with `BadRing` if that of `--ring` is not a ring text,
    // and with `BadDemand` if the command demands something, but the values of its options are no demand.
    pub(crate) fn request(&self, alloc: Global) -> Result<Request, WordsFault>
        requires { IsCall self.now }
        ensures task { IfOk result (λ request. IsTaskFor self.now.name.now (values_of self.now) request.task) }
        ensures range { IfOk result (λ request. IsInRange request.task) }
        ensures format { IfOk result (λ request. HasFormat (values_of self.now) request.format) }
        ensures good { OnOk result (IsGoodCall self.now.name.now (values_of self.now)) }
        ensures refused { IfErr result (IsRequestFault self.now.name.now (values_of self.now)) }
    {
        match self.format(alloc) {
            Ok(format) => match self.task(alloc) {
                Ok(task) => Ok(Request { task, format }),
                Err(fault) => Err(fault),
            },
            Err(fault) => Err(fault),
        }
    }

    // Returns the form of the report, by default lines. Fails with `Usage` if `--format` names no form.
    fn format(&self, alloc: Global) -> Result<Format, WordsFault>
        ensures format { IfOk result (HasFormat (values_of self.now)) }
        ensures refused { IfErr result (IsFormatRefusal (format_of (values_of self.now))) }
    {
        let Some(name) = self.options.get_str(FORMAT.name) else {
            return Ok(Format::Lines);
        };
        match format_named(name) {
            Some(format) => Ok(format),
            None => Err(unknown_format(alloc, name)),
        }
    }

    // Returns the task of the call. Fails with `BadRing` if the value of `--ring` is not a ring text,
    // and with `BadDemand` if the command demands something, but the values of its options are no demand.
    fn task(&self, alloc: Global) -> Result<Task, WordsFault>
        requires { IsCall self.now }
        ensures task { IfOk result (IsTaskFor self.now.name.now (values_of self.now)) }
        ensures range { IfOk result IsInRange }
        ensures good { OnOk result (IsGoodCall self.now.name.now (values_of self.now)) }
        ensures refused { IfErr result (IsCallFault self.now.name.now (values_of self.now)) }
    {
        match self.name {
            "run" | "trace" | "explain" | "plan" | "apply" => self.task_on_ring(alloc),
            "judge" | "audit" | "formula" | "refute" => self.task_with_demand(alloc),
            "check" => Ok(Task::Check {
                ids: self.number(&IDS),
            }),
            "print" => Ok(Task::Print),
            "migrate" => Ok(Task::Migrate),
            "table" => Ok(Task::Table {
                ids: self.number(&IDS),
                workers: self.number(&WORKERS),
                near: self.number(&NEAR),
                far: self.number(&FAR),
            }),
            _ => unreachable!(),
        }
    }

    // Returns the task of a command with a demand. Fails with `BadDemand` if its options are no demand.
    fn task_with_demand(&self, alloc: Global) -> Result<Task, WordsFault>
        requires given { IsCall self.now }
        requires named { IsDemandName self.now.name.now }
        ensures task { IfOk result (IsTaskFor self.now.name.now (values_of self.now)) }
        ensures range { IfOk result IsInRange }
        ensures good { OnOk result (IsGoodCall self.now.name.now (values_of self.now)) }
        ensures refused { IfErr result (IsCallFault self.now.name.now (values_of self.now)) }
    {
        let problem = problem_of(alloc, self.options)?;
        match self.name {
            "judge" => Ok(Task::Judge {
                ids: self.number(&IDS),
                workers: self.number(&WORKERS),
                demand: self.demand(problem),
            }),
            "audit" => Ok(Task::Audit { problem }),
            "formula" => Ok(Task::Formula {
                ids: self.number(&IDS),
                rounds: self.number(&ROUNDS),
                channels: self.number(&CHANNELS),
                demand: self.demand(problem),
            }),
            _ => Ok(Task::Refute {
                ids: self.number(&IDS),
                rounds: self.number(&ROUNDS),
                channels: self.number(&CHANNELS),
                demand: self.demand(problem),
            }),
        }
    }

    // Returns the demand of this problem, or without one that of `--near` and `--far`.
    fn demand(&self, problem: Option<Problem>) -> Demand
        requires given { IsCall self.now }
        requires named { IsSeparationName self.now.name.now }
        requires problem { IsProblemIn (values_of self.now) problem }
        requires few { IfSome problem HasFewPatterns }
        ensures demand { IsDemandFor (values_of self.now) result }
        ensures range { IsDemandInRange result }
    {
        match problem {
            Some(problem) => Demand::Solve(problem),
            None => Demand::Apart(Separation {
                near: self.number(&NEAR),
                far: self.number(&FAR),
            }),
        }
    }

    // Returns the task of a command on a ring. Fails with `BadRing` if `--ring` has no ring text.
    fn task_on_ring(&self, alloc: Global) -> Result<Task, WordsFault>
        requires given { IsCall self.now }
        requires on_ring { IsRingName self.now.name.now }
        ensures task { IfOk result (IsTaskFor self.now.name.now (values_of self.now)) }
        ensures range { IfOk result IsInRange }
        ensures good { OnOk result (IsGoodCall self.now.name.now (values_of self.now)) }
        ensures refused { IfErr result (IsCallFault self.now.name.now (values_of self.now)) }
    {
        let ring = match self.ring(alloc) {
            Ok(ring) => ring,
            Err(fault) => return Err(fault),
        };
        match self.name {
            "run" => Ok(Task::Run {
                ids: self.number(&IDS),
                ring,
                segments: self.number(&SEGMENTS),
            }),
            "plan" => Ok(Task::Plan {
                ids: self.number(&IDS),
                ring,
                workers: self.number(&WORKERS),
            }),
            "trace" => Ok(Task::Trace {
                ids: self.number(&IDS),
                ring,
                base: Base::of(self.number(&BASE)),
            }),
            "explain" => Ok(Task::Explain {
                ids: self.number(&IDS),
                ring,
                place: self.number(&PLACE),
                base: Base::of(self.number(&BASE)),
            }),
            _ => Ok(Task::Apply { ring }),
        }
    }

    // Returns the number that is the value of this option.
    fn number(&self, option: &OptionRow) -> u32
        requires given { IsCall self.now }
        requires taken { IsTaken option.now self.now.name.now }
        ensures number { HasNumber (values_of self.now) option.now.name.now result }
        ensures range { IsBetween option.now.values result }
    {
        let Some(number) = self.options.get_one::<u32>(option.name) else {
            unreachable!()
        };
        number
    }

    // Returns the identifiers of the ring's places. Fails with `BadRing` if `--ring` has no ring text.
    fn ring(&self, alloc: Global) -> Result<Vec<u32>, WordsFault>
        requires given { IsCall self.now }
        requires on_ring { IsRingName self.now.name.now }
        ensures ring { IfOk result (λ ring. HasRing (values_of self.now) ring.items) }
        ensures good { OnOk result (¬ IsRingBad (values_of self.now)) }
        ensures refused { FailsBy result (IsRingBad (values_of self.now)) }
    {
        let Some(text) = self.options.get_str(RING.name) else {
            unreachable!()
        };
        ring_of(alloc, text)
    }
}
