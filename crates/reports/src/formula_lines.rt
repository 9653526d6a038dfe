//! The line of a formula that is refuted. A call fails only if memory was refused.

ghost use Rattle.std.specs.Prelude.{◌≡◌, IfOk, string_bytes};
ghost use Rattle.reports.specs.Bytes as report;
ghost use Rattle.ring_problems.specs.Demands.{forbidden_of, separation_of};
ghost use Rattle.reports.specs.ProblemFaults.{problem_of};

use crate::problem::ProblemNumbers;
use channel_tables::Separation;
use ring_problems::{Demand, patterns_text};
use std::alloc::{AllocError, Global};

// Returns the line of a problem whose formula is refuted.
pub(crate) fn refuted_line(alloc: Global, numbers: &ProblemNumbers) -> Result<String, AllocError>
    ensures { IfOk result (λ text. string_bytes text ≡ report.refuted_line (problem_of numbers.now)) }
{
    let ids = numbers.ids;
    let rounds = numbers.rounds;
    let channels = numbers.channels;
    let demand = demand_text(alloc, &numbers.demand)?;
    format!(in alloc; "refuted: ids {ids} rounds {rounds} channels {channels}{demand}\n")
}

// Returns the words of what is asked of the channels.
fn demand_text(alloc: Global, demand: &Demand) -> Result<String, AllocError>
    ensures { IfOk result (λ text. string_bytes text
        ≡ report.demand_text (separation_of demand.now) (forbidden_of demand.now)) }
{
    let forbidden = demand.forbidden();
    if forbidden.is_empty() {
        let Separation { near, far } = demand.separation();
        return format!(in alloc; " near {near} far {far}");
    }
    let patterns = patterns_text(alloc, forbidden)?;
    format!(in alloc; " forbid{patterns}")
}
