//! What a task finds.

ghost use Rattle.std.specs.Prelude.{◌≡◌, ◌<◌, length};
ghost use Rattle.table_text.specs.LineForms.{IsSeparation};

use crate::fault::Fault;
use crate::problem::ProblemNumbers;
use crate::status::Status;
use channel_tables::Table;
use lang_check::Plan;
use nbhd_check::{PatternWitness, Separation, Witness};
use node_lang::Program;
use numerals::Base;
use ring_problems::{IdlePattern, KnownProblem};
use table_formula::Formula;
use win_index::Ring;

/// A table and a separation that a table text can have, and the maximum number of threads that make
/// its lines.
#[derive(Drop)]
pub struct TableReport {
    pub table: Table,
    pub separation: Separation,
    pub workers: u32,
    pub ghost in_range: { IsSeparation separation },
}

/// A ring on which the program of a plan runs, and the base of the numbers of its trace.
#[derive(Drop)]
pub struct RingTrace {
    pub base: Base,
    pub plan: Plan,
    pub ring: Ring,
    pub ghost same_ids: { ring.ids ≡ plan.ids },
}

/// The same, and a place of the ring whose values are explained.
#[derive(Drop)]
pub struct PlaceTree {
    pub base: Base,
    pub plan: Plan,
    pub ring: Ring,
    pub place: u32,
    pub ghost same_ids: { ring.ids ≡ plan.ids },
    pub ghost on_ring: { place < length ring.places },
}

/// What a task finds that has few lines.
#[derive(Drop)]
pub enum Answer {
    /// The numbers of an accepted program.
    Accepted {
        ids: u32,
        rounds: u32,
        channels: u32,
        bound: u32,
        windows: u32,
    },
    /// A program.
    Program(Program),
    /// Channels are apart on all tuples: their number, the number of nodes of each, and the number of
    /// identifiers.
    Yes {
        tuples: u64,
        nodes: usize,
        ids: u32,
    },
    /// The ring, the places and their channels at which a table breaks a separation.
    No(Separation, Witness),
    /// A table solves a problem on all tuples: their number.
    Solved {
        tuples: u64,
        /// A pattern that never matches, if there is one.
        idle: Option<IdlePattern>,
    },
    /// The ring, the places and their channels that a pattern matches.
    Broken {
        witness: PatternWitness,
        /// The problem's name, if it has one.
        known: Option<KnownProblem>,
        /// A pattern that never matches, if there is one.
        idle: Option<IdlePattern>,
    },
    /// The channels of a ring, from place 0 on.
    Channels(Vec<u32>),
    /// How a program runs on a ring.
    Trace(RingTrace),
    /// How a place of a ring computes.
    Tree(PlaceTree),
    /// A ring, and the channels of its places.
    Places(Ring, Vec<u32>),
    /// The formula of these numbers is refuted.
    Refuted(ProblemNumbers),
}

/// What a task finds. A table and a formula are written in pieces.
#[derive(Drop)]
pub enum Finding {
    Answer(Answer),
    Table(TableReport),
    Formula(Formula),
    Refused(Fault),
}

impl Answer {
    ghost use Rattle.std.specs.Prelude.{◌≡◌};
    ghost use Rattle.reports.specs.Findings.{answer_of, status_of};

    /// Returns its status.
    pub fn status(&self) -> Status
        ensures { result ≡ status_of (answer_of self.now) }
    {
        match self {
            Answer::No(..) | Answer::Broken { .. } => Status::No,
            Answer::Accepted { .. }
            | Answer::Program(_)
            | Answer::Yes { .. }
            | Answer::Solved { .. }
            | Answer::Channels(_)
            | Answer::Trace(_)
            | Answer::Tree(_)
            | Answer::Places(..)
            | Answer::Refuted(_) => Status::Done,
        }
    }
}

impl Finding {
    ghost use Rattle.std.specs.Prelude.{◌≡◌};
    ghost use Rattle.reports.specs.Findings.{status_of, value_of};

    /// Returns its status.
    pub fn status(&self) -> Status
        ensures { result ≡ status_of (value_of self.now) }
    {
        match self {
            Finding::Answer(answer) => answer.status(),
            Finding::Table(_) | Finding::Formula(_) => Status::Done,
            Finding::Refused(fault) => fault.status(),
        }
    }
}
