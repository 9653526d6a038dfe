//! Programs within the limits.
ghost use Rattle.std.specs.Prelude.{◌≡◌, ◌≤◌, length, map, All};
ghost use Rattle.node_program.specs.Term.{ProgramTree, program_tree, term_of, step_of};
ghost use Rattle.node_program.specs.Code.{program_code};
ghost use Rattle.node_program.specs.Limits.{IsSmall, AreSmall, IsSmallRound, IsWithinLimits};

use crate::tree::{Expr, Round};
use std::marker::Model;

/// A program of the node language. It has at most `MAX_ROUNDS` rounds, 1 to `MAX_CHANNELS` channels
/// and 1 to `MAX_REGISTERS` registers, an expression for each register in `start` and in each round,
/// at most `MAX_NODES` expression nodes, and no expression deeper than `MAX_DEPTH`. The registers
/// that its expressions name are 0 to 9.
#[derive(Drop)]
pub struct Program {
    channels: u32,
    start: Vec<Expr>,
    steps: Vec<Round>,
    finish: Expr,
}

impl Model for Program {
    ghost Value = { ProgramTree };

    ghost coded = { program_code };

    ghost view = { λ p. program_tree p.channels p.start.items p.steps.items p.finish };

    ghost invariant = { λ p. IsWithinLimits (program_tree p.channels p.start.items p.steps.items p.finish) };
}

impl Program {
    /// Makes a program from its parts, which are within the limits.
    pub fn new(channels: u32, start: Vec<Expr>, steps: Vec<Round>, finish: Expr) -> Program
        requires { IsWithinLimits (program_tree channels start.items steps.items finish) }
        ensures { result ≡ program_tree channels start.items steps.items finish }
    {
        Program {
            channels,
            start,
            steps,
            finish,
        }
    }

    /// Returns the number of rounds, at most `MAX_ROUNDS`.
    pub fn rounds(&self) -> u32
        ensures value { result ≡ length self.now.steps }
        ensures limits { IsWithinLimits self.now }
    {
        self.steps.len() as u32
    }

    /// Returns the number of channels, 1 to `MAX_CHANNELS`.
    pub fn channels(&self) -> u32
        ensures value { result ≡ self.now.channels }
        ensures limits { IsWithinLimits self.now }
    {
        self.channels
    }

    /// Returns the number of registers, 1 to `MAX_REGISTERS`.
    pub fn registers(&self) -> u32
        ensures value { result ≡ length self.now.start }
        ensures limits { IsWithinLimits self.now }
    {
        self.start.len() as u32
    }

    /// Returns the expression of each register before the first round.
    pub fn start(&self) -> &[Expr]
        ensures value { map term_of result.now ≡ self.now.start }
        ensures small { AreSmall result.now }
        ensures limits { IsWithinLimits self.now }
    {
        &self.start
    }

    /// Returns the rounds in order, each with an expression for each register.
    #[tactic(auto, using(crate::proofs::Assigned::each_assigned))]
    pub fn steps(&self) -> &[Round]
        ensures value { map step_of result.now ≡ self.now.steps }
        ensures each { All (λ round. length round.next.items ≡ length self.now.start) result.now }
        ensures small { All IsSmallRound result.now }
        ensures limits { IsWithinLimits self.now }
    {
        &self.steps
    }

    /// Returns the expression of the channel.
    #[tactic(auto, using(crate::proofs::Small::finish_small))]
    pub fn finish(&self) -> &Expr
        ensures value { term_of result.now ≡ self.now.finish }
        ensures small { IsSmall (term_of result.now) }
        ensures limits { IsWithinLimits self.now }
    {
        &self.finish
    }
}
