//! Plans: an accepted program with its shape.
use crate::same_program;
use node_program::Program;
use std::marker::Model;
use win_index::Shape;

/// An accepted program, with the shape that it was accepted for and the bound of its channels. Only
/// `accept` makes plans.
#[derive(Drop)]
pub struct Plan {
    pub(crate) program: Program,
    pub(crate) shape: Shape,
    pub(crate) bound: u32,
}

impl Model for Plan {
    ghost use Rattle.std.specs.Prelude.{◌≡◌, length};
    ghost use Rattle.node_program.specs.Bounds.{finish_bound};
    ghost use Rattle.lang_check.specs.Acceptance.{IsAccepted};
    ghost use Rattle.lang_check.specs.Plans.{ProgramForIds, plan_code};

    ghost Value = { ProgramForIds };

    ghost coded = { plan_code };

    ghost view = { λ p. record { program = p.program; ids = p.shape.ids } };

    ghost invariant = { λ p. (p.shape.rounds ≡ length p.program.steps) × IsAccepted p.shape.ids p.program
        × (p.bound ≡ finish_bound p.program p.shape.ids) };
}

impl Plan {
    ghost use Rattle.std.specs.Prelude.{◌≡◌, ◌↔◌, IsTrue, length};
    ghost use Rattle.node_program.specs.Bounds.{finish_bound};
    ghost use Rattle.lang_check.specs.Acceptance.{IsAccepted};

    /// Returns the program.
    pub fn program(&self) -> &Program
        ensures value { result.now ≡ self.now.program }
        ensures accepted { IsAccepted self.now.ids self.now.program }
    {
        &self.program
    }

    /// Returns the shape: the number of identifiers and the program's number of rounds.
    pub fn shape(&self) -> Shape
        ensures ids { result.ids ≡ self.now.ids }
        ensures rounds { result.rounds ≡ length self.now.program.steps }
        ensures accepted { IsAccepted self.now.ids self.now.program }
    {
        self.shape
    }

    /// Returns the bound of the channels, which is below the number of channels.
    pub fn bound(&self) -> u32
        ensures value { result ≡ finish_bound self.now.program self.now.ids }
        ensures accepted { IsAccepted self.now.ids self.now.program }
    {
        self.bound
    }

    /// Returns the number of channels, 1 to `MAX_CHANNELS`.
    pub fn channels(&self) -> u32
        ensures value { result ≡ self.now.program.channels }
        ensures accepted { IsAccepted self.now.ids self.now.program }
    {
        self.program.channels()
    }

    /// Returns whether the two plans have equal programs and the same shape.
    pub fn same(&self, other: &Plan) -> bool
        ensures { IsTrue result ↔ (self.now ≡ other.now) }
    {
        same_program(&self.program, &other.program) && self.shape == other.shape
    }
}
