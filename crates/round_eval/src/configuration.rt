//! The configuration of a ring: the registers of all its places between two rounds.

ghost use Rattle.std.specs.Prelude.{◌≡◌, IfOk, length};

use crate::node::{channel, sent_to_left, sent_to_right};
use crate::row::laws::stretches_are_rows;
use crate::row::{round_of_row, row_at, start_of_row, width_of};
use lang_check::Plan;
use node_program::OutOfMemory;
use std::alloc::Global;
use std::marker::Model;
use std::mem;
use win_index::Ring;

/// A quantity of a place that a configuration tells.
#[derive(Clone, Copy, Debug, PartialEq, Eq)]
pub enum Quantity {
    /// The value of this register.
    Register(u32),
    /// Its message to the left in the next round.
    Left,
    /// Its message to the right in the next round.
    Right,
    /// Its channel, from its registers.
    Channel,
}

/// The registers of all places of a ring after some rounds of a plan. In each round all places
/// send, and then all of them step. It allocates two cells for each register of each place.
#[derive(Drop)]
pub struct Configuration<'a> {
    plan: &'a Plan,
    ring: &'a Ring,
    round: u32,
    states: Vec<u32>,
    spare: Vec<u32>,
}

impl<'a> Model for Configuration<'a> {
    ghost use Rattle.std.specs.Prelude.{vec_len};
    ghost use Rattle.round_eval.specs.Configuration.{RingConfiguration, KeepsConfiguration};
    ghost use Rattle.round_eval.specs.Code.{configuration_code};

    ghost Value = { RingConfiguration };

    ghost coded = { configuration_code };

    ghost view = { λ c. record { program = c.plan.now.program; places = c.ring.now.places; round = c.round } };

    ghost invariant = { λ c. KeepsConfiguration
        (record { program = c.plan.now.program; places = c.ring.now.places; round = c.round })
        c.states.items (vec_len c.spare) };
}

impl<'a> Configuration<'a> {
    ghost use Rattle.std.specs.Prelude.{◌≡◌, ◌+◌, ◌<◌, ◌≤◌, IfOk, length};
    ghost use Rattle.node_program.specs.GlobalRounds.{state};
    ghost use Rattle.round_eval.specs.Configuration.{quantity, CanRead};

    /// Returns the configuration before the first round. The ring must have the plan's number of
    /// identifiers. Fails with `OutOfMemory` if memory was refused.
    #[tactic(auto, using(std::proofs::lemmas::Nat::row_fits))]
    pub fn new(
        alloc: Global,
        plan: &'a Plan,
        ring: &'a Ring,
    ) -> Result<Configuration<'a>, OutOfMemory>
        requires { ring.now.ids ≡ plan.now.ids }
        ensures { IfOk result (λ c. c ≡ record { program = plan.now.program; places = ring.now.places; round = 0 }) }
    {
        let ids = ring.ids();
        let cells = ids.len() * width_of(plan);
        let mut states = vec![in alloc; 0; cells]?;
        let spare = vec![in alloc; 0; cells]?;
        start_of_row(plan, ids, &mut states);
        Ok(Configuration {
            plan,
            ring,
            round: 0,
            states,
            spare,
        })
    }

    /// Returns the number of places of the ring.
    pub fn places(&self) -> u32
        ensures value { result ≡ length self.now.places }
        ensures some { 2 ≤ result }
    {
        self.ring.len()
    }

    /// Returns the number of registers of a place.
    pub fn registers(&self) -> u32
        ensures { result ≡ length self.now.program.start }
    {
        self.plan.program().registers()
    }

    /// Returns the number of rounds that are done, at most those of the program.
    pub fn round(&self) -> u32
        ensures value { result ≡ self.now.round }
        ensures few { result ≤ length self.now.program.steps }
    {
        self.round
    }

    /// Does one more round. The program must have one more.
    #[tactic(auto, using(std::proofs::lemmas::Nat::row_fits))]
    pub fn advance(&mut self)
        requires { self.old.round < length self.old.program.steps }
        ensures { self.new ≡ record self.old { round = self.old.round + 1 } }
    {
        stretches_are_rows();
        let (plan, round) = (self.plan, self.round);
        let nodes = self.ring.len() as usize;
        let width = width_of(plan);
        let from_last = sent_to_right(plan, round, row_at(&self.states, width, nodes - 1));
        let from_first = sent_to_left(plan, round, row_at(&self.states, width, 0));
        round_of_row(
            plan,
            round,
            nodes,
            from_last,
            &self.states,
            from_first,
            &mut self.spare,
        );
        mem::swap(&mut self.states, &mut self.spare);
        self.round += 1;
    }

    /// Returns the number `what` of a place. A register must be one of the program, and for
    /// messages the program must have a next round.
    pub fn quantity(&self, what: Quantity, place: u32) -> u32
        requires place { place < length self.now.places }
        requires what { CanRead self.now what }
        ensures { result ≡ quantity self.now what place }
    {
        let own = self.held_by(place);
        match what {
            Quantity::Register(register) => own[register as usize],
            Quantity::Left => sent_to_left(self.plan, self.round, own),
            Quantity::Right => sent_to_right(self.plan, self.round, own),
            Quantity::Channel => channel(self.plan, own),
        }
    }

    /// Returns the registers of a place.
    #[tactic(auto, using(std::proofs::lemmas::Nat::row_fits))]
    pub fn held_by(&self, place: u32) -> &[u32]
        requires { place < length self.now.places }
        ensures value { result.now ≡ state self.now.program self.now.places self.now.round place }
        ensures size { length result.now ≡ length self.now.program.start }
    {
        row_at(&self.states, width_of(self.plan), place as usize)
    }
}
