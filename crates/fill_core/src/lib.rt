//! The fill machine: the state of workers that draw jobs, look at cells and install blocks, after a
//! list of events. No thread runs it: it is a model beside `table_fill`.
#![tactic(auto)]

mod draws;
mod installs;
mod known;
mod laws;
mod looks;
mod replaying;
mod state;
mod world;

pub use laws::one_run;
pub use state::FillEvent;
pub use world::{FillWorld, replay};
