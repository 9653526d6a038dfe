//! The segment machine: the state of the segments of a ring and of the borders between them, after
//! a list of events. No thread runs it: it is a model beside `ring_exec`.
#![tactic(auto)]

mod event;
mod laws;
mod replaying;
mod segment_progress;
mod world;

pub use event::RingEvent;
pub use laws::one_run;
pub use replaying::replay;
pub use world::World;
