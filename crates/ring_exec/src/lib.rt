//! A ring run by messages: each segment of its places runs on a thread of its own, and neighbouring
//! segments exchange messages at borders.
#![tactic(auto)]

mod border_name;
mod course;
mod end;
mod fault;
mod gathering;
mod joined;
mod message_run;
mod progress;
mod relay;
mod runner;
mod segment_fault;

pub use border_exchange::{MAX_SEGMENTS, Msg, Segment, Strange};
pub use fault::RunFault;
pub use message_run::run;
