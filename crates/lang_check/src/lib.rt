//! Acceptance of programs for a number of identifiers: what their expressions read, bounds of their
//! values, the refusals in order, and plans, which are accepted programs.
#![tactic(auto)]

mod acceptance;
mod bound_laws;
mod bounds;
mod equality;
mod laws;
mod occurrences;
mod plan;
mod refusals;
mod register_bounds;

pub use acceptance::{CheckFault, accept};
pub use bound_laws::{binary_digits, channel_is_within, next_is_within, start_is_within};
pub use equality::same_program;
pub use laws::{
    accepted_channels_are_below, channels_are_below, one_refusal, registers_are_within,
};
pub use plan::Plan;
pub use refusals::{id_is_misplaced, message_is_misplaced, missing_register};
pub use register_bounds::{bound_of_finish, bounds_after, register_over_channels};
