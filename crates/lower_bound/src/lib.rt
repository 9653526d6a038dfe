//! Linial's lower bound (1992): how few channels no table can do with.
#![tactic(auto)]

mod laws;
mod least;

pub use laws::{
    nearby_places_need_four, odd_rings_need_three, tables_need_channels, windows_need_channels,
};
pub use least::linial_bound;
