//! Windows of identifiers, numbered in lexicographic order, and the rings that they are taken from.
#![tactic(auto)]

mod arrangement;
mod bucket_prefix;
mod bucket_prefixes;
mod jobs;
mod laws;
mod limits;
mod prefixes;
mod ring;
mod series;
mod shape;

pub use bucket_prefix::BucketPrefix;
pub use bucket_prefixes::BucketPrefixes;
pub use laws::{
    blocks_are_few, count_of_windows, jobs_have_numbers, longer_windows_have_numbers,
    number_of_window, one_ring_fault, places_of_arcs, prefixes_have_numbers, rings_have_tuples,
    rings_have_windows, tuples_are_rings, window_of_number, windows_are_in_order,
    windows_have_numbers,
};
pub use limits::{
    BLOCK_WINDOWS, MAX_BLOCKS, MAX_EXTRA, MAX_IDS, MAX_ROUNDS, MAX_TUPLE_LEN, MAX_WINDOW_LEN,
    MAX_WINDOWS,
};
pub use ring::{Ring, RingFault};
pub use series::BucketPlaces;
pub use shape::{Shape, ShapeFault, place_among_unused};
