//! The messages of a border that has ended.

/// All messages of a border, in the order in which they were put on each side.
#[derive(Drop)]
pub struct Totals<M> {
    /// The messages sent to the right.
    pub rightward: Vec<M>,
    /// The messages sent to the left.
    pub leftward: Vec<M>,
}
