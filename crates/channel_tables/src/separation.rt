//! The separation that a table has to keep.

/// The minimum differences of channels (the labellings L(p,q) of Griggs and Yeh 1992): `near` for
/// neighbours, `far` for places at distance two. With `near` 1 and `far` 0 neighbours' channels
/// have to differ, and nothing else is required.
#[derive(Clone, Copy, Debug, PartialEq, Eq)]
pub struct Separation {
    pub near: u32,
    pub far: u32,
}
