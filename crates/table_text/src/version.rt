//! The versions of the table text.

// Version 1 gives a table only, whose separation is near 1 and far 0. Version 2 also gives near and
// far.
#[derive(Clone, Copy, Debug, PartialEq, Eq)]
pub enum Version {
    One,
    Two,
}
