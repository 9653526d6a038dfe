//! Observers of a run.

/// An observer of a run, which is called when a step of work begins. A gate in a test may wait
/// before it returns.
pub trait Gate {
    /// Called when worker or segment `who` begins job or round `what`.
    fn entered(&self, who: u32, what: u32);
}

/// A gate that does nothing.
#[derive(Clone, Copy, Debug, PartialEq, Eq)]
pub struct OpenGate;

impl Gate for OpenGate {
    fn entered(&self, _who: u32, _what: u32) {}
}
