//! The ways that are followed at one place.

/// A way at a place.
#[derive(Clone, Copy, PartialEq, Eq, Debug)]
pub struct Way {
    /// The number of its instruction.
    pub at: usize,
    /// The number, in the row that the step began with, of the way that it comes from.
    pub from: usize,
}
