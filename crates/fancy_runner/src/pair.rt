//! Where a thread stands.

/// A pair of an instruction and a place, where a thread stands.
#[derive(Clone, Copy, PartialEq, Eq, Debug)]
pub struct Pair {
    /// The number of the instruction.
    pub at: usize,
    /// The place, a byte offset.
    pub place: usize,
}
