//! How far searches by the automaton read on, which decides whether it serves those to come. What is near the end of a match is not
//! noted (`NEAR` of `cache`).

/// Searches leave the automaton once they have read so many bytes past the ends of their matches, and [`MADE_UP`] more for each byte
/// that they came on by.
const READ_PAST: usize = 1024;

/// For how many bytes past a match a byte makes up that searches come on by.
const MADE_UP: usize = 4;

/// How far the searches of a list read past their ends, or the attempts from place to place.
#[derive(Clone, Copy)]
pub struct ReadPast {
    /// How many bytes they read past their ends.
    bytes: usize,
    /// Where the first one began, a byte offset.
    first: usize,
}

impl ReadPast {
    /// Nothing was read yet, and the first search begins at `first`, a byte offset.
    pub(crate) fn new(first: usize) -> ReadPast {
        ReadPast { bytes: 0, first }
    }

    /// Adds one more search, which read so many bytes past its end: where its match ends, or where it began if it found none.
    #[inline(always)]
    pub(crate) fn add(&mut self, past: usize) {
        self.bytes = self.bytes.saturating_add(past);
    }

    /// Whether they did not read much more than they came on by, up to a place, a byte offset.
    #[inline(always)]
    pub(crate) fn is_little_before(&self, place: usize) -> bool {
        self.bytes.saturating_sub(READ_PAST) / MADE_UP <= place.saturating_sub(self.first)
    }
}
