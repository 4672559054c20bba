//! What a search found.

/// What a search found: at which position, and from where to where the match goes. All three are byte offsets.
///
/// Its groups stand in what the search was given to work in.
#[derive(Clone, Copy, PartialEq, Eq, Debug)]
pub struct Found {
    /// The position of the attempt that found it: the least one at which an outcome is accepted.
    pub position: usize,
    /// Where the match starts: at the position, or where a `\K` was met last.
    pub start: usize,
    /// The offset after the last byte of the match.
    pub end: usize,
}
