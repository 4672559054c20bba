//! Stretches of a haystack.

/// A stretch of a haystack, in byte offsets: from `start` up to `end`, the offset after its last byte.
///
/// ```text
/// Span { start: 1, end: 3 }     // é in "aé"
/// ```
#[derive(Clone, Copy, PartialEq, Eq, Debug)]
pub struct Span {
    /// Where it starts.
    pub start: usize,
    /// The offset after its last byte.
    pub end: usize,
}
