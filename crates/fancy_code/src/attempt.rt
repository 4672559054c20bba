//! What an engine is asked at a position: the code of a pattern, a haystack, and how matches may stand there.

use crate::code::Code;
use fancy_meaning::reading::SuppressedEnds;

/// What is searched: the code of a pattern in a haystack, where, and how matches may stand there. Places are byte
/// offsets.
#[derive(Clone, Copy)]
pub struct Attempt<'a> {
    /// The code of the pattern.
    pub code: &'a Code,
    /// The haystack.
    pub haystack: &'a [u8],
    /// The first place that the table has marks for.
    pub base: usize,
    /// Consumed text ends here at the latest.
    pub last: usize,
    /// Matches begin and end on character boundaries alone.
    pub on_boundaries: bool,
    /// The ends of the text that do not count as such.
    pub suppressed: SuppressedEnds,
    /// The most work that is done, if that is limited. What was done before counts.
    pub step_limit: Option<usize>,
}
