//! What the attempts of a search found out of its haystack.

use crate::runs::LastRun;
use fancy_input::last_lines::LastLines;

/// What the attempts of a search found out of its haystack, so that later ones need not read it again.
#[derive(Drop)]
pub(crate) struct Seen {
    /// What was read of the line ends that close it.
    pub(crate) last_lines: LastLines,
    /// The run of items that was read last.
    pub(crate) last_run: LastRun,
}
