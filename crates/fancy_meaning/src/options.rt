//! The options of a search, of which all engines know.

ghost use Rattle.std.specs.Prelude.{◌≡◌};
ghost use Rattle.fancy_meaning.specs.Reading.{suppressed_ends};
ghost use Rattle.fancy_meaning.specs.Search.{is_match_boundary};

use crate::reading::SuppressedEnds;
use fancy_input::input::Request;
use fancy_input::places::is_boundary;

/// The options that hold while a haystack is searched.
#[derive(Clone, Copy, PartialEq, Eq, Debug)]
pub struct SearchOptions {
    /// Matches begin and end on character boundaries alone.
    pub on_boundaries: bool,
    /// A request may say that the text's start, or its end, does not count as one, or that `\G` holds nowhere.
    pub overrides: bool,
    /// An empty match is refused.
    pub not_empty: bool,
    /// At a position the longest match is asked for, and not the first.
    pub longest: bool,
    /// The most returns of a search.
    pub backtrack_limit: usize,
    /// The most branches that a search has saved at one time.
    pub stack_limit: usize,
    /// The most work of a search, if that is limited: its steps, and what counts as such.
    pub step_limit: Option<usize>,
    /// A search for a hard pattern passes over the positions where no match begins, as the first bytes tell, and counts nothing
    /// there. One for an easy pattern does so in any case.
    pub seek: bool,
}

impl SearchOptions {
    /// The ends of the text that the request suppresses, where it may.
    pub fn suppressed_ends(self, request: Request) -> SuppressedEnds
        ensures { result ≡ suppressed_ends self.overrides request }
    {
        SuppressedEnds {
            start: self.overrides && !request.start_text,
            end: self.overrides && !request.end_text,
        }
    }
}

/// Whether a match may begin or end at a place, a byte offset: anywhere, or on character boundaries alone.
#[inline]
pub fn is_match_boundary(on_boundaries: bool, haystack: &[u8], place: usize) -> bool
    ensures { result ≡ is_match_boundary on_boundaries haystack.now place }
{
    !on_boundaries || is_boundary(haystack, place)
}
