//! One token of a text.

ghost use Rattle.std.specs.Prelude.{◌≡◌, Some, option_map};
ghost use Rattle.fancy_core.specs.Captures.{searched_in};
ghost use Rattle.fancy_regex.specs.SetMatches.{pattern_index, captures_of};

use crate::set::RegexSetMatch;
use fancy_core::captures::Captures;
use fancy_input::input::{Haystack, Input};

/// A token: which pattern of the set it is of, and what that matched, with its groups. It is never empty.
///
/// ```text
/// let set = RegexSet::new(alloc, &["[a-z]+", "0x([0-9a-f]+)"])?;
/// // of "0x1f": pattern() is 1, start() is 0, end() is 4, as_str() is "0x1f", captures().get(1) is 2..4
/// ```
#[derive(Drop)]
pub struct Token<'r, S: Haystack> {
    pub(crate) found: RegexSetMatch<'r, S>,
}

impl<'r, S: Input> Token<'r, S> {
    ghost use Rattle.fancy_regex.specs.TokenLists.{token_pattern, token_captures, token_span};

    /// The index of the pattern in its set.
    pub fn pattern(&self) -> usize
        ensures { result ≡ token_pattern self.now }
    {
        self.found.pattern()
    }

    /// The groups of the match.
    pub fn captures(&self) -> &Captures<'r, S>
        ensures { result.now ≡ token_captures self.now }
    {
        self.found.captures()
    }

    /// The whole match.
    pub fn get(&self) -> S::Match
        ensures found { token_span self.now ≡ Some (S.span result) }
        ensures within { S.within result ≡ S.bytes (searched_in (token_captures self.now)) }
    {
        self.found.get()
    }

    /// Where the token starts, as a byte offset.
    pub fn start(&self) -> usize
        ensures { option_map (λ s. s.start) (token_span self.now) ≡ Some result }
    {
        self.found.start()
    }

    /// Where the token ends, as a byte offset: where the next one starts.
    pub fn end(&self) -> usize
        ensures { option_map (λ s. s.end) (token_span self.now) ≡ Some result }
    {
        self.found.end()
    }
}
