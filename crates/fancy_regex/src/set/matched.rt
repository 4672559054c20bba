//! What a pattern of a set matched.

ghost use Rattle.std.specs.Prelude.{◌≡◌, Some, IsSome, option_map};
ghost use Rattle.fancy_search.specs.Groups.{span_at};
ghost use Rattle.fancy_core.specs.Captures.{spans_in, searched_in};

use fancy_core::captures::{Captures, group_span};
use fancy_input::input::{Haystack, Input};
use fancy_input::span::Span;

/// A match of a pattern of a set, with its groups.
///
/// ```text
/// let set = RegexSet::new(alloc, &["a", "x(b)"])?;
/// // of "xb": pattern() is 1, start() is 0, end() is 2, as_str() is "xb", get() is 0..2, captures().get(1) is 1..2
/// ```
#[derive(Drop)]
pub struct RegexSetMatch<'r, S: Haystack> {
    pattern: usize,
    captures: Captures<'r, S>,
    ghost matched: { IsSome (span_at (spans_in captures) 0) },
}

impl<'r, S: Input> RegexSetMatch<'r, S> {
    ghost use Rattle.fancy_regex.specs.SetMatches.{pattern_index, captures_of, match_span};

    pub(crate) fn new(pattern: usize, captures: Captures<'r, S>) -> RegexSetMatch<'r, S>
        requires matched { IsSome (span_at (spans_in captures) 0) }
        ensures pattern { pattern_index result ≡ pattern }
        ensures captures { captures_of result ≡ captures.entry }
    {
        RegexSetMatch { pattern, captures }
    }

    /// The index of the pattern in its set.
    pub fn pattern(&self) -> usize
        ensures { result ≡ pattern_index self.now }
    {
        self.pattern
    }

    /// The groups of the match.
    pub fn captures(&self) -> &Captures<'r, S>
        ensures { result.now ≡ captures_of self.now }
    {
        &self.captures
    }

    /// The whole match.
    pub fn get(&self) -> S::Match
        ensures found { match_span self.now ≡ Some (S.span result) }
        ensures within { S.within result ≡ S.bytes (searched_in (captures_of self.now)) }
    {
        match self.captures.get(0) {
            Some(found) => found,
            None => unreachable!(),
        }
    }

    /// Where the match starts, as a byte offset. Where a `\K` was met on the way, that is the place of the last one, else the
    /// position that the pattern was tried at.
    pub fn start(&self) -> usize
        ensures { option_map (λ s. s.start) (match_span self.now) ≡ Some result }
    {
        self.span().start
    }

    /// Where the match ends, as a byte offset.
    pub fn end(&self) -> usize
        ensures { option_map (λ s. s.end) (match_span self.now) ≡ Some result }
    {
        self.span().end
    }

    fn span(&self) -> Span
        ensures { match_span self.now ≡ Some result }
    {
        match group_span(&self.captures, 0) {
            Some(span) => span,
            None => unreachable!(),
        }
    }
}
