//! Making a match in text, and what it says.

ghost use Rattle.std.specs.Prelude.{◌≡◌, ◌≤◌, length, IsTrue, slice_range};
ghost use Rattle.fancy_input.specs.Places.{is_boundary};
ghost use Rattle.fancy_input.specs.Spans.{from_to, span_in, text_in};

use crate::matches::Match;
use std::ops::Range;

impl<'t> Match<'t> {
    /// The match from `start` to `end` in `text`, both on boundaries of its characters.
    ///
    /// `Match::new("aé", 1, 3)` is the match of `é`.
    #[tactic(auto, using(crate::proofs::PlaceLemmas::boundary_of_text))]
    pub fn new(text: &'t str, start: usize, end: usize) -> Match<'t>
        requires ordered { start ≤ end }
        requires inside { end ≤ length text.now }
        requires starts_cleanly { IsTrue (is_boundary text.now start) }
        requires ends_cleanly { IsTrue (is_boundary text.now end) }
        ensures haystack { text_in result ≡ text.now }
        ensures span { span_in result ≡ from_to start end }
    {
        Match { text, start, end }
    }

    /// Where the match starts, in bytes from the start of the text: 1 for `é` in `"aé"`.
    pub fn start(&self) -> usize
        ensures { result ≡ (span_in self.now).start }
    {
        self.range().start
    }

    /// The offset after the last byte of the match: 3 for `é` in `"aé"`.
    pub fn end(&self) -> usize
        ensures { result ≡ (span_in self.now).end }
    {
        self.range().end
    }

    /// Both ends: `1..3` for `é` in `"aé"`.
    pub fn range(&self) -> Range<usize>
        ensures starts { result.start ≡ (span_in self.now).start }
        ensures ends { result.end ≡ (span_in self.now).end }
        ensures ordered { result.start ≤ result.end }
        ensures inside { result.end ≤ length (text_in self.now) }
    {
        self.start..self.end
    }

    /// The text that was matched: `é` for `1..3` of `"aé"`.
    pub fn as_str(&self) -> &'t str
        ensures { result.now ≡ slice_range (text_in self.now) (span_in self.now).start (span_in self.now).end }
    {
        &self.text[self.start()..self.end()]
    }
}

impl<'t> From<Match<'t>> for &'t str {
    ghost from_gives = { λ m r. r.now ≡ slice_range (text_in m) (span_in m).start (span_in m).end };

    fn from(m: Match<'t>) -> &'t str {
        m.as_str()
    }
}

impl<'t> From<Match<'t>> for Range<usize> {
    ghost from_gives = { λ m r. (r.start ≡ (span_in m).start) × (r.end ≡ (span_in m).end) };

    fn from(m: Match<'t>) -> Range<usize> {
        m.range()
    }
}
