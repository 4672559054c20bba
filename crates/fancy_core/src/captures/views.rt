//! What captures say.

ghost use Rattle.std.specs.Prelude.{◌≡◌, ◌-◌, IfSome, length, option_map};
ghost use Rattle.std.specs.Iterator.{YieldsFirstBy, at_most};
ghost use Rattle.fancy_search.specs.Groups.{AreCut, span_at, spans_held};
ghost use Rattle.fancy_core.specs.Captures.{spans_in, searched_in, found_by, sub_captures_left};

use crate::captures::Captures;
use crate::regex::Regex;
use fancy_input::input::{Haystack, Input};
use fancy_input::span::Span;
use fancy_search::groups::GroupSpans;

impl<'r, S: Input> Captures<'r, S> {
    pub(crate) fn new(regex: &'r Regex, haystack: S, groups: GroupSpans) -> Captures<'r, S>
        requires placed { AreCut (S.text haystack) (S.bytes haystack) (spans_held groups) }
        ensures haystack { searched_in result ≡ haystack }
        ensures groups { spans_in result ≡ spans_held groups }
        ensures regex { found_by result ≡ regex.now }
    {
        Captures {
            regex,
            haystack,
            groups,
        }
    }

    /// How many groups the pattern has, with group 0, also those that took no part.
    ///
    /// ```text
    /// Regex::new(alloc, "(a)|b")?.captures("b")?    // Some, whose len() is 2: group 1 counts
    /// ```
    pub fn len(&self) -> usize
        ensures { result ≡ length (spans_in self.now) }
    {
        self.groups.len()
    }

    /// What the group with this number matched. `None` where it took no part, and for every number past the last
    /// group.
    ///
    /// ```text
    /// // the captures of (a)|b on "xb"
    /// captures.get(0)             // Some: 1..2, as byte offsets into the haystack
    /// captures.get(1)             // None: the group took no part
    /// captures.get(usize::MAX)    // None: there is no such group
    /// ```
    pub fn get(&self, number: usize) -> Option<S::Match>
        ensures found { option_map S.span result ≡ span_at (spans_in self.now) number }
        ensures within { IfSome result (λ m. S.within m ≡ S.bytes (searched_in self.now)) }
    {
        match self.groups.at(number) {
            Some(span) => Some(self.haystack.make_match(span.start, span.end)),
            None => None,
        }
    }

    /// The bytes of the whole haystack, also where a part of it was searched.
    ///
    /// ```text
    /// let input = RegexInput::new("xab").from_pos(1);
    /// Regex::new(alloc, "a")?.captures_input(input)?    // Some, whose input_as_bytes() is b"xab"
    /// ```
    pub fn input_as_bytes(&self) -> &[u8]
        ensures { result.now ≡ S.bytes (searched_in self.now) }
    {
        self.haystack.as_bytes()
    }

    /// What each group matched, in the order of their numbers.
    ///
    /// ```text
    /// // the captures of (a)|b on "b"
    /// captures.iter()    // Some: 0..1, and then None for group 1
    /// ```
    pub fn iter<'c>(&'c self) -> SubCaptureMatches<'c, 'r, S>
        ensures { sub_captures_left result ≡ spans_in self.now }
    {
        SubCaptureMatches {
            captures: self,
            next: 0,
        }
    }
}

/// Where the group with this number is, in byte offsets. `None` where it took no part, and for every number past the last
/// group.
pub fn group_span<S: Haystack>(captures: &Captures<'_, S>, number: usize) -> Option<Span>
    ensures { result ≡ span_at (spans_in captures.now) number }
{
    captures.groups.at(number)
}

/// What each group of a match matched, in the order of their numbers; made by [`Captures::iter`].
#[derive(Drop)]
pub struct SubCaptureMatches<'c, 'r, S: Haystack> {
    captures: &'c Captures<'r, S>,
    next: usize,
}

impl<'c, 'r, S: Input> Iterator for SubCaptureMatches<'c, 'r, S> {
    type Item = Option<S::Match>;

    ghost next_gives = { YieldsFirstBy (option_map S.span) sub_captures_left };

    ghost remaining = { λ s. at_most (length (spans_in s.captures.now) - s.next) };

    fn next(&mut self) -> Option<Option<S::Match>> {
        if self.next >= self.captures.len() {
            return None;
        }
        let group = self.captures.get(self.next);
        self.next += 1;
        Some(group)
    }
}
