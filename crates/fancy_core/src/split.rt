//! The pieces of a text between matches.

ghost use Rattle.std.specs.Prelude.{◌≡◌, ◌≤◌, ◌<◌, ◌^◌, ℕ, List, true, false, length, slice_range, IsTrue};
ghost use Rattle.std.specs.Borrow.{Bor};
ghost use Rattle.std.specs.Iterator.{at_most};
ghost use Rattle.fancy_input.specs.Places.{is_boundary};
ghost use Rattle.fancy_core.specs.Regexes.{options_in};
ghost use Rattle.fancy_search.specs.KeptTables.{Keeps};
ghost use Rattle.fancy_search.specs.Searching.{Suits};

mod limited;

use crate::regex::Regex;
use fancy_input::input::Input;
use fancy_input::regex_input::RegexInput;
use fancy_search::cache::Cache;
use fancy_search::searcher::Searcher;
use fancy_tree::error::Result;
pub use limited::SplitN;

/// The pieces of a text between the matches in it, in order.
///
/// A piece goes from the end of the last match, at first from the start of the text, to the start of the next match.
/// The last piece is the rest after the last match. So there is one piece more than there are matches, and pieces may be empty.
///
/// The first `next` takes memory, which the later searches reuse. An item is an error where a search is refused, as
/// [`Regex::find_input`] is; the item after it is the rest from the end of the last match on. Made by [`Regex::split`].
pub struct Split<'r, 't> {
    regex: &'r Regex,
    searcher: Searcher<&'t str>,
    cache: Cache,
    // where the last match ended
    last: usize,
    // whether the rest was given
    ended: bool,
    ghost suits: { Suits (options_in regex.now) true searcher.haystack.now },
    ghost kept: { Keeps (λ (h : Bor (List ℕ)). h.now) regex.now.program searcher cache },
    ghost inside: { last ≤ length searcher.haystack.now },
    ghost cleanly: { IsTrue (is_boundary searcher.haystack.now last) },
    ghost before: { searcher.ended ≡ false → last ≤ searcher.request.start },
}

/// By hand, so that crates above do not prove it once more.
impl<'r, 't> Drop for Split<'r, 't> {
    fn drop(self) {
        let Split {
            regex,
            searcher,
            mut cache,
            last: _,
            ended: _,
        } = self;
        searcher.leave(&regex.program, &mut cache);
    }
}

/// The part of a text between two places, in bytes.
pub(crate) fn part<'t>(text: &'t str, start: usize, end: usize) -> &'t str
    requires ordered { start ≤ end }
    requires inside { end ≤ length text.now }
    requires starts { IsTrue (is_boundary text.now start) }
    requires ends { IsTrue (is_boundary text.now end) }
    ensures { result.now ≡ slice_range text.now start end }
{
    text.make_match(start, end).as_str()
}

impl Regex {
    ghost use Rattle.fancy_core.specs.Splits.{at_start, progress, searches, split_regex, pieces_bound};

    /// The pieces of a text between the matches in it.
    ///
    /// ```text
    /// Regex::new(alloc, ",")?.split("1,,2")  // "1", "", "2"
    /// Regex::new(alloc, "")?.split("12")     // "", "1", "2", ""
    /// ```
    pub fn split<'r, 't>(&'r self, text: &'t str) -> Split<'r, 't>
        requires suits { Suits (options_in self.now) true text.now }
        ensures progress { progress result ≡ at_start self.now text.now }
        ensures searches { searches result ≡ true }
        ensures countable { pieces_bound result < 2 ^ 64 }
        ensures regex { split_regex result ≡ self.now }
    {
        Split {
            regex: self,
            searcher: Searcher::new(RegexInput::new(text), false),
            cache: Cache::new(self.allocator()),
            last: 0,
            ended: false,
        }
    }
}

impl<'r, 't> Split<'r, 't> {
    ghost use Rattle.fancy_core.specs.Pieces.{rest_of};
    ghost use Rattle.fancy_core.specs.Splits.{progress, searches, split_regex};

    /// Gives the rest from the end of the last match on, which is the last piece.
    fn rest(&mut self) -> &'t str
        ensures piece { result.now ≡ rest_of (progress self.old) }
        ensures progress { progress self.new ≡ record (progress self.old) { ended = true } }
        ensures searches { searches self.new ≡ searches self.old }
        ensures regex { split_regex self.new ≡ split_regex self.old }
    {
        self.ended = true;
        let text = self.searcher.haystack();
        part(text, self.last, text.len())
    }
}

impl<'r, 't> Iterator for Split<'r, 't> {
    ghost use Rattle.fancy_core.specs.Splits.{IsNextPiece, pieces_bound};

    type Item = Result<&'t str>;

    ghost next_gives = { IsNextPiece };

    ghost remaining = { λ s. at_most (pieces_bound s) };

    fn next(&mut self) -> Option<Result<&'t str>> {
        if self.ended {
            return None;
        }
        match self
            .searcher
            .next_item(&self.regex.program, &mut self.cache)
        {
            None => Some(Ok(self.rest())),
            Some(Ok(item)) => {
                let piece = part(self.searcher.haystack(), self.last, item.found.start);
                self.last = item.found.end;
                Some(Ok(piece))
            }
            Some(Err(error)) => Some(Err(error)),
        }
    }
}
