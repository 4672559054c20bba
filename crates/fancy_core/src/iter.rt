//! Iterators over matches.

ghost use Rattle.std.specs.Prelude.{◌≡◌, ◌<◌, ◌^◌, false};
ghost use Rattle.std.specs.Iterator.{at_most};
ghost use Rattle.fancy_input.specs.Inputs.{haystack_in, request_in};
ghost use Rattle.fancy_input.specs.Requests.{whole};
ghost use Rattle.fancy_core.specs.Regexes.{options_in};
ghost use Rattle.fancy_core.specs.Searches.{CanSearchInput, matches_in_whole, matches_of_input, matches_onward, last_start_in_whole, last_start_of_input, last_start_onward};
ghost use Rattle.fancy_search.specs.KeptTables.{Keeps};
ghost use Rattle.fancy_search.specs.Searching.{Suits};

mod captures;

use crate::regex::Regex;
pub use captures::CaptureMatches;
use fancy_input::input::{Haystack, Input};
use fancy_input::regex_input::RegexInput;
use fancy_search::cache::Cache;
use fancy_search::searcher::{Onward, Searcher};
use fancy_tree::error::Result;

/// The matches of an input, one after another.
///
/// The next search starts at the end of the match before. After an empty match it starts at the place after it, and an
/// empty match at the very end of the match before is passed over. So `a*` finds in `"baa"` the spans 0 to 0 and
/// 1 to 3, and nothing at 3.
///
/// The first `next` takes memory, which the later searches reuse. An item is an error where a search is refused, for want of
/// memory or past a limit, as [`Regex::find_input`] is; the list ends after it. Made by [`Regex::find_iter`].
pub struct Matches<'r, S: Haystack> {
    regex: &'r Regex,
    searcher: Searcher<S>,
    cache: Cache,
    ghost suits: { Suits (options_in regex.now) (S.text searcher.haystack)
        (S.bytes searcher.haystack) },
    ghost kept: { Keeps S.bytes regex.now.program searcher cache },
}

/// By hand, so that crates above do not prove it once more.
impl<'r, S: Haystack> Drop for Matches<'r, S> {
    fn drop(self) {
        let Matches {
            regex,
            searcher,
            mut cache,
        } = self;
        searcher.leave(&regex.program, &mut cache);
    }
}

impl Regex {
    ghost use Rattle.fancy_core.specs.Iterations.{left_in, end_in, items_bound, regex_in, haystack_of, has_ended, next_request, onward_of};

    /// The matches in the haystack, from its start on.
    ///
    /// ```text
    /// Regex::new(alloc, "a*")?.find_iter("baa")  // 0..0, 1..3
    /// ```
    #[tactic(auto, using(fancy_search::proofs::ScanLemmas::few_turns))]
    pub fn find_iter<S: Input>(&self, haystack: S) -> Matches<'_, S>
        requires suits { Suits (options_in self.now) (S.text haystack) (S.bytes haystack) }
        ensures matches { left_in S.text S.bytes result
            ≡ matches_in_whole self.now S.text S.bytes haystack }
        ensures end { end_in S.text S.bytes result
            ≡ last_start_in_whole self.now S.text S.bytes haystack }
        ensures countable { items_bound S.text S.bytes result < 2 ^ 64 }
        ensures regex { regex_in result ≡ self.now }
        ensures text { haystack_of result ≡ haystack }
        ensures request { next_request result ≡ whole (S.bytes haystack) }
    {
        Matches {
            regex: self,
            searcher: Searcher::new(RegexInput::new(haystack), false),
            cache: Cache::new(self.allocator()),
        }
    }

    /// The matches that the input asks for.
    ///
    /// ```text
    /// let input = RegexInput::new("xabab").from_pos(2);
    /// Regex::new(alloc, "a|ab")?.find_iter_input(input)    // 3..4
    /// ```
    #[tactic(auto, using(fancy_search::proofs::ScanLemmas::few_turns))]
    pub fn find_iter_input<S: Input>(&self, input: RegexInput<S>) -> Matches<'_, S>
        requires searched { CanSearchInput S.text S.bytes (options_in self.now) input }
        ensures matches { left_in S.text S.bytes result
            ≡ matches_of_input self.now S.text S.bytes input }
        ensures end { end_in S.text S.bytes result
            ≡ last_start_of_input self.now S.text S.bytes input }
        ensures countable { items_bound S.text S.bytes result < 2 ^ 64 }
        ensures regex { regex_in result ≡ self.now }
        ensures text { haystack_of result ≡ haystack_in input }
        ensures request { next_request result ≡ request_in input }
    {
        Matches {
            regex: self,
            searcher: Searcher::new(input, false),
            cache: Cache::new(self.allocator()),
        }
    }

    /// The matches that the input asks for, as a list goes on that came so far. So a list that was left can be gone on with: its
    /// [`Matches::input`] and its [`Matches::onward`] are all that it takes. Where it had ended, it may give more.
    ///
    /// ```text
    /// let mut matches = regex.find_iter("aab");    // of a*
    /// matches.next()                               // Some: 0..2
    /// let (input, onward) = (matches.input(), matches.onward());
    /// regex.resume_matches(input, onward)          // 3..3
    /// regex.find_iter_input(matches.input())       // 2..2, 3..3
    /// ```
    #[tactic(auto, using(fancy_search::proofs::ScanLemmas::few_turns))]
    pub fn resume_matches<S: Input>(&self, input: RegexInput<S>, onward: Onward) -> Matches<'_, S>
        requires searched { CanSearchInput S.text S.bytes (options_in self.now) input }
        ensures matches { left_in S.text S.bytes result ≡ matches_onward self.now
            (S.text (haystack_in input)) (S.bytes (haystack_in input)) (request_in input) onward }
        ensures end { end_in S.text S.bytes result ≡ last_start_onward self.now
            (S.text (haystack_in input)) (S.bytes (haystack_in input)) (request_in input) onward }
        ensures countable { items_bound S.text S.bytes result < 2 ^ 64 }
        ensures regex { regex_in result ≡ self.now }
        ensures text { haystack_of result ≡ haystack_in input }
        ensures request { next_request result ≡ request_in input }
        ensures onward { onward_of result ≡ onward }
        ensures goes_on { has_ended result ≡ false }
    {
        Matches {
            regex: self,
            searcher: Searcher::resume(input, onward, false),
            cache: Cache::new(self.allocator()),
        }
    }
}

impl<'r, S: Input> Matches<'r, S> {
    ghost use Rattle.fancy_core.specs.Iterations.{left_in, regex_in, haystack_of, has_ended, next_request, onward_of};

    /// The regex that searches.
    pub fn regex(&self) -> &'r Regex
        ensures { result.now ≡ regex_in self.now }
    {
        self.regex
    }

    /// The whole haystack, also where a part of it is searched.
    pub fn text(&self) -> S
        ensures { result ≡ haystack_of self.now }
    {
        self.searcher.haystack()
    }

    /// The input of the next search: that of the iteration, with its start moved on.
    ///
    /// After an error its start is one past the end of the range. Where the list has ended it is the input of the search that
    /// found nothing.
    ///
    /// ```text
    /// let mut matches = regex.find_iter("xabab");    // of a|ab
    /// matches.input().start()    // 0
    /// matches.next()             // Some: 1..2
    /// matches.input().start()    // 2
    /// ```
    pub fn input(&self) -> RegexInput<S>
        ensures haystack { haystack_in result ≡ haystack_of self.now }
        ensures request { request_in result ≡ next_request self.now }
    {
        self.searcher.input()
    }

    /// How the list goes on from where the next search starts, for [`Regex::resume_matches`]. Unless the list has ended, that gives
    /// the matches that are left.
    pub fn onward(&self) -> Onward
        ensures onward { result ≡ onward_of self.now }
        ensures left { has_ended self.now ≡ false → left_in S.text S.bytes self.now
            ≡ matches_onward (regex_in self.now) (S.text (haystack_of self.now))
            (S.bytes (haystack_of self.now)) (next_request self.now) result }
    {
        self.searcher.onward()
    }
}

impl<'r, S: Input> Iterator for Matches<'r, S> {
    ghost use Rattle.fancy_core.specs.Iterations.{IsNext, items_bound};

    type Item = Result<S::Match>;

    ghost next_gives = { IsNext S.text S.bytes S.within S.span };

    ghost remaining = { λ m. at_most (items_bound S.text S.bytes m) };

    fn next(&mut self) -> Option<Result<S::Match>> {
        let haystack = self.searcher.haystack();
        match self
            .searcher
            .next_item(&self.regex.program, &mut self.cache)
        {
            None => None,
            Some(Ok(item)) => Some(Ok(haystack.make_match(item.found.start, item.found.end))),
            Some(Err(error)) => Some(Err(error)),
        }
    }
}
