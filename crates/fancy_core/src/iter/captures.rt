//! Iterators over matches with their groups.

ghost use Rattle.std.specs.Prelude.{◌≡◌, ◌<◌, ◌^◌, true, false};
ghost use Rattle.std.specs.Iterator.{at_most};
ghost use Rattle.fancy_input.specs.Inputs.{haystack_in, request_in};
ghost use Rattle.fancy_input.specs.Requests.{whole};
ghost use Rattle.fancy_core.specs.Regexes.{options_in};
ghost use Rattle.fancy_core.specs.Searches.{CanSearchInput, last_start_in_whole, last_start_of_input, last_start_onward};
ghost use Rattle.fancy_search.specs.Searching.{Suits};

use crate::captures::Captures;
use crate::iter::Matches;
use crate::regex::Regex;
use fancy_input::input::{Haystack, Input};
use fancy_input::regex_input::RegexInput;
use fancy_search::cache::Cache;
use fancy_search::groups::groups_found;
use fancy_search::searcher::{Onward, Searcher};
use fancy_tree::error::{Error, Result};

/// The matches of an input with their groups, one after another.
///
/// They are those of [`Matches`], in the same order. An item is an error where a search is refused or memory runs out for the
/// groups, and the list ends after it. Made by [`Regex::captures_iter`].
#[derive(Drop)]
pub struct CaptureMatches<'r, S: Haystack> {
    matches: Matches<'r, S>,
    ghost asks: { matches.searcher.groups ≡ true },
}

impl Regex {
    ghost use Rattle.fancy_core.specs.CaptureIterations.{groups_left, groups_in_whole, groups_of_input, groups_onward, matches_in};
    ghost use Rattle.fancy_core.specs.Iterations.{end_in, items_bound, regex_in, haystack_of, has_ended, next_request, onward_of};

    /// The matches in the haystack with their groups, from its start on.
    ///
    /// ```text
    /// Regex::new(alloc, "a(b)?")?.captures_iter("aab")  // 0..1, and 1..3 with group 1 at 2..3
    /// ```
    #[tactic(auto, using(fancy_search::proofs::ScanLemmas::few_turns))]
    pub fn captures_iter<S: Input>(&self, haystack: S) -> CaptureMatches<'_, S>
        requires suits { Suits (options_in self.now) (S.text haystack) (S.bytes haystack) }
        ensures matches { groups_left S.text S.bytes result
            ≡ groups_in_whole self.now S.text S.bytes haystack }
        ensures end { end_in S.text S.bytes (matches_in result)
            ≡ last_start_in_whole self.now S.text S.bytes haystack }
        ensures countable { items_bound S.text S.bytes (matches_in result) < 2 ^ 64 }
        ensures regex { regex_in (matches_in result) ≡ self.now }
        ensures text { haystack_of (matches_in result) ≡ haystack }
        ensures request { next_request (matches_in result) ≡ whole (S.bytes haystack) }
    {
        CaptureMatches {
            matches: Matches {
                regex: self,
                searcher: Searcher::new(RegexInput::new(haystack), true),
                cache: Cache::new(self.allocator()),
            },
        }
    }

    /// The matches that the input asks for, with their groups.
    ///
    /// ```text
    /// let input = RegexInput::new("ba").from_pos(1);
    /// Regex::new(alloc, "(a)|b")?.captures_iter_input(input)    // 1..2, group 1 1..2
    /// ```
    #[tactic(auto, using(fancy_search::proofs::ScanLemmas::few_turns))]
    pub fn captures_iter_input<S: Input>(&self, input: RegexInput<S>) -> CaptureMatches<'_, S>
        requires searched { CanSearchInput S.text S.bytes (options_in self.now) input }
        ensures matches { groups_left S.text S.bytes result
            ≡ groups_of_input self.now S.text S.bytes input }
        ensures end { end_in S.text S.bytes (matches_in result)
            ≡ last_start_of_input self.now S.text S.bytes input }
        ensures countable { items_bound S.text S.bytes (matches_in result) < 2 ^ 64 }
        ensures regex { regex_in (matches_in result) ≡ self.now }
        ensures text { haystack_of (matches_in result) ≡ haystack_in input }
        ensures request { next_request (matches_in result) ≡ request_in input }
    {
        CaptureMatches {
            matches: Matches {
                regex: self,
                searcher: Searcher::new(input, true),
                cache: Cache::new(self.allocator()),
            },
        }
    }

    /// The matches that the input asks for with their groups, as a list goes on that came so far, as [`Regex::resume_matches`] gives
    /// them.
    ///
    /// ```text
    /// let mut matches = regex.captures_iter("aab");    // of (a)*
    /// matches.next()                                   // Some: 0..2, group 1 1..2
    /// let (input, onward) = (matches.input(), matches.onward());
    /// regex.resume_captures(input, onward)             // 3..3, without group 1
    /// ```
    #[tactic(auto, using(fancy_search::proofs::ScanLemmas::few_turns))]
    pub fn resume_captures<S: Input>(
        &self,
        input: RegexInput<S>,
        onward: Onward,
    ) -> CaptureMatches<'_, S>
        requires searched { CanSearchInput S.text S.bytes (options_in self.now) input }
        ensures matches { groups_left S.text S.bytes result ≡ groups_onward self.now
            (S.text (haystack_in input)) (S.bytes (haystack_in input)) (request_in input) onward }
        ensures end { end_in S.text S.bytes (matches_in result) ≡ last_start_onward self.now
            (S.text (haystack_in input)) (S.bytes (haystack_in input)) (request_in input) onward }
        ensures countable { items_bound S.text S.bytes (matches_in result) < 2 ^ 64 }
        ensures regex { regex_in (matches_in result) ≡ self.now }
        ensures text { haystack_of (matches_in result) ≡ haystack_in input }
        ensures request { next_request (matches_in result) ≡ request_in input }
        ensures onward { onward_of (matches_in result) ≡ onward }
        ensures goes_on { has_ended (matches_in result) ≡ false }
    {
        CaptureMatches {
            matches: Matches {
                regex: self,
                searcher: Searcher::resume(input, onward, true),
                cache: Cache::new(self.allocator()),
            },
        }
    }
}

impl<'r, S: Input> CaptureMatches<'r, S> {
    ghost use Rattle.fancy_core.specs.CaptureIterations.{groups_left, groups_onward, matches_in};
    ghost use Rattle.fancy_core.specs.Iterations.{regex_in, haystack_of, has_ended, next_request, onward_of};

    /// The regex that searches.
    pub fn regex(&self) -> &'r Regex
        ensures { result.now ≡ regex_in (matches_in self.now) }
    {
        self.matches.regex()
    }

    /// The whole haystack, also where a part of it is searched.
    pub fn text(&self) -> S
        ensures { result ≡ haystack_of (matches_in self.now) }
    {
        self.matches.text()
    }

    /// The input of the next search, as [`Matches::input`] has it.
    pub fn input(&self) -> RegexInput<S>
        ensures haystack { haystack_in result ≡ haystack_of (matches_in self.now) }
        ensures request { request_in result ≡ next_request (matches_in self.now) }
    {
        self.matches.input()
    }

    /// How the list goes on from where the next search starts, for [`Regex::resume_captures`], as [`Matches::onward`] has it.
    pub fn onward(&self) -> Onward
        ensures onward { result ≡ onward_of (matches_in self.now) }
        ensures left { has_ended (matches_in self.now) ≡ false → groups_left S.text S.bytes self.now
            ≡ groups_onward (regex_in (matches_in self.now))
            (S.text (haystack_of (matches_in self.now))) (S.bytes (haystack_of (matches_in self.now)))
            (next_request (matches_in self.now)) result }
    {
        self.matches.onward()
    }
}

impl<'r, S: Input> Iterator for CaptureMatches<'r, S> {
    ghost use Rattle.fancy_core.specs.CaptureIterations.{IsNextCaptures, matches_in};
    ghost use Rattle.fancy_core.specs.Iterations.{items_bound};

    type Item = Result<Captures<'r, S>>;

    ghost next_gives = { IsNextCaptures S.text S.bytes };

    ghost remaining = { λ m. at_most (items_bound S.text S.bytes (matches_in m)) };

    fn next(&mut self) -> Option<Result<Captures<'r, S>>> {
        let matches = &mut self.matches;
        let regex = matches.regex;
        let haystack = matches.searcher.haystack();
        match matches
            .searcher
            .next_item(&regex.program, &mut matches.cache)
        {
            None => None,
            Some(Ok(item)) => {
                let program = &regex.program;
                match groups_found(regex.allocator(), program, item.found, &matches.cache) {
                    Ok(groups) => Some(Ok(Captures::new(regex, haystack, groups))),
                    Err(_) => {
                        matches.searcher.refuse();
                        Some(Err(Error::Memory))
                    }
                }
            }
            Some(Err(error)) => Some(Err(error)),
        }
    }
}
