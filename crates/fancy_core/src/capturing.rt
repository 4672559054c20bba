//! Searches for a match with its groups.

ghost use Rattle.std.specs.Prelude.{◌≡◌, ◌≤◌, IfOk, IfErr, IfSome, length, true};
ghost use Rattle.fancy_input.specs.Inputs.{haystack_in, request_in};
ghost use Rattle.fancy_core.specs.Captures.{spans_if, searched_in, found_by};
ghost use Rattle.fancy_core.specs.Limited.{Refuses, Allows, AllowsEachStep};
ghost use Rattle.fancy_core.specs.Regexes.{options_in, easy_in, query};
ghost use Rattle.fancy_core.specs.Searches.{CanSearchInput, asked_whole, asked_from, asked_by, first_groups};
ghost use Rattle.fancy_search.specs.SearchCounts.{IsOutOfSteps};
ghost use Rattle.fancy_search.specs.Searching.{Suits, StartsCleanly};

use crate::captures::Captures;
use crate::regex::Regex;
use fancy_input::input::{Input, Request};
use fancy_input::regex_input::RegexInput;
use fancy_input::work::Work;
use fancy_search::asked::Asked;
use fancy_search::cache::Cache;
use fancy_search::groups::groups_found;
use fancy_tree::error::Result;

impl Regex {
    /// The groups of the first match in the haystack, or none.
    ///
    /// ```text
    /// Regex::new(alloc, "(a)?(b|)")?.captures("ab")  // 0..2, group 1 0..1, group 2 1..2
    /// ```
    ///
    /// It is refused as [`Regex::find_input`] is.
    pub fn captures<'r, S: Input>(&'r self, haystack: S) -> Result<Option<Captures<'r, S>>>
        requires suits { Suits (options_in self.now) (S.text haystack) (S.bytes haystack) }
        ensures found { IfOk result (λ m.
            spans_if m ≡ first_groups (asked_whole self.now S.bytes haystack)) }
        ensures within { IfOk result (λ m. IfSome m (λ c. searched_in c ≡ haystack)) }
        ensures regex { IfOk result (λ m. IfSome m (λ c. found_by c ≡ self.now)) }
        ensures refused { IfErr result (λ e.
            Refuses self.now (asked_whole self.now S.bytes haystack) e) }
        ensures allowed { IfOk result (λ _.
            Allows self.now (asked_whole self.now S.bytes haystack)) }
    {
        let input = RegexInput::new(haystack);
        let found = self.captures_input(input)?;
        Ok(found)
    }

    /// The groups of the first match from the byte offset `start` on, which may be any number: past the end there
    /// is none.
    ///
    /// It is refused as [`Regex::find_input`] is.
    ///
    /// ```text
    /// Regex::new(alloc, "(a)b")?.captures_from_pos("abab", 1)    // Some: 2..4, group 1 2..3
    /// ```
    pub fn captures_from_pos<'r, S: Input>(
        &'r self,
        haystack: S,
        start: usize,
    ) -> Result<Option<Captures<'r, S>>>
        requires suits { Suits (options_in self.now) (S.text haystack) (S.bytes haystack) }
        requires starts { StartsCleanly (S.text haystack) (S.bytes haystack) start }
        ensures found { IfOk result (λ m.
            spans_if m ≡ first_groups (asked_from self.now S.bytes haystack start)) }
        ensures within { IfOk result (λ m. IfSome m (λ c. searched_in c ≡ haystack)) }
        ensures regex { IfOk result (λ m. IfSome m (λ c. found_by c ≡ self.now)) }
        ensures refused { IfErr result (λ e.
            Refuses self.now (asked_from self.now S.bytes haystack start) e) }
        ensures allowed { IfOk result (λ _.
            Allows self.now (asked_from self.now S.bytes haystack start)) }
    {
        let input = RegexInput::new(haystack).from_pos(start);
        let found = self.captures_input(input)?;
        Ok(found)
    }

    /// The groups of the first match that the input asks for, or none. It is refused as [`Regex::find_input`] is.
    ///
    /// ```text
    /// let input = RegexInput::new("abab").from_pos(1);
    /// Regex::new(alloc, "(a)b")?.captures_input(input)    // Some: 2..4, group 1 2..3
    /// ```
    pub fn captures_input<'r, S: Input>(
        &'r self,
        input: RegexInput<S>,
    ) -> Result<Option<Captures<'r, S>>>
        requires searched { CanSearchInput S.text S.bytes (options_in self.now) input }
        ensures found { IfOk result (λ m.
            spans_if m ≡ first_groups (asked_by self.now S.bytes input)) }
        ensures within { IfOk result (λ m. IfSome m (λ c. searched_in c ≡ haystack_in input)) }
        ensures regex { IfOk result (λ m. IfSome m (λ c. found_by c ≡ self.now)) }
        ensures refused { IfErr result (λ e. Refuses self.now (asked_by self.now S.bytes input) e) }
        ensures allowed { IfOk result (λ _. Allows self.now (asked_by self.now S.bytes input)) }
        ensures unlimited { easy_in self.now ≡ true → AllowsEachStep self.now (request_in input)
            → IsOutOfSteps result → ⊥ }
    {
        let mut cache = Cache::new(self.allocator());
        let found = self.capture(input.haystack(), input.request(), &mut cache)?;
        Ok(found)
    }

    /// The groups of the first match in the haystack that the request asks for, or none.
    pub(crate) fn capture<'r, S: Input>(
        &'r self,
        haystack: S,
        request: Request,
        cache: &mut Cache,
    ) -> Result<Option<Captures<'r, S>>>
        requires inside { request.range_end ≤ length (S.bytes haystack) }
        requires suits { Suits (options_in self.now) (S.text haystack) (S.bytes haystack) }
        ensures found { IfOk result (λ m.
            spans_if m ≡ first_groups (query self.now (S.bytes haystack) request)) }
        ensures within { IfOk result (λ m. IfSome m (λ c. searched_in c ≡ haystack)) }
        ensures regex { IfOk result (λ m. IfSome m (λ c. found_by c ≡ self.now)) }
        ensures refused { IfErr result (λ e.
            Refuses self.now (query self.now (S.bytes haystack) request) e) }
        ensures allowed { IfOk result (λ _.
            Allows self.now (query self.now (S.bytes haystack) request)) }
        ensures unlimited { easy_in self.now ≡ true → AllowsEachStep self.now request
            → IsOutOfSteps result → ⊥ }
    {
        let mut work = Work::new();
        let asked = Asked {
            haystack: haystack.as_bytes(),
            text: haystack.is_text(),
            request: &request,
            continues: true,
            groups: true,
        };
        let found = self.program.search(&asked, cache, &mut work)?;
        let Some(found) = found else {
            return Ok(None);
        };
        let groups = groups_found(self.allocator(), &self.program, found, cache)?;
        Ok(Some(Captures::new(self, haystack, groups)))
    }
}
