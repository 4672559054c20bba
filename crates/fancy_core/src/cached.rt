//! Searches that work in memory which the caller holds.

ghost use Rattle.std.specs.Prelude.{◌≡◌, ◌↔◌, None, IfOk, IfErr, IfSome, true};
ghost use Rattle.fancy_input.specs.Inputs.{haystack_in, request_in};
ghost use Rattle.fancy_meaning.specs.Answers.{HasNone};
ghost use Rattle.fancy_core.specs.Captures.{spans_if, searched_in, found_by};
ghost use Rattle.fancy_core.specs.Limited.{Refuses, Allows, AllowsEachStep};
ghost use Rattle.fancy_core.specs.Regexes.{options_in, easy_in};
ghost use Rattle.fancy_core.specs.Searches.{CanSearchInput, FindsFirst, asked_by, first_groups};
ghost use Rattle.fancy_search.specs.SearchCounts.{IsOutOfSteps};

use crate::captures::Captures;
use crate::regex::Regex;
use fancy_input::input::Input;
use fancy_input::regex_input::RegexInput;
use fancy_input::work::Work;
use fancy_search::asked::Asked;
use fancy_search::cache::Cache;
use fancy_tree::error::Result;
use std::alloc::Global;

/// What searches work in, held by the caller from one to the next: those of any regexes, in any haystacks.
///
/// It has no memory at first. A search takes what it needs, and the cache keeps it for the next one, until it is dropped. No answer
/// depends on what was searched before.
///
/// ```text
/// let mut cache = SearchCache::new(alloc);
/// for line in lines {
///     let found = regex.find_input_with(&mut cache, RegexInput::new(line))?;
/// }
/// ```
pub struct SearchCache {
    engines: Cache,
}

/// By hand, so that crates above do not prove it once more.
impl Drop for SearchCache {
    fn drop(self) {
        let SearchCache { engines: _ } = self;
    }
}

impl SearchCache {
    /// It has no memory yet; searches take theirs from `alloc`.
    pub fn new(alloc: Global) -> SearchCache {
        SearchCache {
            engines: Cache::new(alloc),
        }
    }
}

impl Regex {
    /// The first match that the input asks for, or none, as [`Regex::find_input`] answers. It works in `cache`, which may have
    /// served any searches before.
    ///
    /// It is refused as [`Regex::find_input`] is. After a refusal the cache serves as before.
    ///
    /// ```text
    /// let mut cache = SearchCache::new(alloc);
    /// let regex = Regex::new(alloc, "(?<=id=)\\d+")?;
    /// regex.find_input_with(&mut cache, RegexInput::new("id=7"))     // Some: 3..4
    /// regex.find_input_with(&mut cache, RegexInput::new("no id"))    // None
    /// ```
    pub fn find_input_with<S: Input>(
        &self,
        cache: &mut SearchCache,
        input: RegexInput<S>,
    ) -> Result<Option<S::Match>>
        requires searched { CanSearchInput S.text S.bytes (options_in self.now) input }
        ensures found { IfOk result (λ m. FindsFirst S.span m (asked_by self.now S.bytes input)) }
        ensures none { IfOk result (λ m. (m ≡ None) ↔ HasNone (asked_by self.now S.bytes input)) }
        ensures within { IfOk result (λ m. IfSome m (λ x.
            S.within x ≡ S.bytes (haystack_in input))) }
        ensures refused { IfErr result (λ e. Refuses self.now (asked_by self.now S.bytes input) e) }
        ensures allowed { IfOk result (λ _. Allows self.now (asked_by self.now S.bytes input)) }
        ensures unlimited { easy_in self.now ≡ true → AllowsEachStep self.now (request_in input)
            → IsOutOfSteps result → ⊥ }
    {
        let haystack = input.haystack();
        let request = input.request();
        let mut work = Work::new();
        let asked = Asked {
            haystack: haystack.as_bytes(),
            text: haystack.is_text(),
            request: &request,
            continues: true,
            groups: false,
        };
        let found = self.program.search(&asked, &mut cache.engines, &mut work)?;
        let Some(found) = found else {
            return Ok(None);
        };
        Ok(Some(haystack.make_match(found.start, found.end)))
    }

    /// The groups of the first match that the input asks for, or none, as [`Regex::captures_input`] answers. It works in `cache`,
    /// which may have served any searches before. Memory is taken for the groups of the answer.
    ///
    /// It is refused as [`Regex::find_input`] is. After a refusal the cache serves as before.
    ///
    /// ```text
    /// let mut cache = SearchCache::new(alloc);
    /// let regex = Regex::new(alloc, "(a)b")?;
    /// regex.captures_input_with(&mut cache, RegexInput::new("xab"))    // Some: 1..3, group 1 1..2
    /// ```
    pub fn captures_input_with<'r, S: Input>(
        &'r self,
        cache: &mut SearchCache,
        input: RegexInput<S>,
    ) -> Result<Option<Captures<'r, S>>>
        requires searched { CanSearchInput S.text S.bytes (options_in self.now) input }
        ensures found { IfOk result (λ m.
            spans_if m ≡ first_groups (asked_by self.now S.bytes input)) }
        ensures within { IfOk result (λ m. IfSome m (λ c. searched_in c ≡ haystack_in input)) }
        ensures regex { IfOk result (λ m. IfSome m (λ c. found_by c ≡ self.now)) }
        ensures refused { IfErr result (λ e. Refuses self.now (asked_by self.now S.bytes input) e) }
        ensures allowed { IfOk result (λ _. Allows self.now (asked_by self.now S.bytes input)) }
        ensures unlimited { easy_in self.now ≡ true → AllowsEachStep self.now (request_in input)
            → IsOutOfSteps result → ⊥ }
    {
        let found = self.capture(input.haystack(), input.request(), &mut cache.engines)?;
        Ok(found)
    }
}
