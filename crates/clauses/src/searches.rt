//! The first match, and whether there is one.
//!
//! `asked_whole`, `asked_from` and `asked_by` are the queries of a regex on a whole haystack, from an offset on, and for an input.
//! `search` is what a query finds. `Refuses` says what may refuse it, and `Allows` that it kept within its limit of returns.

ghost use Rattle.std.specs.Prelude.{◌↔◌, ◌≡◌, IfErr, IfOk, IfSome, None, is_some, string_bytes, true};
ghost use Rattle.fancy_regex.specs.Answers.{HasNone};
ghost use Rattle.fancy_regex.specs.Captures.{found_by, searched_in, spans_if};
ghost use Rattle.fancy_regex.specs.Inputs.{haystack_in, request_in};
ghost use Rattle.fancy_regex.specs.Limited.{Allows, AllowsEachStep, Refuses};
ghost use Rattle.fancy_regex.specs.Regexes.{easy_in, options_in, query};
ghost use Rattle.fancy_regex.specs.Requests.{whole};
ghost use Rattle.fancy_regex.specs.Search.{search};
ghost use Rattle.fancy_regex.specs.SearchCounts.{IsOutOfSteps};
ghost use Rattle.fancy_regex.specs.Searches.{CanSearchInput, FindsFirst, asked_by, asked_from, asked_whole, first_groups};
ghost use Rattle.fancy_regex.specs.Searching.{StartsCleanly, Suits};
ghost use Rattle.fancy_regex.specs.Spans.{bytes_in, span_in, span_in_bytes, text_in};

use fancy_regex::{Captures, Input, Match, MatchBytes, Regex, RegexInput, Result, SearchCache};
use std::alloc::Global;

/// The first match in a haystack.
pub fn find<S: Input>(regex: &Regex, haystack: S) -> Result<Option<S::Match>>
    requires suits { Suits (options_in regex.now) (S.text haystack) (S.bytes haystack) }
    ensures found { IfOk result
        (λ m. FindsFirst S.span m (asked_whole regex.now S.bytes haystack)) }
    ensures none { IfOk result
        (λ m. (m ≡ None) ↔ HasNone (asked_whole regex.now S.bytes haystack)) }
    ensures within { IfOk result (λ m. IfSome m (λ x. S.within x ≡ S.bytes haystack)) }
    ensures refused { IfErr result
        (λ e. Refuses regex.now (asked_whole regex.now S.bytes haystack) e) }
    ensures allowed { IfOk result (λ _. Allows regex.now (asked_whole regex.now S.bytes haystack)) }
{
    regex.find(haystack)
}

/// The first match from an offset on, which may be any number.
pub fn find_from_pos<S: Input>(regex: &Regex, haystack: S, start: usize) -> Result<Option<S::Match>>
    requires suits { Suits (options_in regex.now) (S.text haystack) (S.bytes haystack) }
    requires starts { StartsCleanly (S.text haystack) (S.bytes haystack) start }
    ensures found { IfOk result
        (λ m. FindsFirst S.span m (asked_from regex.now S.bytes haystack start)) }
    ensures none { IfOk result
        (λ m. (m ≡ None) ↔ HasNone (asked_from regex.now S.bytes haystack start)) }
    ensures within { IfOk result (λ m. IfSome m (λ x. S.within x ≡ S.bytes haystack)) }
    ensures refused { IfErr result
        (λ e. Refuses regex.now (asked_from regex.now S.bytes haystack start) e) }
    ensures allowed { IfOk result
        (λ _. Allows regex.now (asked_from regex.now S.bytes haystack start)) }
{
    regex.find_from_pos(haystack, start)
}

/// The first match that an input asks for.
pub fn find_input<S: Input>(regex: &Regex, input: RegexInput<S>) -> Result<Option<S::Match>>
    requires searched { CanSearchInput S.text S.bytes (options_in regex.now) input }
    ensures found { IfOk result (λ m. FindsFirst S.span m (asked_by regex.now S.bytes input)) }
    ensures none { IfOk result (λ m. (m ≡ None) ↔ HasNone (asked_by regex.now S.bytes input)) }
    ensures within { IfOk result (λ m. IfSome m (λ x. S.within x ≡ S.bytes (haystack_in input))) }
    ensures refused { IfErr result (λ e. Refuses regex.now (asked_by regex.now S.bytes input) e) }
    ensures allowed { IfOk result (λ _. Allows regex.now (asked_by regex.now S.bytes input)) }
{
    regex.find_input(input)
}

/// The first match that an input asks for, found in memory that the caller holds.
pub fn find_input_with<S: Input>(
    regex: &Regex,
    cache: &mut SearchCache,
    input: RegexInput<S>,
) -> Result<Option<S::Match>>
    requires searched { CanSearchInput S.text S.bytes (options_in regex.now) input }
    ensures found { IfOk result (λ m. FindsFirst S.span m (asked_by regex.now S.bytes input)) }
    ensures none { IfOk result (λ m. (m ≡ None) ↔ HasNone (asked_by regex.now S.bytes input)) }
    ensures within { IfOk result (λ m. IfSome m (λ x. S.within x ≡ S.bytes (haystack_in input))) }
    ensures refused { IfErr result (λ e. Refuses regex.now (asked_by regex.now S.bytes input) e) }
    ensures allowed { IfOk result (λ _. Allows regex.now (asked_by regex.now S.bytes input)) }
    ensures unlimited { easy_in regex.now ≡ true → AllowsEachStep regex.now (request_in input)
        → IsOutOfSteps result → ⊥ }
{
    regex.find_input_with(cache, input)
}

/// What searches work in, without memory at first.
pub fn new_cache(alloc: Global) -> SearchCache {
    SearchCache::new(alloc)
}

/// Whether a haystack has a match.
pub fn is_match<S: Input>(regex: &Regex, haystack: S) -> Result<bool>
    requires suits { Suits (options_in regex.now) (S.text haystack) (S.bytes haystack) }
    ensures found { IfOk result
        (λ b. b ≡ is_some (search (asked_whole regex.now S.bytes haystack))) }
    ensures refused { IfErr result
        (λ e. Refuses regex.now (asked_whole regex.now S.bytes haystack) e) }
    ensures allowed { IfOk result (λ _. Allows regex.now (asked_whole regex.now S.bytes haystack)) }
{
    regex.is_match(haystack)
}

/// Whether there is a match that an input asks for.
pub fn is_match_input<S: Input>(regex: &Regex, input: RegexInput<S>) -> Result<bool>
    requires searched { CanSearchInput S.text S.bytes (options_in regex.now) input }
    ensures found { IfOk result (λ b. b ≡ is_some (search (asked_by regex.now S.bytes input))) }
    ensures refused { IfErr result (λ e. Refuses regex.now (asked_by regex.now S.bytes input) e) }
    ensures allowed { IfOk result (λ _. Allows regex.now (asked_by regex.now S.bytes input)) }
{
    regex.is_match_input(input)
}

/// The groups of the first match in a haystack.
pub fn captures<'r, S: Input>(regex: &'r Regex, haystack: S) -> Result<Option<Captures<'r, S>>>
    requires suits { Suits (options_in regex.now) (S.text haystack) (S.bytes haystack) }
    ensures found { IfOk result
        (λ m. spans_if m ≡ first_groups (asked_whole regex.now S.bytes haystack)) }
    ensures within { IfOk result (λ m. IfSome m (λ c. searched_in c ≡ haystack)) }
    ensures regex { IfOk result (λ m. IfSome m (λ c. found_by c ≡ regex.now)) }
    ensures refused { IfErr result
        (λ e. Refuses regex.now (asked_whole regex.now S.bytes haystack) e) }
    ensures allowed { IfOk result (λ _. Allows regex.now (asked_whole regex.now S.bytes haystack)) }
{
    regex.captures(haystack)
}

/// The groups of the first match from an offset on.
pub fn captures_from_pos<'r, S: Input>(
    regex: &'r Regex,
    haystack: S,
    start: usize,
) -> Result<Option<Captures<'r, S>>>
    requires suits { Suits (options_in regex.now) (S.text haystack) (S.bytes haystack) }
    requires starts { StartsCleanly (S.text haystack) (S.bytes haystack) start }
    ensures found { IfOk result
        (λ m. spans_if m ≡ first_groups (asked_from regex.now S.bytes haystack start)) }
    ensures within { IfOk result (λ m. IfSome m (λ c. searched_in c ≡ haystack)) }
    ensures regex { IfOk result (λ m. IfSome m (λ c. found_by c ≡ regex.now)) }
    ensures refused { IfErr result
        (λ e. Refuses regex.now (asked_from regex.now S.bytes haystack start) e) }
    ensures allowed { IfOk result
        (λ _. Allows regex.now (asked_from regex.now S.bytes haystack start)) }
{
    regex.captures_from_pos(haystack, start)
}

/// The groups of the first match that an input asks for.
pub fn captures_input<'r, S: Input>(
    regex: &'r Regex,
    input: RegexInput<S>,
) -> Result<Option<Captures<'r, S>>>
    requires searched { CanSearchInput S.text S.bytes (options_in regex.now) input }
    ensures found { IfOk result
        (λ m. spans_if m ≡ first_groups (asked_by regex.now S.bytes input)) }
    ensures within { IfOk result (λ m. IfSome m (λ c. searched_in c ≡ haystack_in input)) }
    ensures regex { IfOk result (λ m. IfSome m (λ c. found_by c ≡ regex.now)) }
    ensures refused { IfErr result (λ e. Refuses regex.now (asked_by regex.now S.bytes input) e) }
    ensures allowed { IfOk result (λ _. Allows regex.now (asked_by regex.now S.bytes input)) }
{
    regex.captures_input(input)
}

/// The groups of the first match that an input asks for, found in memory that the caller holds.
pub fn captures_input_with<'r, S: Input>(
    regex: &'r Regex,
    cache: &mut SearchCache,
    input: RegexInput<S>,
) -> Result<Option<Captures<'r, S>>>
    requires searched { CanSearchInput S.text S.bytes (options_in regex.now) input }
    ensures found { IfOk result
        (λ m. spans_if m ≡ first_groups (asked_by regex.now S.bytes input)) }
    ensures within { IfOk result (λ m. IfSome m (λ c. searched_in c ≡ haystack_in input)) }
    ensures regex { IfOk result (λ m. IfSome m (λ c. found_by c ≡ regex.now)) }
    ensures refused { IfErr result (λ e. Refuses regex.now (asked_by regex.now S.bytes input) e) }
    ensures allowed { IfOk result (λ _. Allows regex.now (asked_by regex.now S.bytes input)) }
    ensures unlimited { easy_in regex.now ≡ true → AllowsEachStep regex.now (request_in input)
        → IsOutOfSteps result → ⊥ }
{
    regex.captures_input_with(cache, input)
}

/// In a `&str` a match is one of text, with a text's ends.
pub fn find_in_text<'t>(regex: &Regex, text: &'t str) -> Result<Option<Match<'t>>>
    requires { Suits (options_in regex.now) true text.now }
    ensures found { IfOk result
        (λ m. FindsFirst (λ x. span_in x) m (query regex.now text.now (whole text.now))) }
    ensures within { IfOk result (λ m. IfSome m (λ x. text_in x ≡ text.now)) }
{
    regex.find(text)
}

/// So it is in a `&String`.
pub fn find_in_string<'t>(regex: &Regex, text: &'t String) -> Result<Option<Match<'t>>>
    requires { Suits (options_in regex.now) true (string_bytes text.now) }
    ensures found { IfOk result (λ m. FindsFirst (λ x. span_in x) m
        (query regex.now (string_bytes text.now) (whole (string_bytes text.now)))) }
    ensures within { IfOk result (λ m. IfSome m (λ x. text_in x ≡ string_bytes text.now)) }
{
    regex.find(text)
}

/// A `&[u8]` may always be searched, and a match in it is one in bytes.
pub fn find_in_bytes<'t>(regex: &Regex, bytes: &'t [u8]) -> Result<Option<MatchBytes<'t>>>
    ensures found { IfOk result
        (λ m. FindsFirst (λ x. span_in_bytes x) m (query regex.now bytes.now (whole bytes.now))) }
    ensures within { IfOk result (λ m. IfSome m (λ x. bytes_in x ≡ bytes.now)) }
{
    regex.find(bytes)
}

/// So it is with a `&[u8; N]`.
pub fn find_in_array<'t, const N: usize>(
    regex: &Regex,
    bytes: &'t [u8; N],
) -> Result<Option<MatchBytes<'t>>>
    ensures found { IfOk result
        (λ m. FindsFirst (λ x. span_in_bytes x) m (query regex.now bytes.now (whole bytes.now))) }
    ensures within { IfOk result (λ m. IfSome m (λ x. bytes_in x ≡ bytes.now)) }
{
    regex.find(bytes)
}
