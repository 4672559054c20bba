//! Several patterns at once.
//!
//! `members_of` gives the patterns of a set, `asked_of_set` what they are asked, and `set_position` the least position where one
//! of them matches.

ghost use Rattle.std.specs.Prelude.{◌==◌, ◌↔◌, ◌≡◌, ◌≤◌, ℕ, IfErr, IfNone, IfOk, IfSome, IsTrue, None, Some, [], length, option_map, string_bytes, ⊤};
ghost use Rattle.fancy_regex.specs.Builders.{options_of};
ghost use Rattle.fancy_regex.specs.Captures.{searched_in};
ghost use Rattle.fancy_regex.specs.Groups.{IsPart};
ghost use Rattle.fancy_regex.specs.Inputs.{haystack_in, request_in};
ghost use Rattle.fancy_regex.specs.Options.{by_default};
ghost use Rattle.fancy_regex.specs.NextAnswers.{ByAnswer};
ghost use Rattle.fancy_regex.specs.Remaining.{IfItem};
ghost use Rattle.fancy_regex.specs.SetCounts.{AreAllEasy, most_steps_of_all};
ghost use Rattle.fancy_regex.specs.SearchCounts.{IsOutOfSteps};
ghost use Rattle.fancy_regex.specs.SetLimits.{AllowAllSteps, IsSpentForOne, ShareLimit};
ghost use Rattle.fancy_regex.specs.SetMatches.{GivesMember, GivesRefusal, captures_of, haystack_of_set, match_span, members_to_come, next_member, pattern_index, position_of, question_of, request_of_set, set_of};
ghost use Rattle.fancy_regex.specs.SetMembers.{RefusesSet, members_at, set_position};
ghost use Rattle.fancy_regex.specs.Sets.{AreReadings, CanSearchAll, HaveOptions, RefusesFirst, asked_of_set, bytes_of_each, members_of};
ghost use Rattle.fancy_regex.specs.Work.{returns_of, steps_of, work_of};

use fancy_regex::{
    Captures, Input, Regex, RegexInput, RegexOptionsBuilder, RegexSet, RegexSetMatch,
    RegexSetMatchesAt, Result, Work,
};
use std::alloc::Global;

/// Patterns with the default options. The first that is refused says why.
pub fn new(alloc: Global, patterns: &[&str]) -> Result<RegexSet>
    ensures read { IfOk result
        (λ s. AreReadings by_default (bytes_of_each patterns.now) (members_of s)) }
    ensures options { IfOk result (λ s. HaveOptions by_default (members_of s)) }
    ensures refused { IfErr result (λ e. RefusesFirst by_default (bytes_of_each patterns.now) e) }
{
    RegexSet::new(alloc, patterns)
}

/// Patterns with other options.
pub fn new_with_options(
    alloc: Global,
    patterns: &[&str],
    options: &RegexOptionsBuilder,
) -> Result<RegexSet>
    ensures read { IfOk result
        (λ s. AreReadings (options_of options.now) (bytes_of_each patterns.now) (members_of s)) }
    ensures options { IfOk result (λ s. HaveOptions (options_of options.now) (members_of s)) }
    ensures refused { IfErr result
        (λ e. RefusesFirst (options_of options.now) (bytes_of_each patterns.now) e) }
{
    RegexSet::new_with_options(alloc, patterns, options)
}

/// The set of these regexes.
pub fn from_regexes(members: Vec<Regex>) -> RegexSet
    ensures { members_of result ≡ members.items }
{
    RegexSet::from_regexes(members)
}

/// How many patterns a set has, and whether it has none.
pub fn reads(set: &RegexSet) -> (usize, bool)
    ensures len { result.0 ≡ length (members_of set.now) }
    ensures is_empty { result.1 ≡ (length (members_of set.now) == 0) }
{
    (set.len(), set.is_empty())
}

/// Whether each pattern may search an input: the condition of a search of a set.
pub fn can_search<S: Input>(set: &RegexSet, input: &RegexInput<S>) -> bool
    ensures { IsTrue result ↔ CanSearchAll S.text S.bytes set.now input.now }
{
    set.can_search(input)
}

/// The matches at the least position where a pattern matches.
pub fn find_input<S: Input>(
    set: &RegexSet,
    input: RegexInput<S>,
) -> Result<Option<RegexSetMatchesAt<'_, S>>>
    requires searched { CanSearchAll S.text S.bytes set.now input }
    ensures none { IfOk result
        (λ m. (m ≡ None) ↔ (set_position (asked_of_set set.now S.bytes input) ≡ None)) }
    ensures set { IfOk result (λ m. IfSome m (λ x. set_of x ≡ set.now)) }
    ensures haystack { IfOk result (λ m. IfSome m (λ x. haystack_of_set x ≡ haystack_in input)) }
    ensures request { IfOk result (λ m. IfSome m (λ x. request_of_set x ≡ request_in input)) }
    ensures stands { IfOk result (λ m. IfSome m
        (λ x. set_position (question_of S.bytes x) ≡ Some (position_of x))) }
    ensures items { IfOk result (λ m. IfSome m
        (λ x. members_to_come S.bytes x ≡ members_at (question_of S.bytes x) (position_of x))) }
    ensures refused { IfErr result (RefusesSet (asked_of_set set.now S.bytes input)) }
    ensures unlimited { AreAllEasy (members_of set.now)
        → AllowAllSteps (members_of set.now) (request_in input) → IsOutOfSteps result → ⊥ }
{
    set.find_input(input)
}

/// The same, and how much this call did: where all patterns are easy, no more steps than searches with each of them alone may take,
/// and where all have one limit of work, no more work than that.
pub fn find_input_counted<'r, S: Input>(
    set: &'r RegexSet,
    input: RegexInput<S>,
    work: &mut Work,
) -> Result<Option<RegexSetMatchesAt<'r, S>>>
    requires searched { CanSearchAll S.text S.bytes set.now input }
    ensures none { IfOk result
        (λ m. (m ≡ None) ↔ (set_position (asked_of_set set.now S.bytes input) ≡ None)) }
    ensures stands { IfOk result (λ m. IfSome m
        (λ x. set_position (question_of S.bytes x) ≡ Some (position_of x))) }
    ensures items { IfOk result (λ m. IfSome m
        (λ x. members_to_come S.bytes x ≡ members_at (question_of S.bytes x) (position_of x))) }
    ensures refused { IfErr result (RefusesSet (asked_of_set set.now S.bytes input)) }
    ensures steps { AreAllEasy (members_of set.now) → steps_of work.new
        ≤ most_steps_of_all (members_of set.now) (request_in input) }
    ensures returns { returns_of work.new ≤ steps_of work.new }
    ensures limit { (most : ℕ) → ShareLimit most (members_of set.now) → work_of work.new ≤ most }
    ensures spent { IsOutOfSteps result → IsSpentForOne (members_of set.now) work.new }
    ensures unlimited { AreAllEasy (members_of set.now)
        → AllowAllSteps (members_of set.now) (request_in input) → IsOutOfSteps result → ⊥ }
{
    set.find_input_counted(input, work)
}

/// The next match there, or the refusal of a pattern, after which the next pattern comes.
pub fn next_match<'r, S: Input>(
    matches: &mut RegexSetMatchesAt<'r, S>,
) -> Option<Result<RegexSetMatch<'r, S>>>
    ensures none { IfNone result ((members_to_come S.bytes matches.old ≡ [])
        × (length (members_of (set_of matches.new)) ≤ next_member matches.new)) }
    ensures gives { IfItem result (λ x. GivesMember S.bytes x matches.old matches.new) }
    ensures within { IfItem result
        (λ x. searched_in (captures_of x) ≡ haystack_of_set matches.old) }
    ensures refused { ByAnswer result ⊤ (λ _. ⊤)
        (λ e. GivesRefusal S.bytes e matches.old matches.new) }
    ensures set { set_of matches.new ≡ set_of matches.old }
    ensures haystack { haystack_of_set matches.new ≡ haystack_of_set matches.old }
    ensures request { request_of_set matches.new ≡ request_of_set matches.old }
    ensures position { position_of matches.new ≡ position_of matches.old }
{
    matches.next()
}

/// The set, the haystack, and the position that the patterns are tried at.
pub fn reads_matches<'r, S: Input>(matches: &RegexSetMatchesAt<'r, S>) -> (&'r RegexSet, S, usize)
    ensures set { result.0.now ≡ set_of matches.now }
    ensures haystack { result.1 ≡ haystack_of_set matches.now }
    ensures start { result.2 ≡ position_of matches.now }
{
    (matches.regex_set(), matches.haystack(), matches.start())
}

/// The index of the pattern that matched, the whole match, and where it starts and ends.
pub fn reads_match<S: Input>(found: &RegexSetMatch<'_, S>) -> (usize, S::Match, usize, usize)
    ensures pattern { result.0 ≡ pattern_index found.now }
    ensures found { match_span found.now ≡ Some (S.span result.1) }
    ensures within { S.within result.1 ≡ S.bytes (searched_in (captures_of found.now)) }
    ensures start { option_map (λ s. s.start) (match_span found.now) ≡ Some result.2 }
    ensures end { option_map (λ s. s.end) (match_span found.now) ≡ Some result.3 }
{
    (found.pattern(), found.get(), found.start(), found.end())
}

/// The groups of a match.
pub fn captures<'m, 'r, S: Input>(found: &'m RegexSetMatch<'r, S>) -> &'m Captures<'r, S>
    ensures { result.now ≡ captures_of found.now }
{
    found.captures()
}

/// The text of a match in a `&str`.
pub fn as_str<'t>(found: &RegexSetMatch<'_, &'t str>) -> &'t str
    ensures { IsPart (searched_in (captures_of found.now)).now (match_span found.now) result.now }
{
    found.as_str()
}

/// The text of a match in a `&String`.
pub fn as_str_in_string<'t>(found: &RegexSetMatch<'_, &'t String>) -> &'t str
    ensures { IsPart (string_bytes (searched_in (captures_of found.now)).now)
        (match_span found.now) result.now }
{
    found.as_str()
}

/// A loop over the matches ends.
pub fn ends<S: Input>(matches: RegexSetMatchesAt<'_, S>) {
    for _ in matches {}
}
