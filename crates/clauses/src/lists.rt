//! All matches, one after another.
//!
//! `left_in` gives the matches that are left, `next_request` what the next search is asked, and `end_in` where the search
//! starts that finds none. A call of `next` gives the first that is left, or a refusal after which none is.

ghost use Rattle.std.specs.Prelude.{◌+◌, ◌<◌, ◌^◌, ◌∷◌, ◌≡◌, IfNone, MatchOption, [], false, ⊤};
ghost use Rattle.fancy_regex.specs.CaptureIterations.{groups_in_whole, groups_left, groups_of_input, groups_onward, matches_in};
ghost use Rattle.fancy_regex.specs.Captures.{found_by, searched_in, spans_in};
ghost use Rattle.fancy_regex.specs.Inputs.{haystack_in, request_in};
ghost use Rattle.fancy_regex.specs.Iterations.{RefusesMatch, allows_next, end_in, has_ended, haystack_of, items_bound, left_in, next_request, onward_of, regex_in, spans_left};
ghost use Rattle.fancy_regex.specs.NextAnswers.{ByAnswer};
ghost use Rattle.fancy_regex.specs.Regexes.{options_in};
ghost use Rattle.fancy_regex.specs.Remaining.{EndsUnlessOk, IfItem, IfRefusal, UnlessRefusal, next_start};
ghost use Rattle.fancy_regex.specs.Requests.{whole};
ghost use Rattle.fancy_regex.specs.Searches.{CanSearchInput, last_start_in_whole, last_start_of_input, last_start_onward, matches_in_whole, matches_of_input, matches_onward};
ghost use Rattle.fancy_regex.specs.Searching.{Suits};

use fancy_regex::{CaptureMatches, Captures, Input, Matches, Onward, Regex, RegexInput, Result};

/// The matches in a haystack.
pub fn find_iter<S: Input>(regex: &Regex, haystack: S) -> Matches<'_, S>
    requires suits { Suits (options_in regex.now) (S.text haystack) (S.bytes haystack) }
    ensures matches { left_in S.text S.bytes result
        ≡ matches_in_whole regex.now S.text S.bytes haystack }
    ensures end { end_in S.text S.bytes result
        ≡ last_start_in_whole regex.now S.text S.bytes haystack }
    ensures countable { items_bound S.text S.bytes result < 2 ^ 64 }
    ensures regex { regex_in result ≡ regex.now }
    ensures text { haystack_of result ≡ haystack }
    ensures request { next_request result ≡ whole (S.bytes haystack) }
{
    regex.find_iter(haystack)
}

/// The matches that an input asks for.
pub fn find_iter_input<S: Input>(regex: &Regex, input: RegexInput<S>) -> Matches<'_, S>
    requires searched { CanSearchInput S.text S.bytes (options_in regex.now) input }
    ensures matches { left_in S.text S.bytes result
        ≡ matches_of_input regex.now S.text S.bytes input }
    ensures end { end_in S.text S.bytes result
        ≡ last_start_of_input regex.now S.text S.bytes input }
    ensures countable { items_bound S.text S.bytes result < 2 ^ 64 }
    ensures regex { regex_in result ≡ regex.now }
    ensures text { haystack_of result ≡ haystack_in input }
    ensures request { next_request result ≡ request_in input }
{
    regex.find_iter_input(input)
}

/// The matches that an input asks for, as a list goes on that came so far.
pub fn resume_matches<S: Input>(
    regex: &Regex,
    input: RegexInput<S>,
    onward: Onward,
) -> Matches<'_, S>
    requires searched { CanSearchInput S.text S.bytes (options_in regex.now) input }
    ensures matches { left_in S.text S.bytes result ≡ matches_onward regex.now
        (S.text (haystack_in input)) (S.bytes (haystack_in input)) (request_in input) onward }
    ensures end { end_in S.text S.bytes result ≡ last_start_onward regex.now
        (S.text (haystack_in input)) (S.bytes (haystack_in input)) (request_in input) onward }
    ensures countable { items_bound S.text S.bytes result < 2 ^ 64 }
    ensures regex { regex_in result ≡ regex.now }
    ensures text { haystack_of result ≡ haystack_in input }
    ensures request { next_request result ≡ request_in input }
    ensures onward { onward_of result ≡ onward }
    ensures goes_on { has_ended result ≡ false }
{
    regex.resume_matches(input, onward)
}

/// How a list goes on.
pub fn onward<S: Input>(matches: &Matches<'_, S>) -> Onward
    ensures onward { result ≡ onward_of matches.now }
    ensures left { has_ended matches.now ≡ false → left_in S.text S.bytes matches.now
        ≡ matches_onward (regex_in matches.now) (S.text (haystack_of matches.now))
        (S.bytes (haystack_of matches.now)) (next_request matches.now) result }
{
    matches.onward()
}

/// The next match.
pub fn next_match<S: Input>(matches: &mut Matches<'_, S>) -> Option<Result<S::Match>>
    ensures none { IfNone result (left_in S.text S.bytes matches.old ≡ []) }
    ensures gives { IfItem result (λ x. spans_left S.text S.bytes matches.old
        ≡ S.span x ∷ spans_left S.text S.bytes matches.new) }
    ensures refuses { ByAnswer result ⊤ (λ _. ⊤)
        (λ e. RefusesMatch S.text S.bytes e matches.old matches.new) }
    ensures left { ByAnswer result (left_in S.text S.bytes matches.new ≡ []) (λ _. ⊤)
        (λ _. left_in S.text S.bytes matches.new ≡ []) }
    ensures allowed { UnlessRefusal result (allows_next S.text S.bytes matches.old) }
    ensures within { IfItem result (λ x. S.within x ≡ S.bytes (haystack_of matches.old)) }
    ensures regex { regex_in matches.new ≡ regex_in matches.old }
    ensures text { haystack_of matches.new ≡ haystack_of matches.old }
    ensures request { next_request matches.new
        ≡ record (next_request matches.old) { start = (next_request matches.new).start } }
    ensures moves { IfItem result (λ x. (next_request matches.new).start
        ≡ next_start (S.text (haystack_of matches.old)) (S.bytes (haystack_of matches.old))
        (S.span x)) }
    ensures refused { IfRefusal result
        ((next_request matches.new).start ≡ (next_request matches.old).range_end + 1) }
    ensures keeps_end { IfItem result
        (λ _. end_in S.text S.bytes matches.new ≡ end_in S.text S.bytes matches.old) }
    ensures rests { IfNone result
        ((next_request matches.new).start ≡ end_in S.text S.bytes matches.old) }
    ensures ends { EndsUnlessOk result (has_ended matches.new) }
    ensures unended { MatchOption result ⊤ (λ _. has_ended matches.old ≡ false) }
{
    matches.next()
}

/// The regex, the haystack and the input of the next search.
pub fn reads<'r, S: Input>(matches: &Matches<'r, S>) -> (&'r Regex, S, RegexInput<S>)
    ensures regex { result.0.now ≡ regex_in matches.now }
    ensures text { result.1 ≡ haystack_of matches.now }
    ensures haystack { haystack_in result.2 ≡ haystack_of matches.now }
    ensures request { request_in result.2 ≡ next_request matches.now }
{
    (matches.regex(), matches.text(), matches.input())
}

/// The matches in a haystack, with their groups.
pub fn captures_iter<S: Input>(regex: &Regex, haystack: S) -> CaptureMatches<'_, S>
    requires suits { Suits (options_in regex.now) (S.text haystack) (S.bytes haystack) }
    ensures matches { groups_left S.text S.bytes result
        ≡ groups_in_whole regex.now S.text S.bytes haystack }
    ensures end { end_in S.text S.bytes (matches_in result)
        ≡ last_start_in_whole regex.now S.text S.bytes haystack }
    ensures countable { items_bound S.text S.bytes (matches_in result) < 2 ^ 64 }
    ensures regex { regex_in (matches_in result) ≡ regex.now }
    ensures text { haystack_of (matches_in result) ≡ haystack }
    ensures request { next_request (matches_in result) ≡ whole (S.bytes haystack) }
{
    regex.captures_iter(haystack)
}

/// The matches that an input asks for, with their groups.
pub fn captures_iter_input<S: Input>(regex: &Regex, input: RegexInput<S>) -> CaptureMatches<'_, S>
    requires searched { CanSearchInput S.text S.bytes (options_in regex.now) input }
    ensures matches { groups_left S.text S.bytes result
        ≡ groups_of_input regex.now S.text S.bytes input }
    ensures end { end_in S.text S.bytes (matches_in result)
        ≡ last_start_of_input regex.now S.text S.bytes input }
    ensures countable { items_bound S.text S.bytes (matches_in result) < 2 ^ 64 }
    ensures regex { regex_in (matches_in result) ≡ regex.now }
    ensures text { haystack_of (matches_in result) ≡ haystack_in input }
    ensures request { next_request (matches_in result) ≡ request_in input }
{
    regex.captures_iter_input(input)
}

/// The same with their groups.
pub fn resume_captures<S: Input>(
    regex: &Regex,
    input: RegexInput<S>,
    onward: Onward,
) -> CaptureMatches<'_, S>
    requires searched { CanSearchInput S.text S.bytes (options_in regex.now) input }
    ensures matches { groups_left S.text S.bytes result ≡ groups_onward regex.now
        (S.text (haystack_in input)) (S.bytes (haystack_in input)) (request_in input) onward }
    ensures end { end_in S.text S.bytes (matches_in result) ≡ last_start_onward regex.now
        (S.text (haystack_in input)) (S.bytes (haystack_in input)) (request_in input) onward }
    ensures countable { items_bound S.text S.bytes (matches_in result) < 2 ^ 64 }
    ensures regex { regex_in (matches_in result) ≡ regex.now }
    ensures text { haystack_of (matches_in result) ≡ haystack_in input }
    ensures request { next_request (matches_in result) ≡ request_in input }
    ensures onward { onward_of (matches_in result) ≡ onward }
    ensures goes_on { has_ended (matches_in result) ≡ false }
{
    regex.resume_captures(input, onward)
}

/// How a list with groups goes on.
pub fn captures_onward<S: Input>(matches: &CaptureMatches<'_, S>) -> Onward
    ensures onward { result ≡ onward_of (matches_in matches.now) }
    ensures left { has_ended (matches_in matches.now) ≡ false → groups_left S.text S.bytes matches.now
        ≡ groups_onward (regex_in (matches_in matches.now))
        (S.text (haystack_of (matches_in matches.now)))
        (S.bytes (haystack_of (matches_in matches.now)))
        (next_request (matches_in matches.now)) result }
{
    matches.onward()
}

/// The groups of the next match.
pub fn next_captures<'r, S: Input>(
    matches: &mut CaptureMatches<'r, S>,
) -> Option<Result<Captures<'r, S>>>
    ensures none { IfNone result (left_in S.text S.bytes (matches_in matches.old) ≡ []) }
    ensures gives { IfItem result (λ c. groups_left S.text S.bytes matches.old
        ≡ spans_in c ∷ groups_left S.text S.bytes matches.new) }
    ensures refuses { ByAnswer result ⊤ (λ _. ⊤)
        (λ e. RefusesMatch S.text S.bytes e (matches_in matches.old) (matches_in matches.new)) }
    ensures left { ByAnswer result (left_in S.text S.bytes (matches_in matches.new) ≡ [])
        (λ _. ⊤) (λ _. left_in S.text S.bytes (matches_in matches.new) ≡ []) }
    ensures allowed { UnlessRefusal result
        (allows_next S.text S.bytes (matches_in matches.old)) }
    ensures within { IfItem result (λ c. searched_in c ≡ haystack_of (matches_in matches.old)) }
    ensures found_by { IfItem result (λ c. found_by c ≡ regex_in (matches_in matches.old)) }
    ensures regex { regex_in (matches_in matches.new) ≡ regex_in (matches_in matches.old) }
    ensures text { haystack_of (matches_in matches.new) ≡ haystack_of (matches_in matches.old) }
    ensures request { next_request (matches_in matches.new)
        ≡ record (next_request (matches_in matches.old)) {
          start =
              (next_request (matches_in matches.new)).start;
        } }
    ensures refused { IfRefusal result
        ((next_request (matches_in matches.new)).start
        ≡ (next_request (matches_in matches.old)).range_end + 1) }
    ensures keeps_end { IfItem result
        (λ _. end_in S.text S.bytes (matches_in matches.new)
        ≡ end_in S.text S.bytes (matches_in matches.old)) }
    ensures rests { IfNone result
        ((next_request (matches_in matches.new)).start
        ≡ end_in S.text S.bytes (matches_in matches.old)) }
    ensures ends { EndsUnlessOk result (has_ended (matches_in matches.new)) }
    ensures unended { MatchOption result ⊤ (λ _. has_ended (matches_in matches.old) ≡ false) }
{
    matches.next()
}

/// The regex, the haystack and the input of the next search.
pub fn reads_captures<'r, S: Input>(
    matches: &CaptureMatches<'r, S>,
) -> (&'r Regex, S, RegexInput<S>)
    ensures regex { result.0.now ≡ regex_in (matches_in matches.now) }
    ensures text { result.1 ≡ haystack_of (matches_in matches.now) }
    ensures haystack { haystack_in result.2 ≡ haystack_of (matches_in matches.now) }
    ensures request { request_in result.2 ≡ next_request (matches_in matches.now) }
{
    (matches.regex(), matches.text(), matches.input())
}

/// A loop over the matches ends.
pub fn ends<S: Input>(matches: Matches<'_, S>) {
    for _ in matches {}
}

/// So does one over the matches with their groups.
pub fn ends_with_groups<S: Input>(matches: CaptureMatches<'_, S>) {
    for _ in matches {}
}
