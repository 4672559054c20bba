//! The tokens that a set cuts a text into.
//!
//! `token_place` is where the next token starts. `GivesToken`, `RefusesToken` and `EndsTokens` say what a call of `next` answers.

ghost use Rattle.std.specs.Prelude.{◌≡◌, IfNone, Some, false, option_map, string_bytes, ⊤};
ghost use Rattle.fancy_regex.specs.Captures.{searched_in};
ghost use Rattle.fancy_regex.specs.Groups.{IsPart};
ghost use Rattle.fancy_regex.specs.Inputs.{haystack_in, request_in};
ghost use Rattle.fancy_regex.specs.NextAnswers.{ByAnswer};
ghost use Rattle.fancy_regex.specs.Remaining.{IfItem, IfRefusal};
ghost use Rattle.fancy_regex.specs.Requests.{effective_start};
ghost use Rattle.fancy_regex.specs.Sets.{CanSearchAll};
ghost use Rattle.fancy_regex.specs.TokenLists.{EndsTokens, GivesToken, RefusesToken, has_ended_tokens, token_captures, token_haystack, token_pattern, token_place, token_request, token_set, token_span};

use fancy_regex::{Captures, Input, RegexInput, RegexSet, Result, Token, Tokens};

/// The tokens of an input, from its effective start on.
pub fn tokens<S: Input>(set: &RegexSet, input: RegexInput<S>) -> Tokens<'_, S>
    requires searched { CanSearchAll S.text S.bytes set.now input }
    ensures set { token_set result ≡ set.now }
    ensures haystack { token_haystack result ≡ haystack_in input }
    ensures request { token_request result ≡ request_in input }
    ensures begins { token_place result ≡ effective_start (request_in input) }
    ensures goes_on { has_ended_tokens result ≡ false }
{
    set.tokens(input)
}

/// The next token, or a refusal, which is the last item.
pub fn next_token<'r, S: Input>(tokens: &mut Tokens<'r, S>) -> Option<Result<Token<'r, S>>>
    ensures none { IfNone result (EndsTokens tokens.old tokens.new) }
    ensures gives { IfItem result (λ x. GivesToken S.bytes x tokens.old tokens.new) }
    ensures within { IfItem result
        (λ x. searched_in (token_captures x) ≡ token_haystack tokens.old) }
    ensures goes_on { IfItem result (λ _. has_ended_tokens tokens.new ≡ false) }
    ensures refused { ByAnswer result ⊤ (λ _. ⊤)
        (λ e. RefusesToken S.bytes e tokens.old tokens.new) }
    ensures unended { IfRefusal result (has_ended_tokens tokens.old ≡ false) }
    ensures set { token_set tokens.new ≡ token_set tokens.old }
    ensures haystack { token_haystack tokens.new ≡ token_haystack tokens.old }
    ensures request { token_request tokens.new ≡ token_request tokens.old }
{
    tokens.next()
}

/// The set, the haystack, and where the next token starts, or where the list ended.
pub fn reads<'r, S: Input>(tokens: &Tokens<'r, S>) -> (&'r RegexSet, S, usize)
    ensures set { result.0.now ≡ token_set tokens.now }
    ensures haystack { result.1 ≡ token_haystack tokens.now }
    ensures place { result.2 ≡ token_place tokens.now }
{
    (tokens.regex_set(), tokens.haystack(), tokens.place())
}

/// The index of a token's pattern, the whole match, and where it starts and ends.
pub fn reads_token<S: Input>(token: &Token<'_, S>) -> (usize, S::Match, usize, usize)
    ensures pattern { result.0 ≡ token_pattern token.now }
    ensures found { token_span token.now ≡ Some (S.span result.1) }
    ensures within { S.within result.1 ≡ S.bytes (searched_in (token_captures token.now)) }
    ensures start { option_map (λ s. s.start) (token_span token.now) ≡ Some result.2 }
    ensures end { option_map (λ s. s.end) (token_span token.now) ≡ Some result.3 }
{
    (token.pattern(), token.get(), token.start(), token.end())
}

/// The groups of a token.
pub fn captures<'m, 'r, S: Input>(token: &'m Token<'r, S>) -> &'m Captures<'r, S>
    ensures { result.now ≡ token_captures token.now }
{
    token.captures()
}

/// The text of a token in a `&str`.
pub fn as_str<'t>(token: &Token<'_, &'t str>) -> &'t str
    ensures { IsPart (searched_in (token_captures token.now)).now
        (token_span token.now) result.now }
{
    token.as_str()
}

/// The text of a token in a `&String`.
pub fn as_str_in_string<'t>(token: &Token<'_, &'t String>) -> &'t str
    ensures { IsPart (string_bytes (searched_in (token_captures token.now)).now)
        (token_span token.now) result.now }
{
    token.as_str()
}

/// A loop over the tokens ends.
pub fn ends<S: Input>(tokens: Tokens<'_, S>) {
    for _ in tokens {}
}
