//! Tokens of a pattern set.

use crate::asking::{Span, check, is_part};
use fancy_regex::{RegexInput, RegexSet, Token, Tokens};
use std::process::Abort;

/// The index of a token's pattern and where the token stands.
fn seen_in(rt: &impl Abort, token: &Token<'_, &str>, text: &str) -> (usize, Span) {
    let span = (token.start(), token.end());
    check(rt, is_part(text, span, token.as_str()), text);
    (token.pattern(), span)
}

/// Checks that a list ends at this place, and that it stays ended.
fn check_end(rt: &impl Abort, tokens: &mut Tokens<'_, &str>, place: usize) {
    check(rt, tokens.next().is_none(), "the end");
    check(rt, tokens.place() == place, "the place of the end");
    check(rt, tokens.next().is_none(), "the end again");
    check(rt, tokens.place() == place, "the place again");
}

/// Checks the tokens of a list one by one, where they end, and that the list stays ended.
fn check_tokens_of(
    rt: &impl Abort,
    mut tokens: Tokens<'_, &str>,
    wanted: &[(usize, Span)],
    end: usize,
) {
    let text = tokens.haystack();
    for one in wanted {
        let token = tokens.next().expect(rt, text).expect(rt, text);
        check(rt, seen_in(rt, &token, text) == *one, text);
        check(rt, tokens.place() == token.end(), text);
    }
    check_end(rt, &mut tokens, end);
}

/// The tokens of the input, which the set may search.
fn tokens_of<'s>(
    rt: &impl Abort,
    set: &'s RegexSet,
    input: RegexInput<&'s str>,
) -> Tokens<'s, &'s str> {
    assert!(rt; set.can_search(&input));
    set.tokens(input)
}

/// Checks the tokens of a part of a text, which they cover; whether the input is anchored has no effect.
pub(crate) fn check_tokens_within(
    rt: &impl Abort,
    set: &RegexSet,
    (text, from, to): (&str, usize, usize),
    wanted: &[(usize, Span)],
) {
    assert!(rt; from <= to && to <= text.len());
    for anchored in [false, true] {
        let input = RegexInput::new(text).range(from..to).anchored(anchored);
        check_tokens_of(rt, tokens_of(rt, set, input), wanted, to);
    }
}
