//! Pattern sets.

use crate::asking::{Span, check, is_part};
use fancy_regex::{
    Error, Input, RegexInput, RegexSet, RegexSetMatch, RegexSetMatchesAt, Result, RuntimeError,
};
use std::process::Abort;

/// The index of a pattern and where its match stands, or none where it is refused past its limit of returns.
type Item = Option<(usize, Span)>;

/// What the set finds in the input, which it may search.
pub(crate) fn searched<'s, S: Input>(
    rt: &impl Abort,
    set: &'s RegexSet,
    input: RegexInput<S>,
) -> Result<Option<RegexSetMatchesAt<'s, S>>> {
    assert!(rt; set.can_search(&input));
    set.find_input(input)
}

/// The index of a match's pattern and where the match stands.
fn seen_in(rt: &impl Abort, found: &RegexSetMatch<'_, &str>, haystack: &str) -> (usize, Span) {
    let span = (found.start(), found.end());
    check(rt, is_part(haystack, span, found.as_str()), haystack);
    (found.pattern(), span)
}

/// What the answer of a member says of itself.
fn item_of(rt: &impl Abort, answer: &Result<RegexSetMatch<'_, &str>>, haystack: &str) -> Item {
    match answer {
        Ok(found) => Some(seen_in(rt, found, haystack)),
        Err(Error::RuntimeError(RuntimeError::BacktrackLimitExceeded)) => None,
        Err(_) => rt.panic(haystack),
    }
}

/// What the next answer of a member says of itself, if there is one.
fn next_item(rt: &impl Abort, matches: &mut RegexSetMatchesAt<'_, &str>) -> Option<Item> {
    let haystack = matches.haystack();
    match matches.next() {
        Some(answer) => Some(item_of(rt, &answer, haystack)),
        None => None,
    }
}

/// Checks where a set stands, what it says of itself there, and its items, one by one; and that then the iterator has ended
/// and stays so.
pub(crate) fn check_matches_at(
    rt: &impl Abort,
    mut matches: RegexSetMatchesAt<'_, &str>,
    (members, text): (usize, &str),
    position: usize,
    items: &[Item],
) {
    check(rt, matches.start() == position, text);
    check(rt, matches.haystack() == text, text);
    check(rt, matches.regex_set().len() == members, text);
    for item in items {
        let found = next_item(rt, &mut matches);
        check(rt, found == Some(*item), text);
    }
    let found = next_item(rt, &mut matches);
    check(rt, found.is_none(), "the end");
    let found = next_item(rt, &mut matches);
    check(rt, found.is_none(), "the end again");
}
