//! First matches.

use crate::asking::{check, regex_of};
use fancy_input::bytes::MatchBytes;
use fancy_input::input::Input;
use fancy_input::matches::Match;
use std::alloc::Global;
use std::ops::Range;
use std::process::Abort;

/// Where a match starts and ends.
pub(crate) type Span = (usize, usize);

/// Where a match starts and ends.
pub(crate) fn span_of(found: Match<'_>) -> Span {
    (found.start(), found.end())
}

/// Where what was found starts and ends, if anything was.
fn span_found<M: Into<Range<usize>>>(
    rt: &impl Abort,
    found: fancy_tree::error::Result<Option<M>>,
    pattern: &str,
) -> Option<Span> {
    match found.expect(rt, pattern) {
        Some(one) => {
            let range: Range<usize> = one.into();
            Some((range.start, range.end))
        }
        None => None,
    }
}

/// Checks where the first match of the pattern, with the default options, starts and ends in a haystack of any form.
pub(crate) fn check_find<M: Into<Range<usize>>, S: Input<Match = M>>(
    rt: &impl Abort,
    alloc: Global,
    pattern: &str,
    haystack: S,
    wanted: Option<Span>,
) {
    let regex = regex_of(rt, alloc, pattern);
    let found = span_found(rt, regex.find(haystack), pattern);
    check(rt, found == wanted, pattern);
}

/// Checks that a match was found, and which part it is.
pub(crate) fn check_part(
    rt: &impl Abort,
    found: fancy_tree::error::Result<Option<MatchBytes<'_>>>,
    part: &[u8],
) {
    let found = found.expect(rt, "a search").expect(rt, "a match");
    check(rt, found.as_bytes() == part, "the part");
}
