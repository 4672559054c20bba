//! First matches of regexes that builders make.

use crate::asking::check;
use fancy_regex::{Input, Regex, RegexInput, Result};
use std::alloc::Global;
use std::ops::Range;
use std::process::Abort;

/// Where a match starts and ends.
pub(crate) type Span = (usize, usize);

/// Whether the part of the text from the start to the end is this.
pub(crate) fn is_part(text: &str, (start, end): Span, part: &str) -> bool {
    match text.get(start..end) {
        Some(found) => found == part,
        None => false,
    }
}

/// A text that a builder may take.
pub(crate) fn owned(rt: &impl Abort, alloc: Global, text: &str) -> String {
    String::from_str(alloc, text).expect(rt, text)
}

/// Where what was found starts and ends, if anything was.
fn span_found<M: Into<Range<usize>>>(
    rt: &impl Abort,
    found: Result<Option<M>>,
    pattern: &str,
) -> Option<Span> {
    match found.expect(rt, pattern) {
        Some(one) => {
            let range: Range<usize> = one.into();
            Some((range.start, range.end))
        }
        None => None,
    }
}

/// Checks where the first match starts and ends that the input asks of what was read, and whether there is one.
pub(crate) fn check_read<M: Into<Range<usize>>, S: Input<Match = M>>(
    rt: &impl Abort,
    read: Result<Regex>,
    input: RegexInput<S>,
    wanted: Option<Span>,
) {
    let regex = read.expect(rt, "a regex");
    assert!(rt; regex.can_search(&input), "{}", regex.as_str());
    let found = span_found(rt, regex.find_input(input.again()), regex.as_str());
    check(rt, found == wanted, regex.as_str());
    let matched = regex.is_match_input(input).expect(rt, "an answer");
    check(rt, matched == wanted.is_some(), regex.as_str());
}
