//! Patterns that open with many branches, in long texts with a match at each place.

use crate::asking::{check, regex_of, repeated};
use fancy_core::iter::Matches;
use std::alloc::Global;
use std::process::Abort;

/// The first branch reads on to the end of the text before it fails.
const FAR: &str = "q.*?!|qa|qb|qc|qd|qe|qf|qg|qh|qi|qj|qk|ql|qm|q";

/// Some branches match the empty text.
const EMPTY: &str = "ab|ac|ad|ae|af|ag|ah|ai|aj|ak|al|am|an|a*";

/// Checks that there is a match at each place from 0 on, so many, and that each is `width` bytes long.
fn check_places(rt: &impl Abort, found: Matches<'_, &str>, width: usize, matches: usize) {
    let mut place = 0usize;
    for one in found {
        let one = one.expect(rt, "a match");
        check(rt, one.start() == place, "the start");
        check(rt, one.end() == place.wrapping_add(width), "the end");
        place = place.wrapping_add(1);
    }
    check(rt, place == matches, "how many matches");
}

/// Checks that there is a match at each place of so many `unit`s, one byte each, and that each is `width` bytes long.
fn check_each_place(
    rt: &impl Abort,
    alloc: Global,
    (pattern, unit, count): (&str, &str, usize),
    (width, matches): (usize, usize),
) {
    let text = repeated(rt, alloc, unit, count);
    let regex = regex_of(rt, alloc, pattern);
    check_places(rt, regex.find_iter(text.as_str()), width, matches);
}

#[test]
fn wide_patterns_match_at_each_place(rt: HostRuntime) {
    // each match is found once its first branch has read to the end
    check_each_place(&rt, rt.alloc(), (FAR, "q", 40_000), (1, 40_000));
    // the empty text is found at the end too
    check_each_place(&rt, rt.alloc(), (EMPTY, "b", 300), (0, 301));
}
