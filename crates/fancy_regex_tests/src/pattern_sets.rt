//! Pattern sets. Rows of them are in `crates/calls/rows.txt`.

use crate::asking::{check, check_matches_at, searched};
use fancy_regex::{Captures, Regex, RegexInput, RegexSet, RegexSetMatchesAt};
use std::alloc::Global;
use std::process::Abort;

#[test]
fn an_anchored_search_stands_at_its_start(rt: HostRuntime) {
    let set = RegexSet::new(rt.alloc(), &["b"]).expect(&rt, "a set");
    let input = RegexInput::new("ab").anchored(true);
    let found = searched(&rt, &set, input).expect(&rt, "a search");
    check(&rt, found.is_none(), "no position");
    let input = RegexInput::new("ab").from_pos(1).anchored(true);
    let found = searched(&rt, &set, input).expect(&rt, "a search");
    let matches = found.expect(&rt, "a position");
    check_matches_at(&rt, matches, (1, "ab"), 1, &[Some((0, (1, 2)))]);
}

/// The set of the regex of a pattern.
fn set_of_regex(rt: &impl Abort, alloc: Global, pattern: &str) -> RegexSet {
    let mut members = Vec::new(alloc);
    let member = Regex::new(alloc, pattern).expect(rt, pattern);
    members.push(member).expect(rt, pattern);
    RegexSet::from_regexes(members)
}

/// Checks that a match has group 1 and no other besides the whole.
fn check_one_group(rt: &impl Abort, captures: &Captures<'_, &[u8]>) {
    check(rt, captures.len() == 2, "two groups");
    check(rt, captures.get(1).is_some(), "the group");
    check(rt, captures.get(2).is_none(), "no third group");
}

/// Checks the groups of the match of a set.
fn check_first(rt: &impl Abort, mut matches: RegexSetMatchesAt<'_, &[u8]>) {
    let first = matches.next().expect(rt, "an item").expect(rt, "a match");
    check_one_group(rt, first.captures());
}

#[test]
fn a_set_of_a_regex_has_its_groups(rt: HostRuntime) {
    let set = set_of_regex(&rt, rt.alloc(), "(a)");
    let haystack: &[u8] = b"xa";
    let found = searched(&rt, &set, RegexInput::new(haystack)).expect(&rt, "a search");
    check_first(&rt, found.expect(&rt, "a position"));
}
