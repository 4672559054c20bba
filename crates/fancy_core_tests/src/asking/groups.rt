//! What groups find.

use crate::asking::{Span, check, regex_of, searchable, span_of};
use fancy_core::captures::Captures;
use fancy_core::regex::Regex;
use fancy_input::input::Input;
use fancy_input::matches::Match;
use fancy_input::regex_input::RegexInput;
use std::alloc::Global;
use std::process::Abort;

/// Where a group starts and ends, if it took part.
fn place_of(group: Option<Match<'_>>) -> Option<Span> {
    match group {
        Some(group) => Some(span_of(group)),
        None => None,
    }
}

/// Checks where a group starts and ends, if it took part, by each way to it.
fn check_group(
    rt: &impl Abort,
    captures: &Captures<'_, &str>,
    (number, listed): (usize, Option<Span>),
    pattern: &str,
    wanted: &[Option<Span>],
) {
    let wanted = wanted.get(number);
    check(rt, wanted == Some(&listed), pattern);
    let asked = place_of(captures.get(number));
    check(rt, wanted == Some(&asked), pattern);
}

/// Checks the spans of a match's groups, from group 0 on, by each way to them, and tells how many there are.
fn check_spans(
    rt: &impl Abort,
    captures: &Captures<'_, &str>,
    pattern: &str,
    wanted: &[Option<Span>],
) -> usize {
    let mut number = 0usize;
    for group in captures.iter() {
        check_group(rt, captures, (number, place_of(group)), pattern, wanted);
        number = number.saturating_add(1);
    }
    number
}

/// Checks that a match has no group of this number.
fn check_absent(rt: &impl Abort, captures: &Captures<'_, &str>, number: usize, pattern: &str) {
    check(rt, captures.get(number).is_none(), pattern);
}

/// Checks the spans of a match's groups, from group 0 on, by each way to them, and that there are no others.
fn check_captured(
    rt: &impl Abort,
    captures: &Captures<'_, &str>,
    pattern: &str,
    wanted: &[Option<Span>],
) {
    let count = check_spans(rt, captures, pattern, wanted);
    check(rt, count == wanted.len(), pattern);
    check(rt, captures.len() == wanted.len(), pattern);
    check(rt, captures.iter().count() == wanted.len(), pattern);
    check_absent(rt, captures, wanted.len(), pattern);
    check_absent(rt, captures, usize::MAX, pattern);
    check_absent(rt, captures, usize::MAX / 2 + 1, pattern);
}

/// The groups of a match that was found.
pub(crate) fn taken<'r, S: Input>(
    rt: &impl Abort,
    found: fancy_tree::error::Result<Option<Captures<'r, S>>>,
    pattern: &str,
) -> Captures<'r, S> {
    found.expect(rt, pattern).expect(rt, pattern)
}

/// Checks the spans of the groups of the first match that the input asks for, which the regex may search.
pub(crate) fn check_input(
    rt: &impl Abort,
    regex: &Regex,
    input: RegexInput<&str>,
    wanted: &[Option<Span>],
) {
    let input = searchable(rt, regex, input);
    let captures = taken(rt, regex.captures_input(input), regex.as_str());
    check_captured(rt, &captures, regex.as_str(), wanted);
}

/// How a group is asked for.
#[derive(Clone, Copy)]
pub(crate) enum Group {
    Numbered(usize),
    Named(&'static str),
}

/// Where a group starts and ends, and its text, if it took part.
type Part<'t> = Option<(Span, &'t str)>;

/// A pattern, a text, and what groups of the first match are.
pub(crate) type PartsRow = (
    &'static str,
    &'static str,
    &'static [(Group, Part<'static>)],
);

/// Where the group starts and ends, and its text, if it took part.
fn part_of<'t>(captures: &Captures<'_, &'t str>, group: Group) -> Part<'t> {
    match group {
        Group::Numbered(number) => match captures.get(number) {
            Some(found) => Some((span_of(found), captures.text(number))),
            None => None,
        },
        Group::Named(name) => match captures.name(name) {
            Some(found) => Some((span_of(found), captures.text_of(name))),
            None => None,
        },
    }
}

/// The same in an owned text.
fn part_of_owned<'t>(captures: &Captures<'_, &'t String>, group: Group) -> Part<'t> {
    match group {
        Group::Numbered(number) => match captures.get(number) {
            Some(found) => Some((span_of(found), captures.text(number))),
            None => None,
        },
        Group::Named(name) => match captures.name(name) {
            Some(found) => Some((span_of(found), captures.text_of(name))),
            None => None,
        },
    }
}

pub(crate) fn check_parts(rt: &impl Abort, alloc: Global, rows: &[PartsRow]) {
    for &(pattern, haystack, groups) in rows {
        let regex = regex_of(rt, alloc, pattern);
        let captures = taken(rt, regex.captures(haystack), pattern);
        let bytes = haystack.as_bytes();
        check(rt, captures.input_as_bytes() == bytes, pattern);
        for &(group, wanted) in groups {
            check(rt, part_of(&captures, group) == wanted, pattern);
        }
    }
}

/// Checks the groups in owned text.
pub(crate) fn check_owned_parts(rt: &impl Abort, alloc: Global, rows: &[PartsRow]) {
    for &(pattern, haystack, groups) in rows {
        let haystack = String::from_str(alloc, haystack).expect(rt, pattern);
        let regex = regex_of(rt, alloc, pattern);
        let captures = taken(rt, regex.captures(&haystack), pattern);
        for &(group, wanted) in groups {
            check(rt, part_of_owned(&captures, group) == wanted, pattern);
        }
    }
}
