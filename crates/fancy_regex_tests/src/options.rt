//! What each option changes, and what is so without it.

use crate::asking::{Span, check, check_read, owned};
use fancy_regex::{BytesMode, Regex, RegexBuilder, RegexInput, RegexOptionsBuilder};
use std::alloc::Global;
use std::process::Abort;

/// The options that are on or off.
#[derive(Clone, Copy)]
enum Switch {
    CaseInsensitive,
    MultiLine,
    IgnoreWhitespace,
    VerboseMode,
    DotMatchesNewLine,
    Crlf,
    UnicodeMode,
    FindNotEmpty,
    LeftmostLongest,
}

/// The switch, a pattern, a text, and where the first match starts and ends where the switch is off, and on.
type Row = (
    Switch,
    &'static str,
    &'static str,
    Option<Span>,
    Option<Span>,
);

fn set(builder: &mut RegexOptionsBuilder, switch: Switch, yes: bool) {
    match switch {
        Switch::CaseInsensitive => builder.case_insensitive(yes),
        Switch::MultiLine => builder.multi_line(yes),
        Switch::IgnoreWhitespace => builder.ignore_whitespace(yes),
        Switch::VerboseMode => builder.verbose_mode(yes),
        Switch::DotMatchesNewLine => builder.dot_matches_new_line(yes),
        Switch::Crlf => builder.crlf(yes),
        Switch::UnicodeMode => builder.unicode_mode(yes),
        Switch::FindNotEmpty => builder.find_not_empty(yes),
        Switch::LeftmostLongest => builder.leftmost_longest(yes),
    };
}

fn set_beside_the_pattern(builder: &mut RegexBuilder, switch: Switch, yes: bool) {
    match switch {
        Switch::CaseInsensitive => builder.case_insensitive(yes),
        Switch::MultiLine => builder.multi_line(yes),
        Switch::IgnoreWhitespace => builder.ignore_whitespace(yes),
        Switch::VerboseMode => builder.verbose_mode(yes),
        Switch::DotMatchesNewLine => builder.dot_matches_new_line(yes),
        Switch::Crlf => builder.crlf(yes),
        Switch::UnicodeMode => builder.unicode_mode(yes),
        Switch::FindNotEmpty => builder.find_not_empty(yes),
        Switch::LeftmostLongest => builder.leftmost_longest(yes),
    };
}

/// Checks what is found where the switch is off, or on, after it was set otherwise.
fn check_switched(rt: &impl Abort, alloc: Global, row: &Row, yes: bool) {
    let (switch, pattern, haystack, off, on) = *row;
    let wanted = if yes { on } else { off };
    let mut options = RegexOptionsBuilder::new();
    set(&mut options, switch, !yes);
    set(&mut options, switch, yes);
    let read = options.build(owned(rt, alloc, pattern));
    check_read(rt, read, RegexInput::new(haystack), wanted);
}

/// The same by a builder that holds the pattern.
fn check_switched_beside(rt: &impl Abort, alloc: Global, row: &Row, yes: bool) {
    let (switch, pattern, haystack, off, on) = *row;
    let wanted = if yes { on } else { off };
    let mut builder = RegexBuilder::new(alloc, pattern).expect(rt, pattern);
    set_beside_the_pattern(&mut builder, switch, !yes);
    set_beside_the_pattern(&mut builder, switch, yes);
    check_read(rt, builder.build(), RegexInput::new(haystack), wanted);
}

const ROWS: &[Row] = &[
    (Switch::CaseInsensitive, "k", "K", None, Some((0, 1))),
    (Switch::CaseInsensitive, "[^k]", "K", Some((0, 1)), None),
    (Switch::MultiLine, "^b", "a\nb", None, Some((2, 3))),
    (Switch::MultiLine, "a$", "a\nb", None, Some((0, 1))),
    (Switch::IgnoreWhitespace, "a b #c", "ab", None, Some((0, 2))),
    (Switch::IgnoreWhitespace, "a b", "a b", Some((0, 3)), None),
    (Switch::IgnoreWhitespace, "b #", "ab", None, Some((1, 2))),
    (Switch::VerboseMode, "a b #c", "ab", None, Some((0, 2))),
    (Switch::DotMatchesNewLine, ".", "\n", None, Some((0, 1))),
    (Switch::Crlf, ".", "\r", Some((0, 1)), None),
    (Switch::Crlf, "a\\Z", "a\r\n", None, Some((0, 1))),
    (Switch::UnicodeMode, "\\d", "\u{660}", None, Some((0, 2))),
    (Switch::UnicodeMode, "(?i)k", "\u{212A}", None, Some((0, 3))),
    (
        Switch::FindNotEmpty,
        "a*",
        "baa",
        Some((0, 0)),
        Some((1, 3)),
    ),
    (
        Switch::LeftmostLongest,
        "a|ab",
        "xab",
        Some((1, 2)),
        Some((1, 3)),
    ),
];

#[test]
fn each_switch_changes_answers(rt: HostRuntime) {
    for row in ROWS {
        let (switch, pattern, haystack, off, on) = *row;
        let is_on = matches!(switch, Switch::UnicodeMode);
        let wanted = if is_on { on } else { off };
        let input = RegexInput::new(haystack);
        check_read(&rt, Regex::new(rt.alloc(), pattern), input, wanted);
        for yes in [false, true] {
            check_switched(&rt, rt.alloc(), row, yes);
            check_switched_beside(&rt, rt.alloc(), row, yes);
        }
    }
    let options = RegexOptionsBuilder::default();
    let read = options.build(owned(&rt, rt.alloc(), "a b"));
    check_read(&rt, read, RegexInput::new("ab"), None);
    let read = options.build(owned(&rt, rt.alloc(), "a b"));
    check_read(&rt, read, RegexInput::new("a b"), Some((0, 3)));
}

/// The mode of a builder with a pattern, the pattern, and where the first match of the byte 80 starts and ends.
const MODES_OF_BUILDERS: &[(BytesMode, &str, Option<Span>)] = &[
    (BytesMode::Unicode, "\\x80", None),
    (BytesMode::Ascii, "\\x80", Some((0, 1))),
    (BytesMode::UnicodeBytes, ".", None),
];

/// Whether a builder with a pattern allows inputs to say that the text's start does not count, and where `^a` then matches
/// in `a`.
const OVERRIDES_OF_BUILDERS: &[(bool, Option<Span>)] = &[(false, Some((0, 1))), (true, None)];

#[test]
fn modes_and_overrides_change_answers(rt: HostRuntime) {
    for &(mode, pattern, wanted) in MODES_OF_BUILDERS {
        let mut builder = RegexBuilder::new(rt.alloc(), pattern).expect(&rt, pattern);
        let haystack: &[u8] = b"\x80";
        let read = builder.bytes_mode(mode).build();
        check_read(&rt, read, RegexInput::new(haystack), wanted);
    }
    for &(allowed, wanted) in OVERRIDES_OF_BUILDERS {
        let mut builder = RegexBuilder::new(rt.alloc(), "^a").expect(&rt, "^a");
        let read = builder.allow_input_assertion_overrides(allowed).build();
        let input = RegexInput::new("a").start_text(false);
        check_read(&rt, read, input, wanted);
    }
}

/// Checks how many groups the pattern has that was read.
fn check_groups(rt: &impl Abort, read: fancy_regex::Result<Regex>, wanted: usize) {
    let regex = read.expect(rt, "a regex");
    check(rt, regex.captures_len() == wanted, regex.as_str());
}

#[test]
fn numbered_groups_give_way_to_named_ones(rt: HostRuntime) {
    let mut options = RegexOptionsBuilder::new();
    options.ignore_numbered_groups_when_named_groups_exist(true);
    let read = options.build(owned(&rt, rt.alloc(), "(a)(?<n>b)"));
    check_groups(&rt, read, 2);
    options.ignore_numbered_groups_when_named_groups_exist(false);
    let read = options.build(owned(&rt, rt.alloc(), "(a)(?<n>b)"));
    check_groups(&rt, read, 3);
}
