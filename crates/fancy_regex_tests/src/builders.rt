//! Ways to a regex: a builder that holds its pattern, a text that becomes one, and one that stands for itself.

use crate::asking::{Span, Verdict, check, check_read, check_verdict, owned};
use fancy_regex::{ParseErrorKind, Regex, RegexBuilder, RegexInput, Result, escape};
use std::alloc::Global;
use std::borrow::CowStr;
use std::process::Abort;

/// Checks where the regex of a builder finds its first match, and that each build gives it anew.
fn check_built(rt: &impl Abort, builder: &RegexBuilder, text: &str, wanted: Option<Span>) {
    check_read(rt, builder.build(), RegexInput::new(text), wanted);
}

/// Checks what becomes of the pattern of a builder.
fn check_refused(rt: &impl Abort, builder: &RegexBuilder, wanted: Verdict) {
    check_verdict(rt, &builder.build(), wanted, "a builder");
}

/// Checks the pattern that the regex tells, and where it finds its first match.
fn check_told(
    rt: &impl Abort,
    read: Result<Regex>,
    pattern: &str,
    text: &str,
    wanted: Option<Span>,
) {
    let regex = read.expect(rt, pattern);
    check(rt, regex.as_str() == pattern, pattern);
    check_read(rt, Ok(regex), RegexInput::new(text), wanted);
}

#[test]
fn another_pattern_keeps_the_options(rt: HostRuntime) {
    let mut builder = RegexBuilder::new(rt.alloc(), "a b").expect(&rt, "a builder");
    check_built(&rt, &builder, "ab", None);
    check_built(&rt, &builder, "a b", Some((0, 3)));
    builder.ignore_whitespace(true).multi_line(true);
    check_built(&rt, &builder, "ab", Some((0, 2)));
    builder.pattern(owned(&rt, rt.alloc(), "^ B $"));
    check_built(&rt, &builder, "a\nb\n", None);
    check_told(&rt, builder.build(), "^ B $", "a\nB\n", Some((2, 3)));
    builder
        .case_insensitive(true)
        .pattern(owned(&rt, rt.alloc(), "^ \\x{62} $"))
        .multi_line(false);
    check_built(&rt, &builder, "a\nB\n", None);
    check_built(&rt, &builder, "B", Some((0, 1)));
}

#[test]
fn patterns_are_refused_and_replaced(rt: HostRuntime) {
    let mut builder = RegexBuilder::new(rt.alloc(), "(?:a").expect(&rt, "a builder");
    let fault = Verdict::Fault(4, ParseErrorKind::UnclosedOpenParen);
    check_refused(&rt, &builder, fault);
    check_refused(&rt, &builder, fault);
    builder.pattern(owned(&rt, rt.alloc(), "(?:a)"));
    check_told(&rt, builder.build(), "(?:a)", "ba", Some((1, 2)));
    // a text becomes a regex
    let read = Regex::try_from(owned(&rt, rt.alloc(), "a|ab"));
    check_told(&rt, read, "a|ab", "xab", Some((1, 2)));
    // a faulty text becomes none
    let refused = Regex::try_from(owned(&rt, rt.alloc(), "a)"));
    let fault = Verdict::Fault(1, ParseErrorKind::GeneralParseError);
    check_verdict(&rt, &refused, fault, "a)");
}

/// Texts, and what stands for them in a pattern. One that stands for itself is lent.
const ESCAPED: &[(&str, &str)] = &[("@foo", "@foo"), ("1+1", "1\\+1")];

/// Checks what stands for a text, and whether it is lent and no copy.
fn check_escaped(rt: &impl Abort, answer: Result<CowStr<'_, Global>>, wanted: &str, is_lent: bool) {
    let escaped = answer.expect(rt, wanted);
    check(rt, escaped.as_str() == wanted, wanted);
    check(
        rt,
        matches!(escaped, CowStr::Borrowed(_)) == is_lent,
        wanted,
    );
}

#[test]
fn texts_are_escaped(rt: HostRuntime) {
    for &(text, wanted) in ESCAPED {
        check_escaped(&rt, escape(rt.alloc(), text), wanted, text == wanted);
    }
}
