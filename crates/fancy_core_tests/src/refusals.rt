//! What is too deep or too large. Other refusals are rows in `crates/calls/rows.txt`.

use crate::asking::{Verdict, check_verdict, nested};
use fancy_core::regex::Regex;
use fancy_tree::error::ParseErrorKind;
use std::alloc::Global;
use std::process::Abort;

const TOO_DEEP: Verdict = Verdict::Kind(ParseErrorKind::RecursionExceeded);

/// What opens, stands within and closes, how deep it may be, and the verdict on it where it is one deeper.
const DEEP: &[((&str, &str, &str), usize, Verdict)] = &[
    (("(?:", "a", ")"), 128, TOO_DEEP),
    (
        ("(?:", "", ")"),
        128,
        Verdict::Fault(387, ParseErrorKind::RecursionExceeded),
    ),
    (("(", "a", ")"), 128, TOO_DEEP),
    (("(?i:", "a", ")"), 128, TOO_DEEP),
    (
        ("[", "a", "]"),
        128,
        Verdict::Fault(128, ParseErrorKind::RecursionExceeded),
    ),
    // in the innermost condition two parentheses are open besides those of the bodies round it
    (("(?(a)", "b", ")"), 127, TOO_DEEP),
];

/// Checks what becomes of a pattern of so many parts.
fn check_nested(
    rt: &impl Abort,
    alloc: Global,
    parts: (&str, &str, &str),
    depth: usize,
    wanted: Verdict,
) {
    let pattern = nested(rt, alloc, parts, depth);
    let read = Regex::new(alloc, pattern.as_str());
    check_verdict(rt, &read, wanted, parts.0);
}

#[test]
fn parentheses_and_brackets_nest_128_deep(rt: HostRuntime) {
    for &(parts, depth, verdict) in DEEP {
        let (less, more) = (depth.saturating_sub(1), depth.saturating_add(1));
        check_nested(&rt, rt.alloc(), parts, depth, Verdict::Accepted);
        check_nested(&rt, rt.alloc(), parts, less, Verdict::Accepted);
        check_nested(&rt, rt.alloc(), parts, more, verdict);
    }
}

#[test]
fn a_pattern_has_four_million_nodes(rt: HostRuntime) {
    let parts = ("a", "", "");
    check_nested(&rt, rt.alloc(), parts, 4_000_000, Verdict::Accepted);
    check_nested(&rt, rt.alloc(), parts, 4_000_001, Verdict::TooComplex);
}
