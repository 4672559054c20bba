//! The bytes that matches start with, and those that every haystack with a match has.
//!
//! Rows of them are in `crates/calls/rows.txt`: here is how a set tells its members, and what a size does not refuse.

use crate::asking::check;
use fancy_regex::{ByteSet, RegexOptionsBuilder};
use std::alloc::Global;
use std::process::Abort;

/// The bytes that matches start with (nothing where they may start anywhere), and those that they require.
type Bytes = (Option<&'static [u8]>, &'static [u8]);

/// Checks that the set has these members, in this order, and no others.
fn check_members(rt: &impl Abort, set: &ByteSet, wanted: &[u8], pattern: &str) {
    let mut at = 0usize;
    for byte in set.iter() {
        check(rt, wanted.get(at) == Some(&byte), pattern);
        check(rt, set.contains(byte), pattern);
        at = at.wrapping_add(1);
    }
    check(rt, at == wanted.len(), pattern);
    check(rt, set.len() == at, pattern);
    check(rt, set.is_empty() == wanted.is_empty(), pattern);
}

/// Checks the bytes that matches of a pattern start with, and those that they require.
fn check_bytes(
    rt: &impl Abort,
    alloc: Global,
    builder: &RegexOptionsBuilder,
    pattern: &str,
    (start, required): Bytes,
) {
    let found = builder.start_bytes(alloc, pattern).expect(rt, pattern);
    check(rt, found.is_some() == start.is_some(), pattern);
    if let Some(set) = &found {
        check_members(rt, set, start.unwrap_or(&[]), pattern);
    }
    let found = builder.required_bytes(alloc, pattern).expect(rt, pattern);
    check_members(rt, &found, required, pattern);
}

/// Checks how many bytes matches of a pattern may start with.
fn check_count(
    rt: &impl Abort,
    alloc: Global,
    builder: &RegexOptionsBuilder,
    pattern: &str,
    wanted: usize,
) {
    let found = builder.start_bytes(alloc, pattern).expect(rt, pattern);
    check(rt, found.expect(rt, pattern).len() == wanted, pattern);
}

/// A pattern, and how many bytes its matches may start with.
const COUNTS: &[(&str, usize)] = &[
    ("\\1(a)", 256),
    ("\\d\\d-\\d", 18),
    ("\\w", 110),
    (".", 178),
];

#[test]
fn patterns_have_bytes(rt: HostRuntime) {
    let mut builder = RegexOptionsBuilder::new();
    for &(pattern, wanted) in COUNTS {
        check_count(&rt, rt.alloc(), &builder, pattern, wanted);
    }
    // a size refuses no bytes
    builder.max_prog_size(0);
    let bytes: Bytes = (Some(&[0x62]), &[0x61, 0x62]);
    check_bytes(&rt, rt.alloc(), &builder, "(?=a)b", bytes);
}
