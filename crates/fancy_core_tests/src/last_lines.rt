//! `\Z` in lists of matches, where a search goes on with what those before it read of the line ends that close the text.

use crate::asking::{check, regex_of};
use std::alloc::Global;
use std::process::Abort;

/// Checks how many matches a long text has, by each call that goes over all.
fn check_all(rt: &impl Abort, alloc: Global, pattern: &str, text: &str, count: usize) {
    let regex = regex_of(rt, alloc, pattern);
    check(rt, regex.find_iter(text).count() == count, pattern);
    check(rt, regex.captures_iter(text).count() == count, pattern);
    let pieces = regex.split(text).count();
    check(rt, pieces.checked_sub(1) == Some(count), pattern);
    let rest = regex.replace_all(text, "").expect(rt, pattern);
    check(
        rt,
        rest.as_str().len() == text.len().saturating_sub(count),
        pattern,
    );
}

/// Adds 128 KiB of line feeds.
fn push_feeds(rt: &impl Abort, alloc: Global, text: &mut String) {
    let feeds = "\n".repeat(alloc, 131_072).expect(rt, "line feeds");
    text.push_str(feeds.as_str()).expect(rt, "line feeds");
}

#[test]
fn lists_read_the_last_lines_once(rt: HostRuntime) {
    let mut feeds = String::new(rt.alloc());
    push_feeds(&rt, rt.alloc(), &mut feeds);
    check_all(&rt, rt.alloc(), "\\n\\Z|\\n", feeds.as_str(), 131_072);
}

#[test]
fn lists_read_the_last_lines_once_on_both_sides(rt: HostRuntime) {
    let mut halves = String::new(rt.alloc());
    push_feeds(&rt, rt.alloc(), &mut halves);
    halves.push_str("a").expect(&rt, "a");
    push_feeds(&rt, rt.alloc(), &mut halves);
    let pattern = "(?R)\\n\\Z|\\n";
    check_all(&rt, rt.alloc(), pattern, halves.as_str(), 262_144);
}

#[test]
fn lists_of_hard_patterns_read_the_last_lines_once(rt: HostRuntime) {
    let mut feeds = String::new(rt.alloc());
    push_feeds(&rt, rt.alloc(), &mut feeds);
    let pattern = "(?=\\n)(?:\\n\\Z|\\n)";
    check_all(&rt, rt.alloc(), pattern, feeds.as_str(), 131_072);
}
