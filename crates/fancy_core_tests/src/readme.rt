//! Calls that the README names and that no row can ask: a regex as text, and a list of its matches that is collected. Other calls are
//! rows in `crates/calls/rows.txt`.

use crate::asking::{check, regex_of};
use fancy_core::captures::Captures;
use fancy_tree::error::Result;

#[test]
fn a_regex_prints_its_pattern(rt: HostRuntime) {
    let regex = regex_of(&rt, rt.alloc(), "a|ab");
    let text = regex.to_string(rt.alloc()).expect(&rt, "a|ab");
    check(&rt, text.as_str() == "a|ab", "a|ab");
}

#[test]
fn matches_are_collected(rt: HostRuntime) {
    let regex = regex_of(&rt, rt.alloc(), "a?");
    let all: Result<Vec<Captures<'_, &str>>> = regex.captures_iter("baa").try_collect(rt.alloc());
    check(&rt, all.expect(&rt, "a?").len() == 3, "how many matches");
}
