//! Tokens of pattern sets. Rows of them are in `crates/calls/rows.txt`.

use crate::asking::check_tokens_within;
use fancy_regex::RegexSet;

const WORDS: &[&str] = &["if", "[a-z]+", "[0-9]+", " +"];

#[test]
fn tokens_begin_where_the_range_does(rt: HostRuntime) {
    let set = RegexSet::new(rt.alloc(), WORDS).expect(&rt, "a set");
    let wanted = &[(1, (3, 4)), (3, (4, 5)), (2, (5, 7))];
    check_tokens_within(&rt, &set, ("if x 42", 3, 7), wanted);
}
