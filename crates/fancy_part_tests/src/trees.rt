//! How large the trees are that patterns are read as.

use crate::asking::{check, is_too_complex};
use fancy_syntax::parse::{ParseOptions, parse, parse_with};
use fancy_tree::tree::Meaning;

const OF_BYTES: ParseOptions = ParseOptions {
    meaning: Meaning::Bytes,
    ..ParseOptions::STANDARD
};

const OF_ASCII_TEXT: ParseOptions = ParseOptions {
    meaning: Meaning::AsciiText,
    ..ParseOptions::STANDARD
};

/// Where a group has a name, those without capture nothing.
const OF_NAMED_GROUPS: ParseOptions = ParseOptions {
    only_named: true,
    ..ParseOptions::STANDARD
};

/// What holds at the start, a pattern, and how many nodes, groups and names it has.
type SizeRow = (ParseOptions, &'static str, (usize, usize, usize));

const SIZES: &[SizeRow] = &[
    (ParseOptions::STANDARD, "(?:a|b)?c", (7, 1, 0)),
    (OF_BYTES, "aé", (3, 1, 0)),
    (OF_ASCII_TEXT, "aé", (2, 1, 0)),
    (OF_BYTES, "(?i)aé", (3, 1, 0)),
    (ParseOptions::STANDARD, "[a-c]\\d.", (3, 1, 0)),
    (ParseOptions::STANDARD, "a*", (3, 1, 0)),
    (ParseOptions::STANDARD, "a+", (4, 1, 0)),
    (ParseOptions::STANDARD, "a{3}", (4, 1, 0)),
    (ParseOptions::STANDARD, "a{02,2}", (3, 1, 0)),
    (ParseOptions::STANDARD, "a{2,5}", (9, 1, 0)),
    (ParseOptions::STANDARD, "a{,2}", (5, 1, 0)),
    (ParseOptions::STANDARD, "a{2,}", (5, 1, 0)),
    (ParseOptions::STANDARD, "((a)|b)(c)", (8, 4, 0)),
    (OF_NAMED_GROUPS, "((a)|b)(c)", (8, 4, 0)),
    (OF_NAMED_GROUPS, "()*", (4, 2, 0)),
    (OF_NAMED_GROUPS, "(a)(?<n>b)", (3, 2, 1)),
    (OF_NAMED_GROUPS, "(?<n>(a)(b))", (3, 2, 1)),
    (OF_NAMED_GROUPS, "(a)(?<n>b)(?<n>c)", (5, 3, 2)),
    (OF_NAMED_GROUPS, "((?<n>a)|(b))(c)", (6, 2, 1)),
    (OF_NAMED_GROUPS, "(a){3}(?<n>b)", (6, 2, 1)),
    (OF_NAMED_GROUPS, "(|)*(?<n>a)", (8, 2, 1)),
];

#[test]
fn patterns_have_a_size(rt: HostRuntime) {
    for &(options, pattern, wanted) in SIZES {
        let found = parse_with(rt.alloc(), pattern, options).expect(&rt, pattern);
        let size = (found.tree.nodes(), found.groups, found.names.groups().len());
        check(&rt, size == wanted, pattern);
    }
}

#[test]
fn groups_that_capture_nothing_are_no_nodes(rt: HostRuntime) {
    let mut pattern = "(a)".repeat(rt.alloc(), 2_000_000).expect(&rt, "no memory");
    pattern.push_str("(?<n>b)").expect(&rt, "no memory");
    let found = parse(rt.alloc(), pattern.as_str());
    check(&rt, is_too_complex(&found), "groups that capture");
    let found = parse_with(rt.alloc(), pattern.as_str(), OF_NAMED_GROUPS);
    check(&rt, found.is_ok(), "groups that do not");
}
