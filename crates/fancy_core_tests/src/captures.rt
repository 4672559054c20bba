//! What groups a search finds, by their numbers and names. Rows of groups are in `crates/calls/rows.txt`.

use crate::asking::Group::{Named, Numbered};
use crate::asking::{PartsRow, check_input, check_owned_parts, check_parts, regex_of};
use fancy_input::regex_input::RegexInput;

// the last group of a name is meant
const PARTS_OF_NAMES: &[PartsRow] = &[
    (
        "(?<y>1|2)-(?<y>1|2)",
        "1-2",
        &[
            (Named("y"), Some(((2, 3), "2"))),
            (Named("z"), None),
            (Named(""), None),
        ],
    ),
    ("(?<y>a)|(?<y>b)", "a", &[(Named("y"), None)]),
    (
        "(?<y>\\d+)-(?<y>\\d+)",
        "1-2",
        &[(Named("y"), Some(((2, 3), "2")))],
    ),
    ("(?<1>a)", "ba", &[(Named("1"), Some(((1, 2), "a")))]),
];

const PARTS: &[PartsRow] = &[
    (
        "(?P<first>deep|e) (?P<second>fried)(x)?",
        "deep fried",
        &[
            (Numbered(0), Some(((0, 10), "deep fried"))),
            (Numbered(1), Some(((0, 4), "deep"))),
            (Numbered(2), Some(((5, 10), "fried"))),
            (Numbered(3), None),
            (Numbered(4), None),
            (Named("first"), Some(((0, 4), "deep"))),
            (Named("second"), Some(((5, 10), "fried"))),
            (Named("third"), None),
        ],
    ),
    (
        "(?P<first>\\w+)\\s+(?P<second>\\w+)(?P<third>!)?",
        "deep fried",
        &[
            (Numbered(0), Some(((0, 10), "deep fried"))),
            (Numbered(1), Some(((0, 4), "deep"))),
            (Numbered(2), Some(((5, 10), "fried"))),
            (Numbered(3), None),
            (Numbered(4), None),
            (Named("first"), Some(((0, 4), "deep"))),
            (Named("second"), Some(((5, 10), "fried"))),
            (Named("third"), None),
            (Named("fourth"), None),
        ],
    ),
];

#[test]
fn finds_the_parts(rt: HostRuntime) {
    check_parts(&rt, rt.alloc(), PARTS_OF_NAMES);
    check_parts(&rt, rt.alloc(), PARTS);
    check_owned_parts(&rt, rt.alloc(), PARTS);
}

#[test]
fn the_branch_that_was_given_up_captures_nothing(rt: HostRuntime) {
    let regex = regex_of(&rt, rt.alloc(), "(a|ab)c");
    let input = RegexInput::new("xabc").range(1..4);
    check_input(&rt, &regex, input, &[Some((1, 4)), Some((1, 3))]);
}
