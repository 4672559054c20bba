//! What the program `fre` writes, and its statuses.

use crate::asking::{BrokenRow, CommandRow, check_broken, check_commands, check_deaf};

const MATCHES: &[CommandRow] = &[
    (&["find", "a|ab", "xab"], "1..2 a\n", "", 0),
    (&["find", "", "b"], "0..0 \n", "", 0),
    (&["find", "c", "xab"], "", "", 1),
    (&["captures", "(a)|b", "b"], "0 0..1 b\n1 none\n", "", 0),
    (&["captures", "(a)", "b"], "", "", 1),
];

const PIECES: &[CommandRow] = &[
    (&["split", ",", "1,,2"], "1\n\n2\n", "", 0),
    (&["split", "", "b"], "\nb\n\n", "", 0),
    (&["split", "a", ""], "\n", "", 0),
    (&["split", "c", "xab"], "xab\n", "", 0),
];

const REPLACED: &[CommandRow] = &[
    (
        &["replace", "aa", "aaaa aaa aa a", "xx"],
        "xxxx xxa xx a\n",
        "",
        0,
    ),
    (&["replace", "(b)", "abc", "${1}-$0"], "ab-bc\n", "", 0),
    (&["replace", "x", "abc", "$0"], "abc\n", "", 0),
];

const SETS: &[CommandRow] = &[
    (
        &["set", "$29.99", "\\d+", "\\w+", "(?<=\\$)\\d+\\.\\d+"],
        "0 1..3 29\n1 1..3 29\n2 1..6 29.99\n",
        "",
        0,
    ),
    (
        &["set", "xab", "a\\Kb", "c", "ab"],
        "0 2..3 b\n2 1..3 ab\n",
        "",
        0,
    ),
    (&["set", "xab", "c"], "", "", 1),
    (&["set", "xab"], "", "", 1),
];

const TOKENS: &[CommandRow] = &[
    (
        &["tokens", "if iffy", "if", "[a-z]+", " +"],
        "0 0..2 if\n2 2..3  \n1 3..7 iffy\n",
        "",
        0,
    ),
    (&["tokens", "if!", "if"], "0 0..2 if\nunmatched 2\n", "", 1),
    (&["tokens", ""], "", "", 0),
];

const NO_COMMANDS: &[CommandRow] = &[
    (&[], "", "error: usage\n", 2),
    (&["find", "a"], "", "error: usage\n", 2),
    (&["seek", "a", "b"], "", "error: usage\n", 2),
    (&["split", "a"], "", "error: usage\n", 2),
    (&["replace", "x", "abc"], "", "error: usage\n", 2),
    (&["set"], "", "error: usage\n", 2),
    (&["tokens"], "", "error: usage\n", 2),
];

const REFUSED: &[CommandRow] = &[
    (&["find", "(?:a", "x"], "", "error: UnclosedOpenParen\n", 2),
    (&["find", "a)", "x"], "", "error: GeneralParseError\n", 2),
    (&["find", "?a", "x"], "", "error: TargetNotRepeatable\n", 2),
    (&["find", "\\R", "x"], "", "error: NotInProfile\n", 2),
    (&["find", "(a)\\2", "x"], "", "error: InvalidBackref\n", 2),
    (
        &["find", "\\k<n>", "x"],
        "",
        "error: InvalidGroupNameBackref\n",
        2,
    ),
    (
        &["find", "(?<=a+)b", "x"],
        "",
        "error: LookBehindNotConst\n",
        2,
    ),
    (&["split", "?a", "x"], "", "error: TargetNotRepeatable\n", 2),
    (
        &["replace", "a)", "x", "y"],
        "",
        "error: GeneralParseError\n",
        2,
    ),
    (
        &["set", "x", "a", "(?:b", "c)"],
        "",
        "error: UnclosedOpenParen\n",
        2,
    ),
    (
        &["tokens", "x", "(?:b"],
        "",
        "error: UnclosedOpenParen\n",
        2,
    ),
];

const BROKEN: &[BrokenRow] = &[(&["find", "a|ab", "xab"], 3), (&["split", "a", "xab"], 3)];

#[test]
fn the_program_writes_what_it_found(rt: HostRuntime) {
    for rows in [MATCHES, PIECES, REPLACED, SETS, TOKENS] {
        check_commands(&rt, rt.alloc(), rows);
    }
}

#[test]
fn the_program_says_what_is_wrong(rt: HostRuntime) {
    for rows in [NO_COMMANDS, REFUSED] {
        check_commands(&rt, rt.alloc(), rows);
    }
    check_broken(&rt, rt.alloc(), BROKEN);
    check_deaf(&rt, rt.alloc());
}
