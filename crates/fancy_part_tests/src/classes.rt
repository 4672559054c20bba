//! The members of classes, by the sets that they are read as. Why classes are refused are rows in `crates/calls/rows.txt`.

use crate::asking::check;
use fancy_syntax::flags::Flags;
use fancy_syntax::parse::{ParseOptions, parse_with};
use fancy_tree::set::Set;
use fancy_tree::tree::{Meaning, Tree};
use std::alloc::Global;
use std::process::Abort;

const UNICODE: ParseOptions = ParseOptions::STANDARD;

const FOLDED: ParseOptions = ParseOptions {
    flags: Flags {
        ignore_case: true,
        ..Flags::NONE
    },
    ..ParseOptions::STANDARD
};

const BYTES: ParseOptions = ParseOptions {
    meaning: Meaning::Bytes,
    ..ParseOptions::STANDARD
};

const FOLDED_BYTES: ParseOptions = ParseOptions {
    meaning: Meaning::Bytes,
    ..FOLDED
};

const ASCII: ParseOptions = ParseOptions {
    meaning: Meaning::AsciiText,
    ..ParseOptions::STANDARD
};

/// What holds at the start, a class, probed characters, and the same with each that is no member shown as a dot.
type MembersRow = (ParseOptions, &'static str, &'static str, &'static str);

/// The probed characters, with a dot in place of each that is no member.
fn shown(rt: &impl Abort, alloc: Global, set: &Set, probe: &str) -> String {
    let mut shown = String::new(alloc);
    for c in probe.chars() {
        let is_member = set.contains(c as u32);
        shown
            .push(if is_member { c } else { '.' })
            .expect(rt, probe);
    }
    shown
}

/// Checks the members of a class.
fn check_members(rt: &impl Abort, alloc: Global, row: &MembersRow) {
    let (options, pattern, probe, wanted) = *row;
    let found = parse_with(alloc, pattern, options).expect(rt, pattern);
    let Tree::Member(set) = &found.tree else {
        rt.panic(pattern)
    };
    let shown = shown(rt, alloc, set, probe);
    check(rt, shown.as_str() == wanted, pattern);
}

const MEMBERS: &[MembersRow] = &[
    (UNICODE, "[^a-c]", "abcd", "...d"),
    (UNICODE, "[]a]", "]ab", "]a."),
    (UNICODE, "[^]a]", "]ab", "..b"),
    (UNICODE, "[--a]", "-a,A5b", "-a.A5."),
    (UNICODE, "[--]", "-a", "-."),
    (UNICODE, "[---]", "-,.", "-.."),
    (UNICODE, "[a-]", "-ab", "-a."),
    (UNICODE, "[a---b]", "a-b", "a.."),
    (UNICODE, "[a--b]", "ab", "a."),
    (UNICODE, "[a-d&&b-c~~k]", "abcdk", ".bc.k"),
    (UNICODE, "[^&&a]", "ab", "ab"),
    (UNICODE, "[a-d--[bc]]", "abcd", "a..d"),
    (UNICODE, "[a-d--b--c]", "abcd", "a..d"),
    (UNICODE, "[a-d--b&&c]", "abcd", "..c."),
    (UNICODE, "[a&&b]", "ab", ".."),
    (UNICODE, "[\\d\\]-]", "5]-a", "5]-."),
    (UNICODE, "[[:alpha:]&&[^b]]", "abcA5", "a.cA."),
    (UNICODE, "[[:^alpha:]]", "a5é", ".5é"),
    (UNICODE, "[[:a]]", ":ab", ":a."),
    (UNICODE, "[[::]]", ":a", ":."),
    (UNICODE, "[[:^:]]", ":a^", ":.^"),
    (UNICODE, "[[:é:]]", ":aé", ":.é"),
    (UNICODE, "[:a]", ":ab", ":a."),
    (UNICODE, "[\\x41-\\x{43}]", "ABCD", "ABC."),
    (UNICODE, "[\\u0041\\U00000042\\u{1F600}]", "ABC😀", "AB.😀"),
    (UNICODE, "[\\xE9]", "éa", "é."),
    (
        UNICODE,
        "[\\b\\e\\t\\ \\-]",
        "\u{8}\u{1b}\t -b",
        "\u{8}\u{1b}\t -.",
    ),
    (UNICODE, "[\\p{Greek}\\pN]", "αa5", "α.5"),
    (UNICODE, "[\\P{l}\\p{is Lu}]", "aA5", ".A5"),
    (UNICODE, "[\\w--\\d]", "aé5_ ", "aé._."),
    (UNICODE, "[\\s\\h]", " fg\u{a0}", " f.\u{a0}"),
    (FOLDED, "[k]", "kK\u{212A}a", "kK\u{212A}."),
    (FOLDED, "[^k]", "kK\u{212A}a", "...a"),
    (FOLDED, "[a-z--k]", "kK\u{212A}sS\u{17F}", "...sS\u{17F}"),
    (
        FOLDED,
        "[[:alpha:]]",
        "k\u{212A}\u{17F}1",
        "k\u{212A}\u{17F}.",
    ),
    (FOLDED, "[[:^alpha:]]", "k\u{212A}\u{17F}1", "...1"),
    (FOLDED_BYTES, "[k]", "kK\u{212A}", "kK."),
    (BYTES, "[\\xE9\\x41]", "\u{e9}A", "\u{e9}A"),
    (BYTES, "[^a]", "ab\u{ff}\u{100}", ".b\u{ff}."),
    (BYTES, "[\\w]", "aé", "a."),
    (ASCII, "[\\w]", "aé", "a."),
];

#[test]
fn classes_have_members(rt: HostRuntime) {
    for row in MEMBERS {
        check_members(&rt, rt.alloc(), row);
    }
}
