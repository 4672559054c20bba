//! What errors print.

use crate::asking::check;
use fancy_tree::error::{CompileError, Error, ParseErrorKind, RuntimeError};
use std::alloc::Global;
use std::process::Abort;

/// Checks that the error prints the words after its beginning.
fn check_shown(rt: &impl Abort, alloc: Global, error: Error, beginning: &str, words: &str) {
    let shown = error.to_string(alloc).expect(rt, words);
    let rest = shown.as_str().strip_prefix(beginning);
    check(rt, rest == Some(words), words);
}

const KINDS: &[(ParseErrorKind, &str)] = &[
    (
        ParseErrorKind::GeneralParseError,
        "unmatched parenthesis, or an incomplete reference in a template",
    ),
    (
        ParseErrorKind::UnclosedOpenParen,
        "opening parenthesis without closing parenthesis",
    ),
    (ParseErrorKind::InvalidRepeat, "invalid bounds of a repeat"),
    (
        ParseErrorKind::TargetNotRepeatable,
        "nothing to repeat before the quantifier",
    ),
    (
        ParseErrorKind::RecursionExceeded,
        "parentheses or brackets are nested too deep",
    ),
    (
        ParseErrorKind::TrailingBackslash,
        "backslash at the end of the pattern",
    ),
    (ParseErrorKind::InvalidEscape, "invalid escape"),
    (ParseErrorKind::InvalidHex, "invalid hexadecimal digits"),
    (
        ParseErrorKind::InvalidCodepointValue,
        "number of no character",
    ),
    (ParseErrorKind::InvalidClass, "invalid class"),
    (ParseErrorKind::UnknownFlag, "unknown flag"),
    (ParseErrorKind::InvalidGroupName, "invalid group name"),
    (
        ParseErrorKind::ChangingUnicodeModeUnsupported,
        "changing the Unicode mode is not supported",
    ),
    (
        ParseErrorKind::NotInProfile,
        "form that is not in the dialect",
    ),
];

/// Checks the name of the kind of an error.
fn check_name(rt: &impl Abort, error: Error, name: &str) {
    check(rt, error.name() == name, name);
}

#[test]
fn errors_have_names(rt: HostRuntime) {
    check_name(&rt, Error::Memory, "Memory");
    let kind = ParseErrorKind::UnclosedOpenParen;
    check_name(&rt, Error::ParseError(4, kind), "UnclosedOpenParen");
    let kind = CompileError::InvalidBackref(2);
    check_name(&rt, Error::CompileError(kind), "InvalidBackref");
    let kind = CompileError::PatternTooComplex;
    check_name(&rt, Error::CompileError(kind), "PatternTooComplex");
    let kind = RuntimeError::Unmatched(2);
    check_name(&rt, Error::RuntimeError(kind), "Unmatched");
}

#[test]
fn errors_have_their_texts(rt: HostRuntime) {
    let alloc = rt.alloc();
    let beginning = "parsing error at position 3: ";
    for &(kind, words) in KINDS {
        check_shown(&rt, alloc, Error::ParseError(3, kind), beginning, words);
    }
    let beginning = "error compiling regex: ";
    let name = String::from_str(alloc, "n").expect(&rt, "n");
    let error = Error::CompileError(CompileError::InvalidGroupNameBackref(name));
    check_shown(&rt, alloc, error, beginning, "no group has the name n");
    let error = Error::CompileError(CompileError::InvalidBackref(2));
    check_shown(&rt, alloc, error, beginning, "no group has the number 2");
    let error = Error::CompileError(CompileError::NamedBackrefOnly);
    let words = "groups are referred to by name alone here";
    check_shown(&rt, alloc, error, beginning, words);
    let error = Error::CompileError(CompileError::LookBehindNotConst);
    check_shown(
        &rt,
        alloc,
        error,
        beginning,
        "look-behind of no constant size",
    );
    let error = Error::CompileError(CompileError::PatternCanNeverMatch);
    check_shown(&rt, alloc, error, beginning, "pattern that can never match");
    let error = Error::CompileError(CompileError::PatternTooComplex);
    let words = "pattern with more than 4000000 nodes, or too much code";
    check_shown(&rt, alloc, error, beginning, words);
    let beginning = "error executing regex: ";
    let error = Error::RuntimeError(RuntimeError::BacktrackLimitExceeded);
    check_shown(
        &rt,
        alloc,
        error,
        beginning,
        "limit for backtracking exceeded",
    );
    let error = Error::RuntimeError(RuntimeError::StackOverflow);
    check_shown(&rt, alloc, error, beginning, "too many saved branches");
    let error = Error::RuntimeError(RuntimeError::Unmatched(2));
    check_shown(&rt, alloc, error, beginning, "no token at position 2");
    check_shown(&rt, alloc, Error::Memory, "out of memory", "");
}
