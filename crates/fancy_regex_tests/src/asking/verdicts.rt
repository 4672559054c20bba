//! What is accepted, and what is refused and why.

use crate::asking::check;
use fancy_regex::{CompileError, Error, ParseErrorKind};
use std::process::Abort;

/// What becomes of a pattern.
#[derive(Clone, Copy)]
pub(crate) enum Verdict {
    /// It is not refused.
    Accepted,
    /// The pattern has a fault of this kind at this place.
    Fault(usize, ParseErrorKind),
    /// The pattern has a fault of this kind, wherever it is.
    Kind(ParseErrorKind),
    /// Too many nodes, or too much code.
    TooComplex,
}

/// Checks what became of a pattern.
pub(crate) fn check_verdict<T>(
    rt: &impl Abort,
    answer: &fancy_regex::Result<T>,
    wanted: Verdict,
    words: &str,
) {
    let holds = match (answer, wanted) {
        (Ok(_), Verdict::Accepted) => true,
        (Err(Error::ParseError(at, kind)), Verdict::Fault(place, wanted)) => *at == place
            && *kind == wanted,
        (Err(Error::ParseError(_, kind)), Verdict::Kind(wanted)) => *kind == wanted,
        (Err(Error::CompileError(CompileError::PatternTooComplex)), Verdict::TooComplex) => true,
        _ => false,
    };
    check(rt, holds, words);
}
