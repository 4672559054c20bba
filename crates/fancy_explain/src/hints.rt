//! What to do about each kind of error.

use fancy_tree::error::{CompileError, Error, ParseErrorKind, RuntimeError};

/// What is wrong, for a kind that is told by the text of a pattern.
pub(crate) fn parse_message(kind: ParseErrorKind) -> &'static str {
    match kind {
        ParseErrorKind::GeneralParseError =>
            "unmatched parenthesis, or an incomplete reference in a template",
        ParseErrorKind::UnclosedOpenParen => "opening parenthesis without closing parenthesis",
        ParseErrorKind::InvalidRepeat => "invalid bounds of a repeat",
        ParseErrorKind::TargetNotRepeatable => "nothing to repeat before the quantifier",
        ParseErrorKind::RecursionExceeded => "parentheses or brackets are nested too deep",
        ParseErrorKind::TrailingBackslash => "backslash at the end of the pattern",
        ParseErrorKind::InvalidEscape => "invalid escape",
        ParseErrorKind::InvalidHex => "invalid hexadecimal digits",
        ParseErrorKind::InvalidCodepointValue => "number of no character",
        ParseErrorKind::InvalidClass => "invalid class",
        ParseErrorKind::UnknownFlag => "unknown flag",
        ParseErrorKind::InvalidGroupName => "invalid group name",
        ParseErrorKind::ChangingUnicodeModeUnsupported =>
            "changing the Unicode mode is not supported",
        ParseErrorKind::NotInProfile => "form that is not in the dialect",
    }
}

/// What to do about a kind that is told by the text of a pattern.
pub(crate) fn parse_hint(kind: ParseErrorKind) -> &'static str {
    match kind {
        ParseErrorKind::GeneralParseError => r"write `\)`, or in a template the mark twice",
        ParseErrorKind::UnclosedOpenParen => r"write the `)`, or `\(`",
        ParseErrorKind::InvalidRepeat => "write the lower bound first, both at most 4294967295",
        ParseErrorKind::TargetNotRepeatable =>
            r"write a group around what is to be repeated, or `\?`",
        ParseErrorKind::RecursionExceeded => "take out groups that capture nothing",
        ParseErrorKind::TrailingBackslash => r"write `\\`",
        ParseErrorKind::InvalidEscape => "write the character without the backslash",
        ParseErrorKind::InvalidHex => {
            r"write two digits after `\x`, four after `\u`, eight after `\U`, or one to eight in braces"
        }
        ParseErrorKind::InvalidCodepointValue => "write a number up to 10FFFF that is no surrogate",
        ParseErrorKind::InvalidClass => "write a class that the dialect has",
        ParseErrorKind::UnknownFlag => "use `i`, `m`, `s`, `x`, `u`, `R`",
        ParseErrorKind::InvalidGroupName => "rename the group: letters, numbers and `_`",
        ParseErrorKind::ChangingUnicodeModeUnsupported =>
            "set `unicode_mode` or `bytes_mode` on the builder",
        ParseErrorKind::NotInProfile =>
            "see `Not in the dialect` in docs/DIALECT.md for what to write",
    }
}

/// What is wrong, for an error that has no place.
pub(crate) fn message(error: &Error) -> &'static str {
    match error {
        Error::Memory => "out of memory",
        Error::ParseError(_, kind) => parse_message(*kind),
        Error::CompileError(error) => compile_message(error),
        Error::RuntimeError(error) => runtime_message(*error),
    }
}

fn compile_message(error: &CompileError) -> &'static str {
    match error {
        CompileError::InvalidBackref(_) => "no group has the number",
        CompileError::InvalidGroupNameBackref(_) => "no group has the name",
        CompileError::NamedBackrefOnly => "groups are referred to by name alone here",
        CompileError::LookBehindNotConst => "look-behind of no constant size",
        CompileError::PatternCanNeverMatch => "pattern that can never match",
        CompileError::PatternTooComplex => "pattern with more than 4000000 nodes, or too much code",
    }
}

fn runtime_message(error: RuntimeError) -> &'static str {
    match error {
        RuntimeError::BacktrackLimitExceeded => "limit for backtracking exceeded",
        RuntimeError::StackOverflow => "too many saved branches",
        RuntimeError::StepLimitExceeded => "limit for steps exceeded",
        RuntimeError::Unmatched(_) => "no token at this position of the text",
    }
}

/// What to do about an error.
pub(crate) fn hint(error: &Error) -> &'static str {
    match error {
        Error::Memory => "give the process more memory, or search less at once",
        Error::ParseError(_, kind) => parse_hint(*kind),
        Error::CompileError(error) => compile_hint(error),
        Error::RuntimeError(error) => runtime_hint(*error),
    }
}

fn compile_hint(error: &CompileError) -> &'static str {
    match error {
        CompileError::InvalidBackref(_) => "count the groups, or give the group a name",
        CompileError::InvalidGroupNameBackref(_) => "mend the name",
        CompileError::NamedBackrefOnly => "refer by name",
        CompileError::LookBehindNotConst =>
            "write an alternative of bodies that each have one size",
        CompileError::PatternCanNeverMatch => "leave the option `find_not_empty` out",
        CompileError::PatternTooComplex =>
            "lower the counts of its repeats, or raise `max_prog_size`",
    }
}

fn runtime_hint(error: RuntimeError) -> &'static str {
    match error {
        RuntimeError::BacktrackLimitExceeded =>
            "raise `backtrack_limit`, set `seek`, or write an easy pattern",
        RuntimeError::StackOverflow => "raise `stack_limit`, or write an easy pattern",
        RuntimeError::StepLimitExceeded => {
            "raise `step_limit`, set `seek`, or write a pattern with less to try at each place"
        }
        RuntimeError::Unmatched(_) => "add a pattern for what is there",
    }
}
