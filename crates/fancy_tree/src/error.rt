//! Why a call of the library is refused.
//!
//! Each kind has one cause and one name. Kinds of [`ParseErrorKind`] say what is wrong with the text of a
//! pattern and carry the place, a byte offset into it; those of [`CompileError`] say why a pattern that can
//! be read is not accepted; those of [`RuntimeError`] say why a search was given up.

ghost use Rattle.std.specs.Prelude.{◌≡◌};
ghost use Rattle.fancy_tree.specs.declared.error.Error.TheVariants.{Memory, CompileError as Compile};

use std::alloc::{AllocError, AllocFailed, Global};
use thiserror::Error;

/// Why the text of a pattern could not be read.
#[derive(Debug, Drop, Clone, Copy, PartialEq, Eq, Error)]
pub enum ParseErrorKind {
    /// A `)` without its `(`, as in `a)`; in a template a mark that begins nothing, as in `a$`.
    #[error("unmatched parenthesis, or an incomplete reference in a template")]
    GeneralParseError,
    /// A group that is not closed, as in `(?:a`.
    #[error("opening parenthesis without closing parenthesis")]
    UnclosedOpenParen,
    /// Bounds that are reversed or too large, as in `x{3,1}`.
    #[error("invalid bounds of a repeat")]
    InvalidRepeat,
    /// A quantifier on nothing that can be repeated, as in `?a` or `a???`.
    #[error("nothing to repeat before the quantifier")]
    TargetNotRepeatable,
    /// More than 128 open parentheses, or brackets of one class.
    #[error("parentheses or brackets are nested too deep")]
    RecursionExceeded,
    /// A backslash at the end, as in `a\`.
    #[error("backslash at the end of the pattern")]
    TrailingBackslash,
    /// An escape that means nothing, as `\q`.
    #[error("invalid escape")]
    InvalidEscape,
    /// Missing or wrong hexadecimal digits, as in `\xZ`.
    #[error("invalid hexadecimal digits")]
    InvalidHex,
    /// A number that is no character, as in `\x{110000}`.
    #[error("number of no character")]
    InvalidCodepointValue,
    /// A class, a property, or a set that is not allowed in this meaning, as `[b-a]`.
    #[error("invalid class")]
    InvalidClass,
    /// A letter that is no flag, as in `(?z)`.
    #[error("unknown flag")]
    UnknownFlag,
    /// A name that is none, as in `(?<>a)`.
    #[error("invalid group name")]
    InvalidGroupName,
    /// A flag `u` that states what does not hold, as `(?-u)`.
    #[error("changing the Unicode mode is not supported")]
    ChangingUnicodeModeUnsupported,
    /// A form of other dialects that this one leaves out, as `\R`, or `\K` inside a look-around, as in `(?=a\K)`.
    #[error("form that is not in the dialect")]
    NotInProfile,
}

/// Why a pattern that can be read is not accepted.
#[derive(Debug, Drop, Error)]
pub enum CompileError {
    /// A reference to a group that the pattern does not have, or a test of it, as in `(a)\2` and `(?(1)a)`.
    #[error("no group has the number {0}")]
    InvalidBackref(usize),
    /// A reference to a name that no group has, or a test of it, as in `\k<n>` and `(?(<n>)a)`.
    #[error("no group has the name {0}")]
    InvalidGroupNameBackref(String),
    /// A reference by number where only named groups capture.
    #[error("groups are referred to by name alone here")]
    NamedBackrefOnly,
    /// A look-behind whose body has no one size, as in `(?<=a+)b`.
    #[error("look-behind of no constant size")]
    LookBehindNotConst,
    /// A pattern that matches only empty texts, where empty matches are refused.
    #[error("pattern that can never match")]
    PatternCanNeverMatch,
    /// A pattern of more than 4,000,000 nodes, or with more code than its options allow.
    #[error("pattern with more than 4000000 nodes, or too much code")]
    PatternTooComplex,
}

/// Why a search was given up, or a list of tokens ended before its text did.
#[derive(Debug, Drop, Clone, Copy, PartialEq, Eq, Error)]
pub enum RuntimeError {
    /// A hard search would go back more often than its limit allows.
    #[error("limit for backtracking exceeded")]
    BacktrackLimitExceeded,
    /// A hard search would save more branches than its limit allows.
    #[error("too many saved branches")]
    StackOverflow,
    /// A search would do more work than its limit allows.
    #[error("limit for steps exceeded")]
    StepLimitExceeded,
    /// No pattern of a set gives a token at this place, a byte offset into the text, which a list of tokens ends at.
    #[error("no token at position {0}")]
    Unmatched(usize),
}

/// Every refusal of the library.
///
/// ```text
/// Regex::new(alloc, "(?:a")       // Err(ParseError(4, UnclosedOpenParen))
/// Regex::new(alloc, "(a)\\2")     // Err(CompileError(InvalidBackref(2)))
/// ```
#[derive(Debug, Drop, Error)]
pub enum Error {
    /// A growth was refused, or a table's size does not fit.
    #[error("out of memory")]
    Memory,
    /// The pattern cannot be read; the place is a byte offset into it. A template that cannot be read has the place 0.
    #[error("parsing error at position {0}: {1}")]
    ParseError(usize, ParseErrorKind),
    /// The pattern can be read, but is not accepted.
    #[error("error compiling regex: {0}")]
    CompileError(CompileError),
    /// The search was given up.
    #[error("error executing regex: {0}")]
    RuntimeError(RuntimeError),
}

/// What the calls of the library return: a value, or the [`Error`] that refuses it.
pub type Result<T> = std::result::Result<T, Error>;

impl ParseErrorKind {
    ghost use Rattle.fancy_tree.specs.Errors.{parse_error_name};

    /// The name of the kind, as it is written in a program: `"InvalidRepeat"`.
    pub fn name(self) -> &'static str
        ensures { result.now ≡ parse_error_name self }
    {
        match self {
            ParseErrorKind::GeneralParseError => "GeneralParseError",
            ParseErrorKind::UnclosedOpenParen => "UnclosedOpenParen",
            ParseErrorKind::InvalidRepeat => "InvalidRepeat",
            ParseErrorKind::TargetNotRepeatable => "TargetNotRepeatable",
            ParseErrorKind::RecursionExceeded => "RecursionExceeded",
            ParseErrorKind::TrailingBackslash => "TrailingBackslash",
            ParseErrorKind::InvalidEscape => "InvalidEscape",
            ParseErrorKind::InvalidHex => "InvalidHex",
            ParseErrorKind::InvalidCodepointValue => "InvalidCodepointValue",
            ParseErrorKind::InvalidClass => "InvalidClass",
            ParseErrorKind::UnknownFlag => "UnknownFlag",
            ParseErrorKind::InvalidGroupName => "InvalidGroupName",
            ParseErrorKind::ChangingUnicodeModeUnsupported => "ChangingUnicodeModeUnsupported",
            ParseErrorKind::NotInProfile => "NotInProfile",
        }
    }
}

impl CompileError {
    ghost use Rattle.fancy_tree.specs.Errors.{compile_error_name};

    /// The name of the kind, as it is written in a program: `"InvalidBackref"`, without its number.
    pub fn name(&self) -> &'static str
        ensures { result.now ≡ compile_error_name self.now }
    {
        match self {
            CompileError::InvalidBackref(_) => "InvalidBackref",
            CompileError::InvalidGroupNameBackref(_) => "InvalidGroupNameBackref",
            CompileError::NamedBackrefOnly => "NamedBackrefOnly",
            CompileError::LookBehindNotConst => "LookBehindNotConst",
            CompileError::PatternCanNeverMatch => "PatternCanNeverMatch",
            CompileError::PatternTooComplex => "PatternTooComplex",
        }
    }
}

impl RuntimeError {
    ghost use Rattle.fancy_tree.specs.Errors.{runtime_error_name};

    /// The name of the kind, as it is written in a program: `"StackOverflow"`.
    pub fn name(self) -> &'static str
        ensures { result.now ≡ runtime_error_name self }
    {
        match self {
            RuntimeError::BacktrackLimitExceeded => "BacktrackLimitExceeded",
            RuntimeError::StackOverflow => "StackOverflow",
            RuntimeError::StepLimitExceeded => "StepLimitExceeded",
            RuntimeError::Unmatched(_) => "Unmatched",
        }
    }
}

impl Error {
    ghost use Rattle.fancy_tree.specs.Errors.{error_name};

    /// The name of the kind inside, as it is written in a program: `"Memory"`, or for `ParseError(4, UnclosedOpenParen)`
    /// `"UnclosedOpenParen"`. The text of the error says more, and where.
    pub fn name(&self) -> &'static str
        ensures { result.now ≡ error_name self.now }
    {
        match self {
            Error::Memory => "Memory",
            Error::ParseError(_, kind) => kind.name(),
            Error::CompileError(kind) => kind.name(),
            Error::RuntimeError(kind) => kind.name(),
        }
    }
}

impl From<AllocError> for Error {
    ghost from_gives = { λ _ e. e ≡ Memory };

    fn from(_error: AllocError) -> Error {
        Error::Memory
    }
}

impl<T: Drop> From<AllocFailed<T>> for Error {
    ghost from_gives = { λ _ e. e ≡ Memory };

    fn from(_error: AllocFailed<T>) -> Error {
        Error::Memory
    }
}

impl From<CompileError> for Error {
    ghost from_gives = { λ x e. e ≡ Compile x };

    fn from(error: CompileError) -> Error {
        Error::CompileError(error)
    }
}
