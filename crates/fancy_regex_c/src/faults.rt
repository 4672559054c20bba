//! Why a pattern is refused, as numbers, and the text of such a number.
//!
//! The kinds are those of the library's errors: from 101 on what is wrong with the text of a pattern, from 201 on why a pattern that
//! can be read is not accepted.

ghost use Rattle.std.specs.Prelude.{◌≡◌};
ghost use Rattle.fancy_regex_c.specs.Faults.{parse_number, compile_number, fault_of_kind, fault_of, answer_of_kind};
ghost use Rattle.fancy_regex_c.specs.Texts.{TellsText};

use crate::answers::{NO_MEMORY, NO_OPTIONS, NOT_TEXT, REFUSED};
use crate::buffers::put;
use crate::plain::Fault;
use fancy_regex::{CompileError, Error, ParseErrorKind};
use std::alloc::{AllocError, Global};

/// There is no fault.
pub const NO_FAULT: u32 = 0;

const MEMORY: u32 = 1;

const PATTERN_IS_NO_TEXT: u32 = 2;

const WRONG_OPTIONS: u32 = 3;

const OTHER: u32 = 4;

impl Fault {
    fn of_kind(kind: u32) -> Fault
        ensures { result ≡ fault_of_kind kind }
    {
        Fault {
            kind,
            pattern: 0,
            place: 0,
            number: 0,
        }
    }

    /// Memory was refused.
    pub fn memory() -> Fault
        ensures { result ≡ fault_of_kind 1 }
    {
        Fault::of_kind(MEMORY)
    }

    /// The pattern is no UTF-8.
    pub fn no_text() -> Fault
        ensures { result ≡ fault_of_kind 2 }
    {
        Fault::of_kind(PATTERN_IS_NO_TEXT)
    }

    /// The options cannot be read.
    pub fn no_options() -> Fault
        ensures { result ≡ fault_of_kind 3 }
    {
        Fault::of_kind(WRONG_OPTIONS)
    }

    /// The fault that an error of a pattern tells.
    pub fn of(error: Error) -> Fault
        ensures { result ≡ fault_of error }
    {
        match error {
            Error::Memory => Fault::memory(),
            Error::ParseError(place, kind) => Fault {
                place,
                ..Fault::of_kind(parse_number(kind))
            },
            Error::CompileError(CompileError::InvalidBackref(number)) => Fault {
                number,
                ..Fault::of_kind(201)
            },
            Error::CompileError(kind) => Fault::of_kind(compile_number(kind)),
            Error::RuntimeError(_) => Fault::of_kind(OTHER),
        }
    }

    /// The same fault, of the pattern with this index in a set.
    pub fn in_set(self, pattern: usize) -> Fault
        ensures { result ≡ record self { pattern = pattern } }
    {
        Fault { pattern, ..self }
    }

    /// What a call answers that has this fault.
    pub fn answer(&self) -> u32
        ensures { result ≡ answer_of_kind self.now.kind }
    {
        match self.kind {
            MEMORY => NO_MEMORY,
            PATTERN_IS_NO_TEXT => NOT_TEXT,
            WRONG_OPTIONS => NO_OPTIONS,
            _ => REFUSED,
        }
    }
}

fn parse_number(kind: ParseErrorKind) -> u32
    ensures { result ≡ parse_number kind }
{
    match kind {
        ParseErrorKind::GeneralParseError => 101,
        ParseErrorKind::UnclosedOpenParen => 102,
        ParseErrorKind::InvalidRepeat => 103,
        ParseErrorKind::TargetNotRepeatable => 104,
        ParseErrorKind::RecursionExceeded => 105,
        ParseErrorKind::TrailingBackslash => 106,
        ParseErrorKind::InvalidEscape => 107,
        ParseErrorKind::InvalidHex => 108,
        ParseErrorKind::InvalidCodepointValue => 109,
        ParseErrorKind::InvalidClass => 110,
        ParseErrorKind::UnknownFlag => 111,
        ParseErrorKind::InvalidGroupName => 112,
        ParseErrorKind::ChangingUnicodeModeUnsupported => 113,
        ParseErrorKind::NotInProfile => 114,
    }
}

fn parse_kind(number: u32) -> Option<ParseErrorKind> {
    Some(match number {
        101 => ParseErrorKind::GeneralParseError,
        102 => ParseErrorKind::UnclosedOpenParen,
        103 => ParseErrorKind::InvalidRepeat,
        104 => ParseErrorKind::TargetNotRepeatable,
        105 => ParseErrorKind::RecursionExceeded,
        106 => ParseErrorKind::TrailingBackslash,
        107 => ParseErrorKind::InvalidEscape,
        108 => ParseErrorKind::InvalidHex,
        109 => ParseErrorKind::InvalidCodepointValue,
        110 => ParseErrorKind::InvalidClass,
        111 => ParseErrorKind::UnknownFlag,
        112 => ParseErrorKind::InvalidGroupName,
        113 => ParseErrorKind::ChangingUnicodeModeUnsupported,
        114 => ParseErrorKind::NotInProfile,
        _ => return None,
    })
}

fn compile_number(kind: CompileError) -> u32
    ensures { result ≡ compile_number kind }
{
    match kind {
        CompileError::InvalidBackref(_) => 201,
        CompileError::InvalidGroupNameBackref(_) => 202,
        CompileError::NamedBackrefOnly => 203,
        CompileError::LookBehindNotConst => 204,
        CompileError::PatternCanNeverMatch => 205,
        CompileError::PatternTooComplex => 206,
    }
}

/// The error of which the fault tells, where all that it has is told: not the name that no group has.
fn error_of(fault: &Fault) -> Option<Error> {
    if let Some(kind) = parse_kind(fault.kind) {
        return Some(Error::ParseError(fault.place, kind));
    }
    Some(match fault.kind {
        MEMORY => Error::Memory,
        201 => Error::CompileError(CompileError::InvalidBackref(fault.number)),
        203 => Error::CompileError(CompileError::NamedBackrefOnly),
        204 => Error::CompileError(CompileError::LookBehindNotConst),
        205 => Error::CompileError(CompileError::PatternCanNeverMatch),
        206 => Error::CompileError(CompileError::PatternTooComplex),
        _ => return None,
    })
}

/// The text for a kind that tells not all of its error, or that no error has.
fn other_text(kind: u32) -> &'static str {
    match kind {
        NO_FAULT => "no fault",
        PATTERN_IS_NO_TEXT => "the pattern is no UTF-8",
        WRONG_OPTIONS => "options of another size, or with a number that means nothing",
        202 => "error compiling regex: no group has a name that the pattern refers to",
        _ => "unknown fault",
    }
}

fn text_of(alloc: Global, error: &Error) -> Result<String, AllocError> {
    format!(in alloc; "{error}")
}

/// Writes the text of a fault into a buffer, without a zero byte after it, and tells its length.
///
/// `TOO_SHORT` where the buffer has no room for it, with the length that is wanted. For `NO_MEMORY` nothing is written, and the length
/// is 0.
#[unsafe(no_mangle)]
pub extern "C" fn fancy_regex_explain(
    alloc: Global,
    fault: &Fault,
    buffer: &mut [u8],
    wanted: &mut usize,
) -> u32
    ensures { TellsText buffer.old buffer.new wanted.new result }
{
    *wanted = 0;
    let Some(error) = error_of(fault) else {
        return put(other_text(fault.kind).as_bytes(), buffer, wanted);
    };
    match text_of(alloc, &error) {
        Ok(text) => put(text.as_str().as_bytes(), buffer, wanted),
        Err(_) => NO_MEMORY,
    }
}
