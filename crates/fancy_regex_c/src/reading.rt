//! Patterns are read.

ghost use Rattle.std.specs.Prelude.{◌≡◌, ◌≤◌, IfOk, IfErr, IfSome, IfNone, IsUtf8, Ok, true};
ghost use Rattle.fancy_regex.specs.Built.{IsReading};
ghost use Rattle.fancy_regex.specs.Options.{by_default as meant_by_default};
ghost use Rattle.fancy_regex_c.specs.Faults.{IsFault};
ghost use Rattle.fancy_regex_c.specs.Missing.{TellsMissing, TellsOfReading};
ghost use Rattle.fancy_regex_c.specs.Reading.{mode_of, limit_of, flags_meant, options_meant, MeanSomething};

use crate::answers::{NO_MEMORY, NONE};
use crate::buffers::put;
use crate::plain::{Fault, Options, has_flag};
use fancy_regex::{BytesMode, CompileError, Error, Flags, Options as Meant, Regex};
use std::alloc::Global;

/// The size in bytes of [`Options`], as this library reads it.
const OPTIONS_SIZE: usize = 48;

// The switches of a pattern.
const CASE_INSENSITIVE: u32 = 1;

const MULTI_LINE: u32 = 2;

const DOT_MATCHES_NEW_LINE: u32 = 4;

const IGNORE_WHITESPACE: u32 = 8;

const CRLF: u32 = 16;

const NO_UNICODE: u32 = 32;

const ONLY_NAMED_GROUPS: u32 = 64;

const FIND_NOT_EMPTY: u32 = 128;

const LEFTMOST_LONGEST: u32 = 256;

const SEEK: u32 = 512;

const ALL_SWITCHES: u32 = 1023;

/// What bytes mean, by its number.
fn bytes_mode(number: u32) -> Option<BytesMode>
    ensures mode { IfSome result (λ m. m ≡ mode_of number) }
    ensures some { IfSome result (λ _. number ≤ 2) }
    ensures none { IfNone result (number ≤ 2 → ⊥) }
{
    match number {
        0 => Some(BytesMode::Unicode),
        1 => Some(BytesMode::Ascii),
        2 => Some(BytesMode::UnicodeBytes),
        _ => None,
    }
}

/// A limit, if there is one.
fn limit(number: usize) -> Option<usize>
    ensures { result ≡ limit_of number }
{
    if number == usize::MAX {
        None
    } else {
        Some(number)
    }
}

/// The flags at the pattern's start.
fn flags_of(switches: u32) -> Flags
    ensures { result ≡ flags_meant switches }
{
    Flags {
        ignore_case: has_flag(switches, CASE_INSENSITIVE),
        multi_line: has_flag(switches, MULTI_LINE),
        dot_all: has_flag(switches, DOT_MATCHES_NEW_LINE),
        ignore_blanks: has_flag(switches, IGNORE_WHITESPACE),
        crlf: has_flag(switches, CRLF),
    }
}

/// The options as the library has them, unless they have another size or a number that means nothing. A search may always say that a
/// text has no start or no end, or that there was no match before: one that does not say so is the same.
fn meant(options: &Options) -> Option<Meant>
    ensures meant { IfSome result (λ o. o ≡ options_meant options.now) }
    ensures some { IfSome result (λ _. MeanSomething options.now) }
    ensures none { IfNone result (MeanSomething options.now → ⊥) }
{
    if options.size != OPTIONS_SIZE || options.switches > ALL_SWITCHES {
        return None;
    }
    let bytes_mode = bytes_mode(options.bytes_mode)?;
    let switches = options.switches;
    Some(Meant {
        bytes_mode,
        unicode_mode: !has_flag(switches, NO_UNICODE),
        flags: flags_of(switches),
        ignore_numbered_groups_when_named_groups_exist: has_flag(switches, ONLY_NAMED_GROUPS),
        allow_input_assertion_overrides: true,
        backtrack_limit: options.backtrack_limit,
        stack_limit: options.stack_limit,
        step_limit: limit(options.step_limit),
        max_prog_size: limit(options.program_limit),
        find_not_empty: has_flag(switches, FIND_NOT_EMPTY),
        leftmost_longest: has_flag(switches, LEFTMOST_LONGEST),
        seek: has_flag(switches, SEEK),
    })
}

/// Reads a text as a pattern.
fn read_text(alloc: Global, text: &str, options: Meant) -> fancy_regex::Result<Regex>
    ensures { IsReading options text.now result }
{
    let pattern = String::from_str(alloc, text)?;
    Regex::with_options(pattern, options)
}

/// Reads a pattern.
pub fn read(alloc: Global, pattern: &[u8], options: &Options) -> Result<Regex, Fault>
    ensures read { IfOk result (λ r. IsReading (options_meant options.now) pattern.now (Ok r)) }
    ensures options { IfOk result (λ _. MeanSomething options.now) }
    ensures text { IfOk result (λ _. IsUtf8 pattern.now) }
    ensures refused { IfErr result (λ fault. IsFault options.now pattern.now fault) }
{
    let Some(options) = meant(options) else {
        return Err(Fault::no_options());
    };
    let Ok(text) = str::from_utf8(pattern) else {
        return Err(Fault::no_text());
    };
    match read_text(alloc, text, options) {
        Ok(regex) => Ok(regex),
        Err(error) => Err(Fault::of(error)),
    }
}

/// What the library's reading of a pattern tells of a name that no group has.
fn missing_name_in(read: fancy_regex::Result<Regex>, buffer: &mut [u8], wanted: &mut usize) -> u32
    requires { wanted.old ≡ 0 }
    ensures { TellsOfReading read buffer.old buffer.new wanted.new result }
{
    match read {
        Err(Error::CompileError(CompileError::InvalidGroupNameBackref(name))) => {
            put(name.as_bytes(), buffer, wanted)
        }
        Err(Error::Memory) => NO_MEMORY,
        _ => NONE,
    }
}

/// Writes into the buffer the name that a pattern refers to and that none of its groups has, where it is refused for that.
///
/// `TOO_SHORT` where the buffer has no room for it, with the length that is wanted. `NONE` where the pattern is not refused for that,
/// and `NO_MEMORY`: then the length is 0.
#[unsafe(no_mangle)]
pub extern "C" fn fancy_regex_missing_name(
    alloc: Global,
    pattern: &[u8],
    options: &Options,
    buffer: &mut [u8],
    wanted: &mut usize,
) -> u32
    ensures { TellsMissing options.now pattern.now buffer.old buffer.new wanted.new result }
{
    *wanted = 0;
    let Some(options) = meant(options) else {
        return NONE;
    };
    let Ok(text) = str::from_utf8(pattern) else {
        return NONE;
    };
    missing_name_in(read_text(alloc, text, options), buffer, wanted)
}

/// The options that a pattern has by default.
pub fn by_default() -> Options
    ensures size { MeanSomething result }
    ensures meant { options_meant result ≡ record meant_by_default { allow_input_assertion_overrides = true } }
{
    Options {
        size: OPTIONS_SIZE,
        backtrack_limit: 1000000,
        stack_limit: 1000000,
        step_limit: usize::MAX,
        program_limit: usize::MAX,
        switches: 0,
        bytes_mode: 0,
    }
}

/// Writes the options that a pattern has by default.
#[unsafe(no_mangle)]
pub extern "C" fn fancy_regex_default_options(options: &mut Options)
    ensures size { MeanSomething options.new }
    ensures meant { options_meant options.new ≡ record meant_by_default { allow_input_assertion_overrides = true } }
{
    *options = by_default();
}
