//! What one item of a pattern reads at a place.

ghost use Rattle.std.specs.Prelude.{◌≡◌, ◌+◌, ◌≤◌, ℕ, IfSome, length, option_map, true};
ghost use Rattle.unicode.specs.Rows.{in_ranges};
ghost use Rattle.fancy_tree.specs.declared.named.Named.TheVariants.{Word};
ghost use Rattle.fancy_tree.specs.Named.{in_named_set, ascii_ranges};
ghost use Rattle.fancy_meaning.specs.Context.{unit_in, is_word, word_before, word_after, holds};
ghost use Rattle.fancy_meaning.specs.Reading.{unit_read, search_context};
ghost use Rattle.fancy_input.specs.LastLines.{KnowsLastLines};

use fancy_input::characters::{character_at, character_before};
use fancy_input::last_lines::LastLines;
use fancy_input::lines::{byte_at, byte_before, ends_line_crlf, is_line_feed, starts_line_crlf};
use fancy_tree::tree::{Assertion, Meaning};
use unicode::perl::is_word_code;

/// What one item reads: its code, and how many bytes it has.
#[derive(Clone, Copy, PartialEq, Eq, Debug)]
pub struct Reading {
    /// The number of the character, or the byte.
    pub code: u32,
    /// How many bytes it has.
    pub width: usize,
}

/// The ends of the text that do not count as such.
#[derive(Clone, Copy, PartialEq, Eq, Debug)]
pub struct SuppressedEnds {
    /// The text's start is none.
    pub start: bool,
    /// The text's end is none.
    pub end: bool,
}

/// What one item reads at a place, if there is anything. An ASCII character is its byte, in any meaning.
#[inline]
pub fn read_at(haystack: &[u8], meaning: Meaning, place: usize) -> Option<Reading>
    ensures reading { option_map unit_read result ≡ unit_in meaning haystack.now place }
    ensures fits { IfSome result (λ r. place + r.width ≤ length haystack.now) }
{
    let byte = *haystack.get(place)?;
    if byte < 0x80 {
        return Some(Reading {
            code: byte as u32,
            width: 1,
        });
    }
    read_wide_at(haystack, meaning, place)
}

/// The same for any character, for which `read_at` calls it where no ASCII character stands.
#[inline(never)]
fn read_wide_at(haystack: &[u8], meaning: Meaning, place: usize) -> Option<Reading>
    ensures reading { option_map unit_read result ≡ unit_in meaning haystack.now place }
    ensures fits { IfSome result (λ r. place + r.width ≤ length haystack.now) }
{
    read_any_at(haystack, meaning, place)
}

/// The same in line, for loops over characters past ASCII.
#[inline(always)]
pub fn read_any_at(haystack: &[u8], meaning: Meaning, place: usize) -> Option<Reading>
    ensures reading { option_map unit_read result ≡ unit_in meaning haystack.now place }
    ensures fits { IfSome result (λ r. place + r.width ≤ length haystack.now) }
{
    match meaning {
        Meaning::Unicode | Meaning::AsciiText => {
            let c = character_at(haystack, place)?;
            Some(Reading {
                code: c as u32,
                width: c.len_utf8(),
            })
        }
        Meaning::Bytes => {
            let byte = *haystack.get(place)?;
            Some(Reading {
                code: byte as u32,
                width: 1,
            })
        }
    }
}

/// Whether this is an ASCII letter, a digit or `_`.
fn is_ascii_word(c: char) -> bool
    ensures { result ≡ in_ranges (ascii_ranges Word) c }
{
    c.is_ascii_alphanumeric() || c == '_'
}

/// Whether `\w` has this character in Unicode meaning. The table is read past ASCII alone.
fn is_unicode_word(c: char) -> bool
    ensures { result ≡ in_named_set Meaning.Unicode Word c }
{
    is_word_code(c as u32)
}

/// Whether this is a word character; where there is no character, there is none.
fn is_word_character(meaning: Meaning, c: Option<char>) -> bool
    ensures { result ≡ is_word meaning c }
{
    match (meaning, c) {
        (_, None) => false,
        (Meaning::Unicode, Some(c)) => is_unicode_word(c),
        (Meaning::Bytes | Meaning::AsciiText, Some(c)) => is_ascii_word(c),
    }
}

/// Whether this byte is an ASCII word character; where there is no byte, there is none.
fn is_word_byte(byte: Option<u8>) -> bool
    ensures { result ≡ is_word Meaning.Bytes byte }
{
    match byte {
        None => false,
        Some(byte) => is_ascii_word(byte as char),
    }
}

/// Whether a word character, in byte meaning such a byte, ends at a place. An ASCII character is its byte, in any
/// meaning.
#[inline]
pub fn is_word_before(haystack: &[u8], meaning: Meaning, place: usize) -> bool
    ensures { result ≡ word_before meaning haystack.now place }
{
    match byte_before(haystack, place) {
        Some(byte) if byte < 0x80 => is_word_character(meaning, Some(byte as char)),
        _ => is_wide_word_before(haystack, meaning, place),
    }
}

/// The same for any character, for which `is_word_before` calls it where no ASCII character ends.
#[inline(never)]
fn is_wide_word_before(haystack: &[u8], meaning: Meaning, place: usize) -> bool
    ensures { result ≡ word_before meaning haystack.now place }
{
    match meaning {
        Meaning::Bytes => is_word_byte(byte_before(haystack, place)),
        Meaning::Unicode | Meaning::AsciiText => {
            is_word_character(meaning, character_before(haystack, place))
        }
    }
}

/// Whether a word character, in byte meaning such a byte, starts at a place. An ASCII character is its byte, in any
/// meaning.
#[inline]
pub fn is_word_after(haystack: &[u8], meaning: Meaning, place: usize) -> bool
    ensures { result ≡ word_after meaning haystack.now place }
{
    match byte_at(haystack, place) {
        Some(byte) if byte < 0x80 => is_word_character(meaning, Some(byte as char)),
        _ => is_wide_word_after(haystack, meaning, place),
    }
}

/// The same for any character, for which `is_word_after` calls it where no ASCII character starts.
#[inline(never)]
fn is_wide_word_after(haystack: &[u8], meaning: Meaning, place: usize) -> bool
    ensures { result ≡ word_after meaning haystack.now place }
{
    match meaning {
        Meaning::Bytes => is_word_byte(byte_at(haystack, place)),
        Meaning::Unicode | Meaning::AsciiText => {
            is_word_character(meaning, character_at(haystack, place))
        }
    }
}

/// Whether an assertion holds at a place, a byte offset. It reads the whole haystack.
#[inline]
pub fn holds_at(
    haystack: &[u8],
    meaning: Meaning,
    suppressed: SuppressedEnds,
    assertion: Assertion,
    place: usize,
    last_lines: &mut LastLines,
) -> bool
    requires { KnowsLastLines haystack.now last_lines.old }
    ensures held { (from : ℕ)
        → result ≡ holds (search_context haystack.now meaning suppressed from) assertion place }
    ensures known { KnowsLastLines haystack.now last_lines.new }
{
    match assertion {
        Assertion::TextStart => place == 0 && !suppressed.start,
        Assertion::TextEnd => place == haystack.len() && !suppressed.end,
        Assertion::LineStart => place == 0 || is_line_feed(byte_before(haystack, place)),
        Assertion::LineEnd => place == haystack.len() || is_line_feed(byte_at(haystack, place)),
        Assertion::LineStartCrlf => {
            place == 0 || starts_line_crlf(byte_before(haystack, place), byte_at(haystack, place))
        }
        Assertion::LineEndCrlf => {
            place == haystack.len()
                || ends_line_crlf(byte_before(haystack, place), byte_at(haystack, place))
        }
        Assertion::LastLine => last_lines.is_last_line(haystack, place),
        Assertion::LastLineCrlf => last_lines.is_last_line_crlf(haystack, place),
        Assertion::WordBoundary => {
            is_word_before(haystack, meaning, place) != is_word_after(haystack, meaning, place)
        }
        Assertion::NotWordBoundary => {
            is_word_before(haystack, meaning, place) == is_word_after(haystack, meaning, place)
        }
        Assertion::WordStart => {
            !is_word_before(haystack, meaning, place) && is_word_after(haystack, meaning, place)
        }
        Assertion::WordEnd => {
            is_word_before(haystack, meaning, place) && !is_word_after(haystack, meaning, place)
        }
        Assertion::WordStartHalf => !is_word_before(haystack, meaning, place),
        Assertion::WordEndHalf => !is_word_after(haystack, meaning, place),
    }
}

/// Makes what is known of the line ends that close the haystack ready for a search: what is kept stays, and else nothing was
/// read so far.
pub fn ready_last_lines(last_lines: &mut LastLines, haystack: &[u8], is_kept: bool)
    requires { is_kept ≡ true → KnowsLastLines haystack.now last_lines.old }
    ensures { KnowsLastLines haystack.now last_lines.new }
{
    if !is_kept {
        *last_lines = LastLines::new(haystack);
    }
}
