//! New texts: with matches replaced, cut into pieces, and as a pattern. They go into buffers that the caller gives.

ghost use Rattle.std.specs.Prelude.{◌≡◌, ◌↔◌, [], true, length, IfOk, IfErr};
ghost use Rattle.std.specs.Cow.{cow_str_bytes, IsBorrowedStr};
ghost use Rattle.fancy_regex.specs.Regexes.{options_in};
ghost use Rattle.fancy_regex.specs.Replacing.{all_matches, AllowsReplacing, IsRefusedAfterSome};
ghost use Rattle.fancy_regex.specs.Requests.{whole};
ghost use Rattle.fancy_regex.specs.Searching.{Suits};
ghost use Rattle.fancy_regex_c.specs.Buffers.{filled};
ghost use Rattle.fancy_regex_c.specs.Handles.{IsSame, ByRegex, HeldRegex};
ghost use Rattle.fancy_regex_c.specs.Replacements.{text_with, TellsReplaced};
ghost use Rattle.fancy_regex_c.specs.Splitting.{pieces_of, RefusesOneOf, TellsPieces};
ghost use Rattle.fancy_regex_c.specs.Texts.{TellsEscaped};

use crate::answers::{NO_HANDLE, NO_MEMORY, NO_PLACE, NONE, NOT_TEXT, answer_of};
use crate::buffers::{done_if, put, put_next};
use crate::handle::{Handle, Kept};
use crate::plain::Span;
use fancy_regex::{NoExpand, Regex, RegexInput, Result, escape};
use std::alloc::Global;
use std::borrow::CowStr;

/// How matches are replaced.
#[repr(C)]
#[derive(Clone, Copy)]
pub struct Replacing<'r> {
    /// What stands for each match.
    pub replacement: &'r [u8],
    /// How many matches are replaced at most; 0 for all.
    pub limit: usize,
    /// 1 where the replacement is taken as it is, and 0 where it is a template.
    pub literal: u32,
}

/// The text with its matches replaced.
fn replaced<'t>(
    regex: &Regex,
    text: &'t str,
    replacement: &str,
    how: Replacing<'_>,
) -> Result<CowStr<'t, Global>>
    requires same { replacement.now ≡ how.replacement.now }
    requires suits { Suits (options_in regex.now) true text.now }
    ensures borrowed { IfOk result (λ t. IsBorrowedStr t ↔ (all_matches regex.now text.now ≡ [])) }
    ensures text { IfOk result
        (λ t. cow_str_bytes t ≡ text_with regex.now text.now how.entry) }
    ensures allowed { IfOk result (λ _. AllowsReplacing regex.now text.now how.entry.limit) }
    ensures refused { IfErr result (λ e. IsRefusedAfterSome regex.now text.now how.entry.limit e) }
{
    if how.literal == 0 {
        regex.replacen(text, how.limit, replacement)
    } else {
        regex.replacen(text, how.limit, NoExpand(replacement))
    }
}

fn replace_in(
    regex: &Regex,
    text: &[u8],
    how: Replacing<'_>,
    buffer: &mut [u8],
    wanted: &mut usize,
) -> u32
    ensures { TellsReplaced regex.now text.now how.entry buffer.old buffer.new wanted.new result }
{
    *wanted = 0;
    let Ok(text) = str::from_utf8(text) else {
        return NOT_TEXT;
    };
    let Ok(replacement) = str::from_utf8(how.replacement) else {
        return NOT_TEXT;
    };
    if !regex.can_search(&RegexInput::new(text)) {
        return NO_PLACE;
    }
    match replaced(regex, text, replacement, how) {
        Ok(CowStr::Owned(answer)) => put(answer.as_str().as_bytes(), buffer, wanted),
        Ok(CowStr::Borrowed(_)) => NONE,
        Err(error) => answer_of(error),
    }
}

impl Kept {
    fn replace(&self, text: &[u8], how: Replacing<'_>, buffer: &mut [u8], wanted: &mut usize) -> u32
        ensures { ByRegex self.now
            (λ r. TellsReplaced r text.now how.entry buffer.old buffer.new wanted.new result)
            ((result ≡ 5) × (buffer.new ≡ buffer.old) × (wanted.new ≡ wanted.old)) }
    {
        match self {
            Kept::Regex(regex) => replace_in(regex, text, how, buffer, wanted),
            _ => NO_HANDLE,
        }
    }
}

/// Writes the text with its matches replaced into a buffer, and tells its length.
///
/// `TOO_SHORT` where the buffer has no room for it, with the length that is wanted. `NONE` where nothing matches, `NOT_TEXT` where the
/// text or the replacement is no UTF-8, `NO_PLACE` where the regex reads bytes and the text is not ASCII, and what a search is
/// refused with: then nothing is written, and the length is 0. `NO_HANDLE` where the handle holds no regex.
#[unsafe(no_mangle)]
pub extern "C" fn fancy_regex_replace(
    alloc: Global,
    regex: &mut Handle,
    text: &[u8],
    how: &Replacing<'_>,
    buffer: &mut [u8],
    wanted: &mut usize,
) -> u32
    ensures kept { IsSame regex.new regex.old }
    ensures answer { HeldRegex regex.old
        (λ r. TellsReplaced r text.now how.now buffer.old buffer.new wanted.new result)
        ((result ≡ 5) × (buffer.new ≡ buffer.old) × (wanted.new ≡ wanted.old)) }
{
    let Some(kept) = regex.take(alloc) else {
        return NO_HANDLE;
    };
    let answer = kept.replace(text, *how, buffer, wanted);
    *regex = Handle::of(kept);
    answer
}

/// Writes where the first pieces of a text stand, for which there is room, and counts them.
fn cut(
    regex: &Regex,
    text: &str,
    limit: usize,
    pieces: &mut [Span],
    count: &mut usize,
) -> Result<()>
    requires suits { Suits (options_in regex.now) true text.now }
    requires none { count.old ≡ 0 }
    ensures counted { IfOk result (λ _. count.new ≡ length (pieces_of regex.now text.now limit)) }
    ensures put { IfOk result (λ _. pieces.new ≡ filled (pieces_of regex.now text.now limit) pieces.old) }
    ensures refused { IfErr result (λ e. RefusesOneOf regex.now text.now (whole text.now) e) }
{
    if limit == 0 {
        return Ok(());
    }
    let mut start = 0;
    let mut list = regex.find_iter(text);
    'pieces: while *count + 1 < limit {
        let Some(found) = list.next() else {
            break;
        };
        let found = found?;
        let end = found.start();
        put_next(Span { start, end }, pieces, count);
        start = found.end();
    }
    let end = text.len();
    put_next(Span { start, end }, pieces, count);
    Ok(())
}

fn split_in(
    regex: &Regex,
    text: &[u8],
    limit: usize,
    pieces: &mut [Span],
    wanted: &mut usize,
) -> u32
    ensures { TellsPieces regex.now text.now limit pieces.old pieces.new wanted.new result }
{
    *wanted = 0;
    let Ok(text) = str::from_utf8(text) else {
        return NOT_TEXT;
    };
    if !regex.can_search(&RegexInput::new(text)) {
        return NO_PLACE;
    }
    match cut(regex, text, limit, pieces, wanted) {
        Ok(()) => done_if(*wanted, pieces.len()),
        Err(error) => {
            *wanted = 0;
            answer_of(error)
        }
    }
}

impl Kept {
    fn split(&self, text: &[u8], limit: usize, pieces: &mut [Span], wanted: &mut usize) -> u32
        ensures { ByRegex self.now
            (λ r. TellsPieces r text.now limit pieces.old pieces.new wanted.new result)
            ((result ≡ 5) × (pieces.new ≡ pieces.old) × (wanted.new ≡ wanted.old)) }
    {
        match self {
            Kept::Regex(regex) => split_in(regex, text, limit, pieces, wanted),
            _ => NO_HANDLE,
        }
    }
}

/// Writes where the pieces of a text between its matches stand into a buffer, at most so many pieces, and tells how many there are.
///
/// The last piece is the rest of the text. `TOO_SHORT` where there is not room for all; then the first ones are written. `NOT_TEXT`
/// where the text is no UTF-8, `NO_PLACE` where the regex reads bytes and the text is not ASCII, and what a search is refused with:
/// then 0 is told. `NO_HANDLE` where the handle holds no regex.
#[unsafe(no_mangle)]
pub extern "C" fn fancy_regex_split(
    alloc: Global,
    regex: &mut Handle,
    text: &[u8],
    limit: usize,
    pieces: &mut [Span],
    wanted: &mut usize,
) -> u32
    ensures kept { IsSame regex.new regex.old }
    ensures answer { HeldRegex regex.old
        (λ r. TellsPieces r text.now limit pieces.old pieces.new wanted.new result)
        ((result ≡ 5) × (pieces.new ≡ pieces.old) × (wanted.new ≡ wanted.old)) }
{
    let Some(kept) = regex.take(alloc) else {
        return NO_HANDLE;
    };
    let answer = kept.split(text, limit, pieces, wanted);
    *regex = Handle::of(kept);
    answer
}

/// Writes a pattern that matches this text alone into a buffer, and tells its length.
///
/// `TOO_SHORT` where the buffer has no room for it, with the length that is wanted. `NOT_TEXT` where the bytes are no UTF-8, and
/// `NO_MEMORY`: then the length is 0.
#[unsafe(no_mangle)]
pub extern "C" fn fancy_regex_escape(
    alloc: Global,
    text: &[u8],
    buffer: &mut [u8],
    wanted: &mut usize,
) -> u32
    ensures { TellsEscaped text.now buffer.old buffer.new wanted.new result }
{
    *wanted = 0;
    let Ok(text) = str::from_utf8(text) else {
        return NOT_TEXT;
    };
    match escape(alloc, text) {
        Ok(escaped) => put(escaped.as_str().as_bytes(), buffer, wanted),
        Err(_) => NO_MEMORY,
    }
}
