//! A regex behind a handle, and its searches.

ghost use Rattle.std.specs.Prelude.{◌≡◌, Ok, slice_get, true, false};
ghost use Rattle.std.specs.Option.{option_and_then};
ghost use Rattle.fancy_regex.specs.Built.{IsReading};
ghost use Rattle.fancy_regex.specs.CaptureNames.{names_left, read_name};
ghost use Rattle.fancy_regex.specs.Captures.{spans_in};
ghost use Rattle.fancy_regex.specs.Groups.{span_at};
ghost use Rattle.fancy_regex.specs.Regexes.{group_count_in};
ghost use Rattle.fancy_regex_c.specs.Faults.{IsToldBy};
ghost use Rattle.fancy_regex_c.specs.Handles.{IsSame, ByRegex, HeldRegex, KeptRegex, OfRegex, MakesAgain, IsMadeAgain};
ghost use Rattle.fancy_regex_c.specs.Names.{TellsNumber, TellsName, name_of};
ghost use Rattle.fancy_regex_c.specs.Reading.{options_meant};
ghost use Rattle.fancy_regex_c.specs.Searches.{AreGroups, TellsWhether, TellsFirst, TellsGroups, crossing};

use crate::answers::{DONE, NO_HANDLE, NO_MEMORY, NONE, answer_of};
use crate::buffers::put;
use crate::handed::Handed;
use crate::handle::{Handle, Kept};
use crate::plain::{Fault, Options, Request, Span};
use crate::reading::read;
use fancy_regex::{CaptureNames, Captures, GroupNames, Regex};
use std::alloc::Global;
use std::sync::Arc;

/// Puts what a handle is to own into it. What it held is freed.
pub fn keep(alloc: Global, kept: Kept, out: &mut Handle) -> u32
    ensures made { result ≡ 0 → (out.new.raw.full ≡ true) × (out.new.raw.value ≡ kept) }
    ensures same { (result ≡ 0 → ⊥) → IsSame out.new out.old }
    ensures answer { (result ≡ 0 → ⊥) → result ≡ 4 }
{
    match Box::new(alloc, kept) {
        Ok(kept) => {
            *out = Handle::of(kept);
            DONE
        }
        Err(_) => NO_MEMORY,
    }
}

fn keep_regex(alloc: Global, regex: Regex, out: &mut Handle) -> u32
    ensures made { result ≡ 0 → HeldRegex out.new (λ r. r ≡ regex) ⊥ }
    ensures same { (result ≡ 0 → ⊥) → IsSame out.new out.old }
    ensures answer { (result ≡ 0 → ⊥) → result ≡ 4 }
{
    match Arc::new(alloc, regex) {
        Ok(regex) => keep(alloc, Kept::Regex(regex), out),
        Err(_) => NO_MEMORY,
    }
}

/// Reads a pattern, and puts the regex into the handle. What the handle held is freed.
///
/// Where the pattern is refused the handle keeps what it held, and the fault says why: `NO_OPTIONS` where the options have another
/// size or a number that means nothing; else `NOT_TEXT` where the pattern is no UTF-8; else `REFUSED` or `NO_MEMORY`, as the library
/// refuses it. For `DONE` the fault is not written.
#[unsafe(no_mangle)]
pub extern "C" fn fancy_regex_new(
    alloc: Global,
    pattern: &[u8],
    options: &Options,
    out: &mut Handle,
    fault: &mut Fault,
) -> u32
    ensures made { result ≡ 0
        → HeldRegex out.new (λ r. IsReading (options_meant options.now) pattern.now (Ok r)) ⊥ }
    ensures same { (result ≡ 0 → ⊥) → IsSame out.new out.old }
    ensures refused { (result ≡ 0 → ⊥) → IsToldBy options.now pattern.now fault.new result }
    ensures untouched { result ≡ 0 → fault.new ≡ fault.old }
{
    let regex = match read(alloc, pattern, options) {
        Ok(regex) => regex,
        Err(why) => {
            let answer = why.answer();
            *fault = why;
            return answer;
        }
    };
    let answer = keep_regex(alloc, regex, out);
    if answer != DONE {
        *fault = Fault::memory();
    }
    answer
}

/// Frees what the handle owns, and leaves it empty.
#[unsafe(no_mangle)]
pub extern "C" fn fancy_regex_free(alloc: Global, handle: &mut Handle)
    ensures { handle.new.raw.full ≡ false }
{
    drop(handle.take(alloc));
}

fn again_of(alloc: Global, kept: &Kept, out: &mut Handle) -> u32
    ensures answer { MakesAgain kept.now out.new result }
    ensures same { (result ≡ 0 → ⊥) → IsSame out.new out.old }
{
    let other = match kept {
        Kept::Regex(regex) => match regex.clone() {
            Ok(regex) => Kept::Regex(regex),
            Err(_) => return NO_MEMORY,
        },
        Kept::Set(set) => match set.clone() {
            Ok(set) => Kept::Set(set),
            Err(_) => return NO_MEMORY,
        },
        _ => return NO_HANDLE,
    };
    keep(alloc, other, out)
}

/// A second handle of the same regex or set, for another thread. What the other handle held is freed.
///
/// `NO_HANDLE` where the handle holds neither, and `NO_MEMORY`: then the other handle keeps what it held.
#[unsafe(no_mangle)]
pub extern "C" fn fancy_regex_again(alloc: Global, handle: &mut Handle, out: &mut Handle) -> u32
    ensures kept { IsSame handle.new handle.old }
    ensures answer { IsMadeAgain handle.old out.new result }
    ensures same { (result ≡ 0 → ⊥) → IsSame out.new out.old }
{
    let Some(kept) = handle.take(alloc) else {
        return NO_HANDLE;
    };
    let answer = again_of(alloc, &kept, out);
    *handle = Handle::of(kept);
    answer
}

impl Kept {
    /// How many groups a regex has, and 0 for all else.
    fn captures_len(&self) -> usize
        ensures { ByRegex self.now (λ r. result ≡ group_count_in r) (result ≡ 0) }
    {
        match self {
            Kept::Regex(regex) => regex.captures_len(),
            _ => 0,
        }
    }

    fn group_number(&self, name: &[u8], number: &mut usize) -> u32
        ensures answer { KeptRegex self.now (λ r answer. TellsNumber r name.now number.new answer) result }
        ensures untouched { (result ≡ 0 → ⊥) → number.new ≡ number.old }
    {
        match self {
            Kept::Regex(regex) => number_in(regex, name, number),
            _ => NO_HANDLE,
        }
    }

    fn group_name(&self, number: usize, buffer: &mut [u8], wanted: &mut usize) -> u32
        ensures { ByRegex self.now (λ r. TellsName r number buffer.old buffer.new wanted.new result)
            ((result ≡ 5) × (buffer.new ≡ buffer.old) × (wanted.new ≡ wanted.old)) }
    {
        match self {
            Kept::Regex(regex) => name_in(regex, number, buffer, wanted),
            _ => NO_HANDLE,
        }
    }

    fn is_match(&self, haystack: &[u8], request: Request) -> u32
        ensures { KeptRegex self.now (λ r answer. TellsWhether r haystack.now request answer) result }
    {
        match self {
            Kept::Regex(regex) => matches_in(regex, haystack, request),
            _ => NO_HANDLE,
        }
    }

    fn find(&self, haystack: &[u8], request: Request, found: &mut Span) -> u32
        ensures answer { KeptRegex self.now
            (λ r answer. TellsFirst r haystack.now request found.new answer) result }
        ensures untouched { (result ≡ 0 → ⊥) → found.new ≡ found.old }
    {
        match self {
            Kept::Regex(regex) => find_in(regex, haystack, request, found),
            _ => NO_HANDLE,
        }
    }

    fn captures(&self, haystack: &[u8], request: Request, groups: &mut [Span]) -> u32
        ensures answer { KeptRegex self.now
            (λ r answer. TellsGroups r haystack.now request groups.new answer) result }
        ensures untouched { (result ≡ 0 → ⊥) → groups.new ≡ groups.old }
    {
        match self {
            Kept::Regex(regex) => captures_in(regex, haystack, request, groups),
            _ => NO_HANDLE,
        }
    }
}

/// How many groups the pattern has, with group 0; 0 where the handle holds no regex.
#[unsafe(no_mangle)]
pub extern "C" fn fancy_regex_captures_len(alloc: Global, regex: &mut Handle) -> usize
    ensures kept { IsSame regex.new regex.old }
    ensures count { HeldRegex regex.old (λ r. result ≡ group_count_in r) (result ≡ 0) }
{
    let Some(kept) = regex.take(alloc) else {
        return 0;
    };
    let count = kept.captures_len();
    *regex = Handle::of(kept);
    count
}

fn number_in(regex: &Regex, name: &[u8], number: &mut usize) -> u32
    ensures answer { TellsNumber regex.now name.now number.new result }
    ensures untouched { (result ≡ 0 → ⊥) → number.new ≡ number.old }
{
    let Ok(name) = str::from_utf8(name) else {
        return NONE;
    };
    match regex.group_named(name) {
        Some(group) => {
            *number = group;
            DONE
        }
        None => NONE,
    }
}

/// The number of the last group with this name, which is written for `DONE` alone. `NONE` where no group has the name, or it is no
/// UTF-8; `NO_HANDLE` where the handle holds no regex.
#[unsafe(no_mangle)]
pub extern "C" fn fancy_regex_group_number(
    alloc: Global,
    regex: &mut Handle,
    name: &[u8],
    number: &mut usize,
) -> u32
    ensures kept { IsSame regex.new regex.old }
    ensures answer { OfRegex regex.old (λ r answer. TellsNumber r name.now number.new answer) result }
    ensures untouched { (result ≡ 0 → ⊥) → number.new ≡ number.old }
{
    let Some(kept) = regex.take(alloc) else {
        return NO_HANDLE;
    };
    let answer = kept.group_number(name, number);
    *regex = Handle::of(kept);
    answer
}

/// The name of the group with this number, if it has one.
fn name_at<'r>(mut names: CaptureNames<'r>, number: usize) -> Option<&'r str>
    ensures { read_name result ≡ option_and_then (λ name. name) (slice_get (names_left names.entry) number) }
{
    match names.nth(number) {
        Some(name) => name,
        None => None,
    }
}

fn name_in(regex: &Regex, number: usize, buffer: &mut [u8], wanted: &mut usize) -> u32
    ensures { TellsName regex.now number buffer.old buffer.new wanted.new result }
{
    *wanted = 0;
    let names = match regex.capture_names() {
        Ok(names) => names,
        Err(_) => return NO_MEMORY,
    };
    match name_at(names, number) {
        Some(name) => put(name.as_bytes(), buffer, wanted),
        None => NONE,
    }
}

/// Writes the name of the group with this number into a buffer, and tells its length.
///
/// `TOO_SHORT` where the buffer has no room for it, with the length that is wanted. `NONE` where the group has no name or there is no
/// such group, and `NO_MEMORY`: then the length is 0. `NO_HANDLE` where the handle holds no regex.
#[unsafe(no_mangle)]
pub extern "C" fn fancy_regex_group_name(
    alloc: Global,
    regex: &mut Handle,
    number: usize,
    buffer: &mut [u8],
    wanted: &mut usize,
) -> u32
    ensures kept { IsSame regex.new regex.old }
    ensures answer { HeldRegex regex.old
        (λ r. TellsName r number buffer.old buffer.new wanted.new result)
        ((result ≡ 5) × (buffer.new ≡ buffer.old) × (wanted.new ≡ wanted.old)) }
{
    let Some(kept) = regex.take(alloc) else {
        return NO_HANDLE;
    };
    let answer = kept.group_name(number, buffer, wanted);
    *regex = Handle::of(kept);
    answer
}

fn matches_in(regex: &Regex, haystack: &[u8], request: Request) -> u32
    ensures { TellsWhether regex.now haystack.now request result }
{
    let input = match Handed::input_for(regex, haystack, request) {
        Ok(input) => input,
        Err(answer) => return answer,
    };
    match regex.is_match_input(input) {
        Ok(true) => DONE,
        Ok(false) => NONE,
        Err(error) => answer_of(error),
    }
}

/// Whether there is a match: `DONE` or `NONE`.
///
/// `NO_HANDLE` where the handle holds no regex; else `NOT_TEXT` where the request says text and the bytes are none; else `NO_PLACE`
/// where they may not be searched as it asks; else `NO_MEMORY` and the three limits, as the library refuses the search.
#[unsafe(no_mangle)]
pub extern "C" fn fancy_regex_is_match(
    alloc: Global,
    regex: &mut Handle,
    haystack: &[u8],
    request: &Request,
) -> u32
    ensures kept { IsSame regex.new regex.old }
    ensures answer { OfRegex regex.old
        (λ r answer. TellsWhether r haystack.now request.now answer) result }
{
    let Some(kept) = regex.take(alloc) else {
        return NO_HANDLE;
    };
    let answer = kept.is_match(haystack, *request);
    *regex = Handle::of(kept);
    answer
}

fn find_in(regex: &Regex, haystack: &[u8], request: Request, found: &mut Span) -> u32
    ensures answer { TellsFirst regex.now haystack.now request found.new result }
    ensures untouched { (result ≡ 0 → ⊥) → found.new ≡ found.old }
{
    let input = match Handed::input_for(regex, haystack, request) {
        Ok(input) => input,
        Err(answer) => return answer,
    };
    match regex.find_input(input) {
        Ok(Some(first)) => {
            *found = Span {
                start: first.start(),
                end: first.end(),
            };
            DONE
        }
        Ok(None) => NONE,
        Err(error) => answer_of(error),
    }
}

/// The first match, which is written for `DONE` alone. The answers are those of [`fancy_regex_is_match`].
#[unsafe(no_mangle)]
pub extern "C" fn fancy_regex_find(
    alloc: Global,
    regex: &mut Handle,
    haystack: &[u8],
    request: &Request,
    found: &mut Span,
) -> u32
    ensures kept { IsSame regex.new regex.old }
    ensures answer { OfRegex regex.old
        (λ r answer. TellsFirst r haystack.now request.now found.new answer) result }
    ensures untouched { (result ≡ 0 → ⊥) → found.new ≡ found.old }
{
    let Some(kept) = regex.take(alloc) else {
        return NO_HANDLE;
    };
    let answer = kept.find(haystack, *request, found);
    *regex = Handle::of(kept);
    answer
}

/// The span of a group, absent where it took no part and where there is no such group.
fn group_of(captures: &Captures<'_, Handed<'_>>, number: usize) -> Span
    ensures { result ≡ crossing (span_at (spans_in captures.now) number) }
{
    match captures.get(number) {
        Some(group) => Span {
            start: group.start(),
            end: group.end(),
        },
        None => Span::absent(),
    }
}

/// Writes where the groups stand, as many as there is room for. One that took no part, or that there is not, is absent.
pub fn put_groups(captures: &Captures<'_, Handed<'_>>, groups: &mut [Span])
    ensures { AreGroups (spans_in captures.now) groups.new }
{
    for number in 0..groups.len() {
        groups[number] = group_of(captures, number);
    }
}

fn captures_in(regex: &Regex, haystack: &[u8], request: Request, groups: &mut [Span]) -> u32
    ensures answer { TellsGroups regex.now haystack.now request groups.new result }
    ensures untouched { (result ≡ 0 → ⊥) → groups.new ≡ groups.old }
{
    let input = match Handed::input_for(regex, haystack, request) {
        Ok(input) => input,
        Err(answer) => return answer,
    };
    match regex.captures_input(input) {
        Ok(Some(captures)) => {
            put_groups(&captures, groups);
            DONE
        }
        Ok(None) => NONE,
        Err(error) => answer_of(error),
    }
}

/// The groups of the first match, as many as there is room for, which are written for `DONE` alone. The answers are those of
/// [`fancy_regex_is_match`].
#[unsafe(no_mangle)]
pub extern "C" fn fancy_regex_captures(
    alloc: Global,
    regex: &mut Handle,
    haystack: &[u8],
    request: &Request,
    groups: &mut [Span],
) -> u32
    ensures kept { IsSame regex.new regex.old }
    ensures answer { OfRegex regex.old
        (λ r answer. TellsGroups r haystack.now request.now groups.new answer) result }
    ensures untouched { (result ≡ 0 → ⊥) → groups.new ≡ groups.old }
{
    let Some(kept) = regex.take(alloc) else {
        return NO_HANDLE;
    };
    let answer = kept.captures(haystack, *request, groups);
    *regex = Handle::of(kept);
    answer
}
