//! Lists of matches. A call gives as many as there is room for, and the request says then where the list goes on.

ghost use Rattle.std.specs.Prelude.{◌≡◌, ◌<◌, ◌^◌, ◌⊎◌};
ghost use Rattle.fancy_regex_c.specs.Handed.{handed_bytes, is_handed_text};
ghost use Rattle.fancy_regex_c.specs.Handles.{IsSame, ByRegex, HeldRegex};
ghost use Rattle.fancy_regex_c.specs.Lists.{span_that, TellsSpansIn, TellsSpans, TellsRowsIn, TellsRows};
ghost use Rattle.fancy_regex.specs.Spans.{span_in_bytes};

use crate::answers::{DONE, NO_HANDLE, NO_PLACE, NONE, answer_of};
use crate::handed::Handed;
use crate::handle::{Handle, Kept};
use crate::plain::{Request, Span};
use crate::regexes::put_groups;
use fancy_regex::{MatchBytes, Regex};
use std::alloc::Global;

fn span_of(found: MatchBytes<'_>) -> Span
    ensures { result ≡ span_that (span_in_bytes found.entry) }
{
    Span {
        start: found.start(),
        end: found.end(),
    }
}

/// Has the request of a list that gives nothing more say so.
fn end_after(answer: u32, request: &mut Request)
    ensures left { (answer ≡ 0) ⊎ (answer ≡ 3) → request.new ≡ request.old }
    ensures moved { request.new ≡ record request.old { start = request.new.start } }
    ensures past { (answer ≡ 0 → ⊥) → (answer ≡ 3 → ⊥) → request.new.start ≡ 18446744073709551615 }
{
    if answer != DONE && answer != NO_PLACE {
        request.end_list();
    }
}

/// Gives the next matches, as many as there is room for. The request comes to where the list stands.
pub fn find_all_in(
    regex: &Regex,
    haystack: Handed<'_>,
    request: &mut Request,
    spans: &mut [Span],
    written: &mut usize,
) -> u32
    ensures told { TellsSpansIn regex.now (is_handed_text haystack.entry) (handed_bytes haystack.entry)
        request.old request.new spans.old spans.new written.new result }
    ensures short { (result ≡ 3 → ⊥) → request.new.end < 2 ^ 63 }
{
    *written = 0;
    let input = match haystack.input_in(regex, *request) {
        Ok(input) => input,
        Err(answer) => return answer,
    };
    let mut list = regex.resume_matches(input, request.onward());
    for index in 0..spans.len() {
        match list.next() {
            Some(Ok(found)) => {
                spans[index] = span_of(found);
                *written = index + 1;
                request.go_on(list.input().start(), list.onward());
            }
            Some(Err(error)) => return answer_of(error),
            None => return NONE,
        }
    }
    DONE
}

fn find_all_of_bytes(
    regex: &Regex,
    haystack: &[u8],
    request: &mut Request,
    spans: &mut [Span],
    written: &mut usize,
) -> u32
    ensures { TellsSpans regex.now haystack.now request.old request.new spans.old spans.new written.new result }
{
    *written = 0;
    let haystack = match Handed::new(haystack, *request) {
        Ok(haystack) => haystack,
        Err(answer) => return answer,
    };
    let answer = find_all_in(regex, haystack, request, spans, written);
    end_after(answer, request);
    answer
}

impl Kept {
    fn find_all(
        &self,
        haystack: &[u8],
        request: &mut Request,
        spans: &mut [Span],
        written: &mut usize,
    ) -> u32
        ensures { ByRegex self.now
            (λ r. TellsSpans r haystack.now request.old request.new spans.old spans.new written.new result)
            ((result ≡ 5) × (request.new ≡ request.old) × (spans.new ≡ spans.old)
            × (written.new ≡ written.old)) }
    {
        match self {
            Kept::Regex(regex) => find_all_of_bytes(regex, haystack, request, spans, written),
            _ => NO_HANDLE,
        }
    }
}

/// The matches of a list, as many as there is room for. The request says then where the list goes on.
///
/// `DONE` where the buffer is full, and there may be more. `NONE` where the list has ended, and what a search is refused with, which
/// ends the list too: from then on it gives none. The matches before stand in the buffer in each case. `NOT_TEXT` and `NO_PLACE` are
/// those of [`crate::regexes::fancy_regex_is_match`]. `NO_HANDLE` where the handle holds no regex.
#[unsafe(no_mangle)]
pub extern "C" fn fancy_regex_find_all(
    alloc: Global,
    regex: &mut Handle,
    haystack: &[u8],
    request: &mut Request,
    spans: &mut [Span],
    written: &mut usize,
) -> u32
    ensures kept { IsSame regex.new regex.old }
    ensures answer { HeldRegex regex.old
        (λ r. TellsSpans r haystack.now request.old request.new spans.old spans.new written.new result)
        ((result ≡ 5) × (request.new ≡ request.old) × (spans.new ≡ spans.old)
        × (written.new ≡ written.old)) }
{
    let Some(kept) = regex.take(alloc) else {
        return NO_HANDLE;
    };
    let answer = kept.find_all(haystack, request, spans, written);
    *regex = Handle::of(kept);
    answer
}

/// Gives the next matches with their groups, as many as there is room for. The request comes to where the list stands.
pub fn captures_all_in(
    regex: &Regex,
    haystack: Handed<'_>,
    request: &mut Request,
    groups: &mut [Span],
    written: &mut usize,
) -> u32
    ensures told { TellsRowsIn regex.now (is_handed_text haystack.entry) (handed_bytes haystack.entry)
        request.old request.new groups.old groups.new written.new result }
    ensures short { (result ≡ 3 → ⊥) → request.new.end < 2 ^ 63 }
{
    *written = 0;
    let input = match haystack.input_in(regex, *request) {
        Ok(input) => input,
        Err(answer) => return answer,
    };
    let mut list = regex.resume_captures(input, request.onward());
    let width = regex.captures_len();
    let mut used = 0;
    'rows: while groups.len() - used >= width {
        match list.next() {
            Some(Ok(captures)) => {
                put_groups(&captures, &mut groups[used..used + width]);
                used += width;
                *written += 1;
                request.go_on(list.input().start(), list.onward());
            }
            Some(Err(error)) => return answer_of(error),
            None => return NONE,
        }
    }
    DONE
}

fn captures_all_of_bytes(
    regex: &Regex,
    haystack: &[u8],
    request: &mut Request,
    groups: &mut [Span],
    written: &mut usize,
) -> u32
    ensures { TellsRows regex.now haystack.now request.old request.new groups.old groups.new written.new result }
{
    *written = 0;
    let haystack = match Handed::new(haystack, *request) {
        Ok(haystack) => haystack,
        Err(answer) => return answer,
    };
    let answer = captures_all_in(regex, haystack, request, groups, written);
    end_after(answer, request);
    answer
}

impl Kept {
    fn captures_all(
        &self,
        haystack: &[u8],
        request: &mut Request,
        groups: &mut [Span],
        written: &mut usize,
    ) -> u32
        ensures { ByRegex self.now
            (λ r. TellsRows r haystack.now request.old request.new groups.old groups.new written.new result)
            ((result ≡ 5) × (request.new ≡ request.old) × (groups.new ≡ groups.old)
            × (written.new ≡ written.old)) }
    {
        match self {
            Kept::Regex(regex) => captures_all_of_bytes(regex, haystack, request, groups, written),
            _ => NO_HANDLE,
        }
    }
}

/// The matches of a list with their groups, as many as there is room for: for each as many spans as the regex has groups. The
/// request says then where the list goes on. The answers are those of [`fancy_regex_find_all`].
#[unsafe(no_mangle)]
pub extern "C" fn fancy_regex_captures_all(
    alloc: Global,
    regex: &mut Handle,
    haystack: &[u8],
    request: &mut Request,
    groups: &mut [Span],
    written: &mut usize,
) -> u32
    ensures kept { IsSame regex.new regex.old }
    ensures answer { HeldRegex regex.old
        (λ r. TellsRows r haystack.now request.old request.new groups.old groups.new written.new result)
        ((result ≡ 5) × (request.new ≡ request.old) × (groups.new ≡ groups.old)
        × (written.new ≡ written.old)) }
{
    let Some(kept) = regex.take(alloc) else {
        return NO_HANDLE;
    };
    let answer = kept.captures_all(haystack, request, groups, written);
    *regex = Handle::of(kept);
    answer
}
