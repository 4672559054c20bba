//! What is searched, and where: haystacks of four forms, and inputs.
//!
//! `S.text` says whether a haystack is text, and `S.bytes` gives its bytes. An input is made of its haystack, `haystack_in`, and
//! of its request, `request_in`, whose offsets are in bytes.

ghost use Rattle.std.specs.Prelude.{◌+◌, ◌-◌, ◌<◌, ◌↔◌, ◌≡◌, ◌≤◌, IfErr, IfOk, IsAscii, IsCharBoundary, IsFalse, IsTrue, IsUtf8, length, true, ℕ};
ghost use Rattle.fancy_regex.specs.Inputs.{haystack_in, request_in};
ghost use Rattle.fancy_regex.specs.Places.{is_boundary, is_place, next_place, prev_place};
ghost use Rattle.fancy_regex.specs.Requests.{effective_start, positions, whole};
ghost use Rattle.fancy_regex.specs.Spans.{from_to};

use fancy_regex::{Input, RegexInput, Request};
use std::alloc::AllocError;
use std::ops::Range;

/// The whole haystack is searched from its start; `From` makes the same input.
pub fn new<S: Input>(haystack: S) -> (RegexInput<S>, RegexInput<S>)
    ensures haystack { haystack_in result.0 ≡ haystack }
    ensures request { request_in result.0 ≡ whole (S.bytes haystack) }
    ensures from_haystack { haystack_in result.1 ≡ haystack }
    ensures from_request { request_in result.1 ≡ whole (S.bytes haystack) }
{
    (RegexInput::new(haystack), RegexInput::from(haystack))
}

/// The search starts at this offset, which may be any number.
pub fn from_pos<S: Input>(input: RegexInput<S>, start: usize) -> RegexInput<S>
    ensures haystack { haystack_in result ≡ haystack_in input }
    ensures request { request_in result ≡ record (request_in input) { start = start } }
{
    input.from_pos(start)
}

/// Matches begin and end in this range.
pub fn range<S: Input>(input: RegexInput<S>, range: Range<usize>) -> RegexInput<S>
    requires ordered { range.start ≤ range.end }
    requires inside { range.end ≤ length (S.bytes (haystack_in input)) }
    ensures haystack { haystack_in result ≡ haystack_in input }
    ensures request { request_in result
        ≡ record (request_in input) { range_start = range.start; range_end = range.end } }
{
    input.range(range)
}

/// One position alone is tried, or all.
pub fn anchored<S: Input>(input: RegexInput<S>, yes: bool) -> RegexInput<S>
    ensures haystack { haystack_in result ≡ haystack_in input }
    ensures request { request_in result ≡ record (request_in input) { anchored = yes } }
{
    input.anchored(yes)
}

/// Whether `^` and `\A` may hold at the text's start, `$` and `\z` at its end, and `\G`.
pub fn suppresses<S: Input>(
    input: RegexInput<S>,
    start_text: bool,
    end_text: bool,
    continues: bool,
) -> RegexInput<S>
    ensures haystack { haystack_in result ≡ haystack_in input }
    ensures request { request_in result ≡ record (request_in input)
        { start_text = start_text; end_text = end_text; continues = continues } }
{
    let input = input.start_text(start_text).end_text(end_text);
    input.continue_from_previous_match_end(continues)
}

/// `again` and `clone` give the same input once more, and neither fails.
pub fn copies<S: Input>(input: &RegexInput<S>) -> (RegexInput<S>, Result<RegexInput<S>, AllocError>)
    ensures again { (haystack_in result.0 ≡ haystack_in input.now)
        × (request_in result.0 ≡ request_in input.now) }
    ensures clone { IfOk result.1
        (λ r. (haystack_in r ≡ haystack_in input.now) × (request_in r ≡ request_in input.now)) }
    ensures infallible { IfErr result.1 (λ _. ⊥) }
{
    (input.again(), input.clone())
}

/// The haystack of an input, the offset that was asked for, the first position that is tried, and its range.
pub fn reads<S: Input>(input: &RegexInput<S>) -> (S, usize, usize, Range<usize>)
    ensures haystack { result.0 ≡ haystack_in input.now }
    ensures start { result.1 ≡ (request_in input.now).start }
    ensures effective_start { result.2 ≡ effective_start (request_in input.now) }
    ensures range { (result.3.start ≡ (request_in input.now).range_start)
        × (result.3.end ≡ (request_in input.now).range_end) }
    ensures ordered { result.3.start ≤ result.3.end }
    ensures inside { result.3.end ≤ length (S.bytes (haystack_in input.now)) }
{
    let first = input.effective_start();
    (input.haystack(), input.start(), first, input.get_range())
}

/// All settings of an input.
pub fn request<S: Input>(input: &RegexInput<S>) -> Request
    ensures value { result ≡ request_in input.now }
    ensures ordered { result.range_start ≤ result.range_end }
    ensures inside { result.range_end ≤ length (S.bytes (haystack_in input.now)) }
{
    input.request()
}

/// The first position that a request has tried, and the last, where the first is within the range.
pub fn positions_tried(request: &Request) -> (usize, usize)
    requires { effective_start request.now ≤ request.now.range_end }
    ensures first { result.0 ≡ effective_start request.now }
    ensures count { result.1 + 1 - effective_start request.now ≡ positions request.now }
    ensures inside { result.1 ≤ request.now.range_end }
{
    (request.effective_start(), request.last_position())
}

/// The bytes of a haystack; of text they are UTF-8.
pub fn as_bytes<S: Input>(haystack: &S) -> &[u8]
    ensures bytes { result.now ≡ S.bytes haystack.now }
    ensures utf8 { S.text haystack.now ≡ true → IsUtf8 result.now }
{
    haystack.as_bytes()
}

/// Whether a haystack is text, is empty and is ASCII, and its length in bytes.
pub fn haystack_reads<S: Input>(haystack: &S) -> (bool, bool, bool, usize)
    ensures text { result.0 ≡ S.text haystack.now }
    ensures empty { IsTrue result.1 ↔ (length (S.bytes haystack.now) ≡ 0) }
    ensures ascii { IsTrue result.2 ↔ IsAscii (S.bytes haystack.now) }
    ensures len { result.3 ≡ length (S.bytes haystack.now) }
{
    let (text, empty) = (haystack.is_text(), haystack.is_empty());
    (text, empty, haystack.is_ascii(), haystack.len())
}

/// Whether a character may begin or end at an offset, which may be any number.
pub fn is_char_boundary<S: Input>(haystack: &S, ix: usize) -> bool
    ensures value { result ≡ is_place (S.text haystack.now) (S.bytes haystack.now) ix }
    ensures of_text { S.text haystack.now ≡ true
        → (IsTrue result ↔ IsCharBoundary (S.bytes haystack.now) ix) }
    ensures at_start { ix ≡ 0 → IsTrue result }
    ensures at_end { ix ≡ length (S.bytes haystack.now) → IsTrue result }
{
    haystack.is_char_boundary(ix)
}

/// The place before this one.
pub fn prev_codepoint_ix<S: Input>(haystack: &S, i: usize) -> usize
    requires above { 0 < i }
    requires inside { i ≤ length (S.bytes haystack.now) }
    requires cleanly { S.text haystack.now ≡ true → IsTrue (is_boundary (S.bytes haystack.now) i) }
    ensures value { result ≡ prev_place (S.bytes haystack.now) i }
    ensures below { result < i }
    ensures boundary { IsTrue (is_boundary (S.bytes haystack.now) result) }
    ensures nearest { (j : ℕ) → result < j → j < i
        → IsFalse (is_boundary (S.bytes haystack.now) j) }
{
    haystack.prev_codepoint_ix(i)
}

/// The place after this one.
pub fn advance_position<S: Input>(haystack: &S, i: usize) -> usize
    requires inside { i ≤ length (S.bytes haystack.now) }
    requires cleanly { S.text haystack.now ≡ true → IsTrue (is_boundary (S.bytes haystack.now) i) }
    ensures value { result ≡ next_place (S.text haystack.now) (S.bytes haystack.now) i }
    ensures above { i < result }
    ensures most { result ≤ length (S.bytes haystack.now) + 1 }
    ensures within { i < length (S.bytes haystack.now) → result ≤ length (S.bytes haystack.now) }
    ensures boundary { S.text haystack.now ≡ true
        → IsTrue (is_boundary (S.bytes haystack.now) result) }
    ensures nearest { S.text haystack.now ≡ true → (j : ℕ) → i < j → j < result
        → IsFalse (is_boundary (S.bytes haystack.now) j) }
{
    haystack.advance_position(i)
}

/// The match from one offset to another.
pub fn make_match<S: Input>(haystack: &S, start: usize, end: usize) -> S::Match
    requires ordered { start ≤ end }
    requires inside { end ≤ length (S.bytes haystack.now) }
    requires starts_cleanly { S.text haystack.now ≡ true
        → IsTrue (is_boundary (S.bytes haystack.now) start) }
    requires ends_cleanly { S.text haystack.now ≡ true
        → IsTrue (is_boundary (S.bytes haystack.now) end) }
    ensures span { S.span result ≡ from_to start end }
    ensures within { S.within result ≡ S.bytes haystack.now }
{
    haystack.make_match(start, end)
}
