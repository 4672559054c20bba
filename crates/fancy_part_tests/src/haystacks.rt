//! Haystacks of each form, what is asked of them, and matches.

ghost use Rattle.std.specs.Prelude.{◌≡◌, ◌↔◌, IsTrue};
ghost use Rattle.fancy_input.specs.Spans.{span_in, text_in, span_in_bytes, bytes_in};

use crate::asking::check;
use fancy_input::bytes::MatchBytes;
use fancy_input::input::Input;
use fancy_input::matches::Match;
use fancy_input::regex_input::RegexInput;
use std::ops::Range;
use std::process::Abort;

/// The length of a haystack, and whether it is empty, ASCII and text.
type Facts = (usize, bool, bool, bool);

/// Checks what a form says of itself, and which of the places 0 to 4 are boundaries.
fn check_form<S: Input>(rt: &impl Abort, haystack: S, wanted: Facts, boundaries: [bool; 5]) {
    let input = RegexInput::new(haystack);
    let seen = input.haystack();
    let facts = (seen.len(), seen.is_empty(), seen.is_ascii(), seen.is_text());
    check(rt, facts == wanted, "the facts of a form");
    let input = RegexInput::from(haystack);
    let seen = input.haystack();
    let found = [
        seen.is_char_boundary(0),
        seen.is_char_boundary(1),
        seen.is_char_boundary(2),
        seen.is_char_boundary(3),
        seen.is_char_boundary(4),
    ];
    check(rt, found == boundaries, "the boundaries of a form");
}

#[test]
fn four_forms_have_facts_and_boundaries(rt: HostRuntime) {
    let text = "aé";
    let owned = String::from_str(rt.alloc(), text).expect(&rt, text);
    let facts = (3, false, false, true);
    check_form(&rt, text, facts, [true, true, false, true, false]);
    check_form(&rt, &owned, facts, [true, true, false, true, false]);
    let facts = (3, false, false, false);
    check_form(&rt, text.as_bytes(), facts, [true, true, false, true, true]);
    check_form(
        &rt,
        &[97u8, 0xC3, 0xA9],
        facts,
        [true, true, false, true, true],
    );
    let facts = (2, false, true, false);
    check_form(&rt, &[97u8, 98], facts, [true, true, true, true, true]);
    let facts = (0, true, true, true);
    check_form(&rt, "", facts, [true, false, false, false, false]);
}

/// How many places a walk from the start to the end goes over.
fn steps<S: Input>(haystack: S) -> usize {
    let mut at = 0;
    let mut count = 0usize;
    while at < haystack.len() {
        at = haystack.advance_position(at);
        count = count.wrapping_add(1);
    }
    count
}

#[test]
fn steps_go_over_characters_or_bytes(rt: HostRuntime) {
    let text = "aé";
    assert!(rt; text.is_char_boundary(1) && text.is_char_boundary(3));
    check(&rt, text.prev_codepoint_ix(3) == 1, "back from 3");
    check(&rt, text.advance_position(1) == 3, "on from 1");
    check(&rt, text.advance_position(3) == 4, "on from 3");
    check(&rt, steps(text) == 2, "steps over text");
    let whole = text.make_match(0, text.len());
    check(&rt, whole.as_str() == text, "the whole text");
    let bytes: &[u8] = text.as_bytes();
    check(&rt, bytes.prev_codepoint_ix(3) == 1, "back over bytes");
    check(&rt, bytes.advance_position(1) == 2, "on over bytes");
    check(&rt, bytes.advance_position(3) == 4, "on past the end");
    check(&rt, steps(bytes) == 3, "steps over bytes");
    let whole = bytes.make_match(0, bytes.len());
    check(&rt, whole.as_bytes() == bytes, "all bytes");
    let array = &[0x80u8, 0x80];
    check(&rt, array.prev_codepoint_ix(2) == 0, "back over an array");
}

#[test]
fn an_input_asks_for_the_whole_or_a_part(rt: HostRuntime) {
    let input = RegexInput::new("abcabc");
    check(&rt, input.start() == 0, "the start");
    check(&rt, input.get_range() == (0..6), "the range");
    let input = input.range(2..5).from_pos(1).anchored(true);
    check(&rt, input.start() == 1, "the start of a part");
    check(&rt, input.get_range() == (2..5), "the range of a part");
    check(&rt, input.effective_start() == 2, "the effective start");
    let copy = input.clone().expect(&rt, "a copy");
    check(&rt, copy.request() == input.request(), "a copy");
}

#[test]
fn settings_change_one_at_a_time(rt: HostRuntime) {
    let input = RegexInput::new("abcabc")
        .range(2..5)
        .from_pos(1)
        .anchored(true);
    let changed = input.again().start_text(false).end_text(false);
    let changed = changed.continue_from_previous_match_end(false);
    check(&rt, changed.request() != input.request(), "a change");
    let request = changed.request();
    check(&rt, request.anchored, "anchored");
    check(&rt, !request.start_text, "the start of the text");
    check(&rt, !request.end_text, "the end of the text");
    check(&rt, !request.continues, "the end of a match");
    let back = changed.start_text(true).end_text(true);
    let back = back.continue_from_previous_match_end(true);
    check(&rt, back.request() == input.request(), "changed back");
}

/// Equal matches have equal texts and ends, and matches with those are equal.
fn is_same(one: Match<'_>, other: Match<'_>) -> bool
    ensures { IsTrue result ↔ ((text_in one.entry ≡ text_in other.entry) × (span_in one.entry ≡ span_in other.entry)) }
{
    one == other
}

fn is_same_in_bytes(one: MatchBytes<'_>, other: MatchBytes<'_>) -> bool
    ensures { IsTrue result ↔ ((bytes_in one.entry ≡ bytes_in other.entry) × (span_in_bytes one.entry ≡ span_in_bytes other.entry)) }
{
    one == other
}

#[test]
fn matches_convert_and_compare(rt: HostRuntime) {
    let text = "aé";
    assert!(rt; text.is_char_boundary(1) && text.is_char_boundary(3));
    let found: Match<'_> = text.make_match(1, 3);
    let range: Range<usize> = found.into();
    check(&rt, range == (1..3), "into a range");
    check(&rt, found.range() == (1..3), "the range");
    let part: &str = found.into();
    check(&rt, part == "é", "into a text");
    check(&rt, found.as_str() == "é", "the text");
    check(&rt, found == found.clone().expect(&rt, "a copy"), "a copy");
    check(&rt, found != text.make_match(1, 1), "another match");
    let other = "bé";
    assert!(rt; other.is_char_boundary(1) && other.is_char_boundary(3));
    check(
        &rt,
        !is_same(found, other.make_match(1, 3)),
        "in another text",
    );
}

#[test]
fn matches_of_bytes_convert_and_compare(rt: HostRuntime) {
    let bytes = [97u8, 0xFF, 98];
    let found: MatchBytes<'_> = (&bytes).make_match(1, 2);
    let range: Range<usize> = found.into();
    check(&rt, range == (1..2), "into a range");
    check(&rt, found.range() == (1..2), "the range");
    let part: &[u8] = found.into();
    check(&rt, part == b"\xFF".as_slice(), "into bytes");
    check(&rt, found.as_bytes() == part, "the bytes");
    check(&rt, found.start() == 1, "the start");
    check(&rt, found.end() == 2, "the end");
    let slice: &[u8] = &bytes;
    check(&rt, found == slice.make_match(1, 2), "in a slice");
    check(
        &rt,
        !is_same_in_bytes(found, slice.make_match(0, 2)),
        "another match",
    );
}
