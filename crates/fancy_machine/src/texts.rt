//! The text of a group once more.

ghost use Rattle.std.specs.Prelude.{◌≡◌, take, drop, length};
ghost use Rattle.fancy_meaning.specs.Backreference.{past_text, past_letters, past_characters, past_span, shares_folding};
ghost use Rattle.fancy_meaning.specs.Context.{Context, past_item};
ghost use Rattle.fancy_machine.specs.Attempt.{reading};
ghost use Rattle.fancy_machine.specs.Units.{text_len};
ghost use Rattle.fancy_tree.specs.declared.tree.Meaning.{Meaning as MeaningIs};

use fancy_code::step::past_raw_byte;
use fancy_input::characters::character_at;
use fancy_input::span::Span;
use fancy_tree::tree::Meaning;
use unicode::case::simple_fold;

/// The bytes from a place on; none past the end.
fn bytes_from(haystack: &[u8], place: usize) -> &[u8]
    ensures { result.now ≡ drop place haystack.now }
{
    if place < haystack.len() {
        &haystack[place..]
    } else {
        &[]
    }
}

/// The first bytes, so many at most.
fn first_of(bytes: &[u8], count: usize) -> &[u8]
    ensures { result.now ≡ take count bytes.now }
{
    if count < bytes.len() {
        &bytes[..count]
    } else {
        bytes
    }
}

/// The place after a text that stands at a place, if it does.
fn past_text(haystack: &[u8], text: &[u8], place: usize) -> Option<usize>
    ensures { (meaning : MeaningIs) (x : Context)
        → result ≡ past_text (reading haystack.now meaning x) text.now place }
{
    if bytes_from(haystack, place).starts_with(text) {
        return Some(place + text.len());
    }
    None
}

/// The same where ASCII letters stand in either case.
fn past_letters(haystack: &[u8], text: &[u8], place: usize) -> Option<usize>
    ensures { (meaning : MeaningIs) (x : Context)
        → result ≡ past_letters (reading haystack.now meaning x) text.now place }
{
    let next = first_of(bytes_from(haystack, place), text.len());
    if next.eq_ignore_ascii_case(text) {
        return Some(place + text.len());
    }
    None
}

/// Whether two characters have the same simple folding.
fn shares_folding(c: char, d: char) -> bool
    ensures { result ≡ shares_folding c d }
{
    if c.is_ascii() && d.is_ascii() {
        return d.eq_ignore_ascii_case(&c);
    }
    simple_fold(d) == simple_fold(c)
}

/// The place after the character at a place, if it has the same simple folding as this one.
fn past_sharing(haystack: &[u8], c: char, place: usize) -> Option<usize>
    ensures { (x : Context) → result
        ≡ past_item (reading haystack.now Meaning.Unicode x) (shares_folding c) place }
{
    let found = character_at(haystack, place)?;
    if !shares_folding(c, found) {
        return None;
    }
    Some(place + found.len_utf8())
}

/// The place after what matches a text under flag `i` in Unicode meaning: a character is matched by one with
/// the same simple folding, and a byte that is in none by itself.
fn past_characters(haystack: &[u8], text: &[u8], place: usize) -> Option<usize>
    ensures { (x : Context) → result
        ≡ past_characters (reading haystack.now Meaning.Unicode x) text.now place }
{
    let mut at = place;
    let mut rest = text;
    while !rest.is_empty() {
        match character_at(rest, 0) {
            Some(c) => {
                at = past_sharing(haystack, c, at)?;
                rest = bytes_from(rest, c.len_utf8());
            }
            None => {
                at = past_raw_byte(haystack, rest[0], at)?;
                rest = bytes_from(rest, 1);
            }
        }
    }
    Some(at)
}

/// How many bytes the text of a span has, 0 where there is none.
pub(crate) fn text_len(span: Option<Span>) -> usize
    ensures { result ≡ text_len span }
{
    match span {
        Some(span) => span.end.saturating_sub(span.start),
        None => 0,
    }
}

/// The place after the text of a span that stands at a place once more, if it does; where it is folded, under
/// flag `i`.
pub fn past_span(
    haystack: &[u8],
    meaning: Meaning,
    folded: bool,
    span: Option<Span>,
    place: usize,
) -> Option<usize>
    ensures { (x : Context)
        → result ≡ past_span (reading haystack.now meaning x) folded span place }
{
    let span = span?;
    let rest = bytes_from(haystack, span.start);
    let text = first_of(rest, span.end.saturating_sub(span.start));
    if !folded {
        return past_text(haystack, text, place);
    }
    match meaning {
        Meaning::Unicode => past_characters(haystack, text, place),
        Meaning::Bytes => past_letters(haystack, text, place),
        Meaning::AsciiText => past_letters(haystack, text, place),
    }
}
