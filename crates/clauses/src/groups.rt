//! The groups of a match, by their numbers and by their names.
//!
//! `spans_in` gives the spans of the groups in order, `searched_in` the haystack, and `found_by` the regex. A group that took no
//! part has no span.

ghost use Rattle.std.specs.Iterator.{YieldsFirstBy};
ghost use Rattle.std.specs.Prelude.{◌≡◌, IfSome, IsSome, chars, length, option_map, string_bytes};
ghost use Rattle.fancy_regex.specs.Captures.{searched_in, span_by_name, spans_in, sub_captures_left};
ghost use Rattle.fancy_regex.specs.GroupTexts.{AreOfText, group_texts, seen_in};
ghost use Rattle.fancy_regex.specs.Groups.{IsPart, span_at};

use fancy_regex::{Captures, GroupTexts, Input, Match, SubCaptureMatches};

/// What the group with a number matched, which may be any number.
pub fn get<S: Input>(captures: &Captures<'_, S>, number: usize) -> Option<S::Match>
    ensures found { option_map S.span result ≡ span_at (spans_in captures.now) number }
    ensures within { IfSome result (λ m. S.within m ≡ S.bytes (searched_in captures.now)) }
{
    captures.get(number)
}

/// What the last group with a name matched.
pub fn name<S: Input>(captures: &Captures<'_, S>, name: &str) -> Option<S::Match>
    ensures found { option_map S.span result ≡ span_by_name captures.now (chars name.now) }
    ensures within { IfSome result (λ m. S.within m ≡ S.bytes (searched_in captures.now)) }
{
    captures.name(name)
}

/// How many groups there are, with group 0, and the bytes of the whole haystack.
pub fn reads<'c, S: Input>(captures: &'c Captures<'_, S>) -> (usize, &'c [u8])
    ensures len { result.0 ≡ length (spans_in captures.now) }
    ensures input_as_bytes { result.1.now ≡ S.bytes (searched_in captures.now) }
{
    (captures.len(), captures.input_as_bytes())
}

/// What each group matched, in the order of their numbers.
pub fn iter<'c, 'r, S: Input>(captures: &'c Captures<'r, S>) -> SubCaptureMatches<'c, 'r, S>
    ensures { sub_captures_left result ≡ spans_in captures.now }
{
    captures.iter()
}

/// The next of these.
pub fn next_group<'c, 'r, S: Input>(
    groups: &mut SubCaptureMatches<'c, 'r, S>,
) -> Option<Option<S::Match>>
    ensures { YieldsFirstBy (option_map S.span) sub_captures_left groups.old result groups.new }
{
    groups.next()
}

/// The text of groups that took part, by number and by name, in a `&str`.
pub fn texts<'t>(captures: &Captures<'_, &'t str>, number: usize, name: &str) -> (&'t str, &'t str)
    requires text { IsSome (span_at (spans_in captures.now) number) }
    requires text_of { IsSome (span_by_name captures.now (chars name.now)) }
    ensures text { IsPart (searched_in captures.now).now
        (span_at (spans_in captures.now) number) result.0.now }
    ensures text_of { IsPart (searched_in captures.now).now
        (span_by_name captures.now (chars name.now)) result.1.now }
{
    (captures.text(number), captures.text_of(name))
}

/// The same in a `&String`.
pub fn texts_in_string<'t>(
    captures: &Captures<'_, &'t String>,
    number: usize,
    name: &str,
) -> (&'t str, &'t str)
    requires text { IsSome (span_at (spans_in captures.now) number) }
    requires text_of { IsSome (span_by_name captures.now (chars name.now)) }
    ensures text { IsPart (string_bytes (searched_in captures.now).now)
        (span_at (spans_in captures.now) number)
        result.0.now }
    ensures text_of { IsPart (string_bytes (searched_in captures.now).now)
        (span_by_name captures.now (chars name.now))
        result.1.now }
{
    (captures.text(number), captures.text_of(name))
}

/// The text of a group, if it took part, by its number and by its name: what templates ask.
pub fn texts_for_templates<'t, S: Input<Match = Match<'t>>>(
    captures: &Captures<'_, S>,
    number: usize,
    name: &str,
) -> (Option<&'t str>, Option<&'t str>)
    requires of_text { AreOfText S.span S.within }
    ensures numbered { option_map (λ t. t.now) result.0
        ≡ (group_texts (seen_in S.bytes captures.now)).text_of_number number }
    ensures named { option_map (λ t. t.now) result.1
        ≡ (group_texts (seen_in S.bytes captures.now)).text_of_name (chars name.now) }
{
    (captures.text_numbered(number), captures.text_named(name))
}

/// A loop over the groups ends.
pub fn ends<S: Input>(groups: SubCaptureMatches<'_, '_, S>) {
    for _ in groups {}
}
