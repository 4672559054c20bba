//! The positions at which a match may start.

ghost use Rattle.std.specs.Prelude.{◌≡◌, ℕ, ◌+◌, ◌<◌, ◌≤◌, Some, true, false, length};
ghost use Rattle.fancy_bytes.specs.Openings.{NoneStandsBefore};
ghost use Rattle.fancy_prefilter.specs.NextOpening.{FollowsNone, IsInsideWord, IsNextOpening, LacksOpening, StartsNot};
ghost use Rattle.fancy_prefilter.specs.Seen.{IsNextCandidate, MayNotStart, MayStart};

use crate::branches::Branches;
use crate::literal::Literal;
use crate::prefilter::{Anchor, Opening, Prefilter};
use crate::reach::Reach;
use crate::region::{is_worth_looking, next_region};
use crate::scan::Scan;
use crate::window::Window;

/// At so many places of a line it is looked at what each match opens with.
const PLACES: usize = 8;

/// The first position, from the one on and up to the last, at which a match may start by its first byte; past the last where
/// none may. A match that must start at some byte starts before the end of the range.
#[inline]
fn candidate_from(
    prefilter: &Prefilter,
    haystack: &[u8],
    range_end: usize,
    from: usize,
    last: usize,
) -> usize
    requires ordered { from ≤ last + 1 }
    requires last { last ≤ range_end }
    requires inside { range_end ≤ length haystack.now }
    ensures { IsNextCandidate prefilter.now.starts haystack.now range_end from last result }
{
    let Some(scan) = &prefilter.starts else {
        return from;
    };
    let end = (last + 1).min(range_end);
    if from > end {
        return from;
    }
    match scan.next_seen(haystack, from, end) {
        Some(place) => place,
        None => last + 1,
    }
}

/// The first position, from the one on and up to the last, at which a match may start by its first byte; past the last where
/// none may.
#[inline(never)]
pub fn next_candidate(
    prefilter: &Prefilter,
    haystack: &[u8],
    range_end: usize,
    from: usize,
    last: usize,
) -> usize
    requires ordered { from ≤ last + 1 }
    requires last { last ≤ range_end }
    requires inside { range_end ≤ length haystack.now }
    ensures { IsNextCandidate prefilter.now.starts haystack.now range_end from last result }
{
    candidate_from(prefilter, haystack, range_end, from, last)
}

/// The first position, from one up to the last, where the text stands, past the last where there is none. A position past the last, or
/// the last itself, is the answer as it is.
#[inline(never)]
fn literal_from(
    literal: &Literal,
    haystack: &[u8],
    range_end: usize,
    place: usize,
    last: usize,
) -> usize
    requires within { place ≤ last + 1 }
    requires last { last ≤ range_end }
    requires inside { range_end ≤ length haystack.now }
    ensures passed { place ≤ result }
    ensures within { result ≤ last + 1 }
    ensures none { NoneStandsBefore haystack.now range_end literal.now place result }
{
    if place >= last {
        return place;
    }
    match literal.next_seen(haystack, place, range_end) {
        Some(found) => found.min(last + 1),
        None => last + 1,
    }
}

/// What [`next_opening`] answers, by the text that each match opens with.
#[inline]
fn next_by_text(
    prefilter: &Prefilter,
    literal: &Literal,
    haystack: &[u8],
    range_end: usize,
    from: usize,
    last: usize,
) -> usize
    requires opening { prefilter.now.opening ≡ Opening.Text literal.now }
    requires ordered { from ≤ last + 1 }
    requires last { last ≤ range_end }
    requires inside { range_end ≤ length haystack.now }
    ensures { IsNextOpening prefilter.now haystack.now range_end from last result }
{
    let place = candidate_from(prefilter, haystack, range_end, from, last);
    literal_from(literal, haystack, range_end, place, last)
}

/// The same by a scan for the bytes that stand at the first places of each match. Where a match need not end within what is
/// scanned, it is told by its first byte alone.
#[inline(never)]
fn next_by_window(
    prefilter: &Prefilter,
    window: &Window,
    haystack: &[u8],
    range_end: usize,
    from: usize,
    last: usize,
) -> usize
    requires opening { prefilter.now.opening ≡ Opening.Window window.now }
    requires ordered { from ≤ last + 1 }
    requires last { last ≤ range_end }
    requires inside { range_end ≤ length haystack.now }
    ensures { IsNextOpening prefilter.now haystack.now range_end from last result }
{
    if last < range_end {
        return candidate_from(prefilter, haystack, range_end, from, last);
    }
    match window.next_seen(haystack, from, range_end) {
        None => last + 1,
        Some(seen) => candidate_from(prefilter, haystack, range_end, seen, last),
    }
}

/// The same by the alternatives that may match by their first bytes.
#[inline(never)]
fn next_by_words(
    prefilter: &Prefilter,
    branches: &Branches,
    haystack: &[u8],
    range_end: usize,
    from: usize,
    last: usize,
) -> usize
    requires opening { prefilter.now.opening ≡ Opening.Words branches.now }
    requires ordered { from ≤ last + 1 }
    requires last { last ≤ range_end }
    requires inside { range_end ≤ length haystack.now }
    ensures { IsNextOpening prefilter.now haystack.now range_end from last result }
{
    if last < range_end {
        return candidate_from(prefilter, haystack, range_end, from, last);
    }
    match branches.table.next_seen(haystack, from, range_end) {
        None => last + 1,
        Some(seen) => candidate_from(prefilter, haystack, range_end, seen, last),
    }
}

/// The first place, from the one on and up to the last, at the text's start or after a byte of the set; past the last where there is
/// none.
#[inline]
fn next_line(feeds: &Scan, haystack: &[u8], from: usize, last: usize) -> usize
    requires ordered { from ≤ last + 1 }
    requires inside { last ≤ length haystack.now }
    ensures passed { from ≤ result }
    ensures within { result ≤ last + 1 }
    ensures none { (k : ℕ) → from ≤ k → k < result → FollowsNone feeds.now haystack.now k }
{
    if from == 0 {
        return from;
    }
    match feeds.next_seen(haystack, from - 1, last) {
        None => last + 1,
        Some(feed) => feed + 1,
    }
}

/// Whether a match may start at a place by its first byte.
fn may_start(starts: &Option<Scan>, haystack: &[u8], range_end: usize, place: usize) -> bool
    requires inside { range_end ≤ length haystack.now }
    ensures may { result ≡ true → MayStart starts.now haystack.now range_end place }
    ensures never { result ≡ false → MayNotStart starts.now haystack.now range_end place }
{
    match starts {
        None => true,
        Some(scan) => place < range_end && scan.contains(haystack[place]),
    }
}

/// Whether what each match opens with may stand at a place, by each of its first bytes alone.
fn may_open(opening: &Opening, haystack: &[u8], place: usize) -> bool
    requires inside { place ≤ length haystack.now }
    ensures { result ≡ false → (end : ℕ) → LacksOpening opening.now haystack.now end place }
{
    let left = haystack.len() - place;
    for i in 0..left.min(PLACES) {
        if !opening.may_hold(i, haystack[place + i]) {
            return false;
        }
    }
    true
}

/// Whether a match may start at a place, by the bytes there.
fn may_begin(prefilter: &Prefilter, haystack: &[u8], range_end: usize, place: usize) -> bool
    requires place { place ≤ range_end }
    requires inside { range_end ≤ length haystack.now }
    ensures may { result ≡ true → MayStart prefilter.now.starts haystack.now range_end place }
    ensures never { result ≡ false → StartsNot prefilter.now haystack.now range_end place }
{
    may_start(&prefilter.starts, haystack, range_end, place)
        && may_open(&prefilter.opening, haystack, place)
}

/// What [`next_opening`] answers where each match starts at the text's start or after a line feed.
#[inline(never)]
fn next_by_lines(
    prefilter: &Prefilter,
    feeds: &Scan,
    haystack: &[u8],
    range_end: usize,
    from: usize,
    last: usize,
) -> usize
    requires lines { prefilter.now.anchor ≡ Anchor.AtLines feeds.now }
    requires ordered { from ≤ last + 1 }
    requires last { last ≤ range_end }
    requires inside { range_end ≤ length haystack.now }
    ensures { IsNextOpening prefilter.now haystack.now range_end from last result }
{
    let mut place = next_line(feeds, haystack, from, last);
    while place <= last {
        if may_begin(prefilter, haystack, range_end, place) {
            return place;
        }
        place = next_line(feeds, haystack, place + 1, last);
    }
    place
}

/// Whether a place is inside a word: ASCII word characters stand before and after it.
#[inline(always)]
fn is_inside_word(others: &Scan, haystack: &[u8], place: usize) -> bool
    ensures { result ≡ true → IsInsideWord others.now haystack.now place }
{
    if place == 0 || place >= haystack.len() {
        return false;
    }
    !others.contains(haystack[place - 1]) && !others.contains(haystack[place])
}

/// The first place past one inside a word, up to the last, at which no word character stands; past the last where there is none.
#[inline(always)]
fn past_word(others: &Scan, haystack: &[u8], place: usize, last: usize) -> usize
    requires here { IsInsideWord others.now haystack.now place }
    requires ordered { place ≤ last }
    requires within { last ≤ length haystack.now }
    ensures forth { place < result }
    ensures within { result ≤ last + 1 }
    ensures none { (k : ℕ) → place ≤ k → k < result → IsInsideWord others.now haystack.now k }
{
    match others.next_seen(haystack, place, last) {
        None => last.max(place + 1),
        Some(other) => other.max(place + 1),
    }
}

/// What [`next_opening`] answers where each match starts at the boundary of a word: from a place inside a word it goes on where no word
/// character stands.
#[inline(never)]
fn next_by_boundaries(
    prefilter: &Prefilter,
    others: &Scan,
    haystack: &[u8],
    range_end: usize,
    from: usize,
    last: usize,
) -> usize
    requires words { prefilter.now.anchor ≡ Anchor.AtWords others.now }
    requires ordered { from ≤ last + 1 }
    requires last { last ≤ range_end }
    requires inside { range_end ≤ length haystack.now }
    ensures { IsNextOpening prefilter.now haystack.now range_end from last result }
{
    let mut place = candidate_from(prefilter, haystack, range_end, from, last);
    while place <= last {
        if !is_inside_word(others, haystack, place) {
            return place;
        }
        let past = past_word(others, haystack, place, last);
        place = candidate_from(prefilter, haystack, range_end, past, last);
    }
    place
}

/// What [`next_opening`] answers by first bytes, and where one stands by those after it.
#[inline(never)]
fn next_by_sets(
    prefilter: &Prefilter,
    haystack: &[u8],
    range_end: usize,
    from: usize,
    last: usize,
) -> usize
    requires ordered { from ≤ last + 1 }
    requires last { last ≤ range_end }
    requires inside { range_end ≤ length haystack.now }
    ensures { IsNextOpening prefilter.now haystack.now range_end from last result }
{
    let mut place = candidate_from(prefilter, haystack, range_end, from, last);
    while place <= last && !may_open(&prefilter.opening, haystack, place) {
        place = candidate_from(prefilter, haystack, range_end, place + 1, last);
    }
    place
}

/// What [`next_opening`] answers by what matches open with. A match that starts at the text's start alone is tried there alone.
#[inline]
fn next_by_opening(
    prefilter: &Prefilter,
    haystack: &[u8],
    range_end: usize,
    from: usize,
    last: usize,
) -> usize
    requires ordered { from ≤ last + 1 }
    requires last { last ≤ range_end }
    requires inside { range_end ≤ length haystack.now }
    ensures { IsNextOpening prefilter.now haystack.now range_end from last result }
{
    match &prefilter.anchor {
        Anchor::Anywhere => {}
        Anchor::AtStart => {
            if from > 0 {
                return last + 1;
            }
        }
        Anchor::AtLines(feeds) => {
            return next_by_lines(prefilter, feeds, haystack, range_end, from, last);
        }
        Anchor::AtWords(others) => {
            return next_by_boundaries(prefilter, others, haystack, range_end, from, last);
        }
    }
    match &prefilter.opening {
        Opening::Sets(_) if prefilter.starts_seldom() => {
            next_by_sets(prefilter, haystack, range_end, from, last)
        }
        Opening::Untold | Opening::Sets(_) => candidate_from(
            prefilter, haystack, range_end, from, last,
        ),
        Opening::Text(text) => next_by_text(prefilter, text, haystack, range_end, from, last),
        Opening::Window(window) => {
            next_by_window(prefilter, window, haystack, range_end, from, last)
        }
        Opening::Words(branches) => {
            next_by_words(prefilter, branches, haystack, range_end, from, last)
        }
    }
}

/// What [`next_opening`] answers past the region that is known, where the last position is the range's end: one that a match may open
/// with, up to the next target from there on.
fn next_by_regions(
    prefilter: &Prefilter,
    reach: &Reach,
    haystack: &[u8],
    range_end: usize,
    from: usize,
    region: &mut Option<usize>,
) -> usize
    requires region { prefilter.now.region ≡ Some reach.now }
    requires ordered { from ≤ range_end + 1 }
    requires inside { range_end ≤ length haystack.now }
    ensures { IsNextOpening prefilter.now haystack.now range_end from range_end result }
{
    let mut place = from;
    while place <= range_end {
        let Some((start, target)) = next_region(reach, haystack, place, range_end) else {
            return range_end + 1;
        };
        let opening = next_by_opening(prefilter, haystack, range_end, start, range_end);
        if opening <= target {
            *region = Some(target);
            return opening;
        }
        place = opening;
    }
    range_end + 1
}

/// What [`next_opening`] answers by what each match goes on to.
#[inline(never)]
fn next_in_region(
    prefilter: &Prefilter,
    haystack: &[u8],
    range_end: usize,
    from: usize,
    last: usize,
    region: &mut Option<usize>,
) -> usize
    requires ordered { from ≤ last + 1 }
    requires last { last ≤ range_end }
    requires inside { range_end ≤ length haystack.now }
    ensures { IsNextOpening prefilter.now haystack.now range_end from last result }
{
    let Some(reach) = &prefilter.region else {
        return next_by_opening(prefilter, haystack, range_end, from, last);
    };
    if last < range_end || !is_worth_looking(reach, from, range_end) {
        return next_by_opening(prefilter, haystack, range_end, from, last);
    }
    if let Some(target) = *region {
        if from <= target {
            let opening = next_by_opening(prefilter, haystack, range_end, from, last);
            if opening <= target {
                return opening;
            }
            return next_by_regions(prefilter, reach, haystack, last, opening, region);
        }
    }
    next_by_regions(prefilter, reach, haystack, last, from, region)
}

/// The first position, from the one on and up to the last, at which a search goes on, past the last where there is none: no
/// match begins before it.
///
/// `region` keeps the place of the target up to which a match may begin that goes on to it, a byte offset, from one call to the next in a
/// search: so no byte is looked at again for that target. It is `None` for the first call.
#[inline]
pub fn next_opening(
    prefilter: &Prefilter,
    haystack: &[u8],
    range_end: usize,
    from: usize,
    last: usize,
    region: &mut Option<usize>,
) -> usize
    requires ordered { from ≤ last + 1 }
    requires last { last ≤ range_end }
    requires inside { range_end ≤ length haystack.now }
    ensures { IsNextOpening prefilter.now haystack.now range_end from last result }
{
    if prefilter.region.is_none() {
        return next_by_opening(prefilter, haystack, range_end, from, last);
    }
    next_in_region(prefilter, haystack, range_end, from, last, region)
}
