//! For which patterns the automaton is worth its steps.

ghost use Rattle.std.specs.Prelude.{◌≡◌, ◌≤◌, None, false, length, true};
ghost use Rattle.fancy_prefilter.specs.Prefilters.{is_at_starts};

use fancy_code::code::{Code, Instr};
use fancy_code::found::Found;
use fancy_input::input::Request;
use fancy_prefilter::branches::WIDE;
use fancy_prefilter::candidates::{next_candidate, next_opening};
use fancy_prefilter::prefilter::{Opening, Prefilter};
use fancy_prefilter::reach::Target;
use fancy_tree::char_set::CharSet;

/// The automaton's first steps take about as long as so many of the runner for each instruction of the code.
pub const WORTH: usize = 32;

/// They take about as long as so many of the runner at least.
pub const LEAST_WORTH: usize = 512;

/// They take about as long as so many of the runner at most: of long code few instructions are met.
pub const MOST_WORTH: usize = 2048;

/// A search by the runner, alone or of a list, takes about as long as so many more of its steps.
pub const SEARCH: usize = 8;

/// A search that takes fewer steps at most is served by the runner alone.
const LEAST_STEPS: usize = 500;

/// The same where a scan finds the few places at which a match may begin.
const LEAST_STEPS_SCANNED: usize = 2000;

/// The runner does not begin where its table would have more bits: it asks for all of them at once, one MiB here.
pub const TABLE: usize = 8_388_608;

/// A set with that many ASCII characters is wide, as `[a-z]` is.
const WIDE_SET: usize = 26;

/// A table of words that tells them apart by so many bytes is scanned for quickly.
const QUICK_WIDTH: usize = 3;

/// Whether the code opens with many branches, one of which is taken at each position: an alternation of that many, or as
/// many repeats in a row that may consume nothing.
fn opens_wide(code: &Code) -> bool {
    let mut at = code.start;
    for _ in 0..WIDE {
        let Some(ways) = code.ways(at) else {
            return false;
        };
        at = ways.second;
    }
    true
}

/// Whether a set has many ASCII characters.
fn is_wide(set: &CharSet) -> bool {
    let mut members = 0;
    for character in 0..0x80u32 {
        if set.contains(character) {
            members += 1;
        }
    }
    members >= WIDE_SET
}

/// Whether a turn of some loop reads a character of a wide set, so that attempts may be long. The instructions of a turn stand after
/// the split of its loop, up to the one that the turn begins with; other splits lead to instructions before them.
fn has_wide_loop(code: &Code) -> bool {
    let mut turn_end = 0;
    for at in 0..code.len() {
        match code.instr(at) {
            Instr::Split(first, second) => turn_end = turn_end.max(*first).max(*second),
            Instr::Member(set, _) => {
                if at <= turn_end && is_wide(code.set(*set)) {
                    return true;
                }
            }
            _ => {}
        }
    }
    false
}

/// Whether some match may start with an ASCII character.
fn starts_in_ascii(prefilter: &Prefilter) -> bool {
    let Some(scan) = &prefilter.starts else {
        return true;
    };
    for byte in 0..0x80u32 {
        if scan.contains(byte as u8) {
            return true;
        }
    }
    false
}

/// Whether each match opens with one of many words that a table tells apart by so many first bytes that the scan for them is quick: it tells
/// all bytes past ASCII from the others, and not from one another.
fn tells_words(prefilter: &Prefilter) -> bool {
    match &prefilter.opening {
        Opening::Words(branches) => {
            branches.table.width >= QUICK_WIDTH && starts_in_ascii(prefilter)
        }
        _ => false,
    }
}

/// Whether a scan tells little of where matches begin: none is made for what they open with, and they may start with different bytes.
fn is_told_little(prefilter: &Prefilter) -> bool {
    let starts_differ = match &prefilter.starts {
        None => true,
        Some(scan) => scan.only().is_none(),
    };
    !prefilter.scans_for_opening() && starts_differ
}

/// Whether the attempts of the runner are short, as far as the code tells, and a scan tells it where to make them. How many a text has is
/// not told by that.
pub fn has_short_attempts(code: &Code) -> bool {
    !is_told_little(&code.prefilter) && !opens_wide(code) && !has_wide_loop(code)
}

/// From how many steps on that a search may take it is worth the automaton's. `None` where none is: code whose items are read directly
/// needs no engine, where a table tells words apart, the runner tries those alone that may match, and where attempts are short, those few
/// that a scan for a text, for what matches go on to or for a byte past ASCII finds.
pub fn least_steps(code: &Code, is_short: bool, directly: bool) -> Option<usize>
    ensures direct { directly ≡ true → result ≡ None }
{
    let prefilter = &code.prefilter;
    if directly || tells_words(prefilter) {
        return None;
    }
    if is_told_little(prefilter) {
        return Some(LEAST_STEPS);
    }
    if is_short
        && (prefilter.has_text() || prefilter.region.is_some() || !starts_in_ascii(prefilter))
    {
        return None;
    }
    Some(LEAST_STEPS_SCANNED)
}

/// So many steps of the runner for each byte take about as long as those of the automaton that it remembers.
const STEPS_A_BYTE: usize = 2;

/// Searches by the runner that take more steps together tell whether the automaton may save some.
pub const MOST_TRIED: usize = 8192;

/// Where searches by the runner took few steps up to a place so many bytes on, it goes on alone.
pub const QUICK_BYTES: usize = 2048;

/// Whether a row of sets is looked for that each match goes on to.
fn has_row(prefilter: &Prefilter) -> bool {
    match &prefilter.region {
        None => false,
        Some(reach) => matches!(reach.target, Target::Row(_)),
    }
}

/// Whether it may pay that the automaton tells the runner where to begin: a scan tells little of where matches begin, they begin not only
/// where a text or a line does, and no row of sets tells more.
pub fn may_lead(prefilter: &Prefilter) -> bool {
    !has_row(prefilter) && !prefilter.only_at_starts() && is_told_little(prefilter)
}

/// How many of the steps that the runner took for a search the automaton may have saved that tells the runner where to begin: none where
/// the first place that a scan finds has the match, and else those beyond what the automaton takes itself.
pub fn saved_steps(
    prefilter: &Prefilter,
    haystack: &[u8],
    request: Request,
    found: Option<Found>,
    taken: usize,
) -> usize
    requires inside { request.range_end ≤ length haystack.now }
{
    let (first, end) = (request.effective_start(), request.range_end);
    let place = match found {
        Some(found) => found.position.min(end),
        None => end,
    };
    if place <= first {
        return 0;
    }
    let mut region = None;
    if next_opening(prefilter, haystack, end, first, place, &mut region) >= place {
        return 0;
    }
    taken.saturating_sub((place - first).saturating_mul(STEPS_A_BYTE))
}

/// So many bytes are looked at for what each match goes on to.
const AHEAD: usize = 4096;

/// It is looked at that often at most.
const TARGETS: usize = 4;

/// Where the runner would pass over so many bytes for each place at which it stands, it leaps.
const LEAP: usize = 64;

/// Whether the runner leaps where the automaton would not, from `first` up to `end`, byte offsets: the automaton goes on by first bytes
/// alone, and as far as it is looked at what each match goes on to, that tells the runner to pass over many bytes where matches may begin by
/// their first ones, and more than it would look at.
#[inline(never)]
pub fn leaps(prefilter: &Prefilter, haystack: &[u8], first: usize, end: usize) -> bool
    requires inside { end ≤ length haystack.now }
{
    if prefilter.region.is_none() || prefilter.passes_far() || end < first {
        return false;
    }
    let seen = end.min(first.saturating_add(AHEAD));
    let mut place = first;
    let mut passed = 0usize;
    let mut least = 0usize;
    for _ in 0..TARGETS {
        let from = place.min(seen);
        let mut region = None;
        let next = next_opening(prefilter, haystack, seen, from, seen, &mut region);
        let by_byte = next_candidate(prefilter, haystack, seen, from, seen);
        passed = passed.saturating_add(next.saturating_sub(by_byte));
        let Some(target) = region else {
            break;
        };
        least = least.saturating_add(target.saturating_sub(next).max(LEAP));
        if passed >= least.saturating_add(TARGETS * LEAP) {
            break;
        }
        place = target.saturating_add(1);
    }
    passed > least
}

/// So many bytes of a text are looked at for how often matches may begin.
const SEEN: usize = 2048;

/// A scan that passes over fewer bytes in the mean seldom goes far.
const MEAN_GAP: usize = 12;

/// Whether matches may begin so often in a text that a scan for the next place would seldom go far, from `first` up to `end`, byte offsets.
/// The first bytes of it are looked at. Starts of the text and of lines are always found by a scan.
///
/// ```text
/// begin_often(&prefilter, b"10:00:59.317 [INFO] 5 files", 0, 27)    // true for `\d+`
/// begin_often(&prefilter, b"a text that has no number at all", 0, 32)    // false for it
/// ```
#[inline(never)]
pub fn begin_often(prefilter: &Prefilter, haystack: &[u8], first: usize, end: usize) -> bool
    requires inside { end ≤ length haystack.now }
    ensures start { is_at_starts prefilter.now.anchor ≡ true → result ≡ false }
{
    if prefilter.only_at_starts() || end < first {
        return false;
    }
    let is_scanned = prefilter.scans_for_opening();
    let seen = end.min(first.saturating_add(SEEN));
    let places = ((seen - first) / MEAN_GAP).max(1);
    let mut place = first;
    let mut region = None;
    for _ in 0..places {
        place = if is_scanned {
            next_opening(prefilter, haystack, seen, place, seen, &mut region)
        } else {
            next_candidate(prefilter, haystack, seen, place, seen)
        };
        if place >= seen {
            return false;
        }
        place += 1;
    }
    true
}
