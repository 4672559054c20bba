//! Straight code: items and tests of the place one after another, and then a match, or a loop round one item and a match.

ghost use Rattle.std.specs.Prelude.{◌≡◌, ◌+◌, ◌-◌, ◌*◌, ◌<◌, ◌≤◌, ◌==◌, if◌then◌else◌, None, Some, IfSome, MatchOption, option_map, true};
ghost use Rattle.fancy_tree.specs.Sets.{has};
ghost use Rattle.fancy_code.specs.Code.{instrs_of};
ghost use Rattle.fancy_code.specs.Instructions.{edges_in};
ghost use Rattle.fancy_code.specs.CodeLength.{code_len};
ghost use Rattle.fancy_code.specs.Run.{instr_at};
ghost use Rattle.fancy_meaning.specs.Context.{Context, holds, option_to, past_item};
ghost use Rattle.fancy_search.specs.Straight.{IsRead, after_part, item_to, past_all, past_items, past_part, past_turns, loop_of, straight_end, test_of};
ghost use Rattle.fancy_states.specs.Counts.{AddsSteps};

use fancy_code::code::{Code, Instr, MATCH};
use fancy_code::step::{past_character, past_member, past_raw_byte};
use fancy_input::last_lines::LastLines;
use fancy_input::work::Work;
use fancy_meaning::reading::{SuppressedEnds, holds_at};
use fancy_tree::char_set::CharSet;
use fancy_tree::tree::{Assertion, Meaning};
use std::mem;
use std::ops::Range;

/// How straight code ends.
#[derive(Clone, Copy)]
pub(crate) enum StraightEnd {
    /// With a match.
    AtMatch,
    /// With a loop round the item that the instruction with this number reads, which prefers to go on, and a match after it.
    Loop(usize),
}

impl StraightEnd {
    /// Whether it is a match alone.
    #[inline]
    pub(crate) fn is_match(self) -> bool
        ensures { result ≡ true → self ≡ StraightEnd.AtMatch }
    {
        match self {
            StraightEnd::AtMatch => true,
            StraightEnd::Loop(_) => false,
        }
    }
}

/// An item that a loop goes round.
#[derive(Clone, Copy)]
enum Item<'c> {
    /// This character.
    Character(char),
    /// A character that this set has.
    Member(&'c CharSet),
}

impl<'c> Item<'c> {
    /// The place past the item at a place, a byte offset, if it stands there.
    #[inline(always)]
    fn past(self, haystack: &[u8], meaning: Meaning, place: usize) -> Option<usize>
        ensures read { (x : Context) → x.meaning ≡ meaning → x.haystack ≡ haystack.now
            → result ≡ past_item x (test_of self.entry) place }
        ensures beyond { IfSome result (λ past. place < past) }
    {
        match self {
            Item::Character(character) => past_character(haystack, meaning, character, place),
            Item::Member(set) => past_member(haystack, meaning, set, place),
        }
    }
}

/// A part of straight code at a place: an item that an instruction reads, or its test of the place.
#[derive(Clone, Copy)]
pub(crate) struct Part {
    /// The place after it, a byte offset; `None` where it does not stand there.
    pub(crate) past: Option<usize>,
    /// The instruction that goes on after it.
    pub(crate) next: usize,
}

/// The place where an assertion is tested, if it holds there.
#[inline(never)]
fn past_test(
    haystack: &[u8],
    meaning: Meaning,
    suppressed: SuppressedEnds,
    assertion: Assertion,
    place: usize,
) -> Option<usize>
    ensures { (x : Context) → IsRead x haystack.now meaning suppressed
        → result ≡ (if holds x assertion place then Some place else None) }
{
    let mut last_lines = LastLines::new(haystack);
    if holds_at(
        haystack,
        meaning,
        suppressed,
        assertion,
        place,
        &mut last_lines,
    ) {
        Some(place)
    } else {
        None
    }
}

/// The part of straight code that an instruction is, at a place. `None` for one that is none.
#[inline(always)]
pub(crate) fn part_at(
    code: &Code,
    haystack: &[u8],
    suppressed: SuppressedEnds,
    at: usize,
    place: usize,
) -> Option<Part>
    ensures next { option_map (λ part. part.next) result
        ≡ after_part (instr_at (instrs_of code.now) at) }
    ensures past { (x : Context) → IsRead x haystack.now code.now.meaning suppressed
        → option_to result None (λ part. part.past)
        ≡ past_part x (instr_at (instrs_of code.now) at) place }
{
    if at >= code.len() {
        return None;
    }
    match code.instr(at) {
        Instr::Character(character, next) => Some(Part {
            past: past_character(haystack, code.meaning, *character, place),
            next: *next,
        }),
        Instr::Member(set, next) => Some(Part {
            past: past_member(haystack, code.meaning, code.set(*set), place),
            next: *next,
        }),
        Instr::RawByte(byte, next) => Some(Part {
            past: past_raw_byte(haystack, *byte, place),
            next: *next,
        }),
        Instr::Assert(assertion, next) => Some(Part {
            past: past_test(haystack, code.meaning, suppressed, *assertion, place),
            next: *next,
        }),
        _ => None,
    }
}

/// The place past the parts of straight code that stand one after another at a place, if all of them do. Each instruction that is
/// followed is counted as a step. A loop at the end is not gone round.
#[inline(always)]
pub(crate) fn past_straight(
    code: &Code,
    haystack: &[u8],
    suppressed: SuppressedEnds,
    place: usize,
    work: &mut Work,
) -> Option<usize>
    requires { 1 < code_len code.now }
    ensures read { (x : Context) → IsRead x haystack.now code.now.meaning suppressed
        → result ≡ past_all x code.now.start (code_len code.now - 2) (instrs_of code.now) place }
    ensures counts { AddsSteps (code_len code.now - 1) work.old work.new }
{
    work.count_step_within();
    let mut at = code.start;
    let mut past = place;
    let mut left = code.len() - 2;
    'parts: while at != MATCH {
        if left == 0 {
            return None;
        }
        let Some(part) = part_at(code, haystack, suppressed, at, past) else {
            return Some(past);
        };
        past = part.past?;
        at = part.next;
        left -= 1;
        work.count_step_within();
    }
    Some(past)
}

/// The instruction that goes on after a part of straight code. `None` for an instruction that is none, and for a test whether only
/// line ends follow, which may read far.
pub(crate) fn after_part(code: &Code, at: usize) -> Option<usize>
    ensures { IfSome result
        (λ next. after_part (instr_at (instrs_of code.now) at) ≡ Some next) }
{
    if at >= code.len() {
        return None;
    }
    match code.instr(at) {
        Instr::Character(_, next) => Some(*next),
        Instr::Member(_, next) => Some(*next),
        Instr::RawByte(_, next) => Some(*next),
        Instr::Assert(Assertion::LastLine | Assertion::LastLineCrlf, _) => None,
        Instr::Assert(_, next) => Some(*next),
        _ => None,
    }
}

/// Whether an instruction reads an item of a set or a character, and goes on at `next`.
fn reads_to(code: &Code, at: usize, next: usize) -> bool
    ensures { result ≡ true → item_to (instr_at (instrs_of code.now) at) next ≡ true }
{
    if at >= code.len() {
        return false;
    }
    match code.instr(at) {
        Instr::Character(_, after) => *after == next,
        Instr::Member(_, after) => *after == next,
        _ => false,
    }
}

/// The instruction of the item that a choice goes round, if it prefers that, and else goes on to a match.
fn loop_at(code: &Code, at: usize) -> Option<usize>
    ensures { IfSome result (λ item. loop_of (instrs_of code.now) at
        (instr_at (instrs_of code.now) at) ≡ Some item) }
{
    let ways = code.ways(at)?;
    if ways.second == MATCH && reads_to(code, ways.first, at) {
        Some(ways.first)
    } else {
        None
    }
}

/// How code ends that is straight, as `foo`, `\\b[0-9][0-9]:[0-9][0-9]\\b` and `#[a-z]+` are: it has no choice and no group, but for a loop
/// at its end. `None` for other code.
pub(crate) fn straight_end(code: &Code) -> Option<StraightEnd>
    ensures { IfSome result (λ end. straight_end code.now.start (code_len code.now - 2)
        (instrs_of code.now) ≡ Some end) }
{
    let mut at = code.start;
    let mut left = code.len().saturating_sub(2);
    'parts: while at != MATCH {
        if left == 0 {
            return None;
        }
        let Some(next) = after_part(code, at) else {
            let item = loop_at(code, at)?;
            return Some(StraightEnd::Loop(item));
        };
        at = next;
        left -= 1;
    }
    Some(StraightEnd::AtMatch)
}

/// Whether code is one item, or one and then a loop round one, as `[a-z]`, `[a-z]+` and `#.*` are: it is read where it may stand. A test
/// of the place alone may hold before any byte.
pub(crate) fn is_item_or_run(code: &Code) -> bool {
    let Some(next) = after_part(code, code.start) else {
        return false;
    };
    if next == MATCH {
        return code.prefilter.starts.is_some();
    }
    loop_at(code, next).is_some()
}

/// The place past the items that stand one after another from the first of these places on. Each ends at the last of them or before. Two
/// steps are counted for each: the item's, and that of the choice after it.
#[inline(always)]
fn past_items(
    haystack: &[u8],
    meaning: Meaning,
    item: Item<'_>,
    places: Range<usize>,
    work: &mut Work,
) -> usize
    ensures read { (x : Context) → x.meaning ≡ meaning → x.haystack ≡ haystack.now → result
        ≡ past_items x (test_of item.entry) places.end (places.end - places.start) places.start }
    ensures counts { AddsSteps (2 * (places.end - places.start)) work.old work.new }
{
    let mut past = places.start;
    'items: while past < places.end {
        let Some(next) = item.past(haystack, meaning, past) else {
            return past;
        };
        if next > places.end {
            return past;
        }
        past = next;
        work.count_step_within();
        work.count_step_within();
    }
    past
}

/// The place past the items that an instruction reads, as [`past_items`] goes past them. The loop is made for each kind of item.
#[inline(always)]
fn past_run(
    code: &Code,
    haystack: &[u8],
    item: usize,
    places: Range<usize>,
    work: &mut Work,
) -> usize
    ensures read { (x : Context) → x.meaning ≡ code.now.meaning → x.haystack ≡ haystack.now
        → result ≡ past_turns x places.end (instr_at (instrs_of code.now) item) places.start }
    ensures counts { AddsSteps (2 * (places.end - places.start)) work.old work.new }
{
    if item >= code.len() {
        return places.start;
    }
    match code.instr(item) {
        Instr::Character(character, _) => {
            let item = Item::Character(*character);
            past_items(haystack, code.meaning, item, places, work)
        }
        Instr::Member(set, _) => {
            let item = Item::Member(code.set(*set));
            past_items(haystack, code.meaning, item, places, work)
        }
        _ => places.start,
    }
}

/// The place past the turns of a loop round the item that an instruction reads, from the first of these places on. Each turn ends at the
/// last of them or before. Each instruction that is followed is counted as a step, with the one that ends.
#[inline(never)]
pub(crate) fn past_turns(
    code: &Code,
    haystack: &[u8],
    item: usize,
    places: Range<usize>,
    work: &mut Work,
) -> usize
    ensures read { (x : Context) → x.meaning ≡ code.now.meaning → x.haystack ≡ haystack.now
        → result ≡ past_turns x places.end (instr_at (instrs_of code.now) item) places.start }
    ensures counts { AddsSteps (2 * (places.end - places.start) + 1) work.old work.new }
{
    // The counts are held here meanwhile, since numbers without an address cost a loop less.
    let mut counts = mem::replace(work, Work::new());
    counts.count_step_within();
    let past = past_run(code, haystack, item, places, &mut counts);
    *work = counts;
    past
}
