//! The item that code opens with, and positions of which it tells that nothing is found there.

ghost use Rattle.std.specs.Prelude.{◌≡◌, ◌+◌, ◌-◌, ◌≤◌, ◌<◌, ◌^◌, ℕ, Option, true, length, IfSome};
ghost use Rattle.fancy_code.specs.Attempt.{instrs_in};
ghost use Rattle.fancy_code.specs.Branches.{OpensTo};
ghost use Rattle.fancy_code.specs.Code.{instrs_of};
ghost use Rattle.fancy_code.specs.Compile.{AreEasy};
ghost use Rattle.fancy_runner.specs.Attempt.{bits_in};
ghost use Rattle.fancy_runner.specs.FirstItem.{OpensWith, FindsNone};
ghost use Rattle.fancy_runner.specs.Runs.{HasRow};

use crate::table::Table;
use fancy_code::attempt::Attempt;
use fancy_code::code::{Code, Instr};
use fancy_code::step::past_member;
use fancy_tree::char_set::CharSet;

/// The set that code opens with, after the start of a group or not, where the instruction after it has a mark.
#[derive(Clone, Copy)]
struct FirstItem<'c> {
    set: &'c CharSet,
    /// The number of that mark, among those of a place.
    number: usize,
}

/// The number of the instruction after the start of a group, where the code begins with one, and else that of its first.
fn past_group(code: &Code) -> usize
    ensures { (group : Option ℕ) × OpensTo (instrs_of code.now) group code.now.start result }
{
    if code.start >= code.len() {
        return code.start;
    }
    match code.instr(code.start) {
        Instr::Open(_, next) => *next,
        _ => code.start,
    }
}

/// The item that the code opens with, if it is such.
fn first_item(code: &Code) -> Option<FirstItem<'_>>
    ensures { IfSome result (OpensWith code.now) }
{
    let at = past_group(code);
    if at >= code.len() {
        return None;
    }
    let Instr::Member(set, next) = code.instr(at) else {
        return None;
    };
    if *next >= code.len() {
        return None;
    }
    let number = code.mark_number(*next)?;
    Some(FirstItem {
        set: code.set(*set),
        number,
    })
}

impl FirstItem<'_> {
    /// Whether it stands at a place, and the instruction after it was followed from there before.
    #[inline(always)]
    fn was_passed(&self, attempt: &Attempt, place: usize, table: &Table) -> bool
        requires easy { AreEasy (instrs_in attempt.now) }
        requires opens { OpensWith attempt.now.code.now self.now }
        requires row { HasRow attempt.now place table.now }
        ensures { result ≡ true → FindsNone attempt.now table.now place }
    {
        let meaning = attempt.code.meaning;
        match past_member(attempt.haystack, meaning, self.set, place) {
            Some(past) if past <= attempt.last => {
                table.has((past - attempt.base) * attempt.code.marks() + self.number)
            }
            _ => false,
        }
    }
}

/// The first position from one on, past the last where there is none, of which it is not told that an attempt there finds nothing: one
/// at which the first item does not stand, or after which the code was not followed before. So an attempt in a run of items of which an
/// attempt failed is not made.
#[inline(always)]
pub(crate) fn pass_followed(attempt: &Attempt, from: usize, last: usize, table: &Table) -> usize
    requires easy { AreEasy (instrs_in attempt.now) }
    requires low { attempt.now.base ≤ from }
    requires ordered { from ≤ last + 1 }
    requires last { last ≤ attempt.now.last }
    requires inside { attempt.now.last ≤ length attempt.now.haystack.now }
    requires room { bits_in attempt.now ≤ length table.now }
    requires small { length table.now < 2 ^ 64 }
    ensures passed { from ≤ result }
    ensures within { result ≤ last + 1 }
    ensures none { (k : ℕ) → from ≤ k → k < result → FindsNone attempt.now table.now k }
{
    let mut place = from;
    if place > last {
        return place;
    }
    let Some(item) = first_item(attempt.code) else {
        return place;
    };
    'places: while place <= last && item.was_passed(attempt, place, table) {
        place += 1;
    }
    place
}
