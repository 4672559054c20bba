//! Atomic groups round a loop of one item: all that stands is read in one step, and no region is opened.

ghost use Rattle.std.specs.Prelude.{◌≡◌, ◌<◌, ◌≤◌, ℕ, List, Option, IfOk, IfSome, length};
ghost use Rattle.fancy_code.specs.Code.{instrs_of};
ghost use Rattle.fancy_code.specs.Instructions.{Member, edges_in};
ghost use Rattle.fancy_code.specs.Run.{instr_at};
ghost use Rattle.fancy_meaning.specs.Context.{State};
ghost use Rattle.fancy_input.specs.Work.{returns_of};
ghost use Rattle.fancy_splits.specs.Splits.{IsToldAtom};
ghost use Rattle.fancy_machine.specs.Atoms.{AreMembers, ComesTo, LacksMember, ReadsAll, ReadsItem};
ghost use Rattle.fancy_machine.specs.Attempt.{attempt_context};
ghost use Rattle.fancy_machine.specs.Runs.{KnowsRun};
ghost use Rattle.fancy_machine.specs.Parts.{GoesOver, CountsGoing, WentOn};

use crate::attempt::Attempt;
use crate::runs::{LastRun, may_stand, read_run};
use fancy_code::code::{Code, Instr};
use fancy_code::step::{Next, past_member};
use fancy_input::refusal::SearchRefusal;
use fancy_input::work::Work;
use fancy_meaning::reading::read_any_at;
use fancy_splits::atoms::ToldAtom;
use fancy_trail::layer::Kind;
use fancy_trail::trail::Trail;
use fancy_tree::char_set::CharSet;

/// The set of which an instruction reads an item before it goes on at `next`, if it does.
fn set_at(code: &Code, at: usize, next: usize) -> Option<&CharSet>
    ensures { IfSome result
        (λ set. instr_at (instrs_of code.now) at ≡ Member (edges_in set.now) next) }
{
    if at >= code.len() {
        return None;
    }
    match code.instr(at) {
        Instr::Member(set, to) if *to == next => Some(code.set(*set)),
        _ => None,
    }
}

/// The place after the item before the loop of an atomic group, where it is one of a set and no byte tells it.
#[inline(never)]
fn past_lead(attempt: &Attempt, atom: &ToldAtom, place: usize, limit: usize) -> Option<usize>
    ensures { IfSome result (λ p. (p ≤ limit) × ReadsItem (attempt_context attempt.now)
        (instrs_of attempt.now.code.now) atom.now.body atom.now.head place p) }
{
    let set = set_at(attempt.code, atom.body, atom.head)?;
    let past = past_member(attempt.haystack, attempt.code.meaning, set, place)?;
    if past <= limit { Some(past) } else { None }
}

/// Where the loop of an atomic group begins, a byte offset: past the item before it, if it has one. `None` where this item does not
/// stand, or is not told.
fn loop_begins(attempt: &Attempt, atom: &ToldAtom, trail: &Trail) -> Option<usize>
    requires told { IsToldAtom (instrs_of attempt.now.code.now) attempt.now.code.now.meaning
        trail.now.now.at atom.now }
    ensures { IfSome result (ComesTo attempt.now atom.now trail.now.now) }
{
    let place = trail.place();
    if !atom.leads {
        return Some(place);
    }
    if trail.limit() <= place {
        return None;
    }
    match attempt.haystack.get(place) {
        Some(byte) if atom.may_lead(*byte) => Some(place + 1),
        Some(byte) if !byte.is_ascii() => past_lead(attempt, atom, place, trail.limit()),
        _ => None,
    }
}

/// Items of a loop, one after another.
#[derive(Clone, Copy, PartialEq, Eq, Debug)]
struct Items {
    count: usize,
    /// Where the last one ends, a byte offset.
    past: usize,
}

/// The items of a set that stand from a place on, and end by the limit.
#[inline(never)]
fn members_from(attempt: &Attempt, set: &CharSet, from: usize, limit: usize) -> Items
    ensures members { AreMembers (attempt_context attempt.now) (edges_in set.now)
        result.count from result.past }
    ensures inside { 0 < result.count
        → (result.past ≤ limit) × (result.past ≤ length attempt.now.haystack.now) }
    ensures all { LacksMember (attempt_context attempt.now) (edges_in set.now) limit result.past }
{
    let meaning = attempt.code.meaning;
    let mut items = Items {
        count: 0,
        past: from,
    };
    'items: loop {
        let Some(reading) = read_any_at(attempt.haystack, meaning, items.past) else {
            return items;
        };
        let past = items.past + reading.width;
        if past > limit || !set.contains(reading.code) {
            return items;
        }
        items.count += 1;
        items.past = past;
    }
}

/// What a loop reads that an atomic group holds, where that is all of it.
#[derive(Clone, Copy, PartialEq, Eq, Debug)]
struct Whole {
    /// How many items stand.
    count: usize,
    /// Where the last one ends, a byte offset.
    past: usize,
    /// The number of the instruction at which what is round the atomic group goes on.
    next: usize,
}

/// What the loop reads at which the trail stands, where no group holds its items and what follows it stops at once: the items that
/// bytes tell, and where more may stand after them those of its set.
fn read_whole(
    attempt: &Attempt,
    trail: &Trail,
    last_run: &mut LastRun,
    work: &mut Work,
) -> Result<Option<Whole>, SearchRefusal>
    requires { KnowsRun attempt.now.splits.now attempt.now.haystack.now last_run.old }
    ensures read { IfOk result (λ whole. IfSome whole (ReadsAll attempt.now trail.now.now)) }
    ensures known { KnowsRun attempt.now.splits.now attempt.now.haystack.now last_run.new }
    ensures units { GoesOver attempt.now.options.now.step_limit result work.old work.new }
{
    let Some(split) = attempt.splits.at(trail.at()) else {
        return Ok(None);
    };
    let Some(next) = split.stop else {
        return Ok(None);
    };
    if split.group.is_some() {
        return Ok(None);
    }
    let count = read_run(attempt, split, trail, last_run, work)?;
    let past = trail.place() + count;
    if !may_stand(split, attempt.haystack, trail.limit(), past) {
        return Ok(Some(Whole { count, past, next }));
    }
    let Some(set) = set_at(attempt.code, split.first, trail.at()) else {
        return Ok(None);
    };
    let more = members_from(attempt, set, past, trail.limit());
    attempt.count_units(more.count, work)?;
    Ok(Some(Whole {
        count: count + more.count,
        past: more.past,
        next,
    }))
}

/// Goes on at the start of an atomic group round a loop of one item. Where all that the group reads is told, the way goes on after it:
/// of the branches that its choices save the last alone is taken, and the group drops the others. Elsewhere its region begins.
#[inline]
pub(crate) fn pass_atom(
    attempt: &Attempt,
    atom: &ToldAtom,
    trail: &mut Trail,
    limit: usize,
    last_run: &mut LastRun,
    work: &mut Work,
) -> Result<Next, SearchRefusal>
    requires told { IsToldAtom (instrs_of attempt.now.code.now) attempt.now.code.now.meaning
        trail.old.now.at atom.now }
    requires known { KnowsRun attempt.now.splits.now attempt.now.haystack.now last_run.old }
    requires room { returns_of work.old ≤ limit }
    ensures went { (best : Option State) → WentOn attempt.now limit result
        trail.old best trail.new best work.old work.new }
    ensures counts { CountsGoing limit attempt.now.options.now.step_limit result work.old work.new }
    ensures known { KnowsRun attempt.now.splits.now attempt.now.haystack.now last_run.new }
{
    work.count_step_within();
    let Some(from) = loop_begins(attempt, atom, trail) else {
        trail.enter(Kind::Atom, atom.body)?;
        trail.go(atom.body);
        return Ok(Next::On);
    };
    trail.go_to(atom.head, from);
    let Some(whole) = read_whole(attempt, trail, last_run, work)? else {
        trail.enter(Kind::Atom, atom.head)?;
        return Ok(Next::On);
    };
    if !trail.has_room_for(whole.count + 1) {
        return Err(SearchRefusal::Choices);
    }
    work.count_returns(1, limit, attempt.options.step_limit)?;
    trail.go_to(whole.next, whole.past);
    Ok(Next::On)
}
