//! The instructions that save a branch or open a region, and choices of which bytes tell where they lead.

ghost use Rattle.std.specs.Prelude.{◌≤◌, ◌<◌, ◌+◌, ◌^◌, IfSome, Option, length};
ghost use Rattle.fancy_code.specs.Code.{instrs_of};
ghost use Rattle.fancy_meaning.specs.Context.{State};
ghost use Rattle.fancy_input.specs.Work.{returns_of};
ghost use Rattle.fancy_splits.specs.Splits.{IsToldChoice, ways_in};
ghost use Rattle.fancy_machine.specs.Choices.{IsTaken};
ghost use Rattle.fancy_trail.specs.Ways.{saved_ways};
ghost use Rattle.fancy_machine.specs.declared.attempt.Attempt.{Attempt as AttemptIs};
ghost use Rattle.fancy_trail.specs.Ways.{within_at};
ghost use Rattle.fancy_trail.specs.Moves.{GoesOn, SavesBranches};
ghost use Rattle.fancy_machine.specs.Parts.{CountsGoing, FollowsIfOk, FollowsInMemory, WentOn};

use crate::attempt::Attempt;
use fancy_code::code::Instr;
use fancy_code::step::Next;
use fancy_input::refusal::SearchRefusal;
use fancy_input::work::Work;
use fancy_splits::choices::{Onward, Passage, SavedWays, ToldChoice};
use fancy_trail::layer::Kind;
use fancy_trail::trail::Trail;

/// Saves the second of two ways, and goes on by the first.
pub(crate) fn split(trail: &mut Trail, first: usize, second: usize) -> Result<Next, SearchRefusal>
    ensures { (a : AttemptIs)
        → FollowsIfOk a (Instr.Split first second) result trail.old trail.new }
{
    trail.save(Kind::Branch, second)?;
    trail.go(first);
    Ok(Next::On)
}

/// Begins a condition, whose second branch is `other`.
#[inline(never)]
pub(crate) fn begin_condition(
    trail: &mut Trail,
    body: usize,
    other: usize,
) -> Result<Next, SearchRefusal>
    ensures { (a : AttemptIs)
        → FollowsIfOk a (Instr.Test body other) result trail.old trail.new }
{
    trail.save(Kind::Condition, other)?;
    trail.go(body);
    Ok(Next::On)
}

/// Begins a part of which the first way that stops is taken.
pub(crate) fn begin_atom(trail: &mut Trail, body: usize) -> Result<Next, SearchRefusal>
    ensures { (a : AttemptIs)
        → FollowsInMemory a (Instr.Enter body) result trail.old trail.new }
{
    trail.enter(Kind::Atom, body)?;
    trail.go(body);
    Ok(Next::On)
}

/// Goes on at the body of a look-around, which reads to the haystack's end.
fn enter_body(attempt: &Attempt, trail: &mut Trail, body: usize)
    ensures { GoesOn (within_at body (length attempt.now.haystack.now) trail.old.now)
        trail.old trail.new }
{
    trail.go_within(body, attempt.haystack.len());
}

/// Begins a look-around, after which `next` follows.
pub(crate) fn begin_look(
    attempt: &Attempt,
    trail: &mut Trail,
    behind: bool,
    body: usize,
    next: usize,
) -> Result<Next, SearchRefusal>
    ensures { FollowsInMemory attempt.now (Instr.Look behind body next) result
        trail.old trail.new }
{
    trail.enter(Kind::Look(behind), next)?;
    enter_body(attempt, trail, body);
    Ok(Next::On)
}

/// Begins a negated look-around; `next` follows where it finds nothing.
pub(crate) fn begin_denial(
    attempt: &Attempt,
    trail: &mut Trail,
    behind: bool,
    body: usize,
    next: usize,
) -> Result<Next, SearchRefusal>
    ensures { FollowsIfOk attempt.now (Instr.Deny behind body next) result trail.old trail.new }
{
    trail.save(Kind::Denial(behind), next)?;
    enter_body(attempt, trail, body);
    Ok(Next::On)
}

/// The passage of the byte that stands at the place, where text may be consumed and so many branches may be saved.
fn passage_at<'a>(choice: &'a ToldChoice, attempt: &Attempt, trail: &Trail) -> Option<&'a Passage>
    ensures taken { IfSome result (λ p. IsTaken attempt.now choice.now trail.now.now p.now) }
    ensures fits { IfSome result (λ _. trail.now.now.state.place + 1 < 2 ^ 64) }
{
    let place = trail.place();
    if trail.limit() <= place || attempt.haystack.len() <= place {
        return None;
    }
    match choice.passage(attempt.haystack[place]) {
        Some(passage) if trail.has_room_for(passage.price.marks as usize + 2) => Some(passage),
        _ => None,
    }
}

/// Saves the branches of a passage.
#[inline(always)]
fn save_ways(trail: &mut Trail, saved: SavedWays) -> Result<(), SearchRefusal>
    ensures { SavesBranches result (length (ways_in saved))
        (saved_ways (ways_in saved) trail.old.now trail.old.frames) trail.old trail.new }
{
    match saved {
        SavedWays::Nothing => Ok(()),
        SavedWays::One(way) => trail.save(Kind::Branch, way),
        SavedWays::Two(outer, inner) => trail.save_two(outer, inner),
    }
}

/// Goes on at a choice, where the byte leads that stands there. Choices whose first ways die are passed over together, and their
/// returns are counted; of others the second ways are saved.
pub(crate) fn choose(
    attempt: &Attempt,
    choice: &ToldChoice,
    trail: &mut Trail,
    limit: usize,
    work: &mut Work,
) -> Result<Next, SearchRefusal>
    requires told { IsToldChoice (instrs_of attempt.now.code.now) attempt.now.code.now.meaning
        trail.old.now.at choice.now }
    requires room { returns_of work.old ≤ limit }
    ensures went { (best : Option State) → WentOn attempt.now limit result
        trail.old best trail.new best work.old work.new }
    ensures counts { CountsGoing limit attempt.now.options.now.step_limit result work.old work.new }
{
    work.count_step_within();
    let Some(passage) = passage_at(choice, attempt, trail) else {
        trail.save(Kind::Branch, choice.second)?;
        trail.go(choice.first);
        return Ok(Next::On);
    };
    attempt.count_returns(passage.price.returns as usize, limit, work)?;
    match passage.onward {
        Onward::Ends => Ok(Next::Dead),
        Onward::Goes(to) => {
            save_ways(trail, passage.saved)?;
            trail.go(to);
            Ok(Next::On)
        }
        Onward::Reads(to) => {
            let past = trail.place() + 1;
            save_ways(trail, passage.saved)?;
            trail.go_to(to, past);
            Ok(Next::On)
        }
    }
}
