//! Negated look-arounds of which one byte tells what they find: no region is opened.

ghost use Rattle.std.specs.Prelude.{◌≤◌, Option, IfSome};
ghost use Rattle.fancy_code.specs.Code.{instrs_of};
ghost use Rattle.fancy_meaning.specs.Context.{State};
ghost use Rattle.fancy_input.specs.Work.{returns_of};
ghost use Rattle.fancy_splits.specs.Denials.{IsToldDenial, SeesByte};
ghost use Rattle.fancy_machine.specs.Denials.{IsSeen, as_next};
ghost use Rattle.fancy_machine.specs.Parts.{CountsGoing, WentOn};

use crate::attempt::Attempt;
use fancy_input::refusal::SearchRefusal;
use fancy_input::work::Work;
use fancy_splits::denials::{Sight, ToldDenial};
use fancy_trail::trail::Trail;

/// The byte that a look-around at a place sees: the one before it where it looks behind, and else the one there.
fn byte_seen(behind: bool, haystack: &[u8], place: usize) -> Option<u8>
    ensures { IfSome result (SeesByte behind haystack.now place) }
{
    if !behind {
        return haystack.get(place).copied();
    }
    if place == 0 {
        return None;
    }
    haystack.get(place - 1).copied()
}

/// What a byte tells of a negated look-around where the trail stands, if that is something, and the branches that it would save may be.
#[inline(never)]
pub(crate) fn sight_at(attempt: &Attempt, denial: &ToldDenial, trail: &Trail) -> Option<Sight>
    ensures { IfSome result (IsSeen attempt.now denial.now trail.now.now.state.place) }
{
    let byte = byte_seen(denial.behind, attempt.haystack, trail.place())?;
    match denial.sight(byte) {
        Sight::Misses(price) if trail.has_room_for(price.marks as usize + 1) => {
            Some(Sight::Misses(price))
        }
        Sight::Finds if trail.has_room_for(1) => Some(Sight::Finds),
        _ => None,
    }
}

/// Passes a negated look-around of which a byte tells this: whether the way goes on after it. No region is opened. The returns are
/// counted that what it looks for takes, and one where that is not found.
#[inline(never)]
pub(crate) fn pass_denial(
    attempt: &Attempt,
    denial: &ToldDenial,
    sight: Sight,
    trail: &mut Trail,
    limit: usize,
    work: &mut Work,
) -> Result<bool, SearchRefusal>
    requires told { IsToldDenial (instrs_of attempt.now.code.now) attempt.now.code.now.meaning
        trail.old.now.at denial.now }
    requires seen { IsSeen attempt.now denial.now trail.old.now.state.place sight }
    requires room { returns_of work.old ≤ limit }
    ensures went { (best : Option State) → WentOn attempt.now limit (as_next result)
        trail.old best trail.new best work.old work.new }
    ensures counts { CountsGoing limit attempt.now.options.now.step_limit result work.old work.new }
{
    work.count_step_within();
    let Sight::Misses(price) = sight else {
        return Ok(false);
    };
    attempt.count_returns(price.returns as usize + 1, limit, work)?;
    trail.go(denial.next);
    Ok(true)
}
