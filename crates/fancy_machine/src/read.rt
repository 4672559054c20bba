//! The instructions that move to another place: an item, the text of a group once more, or so many units back.

ghost use Rattle.fancy_tree.specs.Sets.{has};
ghost use Rattle.fancy_code.specs.Instructions.{edges_in};
ghost use Rattle.fancy_meaning.specs.Context.{past_item};
ghost use Rattle.fancy_machine.specs.Attempt.{attempt_context};
ghost use Rattle.fancy_machine.specs.Machine.{MovedTo, RecalledTo};
ghost use Rattle.fancy_trail.specs.Moves.{ChangesWay};
ghost use Rattle.fancy_machine.specs.Parts.{Follows};

use crate::attempt::Attempt;
use crate::texts::past_span;
use crate::units::units_back;
use fancy_code::code::Instr;
use fancy_code::step::{Next, past_character, past_member, past_raw_byte};
use fancy_trail::trail::Trail;
use fancy_tree::char_set::CharSet;

/// Goes on at a place, if there is one by the limit.
fn advance(trail: &mut Trail, next: usize, place: Option<usize>) -> Next
    ensures { ChangesWay (MovedTo result next place) trail.old trail.new }
{
    match place {
        Some(place) if place <= trail.limit() => {
            trail.go_to(next, place);
            Next::On
        }
        _ => Next::Dead,
    }
}

/// Goes on after a text, if it ends by the limit: at `still` where it is empty.
fn advance_after(trail: &mut Trail, moved: usize, still: usize, place: Option<usize>) -> Next
    ensures { ChangesWay (RecalledTo result moved still place) trail.old trail.new }
{
    match place {
        Some(place) if place <= trail.limit() => {
            let next = if place == trail.place() { still } else { moved };
            trail.go_to(next, place);
            Next::On
        }
        _ => Next::Dead,
    }
}

/// Reads this character.
pub(crate) fn read_character(
    attempt: &Attempt,
    trail: &mut Trail,
    character: char,
    next: usize,
) -> Next
    ensures { Follows attempt.now (Instr.Character character next) result trail.old trail.new }
{
    let meaning = attempt.code.meaning;
    let past = past_character(attempt.haystack, meaning, character, trail.place());
    advance(trail, next, past)
}

/// Reads an item of this set.
pub(crate) fn read_member(attempt: &Attempt, trail: &mut Trail, set: &CharSet, next: usize) -> Next
    ensures { let past = past_item (attempt_context attempt.now) (has (edges_in set.now))
        trail.old.now.state.place in
        ChangesWay (MovedTo result next past) trail.old trail.new }
{
    let meaning = attempt.code.meaning;
    let past = past_member(attempt.haystack, meaning, set, trail.place());
    advance(trail, next, past)
}

/// Reads this byte.
pub(crate) fn read_raw_byte(attempt: &Attempt, trail: &mut Trail, byte: u8, next: usize) -> Next
    ensures { Follows attempt.now (Instr.RawByte byte next) result trail.old trail.new }
{
    let past = past_raw_byte(attempt.haystack, byte, trail.place());
    advance(trail, next, past)
}

/// Reads the text of a group once more, where `folded` with letters in either case.
pub(crate) fn recall(
    attempt: &Attempt,
    trail: &mut Trail,
    folded: bool,
    group: usize,
    moved: usize,
    still: usize,
) -> Next
    ensures { Follows attempt.now (Instr.Recall folded group moved still) result
        trail.old trail.new }
{
    let meaning = attempt.code.meaning;
    let past = past_span(
        attempt.haystack,
        meaning,
        folded,
        trail.span(group),
        trail.place(),
    );
    advance_after(trail, moved, still, past)
}

/// Goes so many units back.
pub(crate) fn go_back(attempt: &Attempt, trail: &mut Trail, units: usize, next: usize) -> Next
    ensures { Follows attempt.now (Instr.Back units next) result trail.old trail.new }
{
    match units_back(attempt.haystack, attempt.code.meaning, units, trail.place()) {
        Some(place) => {
            trail.go_to(next, place);
            Next::On
        }
        None => Next::Dead,
    }
}
