//! The instructions that test: an assertion, `\G`, or whether a group has taken part.

ghost use Rattle.std.specs.Prelude.{◌≡◌};
ghost use Rattle.fancy_input.specs.LastLines.{KnowsLastLines};
ghost use Rattle.fancy_meaning.specs.Context.{continues};
ghost use Rattle.fancy_machine.specs.Attempt.{attempt_context};
ghost use Rattle.fancy_machine.specs.Machine.{WentIf};
ghost use Rattle.fancy_trail.specs.Moves.{ChangesWay};
ghost use Rattle.fancy_machine.specs.Parts.{Follows};

use crate::attempt::Attempt;
use fancy_code::code::Instr;
use fancy_code::step::Next;
use fancy_input::last_lines::LastLines;
use fancy_meaning::reading::holds_at;
use fancy_trail::trail::Trail;
use fancy_tree::tree::Assertion;

/// Goes on at another instruction, if a test holds.
fn go_if(trail: &mut Trail, holds: bool, next: usize) -> Next
    ensures { ChangesWay (WentIf result holds next) trail.old trail.new }
{
    if holds {
        trail.go(next);
        return Next::On;
    }
    Next::Dead
}

/// Tests an assertion.
pub(crate) fn assert_at(
    attempt: &Attempt,
    trail: &mut Trail,
    last_lines: &mut LastLines,
    assertion: Assertion,
    next: usize,
) -> Next
    requires { KnowsLastLines attempt.now.haystack.now last_lines.old }
    ensures followed { Follows attempt.now (Instr.Assert assertion next) result
        trail.old trail.new }
    ensures last_lines { KnowsLastLines attempt.now.haystack.now last_lines.new }
{
    let holds = holds_at(
        attempt.haystack,
        attempt.code.meaning,
        attempt.suppressed,
        assertion,
        trail.place(),
        last_lines,
    );
    go_if(trail, holds, next)
}

/// Whether `\G` holds at a place.
#[tactic(auto, unfolding(fancy_meaning::specs::Context::continues))]
fn is_continued(attempt: &Attempt, place: usize) -> bool
    ensures { result ≡ continues (attempt_context attempt.now) place }
{
    match attempt.continues {
        Some(from) => place == from,
        None => false,
    }
}

/// Tests `\G`.
#[inline(never)]
pub(crate) fn test_continued(attempt: &Attempt, trail: &mut Trail, next: usize) -> Next
    ensures { Follows attempt.now (Instr.Continue next) result trail.old trail.new }
{
    let holds = is_continued(attempt, trail.place());
    go_if(trail, holds, next)
}

/// Tests whether a group has taken part.
pub(crate) fn test_taken(attempt: &Attempt, trail: &mut Trail, group: usize, next: usize) -> Next
    ensures { Follows attempt.now (Instr.Taken group next) result trail.old trail.new }
{
    let holds = trail.is_taken(group);
    go_if(trail, holds, next)
}
