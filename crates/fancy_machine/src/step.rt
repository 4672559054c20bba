//! One step of an attempt.

ghost use Rattle.std.specs.Prelude.{◌≢◌, Err};
ghost use Rattle.fancy_input.specs.LastLines.{KnowsLastLines};
ghost use Rattle.fancy_input.specs.Work.{AddsUnits};
ghost use Rattle.fancy_machine.specs.declared.attempt.Attempt.{Attempt as AttemptIs};
ghost use Rattle.fancy_machine.specs.Parts.{Follows, FollowsInMemory, FollowsNext, HeedsSteps, TakesStep};
ghost use Rattle.fancy_machine.specs.Units.{CountsUnits, units_ahead};

use crate::attempt::Attempt;
use crate::choice::{begin_atom, begin_condition, begin_denial, begin_look, split};
use crate::condition::{assert_at, test_continued, test_taken};
use crate::read::{go_back, read_character, read_member, read_raw_byte, recall};
use crate::texts::text_len;
use fancy_code::code::Instr;
use fancy_code::step::Next;
use fancy_input::last_lines::LastLines;
use fancy_input::refusal::SearchRefusal;
use fancy_input::work::Work;
use fancy_trail::trail::Trail;

/// The match starts at the place.
fn keep(trail: &mut Trail, next: usize) -> Next
    ensures { (a : AttemptIs) → Follows a (Instr.Keep next) result trail.old trail.new }
{
    trail.keep(next);
    Next::On
}

/// A group begins.
fn begin_group(trail: &mut Trail, group: usize, next: usize) -> Result<Next, SearchRefusal>
    ensures { (a : AttemptIs)
        → FollowsInMemory a (Instr.Open group next) result trail.old trail.new }
{
    trail.open_group(group, next)?;
    Ok(Next::On)
}

/// A group ends.
fn end_group(trail: &mut Trail, group: usize, next: usize) -> Result<Next, SearchRefusal>
    ensures { (a : AttemptIs)
        → FollowsInMemory a (Instr.Close group next) result trail.old trail.new }
{
    trail.close_group(group, next)?;
    Ok(Next::On)
}

/// Follows the instruction that comes next. The units that it goes over are counted before it does.
fn follow(
    attempt: &Attempt,
    trail: &mut Trail,
    last_lines: &mut LastLines,
    work: &mut Work,
) -> Result<Next, SearchRefusal>
    requires { KnowsLastLines attempt.now.haystack.now last_lines.old }
    ensures followed { FollowsNext attempt.now result trail.old trail.new }
    ensures work { AddsUnits work.old work.new }
    ensures counted { result ≢ Err SearchRefusal.Steps
        → CountsUnits (units_ahead attempt.now trail.old.now) work.old work.new }
    ensures heeds { HeedsSteps attempt.now.options.now.step_limit result work.old work.new }
    ensures last_lines { KnowsLastLines attempt.now.haystack.now last_lines.new }
{
    let at = trail.at();
    if at >= attempt.code.len() {
        return Ok(Next::Dead);
    }
    match attempt.code.instr(at) {
        Instr::Match => Ok(trail.stop(at)),
        Instr::Commit(next) => Ok(trail.stop(*next)),
        Instr::Fail => Ok(Next::Dead),
        Instr::Character(character, next) => Ok(read_character(attempt, trail, *character, *next)),
        Instr::Member(set, next) => Ok(read_member(attempt, trail, attempt.code.set(*set), *next)),
        Instr::RawByte(byte, next) => Ok(read_raw_byte(attempt, trail, *byte, *next)),
        Instr::Back(units, next) => {
            attempt.count_units(*units, work)?;
            Ok(go_back(attempt, trail, *units, *next))
        }
        Instr::Recall {
            folded,
            group,
            moved,
            still,
        } => {
            attempt.count_units(text_len(trail.span(*group)), work)?;
            Ok(recall(attempt, trail, *folded, *group, *moved, *still))
        }
        Instr::Assert(assertion, next) => {
            Ok(assert_at(attempt, trail, last_lines, *assertion, *next))
        }
        Instr::Continue(next) => Ok(test_continued(attempt, trail, *next)),
        Instr::Taken(group, next) => Ok(test_taken(attempt, trail, *group, *next)),
        Instr::Keep(next) => Ok(keep(trail, *next)),
        Instr::Open(group, next) => begin_group(trail, *group, *next),
        Instr::Close(group, next) => end_group(trail, *group, *next),
        Instr::Split(first, second) => split(trail, *first, *second),
        Instr::Test(body, other) => begin_condition(trail, *body, *other),
        Instr::Enter(body) => begin_atom(trail, *body),
        Instr::Look(behind, body, next) => begin_look(attempt, trail, *behind, *body, *next),
        Instr::Deny(behind, body, next) => begin_denial(attempt, trail, *behind, *body, *next),
    }
}

/// Follows one instruction: that is one step.
pub(crate) fn step(
    attempt: &Attempt,
    trail: &mut Trail,
    last_lines: &mut LastLines,
    work: &mut Work,
) -> Result<Next, SearchRefusal>
    requires { KnowsLastLines attempt.now.haystack.now last_lines.old }
    ensures followed { FollowsNext attempt.now result trail.old trail.new }
    ensures takes { TakesStep attempt.now.options.now.step_limit result work.old work.new }
    ensures counted { result ≢ Err SearchRefusal.Steps
        → CountsUnits (units_ahead attempt.now trail.old.now) work.old work.new }
    ensures last_lines { KnowsLastLines attempt.now.haystack.now last_lines.new }
{
    work.count_step_within();
    follow(attempt, trail, last_lines, work)
}
