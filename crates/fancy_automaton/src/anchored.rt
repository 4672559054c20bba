//! The attempt at one place: all ways begin there, and none at a later one.

ghost use Rattle.std.specs.Prelude.{◌≡◌, ◌+◌, ◌-◌, ◌*◌, ◌<◌, ◌≤◌, ◌≢◌, [], ℕ, List, false, true, IfOk, IfSome, length};
ghost use Rattle.fancy_code.specs.Attempt.{may_end_in};
ghost use Rattle.fancy_code.specs.CodeLength.{code_len};
ghost use Rattle.fancy_input.specs.Work.{steps_of};
ghost use Rattle.fancy_prefilter.specs.Seen.{MayStart, NoneMayStart};
ghost use Rattle.fancy_states.specs.Cells.{HasPlace, HasRow, HasRows, HoldsFor, IsFor, ways_at};
ghost use Rattle.fancy_states.specs.Counts.{AddsSteps};
ghost use Rattle.fancy_automaton.specs.Decided.{Goal, IsDecided, IsGoal, Rests, attempt_goal, later_end};
ghost use Rattle.fancy_states.specs.Search.{Passes, IsFollowed};

use crate::follow::lengthen;
use crate::front::place_after;
use crate::hop::{Stand, row_start};
use crate::sole::{Sole, span_from};
use fancy_code::attempt::Attempt;
use fancy_input::span::Span;
use fancy_input::work::Work;
use fancy_meaning::options::is_match_boundary;
use fancy_states::cells::{Cells, has_origin, origin, restart, seen_at, step_at};
use fancy_states::rows::Target;
use std::alloc::AllocError;

/// An attempt that is told by remembered steps alone reads on at most so many bytes past its match.
const FAR_PAST: usize = 32;

/// Whether a match may begin at a place, by the byte that stands there.
fn may_begin(attempt: &Attempt, place: usize) -> bool
    requires inside { attempt.now.last ≤ length attempt.now.haystack.now }
    ensures good { result ≡ true → may_end_in attempt.now place ≡ true }
    ensures stands { result ≡ true → MayStart attempt.now.code.now.prefilter.starts
        attempt.now.haystack.now attempt.now.last place }
    ensures passed { result ≡ false → Passes attempt.now place }
{
    if !is_match_boundary(attempt.on_boundaries, attempt.haystack, place) {
        return false;
    }
    match &attempt.code.prefilter.starts {
        None => true,
        Some(starts) => place < attempt.last && starts.contains(attempt.haystack[place]),
    }
}

/// Forgets all but the row of the ways that wait, where one more step may be one too many. The answer are the numbers of that row then,
/// and of that with one more way.
pub(crate) fn make_place(
    attempt: &Attempt,
    cells: &mut Cells,
    rows: Target,
) -> Result<Target, AllocError>
    requires row { rows.next < length cells.old.rows.lists.items }
    requires kept { HoldsFor cells.old attempt.now.code.now }
    ensures kept { HoldsFor cells.new attempt.now.code.now }
    ensures place { IfOk result (λ _. HasPlace cells.new) }
    ensures waits { IfOk result (λ t. HasRow cells.new.rows.lists.items t.next
        (ways_at cells.old.rows.lists.items rows.next)) }
    ensures opens { IfOk result (λ t. (ways : List ℕ)
        → HasRows cells.old.rows.lists.items rows.next rows.begun ways attempt.now.code.now.start
        → HasRows cells.new.rows.lists.items t.next t.begun ways attempt.now.code.now.start) }
{
    if !cells.is_full() {
        return Ok(rows);
    }
    let target = restart(cells, attempt.code.start, rows.next)?;
    Ok(target)
}

/// Whether no way waits: the row with this number has none.
pub(crate) fn is_idle(cells: &Cells, row: usize) -> bool
    requires { row < length cells.now.rows.lists.items }
    ensures none { result ≡ true → ways_at cells.now.rows.lists.items row ≡ [] }
    ensures some { result ≡ false → ways_at cells.now.rows.lists.items row ≢ [] }
{
    cells.rows.lists[row].len() == 0
}

/// Whether a walk went on far past where its match ends, or if it found none, past its start.
fn reads_far_past(to: Sole) -> bool {
    let end = to.end.unwrap_or(to.start);
    to.stand.place.saturating_sub(end) > FAR_PAST
}

/// Where the match ends after a step at a place: there, if one is found, since what goes on is preferred to what was found.
fn later_end(matched: Option<usize>, end: Option<usize>, place: usize) -> Option<usize>
    ensures { result ≡ later_end matched end place }
{
    match matched {
        None => end,
        Some(_) => Some(place),
    }
}

/// Takes the step at a place where some way waits.
fn step(
    attempt: &Attempt,
    cells: &mut Cells,
    from: Sole,
    work: &mut Work,
) -> Result<Sole, AllocError>
    requires followed { IsFollowed attempt.now }
    requires row { from.stand.next < length cells.old.rows.lists.items }
    requires place { HasPlace cells.old }
    requires all { IsFor cells.old attempt.now.code.now }
    requires good { may_end_in attempt.now from.stand.place ≡ true }
    requires within { from.stand.place ≤ attempt.now.last }
    ensures kept { HoldsFor cells.new attempt.now.code.now }
    ensures counts { AddsSteps (code_len attempt.now.code.now) work.old work.new }
    ensures forth { IfOk result (λ to. from.stand.place < to.stand.place) }
    ensures ends { IfOk result (λ to. to.stand.place ≤ attempt.now.last + 1) }
    ensures rests { IfOk result (Rests attempt.now cells.new) }
    ensures decided { IfOk result (λ to. (goal : Goal)
        → IsDecided attempt.now cells.old goal from → IsDecided attempt.now cells.new goal to) }
{
    let place = from.stand.place;
    let sight = seen_at(attempt, cells, place);
    let k = step_at(attempt.code, cells, from.stand.next, sight, work)?;
    let cell = &cells.cells[k];
    let after = place_after(place, sight.reading, attempt.last);
    let end = later_end(cell.matched, from.end, place);
    Ok(Sole {
        stand: Stand {
            place: after,
            next: cell.next,
            begun: cell.begun,
            opened: row_start(attempt, cells, after.min(attempt.last), cell.begun),
        },
        start: from.start,
        end,
    })
}

/// Takes the step at a place where some way waits, and then those that the table tells.
fn advance(
    attempt: &Attempt,
    cells: &mut Cells,
    from: Sole,
    work: &mut Work,
) -> Result<Sole, AllocError>
    requires followed { IsFollowed attempt.now }
    requires kept { HoldsFor cells.old attempt.now.code.now }
    requires rests { Rests attempt.now cells.old from }
    requires some { ways_at cells.old.rows.lists.items from.stand.next ≢ [] }
    ensures kept { HoldsFor cells.new attempt.now.code.now }
    ensures counts { AddsSteps (code_len attempt.now.code.now) work.old work.new }
    ensures forth { IfOk result (λ to. from.stand.place < to.stand.place) }
    ensures ends { IfOk result (λ to. to.stand.place ≤ attempt.now.last + 1) }
    ensures rests { IfOk result (Rests attempt.now cells.new) }
    ensures decided { IfOk result (λ to. (goal : Goal)
        → IsDecided attempt.now cells.old goal from → IsDecided attempt.now cells.new goal to) }
{
    let rows = make_place(attempt, cells, from.stand.rows())?;
    // The row with one more way is not asked.
    let at = Sole {
        stand: Stand {
            place: from.stand.place,
            next: rows.next,
            begun: from.stand.begun,
            opened: from.stand.opened,
        },
        start: from.start,
        end: from.end,
    };
    let to = step(attempt, cells, at, work)?;
    if is_idle(cells, to.stand.next) {
        return Ok(to);
    }
    Ok(lengthen(attempt, cells, to, true))
}

/// Where the match begins and ends that begins at the first place, if there is one, as far as steps tell that are remembered. `None`
/// where they do not.
#[inline(always)]
pub(crate) fn span_told(attempt: &Attempt, cells: &Cells) -> Option<Option<Span>>
    requires ordered { attempt.now.base ≤ attempt.now.last }
    requires followed { IsFollowed attempt.now }
    requires kept { HoldsFor cells.now attempt.now.code.now }
    ensures { IfSome result (IsGoal attempt.now (attempt_goal attempt.now)) }
{
    let place = attempt.base;
    if !has_origin(attempt.code, cells) {
        return None;
    }
    if !is_match_boundary(attempt.on_boundaries, attempt.haystack, place) {
        return None;
    }
    let begun = cells.alone;
    let from = Sole {
        stand: Stand {
            place,
            next: begun,
            begun,
            opened: row_start(attempt, cells, place, begun),
        },
        start: place,
        end: None,
    };
    let to = lengthen(attempt, cells, from, false);
    if !is_idle(cells, to.stand.next) {
        return None;
    }
    if reads_far_past(to) {
        return None;
    }
    Some(span_from(to.start, to.end))
}

/// Where the match begins and ends that begins at the first place, if there is one. No way begins at a later place.
#[inline(never)]
pub(crate) fn span_at(
    attempt: &Attempt,
    cells: &mut Cells,
    work: &mut Work,
) -> Result<Option<Span>, AllocError>
    requires ordered { attempt.now.base ≤ attempt.now.last }
    requires followed { IsFollowed attempt.now }
    requires kept { HoldsFor cells.old attempt.now.code.now }
    ensures answer { IfOk result (IsGoal attempt.now (attempt_goal attempt.now)) }
    ensures kept { HoldsFor cells.new attempt.now.code.now }
    ensures counts { AddsSteps
        (code_len attempt.now.code.now * (attempt.now.last + 1 - attempt.now.base))
        work.old work.new }
    ensures idle { NoneMayStart attempt.now.code.now.prefilter.starts attempt.now.haystack.now
        attempt.now.last attempt.now.base (attempt.now.last + 1)
        → steps_of work.new ≡ steps_of work.old }
{
    let place = attempt.base;
    if !may_begin(attempt, place) {
        cells.reached = place;
        return Ok(None);
    }
    let origin = origin(attempt.code, cells)?;
    // No way begins later, so the row with one more way is not asked.
    let from = Sole {
        stand: Stand {
            place,
            next: origin.begun,
            begun: origin.begun,
            opened: row_start(attempt, cells, place, origin.begun),
        },
        start: place,
        end: None,
    };
    let mut at = lengthen(attempt, cells, from, true);
    'places: loop {
        if is_idle(cells, at.stand.next) {
            cells.reached = at.stand.place;
            return Ok(span_from(at.start, at.end));
        }
        at = advance(attempt, cells, at, work)?;
    }
}
