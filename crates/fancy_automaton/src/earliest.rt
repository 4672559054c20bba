//! Whether there is a match: such a search ends where the first way ends with an outcome, and does not tell where that began.

ghost use Rattle.std.specs.Prelude.{◌≡◌, ◌+◌, ◌-◌, ◌*◌, ◌<◌, ◌≤◌, None, IfOk, IfSome};
ghost use Rattle.fancy_code.specs.CodeLength.{code_len};
ghost use Rattle.fancy_states.specs.Cells.{HoldsFor};
ghost use Rattle.fancy_states.specs.Counts.{AddsSteps};
ghost use Rattle.fancy_states.specs.Search.{IsFollowed};
ghost use Rattle.fancy_automaton.specs.Earliest.{FindsNone, FindsSome, HasMatch, IsWaiting};
ghost use Rattle.fancy_automaton.specs.Places.{IsNextPlace};
ghost use Rattle.fancy_automaton.specs.Sole.{IsAmid};

use crate::anchored::{is_idle, make_place};
use crate::follow::{came_to, may_start, next_start};
use crate::front::place_after;
use crate::hop::{Stand, idle_row, row_start};
use crate::sole::Sole;
use crate::told::{is_wide_at, quiet_step, told_at};
use fancy_code::attempt::Attempt;
use fancy_input::work::Work;
use fancy_states::cells::{Cells, origin, seen_at, step_at};
use fancy_states::rows::Target;
use fancy_states::transitions::Kind;
use std::alloc::AllocError;

/// Where ways wait, wherever they began, and nothing was found.
#[derive(Clone, Copy)]
pub struct Waiting {
    /// The place, a byte offset.
    pub place: usize,
    /// The row of the ways, and that row with one more.
    pub rows: Target,
}

/// Takes steps that the table tells, as long as nothing is found in them. It ends before one after which no way waits and it is left to a
/// scan to find the next place. Past ASCII, where a step costs more, that is so where no way may start after it either. Characters past
/// ASCII are read where `any` says so.
#[inline(always)]
fn glide(attempt: &Attempt, cells: &Cells, from: Stand, any: bool) -> Stand
    requires amid { IsAmid attempt.now cells.now from }
    ensures amid { IsAmid attempt.now cells.now result }
    ensures forth { from.place ≤ result.place }
{
    let idle = idle_row(cells);
    let table = cells.table.view();
    let mut place = from.place;
    let mut row = from.opened;
    let mut last = None;
    'places: while place < attempt.last {
        let Some(told) = told_at(attempt, table, row, place, any) else {
            break 'places;
        };
        let step = told.step;
        match step.kind {
            Kind::Quiet => {}
            Kind::Mixed if step.next as usize != idle => {}
            Kind::Mixed if any && may_start(attempt, told.past) => {}
            _ => break 'places,
        }
        row = step.opened;
        place = told.past;
        last = Some(step);
    }
    came_to(from, place, last)
}

/// The same on ASCII characters alone.
#[inline(never)]
fn glide_ascii(attempt: &Attempt, cells: &Cells, from: Stand) -> Stand
    requires amid { IsAmid attempt.now cells.now from }
    ensures amid { IsAmid attempt.now cells.now result }
    ensures forth { from.place ≤ result.place }
{
    glide(attempt, cells, from, false)
}

/// The same on any characters.
#[inline(never)]
fn glide_any(attempt: &Attempt, cells: &Cells, from: Stand) -> Stand
    requires amid { IsAmid attempt.now cells.now from }
    ensures amid { IsAmid attempt.now cells.now result }
    ensures forth { from.place ≤ result.place }
{
    glide(attempt, cells, from, true)
}

/// Takes the step at a place, which is computed where it is not remembered. `None` where a match is found in it.
fn step(
    attempt: &Attempt,
    cells: &mut Cells,
    at: Stand,
    work: &mut Work,
) -> Result<Option<Waiting>, AllocError>
    requires amid { IsAmid attempt.now cells.old at }
    ensures waits { IfOk result (λ w. IfSome w (IsWaiting attempt.now cells.new)) }
    ensures found { IfOk result (λ w. w ≡ None → FindsSome attempt.now) }
    ensures forth { IfOk result (λ w. IfSome w (λ to. at.place < to.place)) }
    ensures kept { HoldsFor cells.new attempt.now.code.now }
    ensures counts { AddsSteps (code_len attempt.now.code.now) work.old work.new }
{
    let rows = make_place(attempt, cells, at.rows())?;
    let sight = seen_at(attempt, cells, at.place);
    let k = step_at(attempt.code, cells, rows.begun, sight, work)?;
    let cell = &cells.cells[k];
    if cell.matched.is_some() {
        return Ok(None);
    }
    Ok(Some(Waiting {
        place: place_after(at.place, sight.reading, attempt.last),
        rows: Target {
            next: cell.next,
            begun: cell.begun,
        },
    }))
}

/// The same, by the table where that tells it.
#[inline(always)]
fn pass(
    attempt: &Attempt,
    cells: &mut Cells,
    at: Stand,
    work: &mut Work,
) -> Result<Option<Waiting>, AllocError>
    requires amid { IsAmid attempt.now cells.old at }
    ensures waits { IfOk result (λ w. IfSome w (IsWaiting attempt.now cells.new)) }
    ensures found { IfOk result (λ w. w ≡ None → FindsSome attempt.now) }
    ensures forth { IfOk result (λ w. IfSome w (λ to. at.place < to.place)) }
    ensures kept { HoldsFor cells.new attempt.now.code.now }
    ensures counts { AddsSteps (code_len attempt.now.code.now) work.old work.new }
{
    if at.place < attempt.last
        && let Some(told) = told_at(attempt, cells.table.view(), at.opened, at.place, true)
    {
        if let Kind::Matching = told.step.kind {
            return Ok(None);
        }
        if let Some(step) = quiet_step(*told.step) {
            return Ok(Some(Waiting {
                place: told.past,
                rows: Target {
                    next: step.next as usize,
                    begun: step.begun as usize,
                },
            }));
        }
    }
    step(attempt, cells, at, work)
}

/// Where a search stands: where no way waits, at the next place at which a match may begin. `None` where there is none.
#[inline(always)]
fn standing(
    attempt: &Attempt,
    cells: &Cells,
    at: Waiting,
    region: &mut Option<usize>,
) -> Option<Stand>
    requires waits { IsWaiting attempt.now cells.now at }
    ensures amid { IfSome result (IsAmid attempt.now cells.now) }
    ensures forth { IfSome result (λ to. at.place ≤ to.place) }
    ensures none { result ≡ None → FindsNone attempt.now }
{
    let Target { next, begun } = at.rows;
    let mut place = at.place;
    if is_idle(cells, next) {
        place = next_start(attempt, place, region);
        if place > attempt.last {
            return None;
        }
    }
    Some(Stand {
        place,
        next,
        begun,
        opened: row_start(attempt, cells, place, begun),
    })
}

/// Whether there is a match within the bounds, from the first place on at which one may begin.
#[inline(always)]
pub(crate) fn has_match(
    attempt: &Attempt,
    place: usize,
    region: &mut Option<usize>,
    cells: &mut Cells,
    work: &mut Work,
) -> Result<bool, AllocError>
    requires followed { IsFollowed attempt.now }
    requires next { IsNextPlace attempt.now attempt.now.base place }
    requires within { place ≤ attempt.now.last }
    requires kept { HoldsFor cells.old attempt.now.code.now }
    ensures answer { IfOk result (HasMatch attempt.now) }
    ensures kept { HoldsFor cells.new attempt.now.code.now }
    ensures counts { AddsSteps
        (code_len attempt.now.code.now * (attempt.now.last + 1 - attempt.now.base))
        work.old work.new }
{
    let rows = origin(attempt.code, cells)?;
    let mut at = Sole::new(attempt, cells, rows, place).stand;
    'places: loop {
        let to = if is_wide_at(attempt, at.place) {
            glide_any(attempt, cells, at)
        } else {
            glide_ascii(attempt, cells, at)
        };
        let Some(waiting) = pass(attempt, cells, to, work)? else {
            cells.reached = to.place;
            return Ok(true);
        };
        let Some(next) = standing(attempt, cells, waiting, region) else {
            cells.reached = attempt.last;
            return Ok(false);
        };
        at = next;
    }
}
