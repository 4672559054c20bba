//! The inner loop of a search: steps by the table.

ghost use Rattle.std.specs.Prelude.{◌≡◌, ◌<◌, ◌≤◌, IfOk, length};
ghost use Rattle.fancy_code.specs.Attempt.{context_in};
ghost use Rattle.fancy_states.specs.Cells.{IsBounded, IsIdle, row_if};
ghost use Rattle.fancy_automaton.specs.Sole.{Waits, stood};
ghost use Rattle.fancy_alphabet.specs.Classes.{IsStart};

use crate::told::{known_step, told_at};
use fancy_code::attempt::Attempt;
use fancy_input::span::Span;
use fancy_states::cells::Cells;
use fancy_states::rows::Target;
use fancy_states::starts::Starts;
use fancy_states::transitions::Transition;
use std::alloc::AllocError;

/// Where a search stands.
#[derive(Clone, Copy)]
pub struct Stand {
    /// The place, a byte offset.
    pub place: usize,
    /// The row of the ways that wait there.
    pub next: usize,
    /// That row with one more way, which begins there.
    pub begun: usize,
    /// Where the columns of that row begin for what stands before the place.
    pub opened: u32,
}

impl Stand {
    /// The two rows.
    #[inline(always)]
    pub(crate) fn rows(self) -> Target
        ensures { result ≡ record { next = self.next; begun = self.begun } }
    {
        Target {
            next: self.next,
            begun: self.begun,
        }
    }
}

/// Where the columns of a row begin for what stands before a place, a byte offset.
#[inline(always)]
pub(crate) fn row_start(attempt: &Attempt, cells: &Cells, place: usize, row: usize) -> u32
    requires place { place ≤ length attempt.now.haystack.now }
    requires row { row < 65_536 }
    ensures { IsStart (context_in attempt.now) place cells.now.table.classes row result }
{
    let classes = &cells.table.classes;
    classes.start(row, classes.tests.before(attempt, place))
}

/// Where the columns of the row of the ways that wait begin for what stands before the place.
#[inline(always)]
pub(crate) fn ahead_of(attempt: &Attempt, cells: &Cells, at: Stand) -> u32
    requires row { at.next < 65_536 }
    requires start { IsStart (context_in attempt.now) at.place cells.now.table.classes at.begun
        at.opened }
    ensures { IsStart (context_in attempt.now) at.place cells.now.table.classes at.next result }
{
    let width = cells.table.classes.width;
    let begun = at.begun * width;
    let next = at.next * width;
    (next + (at.opened as usize - begun)) as u32
}

/// A row without an instruction; where none is known, a number that no row has.
pub(crate) fn idle_row(cells: &Cells) -> usize
    requires { IsBounded cells.now }
    ensures { IsIdle cells.now.rows.lists.items result }
{
    match cells.rows.lists.get(cells.rows.nothing) {
        None => usize::MAX,
        Some(ways) => {
            if ways.len() > 0 {
                usize::MAX
            } else {
                cells.rows.nothing
            }
        }
    }
}

/// Where a step of the table leads, up to a place.
#[inline(always)]
pub(crate) fn stand_after(place: usize, step: Transition) -> Stand
    ensures { result ≡ stood place step }
{
    Stand {
        place,
        next: step.next as usize,
        begun: step.begun as usize,
        opened: step.opened,
    }
}

/// Where the columns begin of the row of a place: where nothing was found, one more way begins there.
#[inline(always)]
fn start_of_row(found: Option<Span>, ahead: u32, opened: u32) -> u32
    ensures { result ≡ row_if found ahead opened }
{
    match found {
        None => opened,
        Some(_) => ahead,
    }
}

/// Whether the loop is left: no way waits, or the first match was found.
#[inline(always)]
fn leaves(at: Stand, idle: usize, found: Option<Span>, searches: bool) -> bool {
    at.next == idle || found.is_none() != searches
}

/// Takes steps that the table tells, wherever the ways began that wait: until none waits, or the first match is found. Each place that it
/// comes to is one where a match may begin and end.
#[inline(never)]
pub(crate) fn run(
    attempt: &Attempt,
    cells: &Cells,
    from: Stand,
    starts: &mut Starts,
    found: &mut Option<Span>,
) -> Result<Stand, AllocError>
    requires waits { Waits attempt.now cells.now from starts.old.waiting.items found.old }
    ensures waits { IfOk result (λ to.
        Waits attempt.now cells.now to starts.new.waiting.items found.new) }
    ensures forth { IfOk result (λ to. from.place ≤ to.place) }
{
    let idle = idle_row(cells);
    let table = cells.table.view();
    let searches = found.is_none();
    let mut at = from;
    let mut row = start_of_row(*found, ahead_of(attempt, cells, at), at.opened);
    let mut ends = false;
    'places: while at.place < attempt.last && !ends {
        let Some(told) = told_at(attempt, table, row, at.place, true) else {
            return Ok(at);
        };
        let Some(step) = known_step(*told.step) else {
            return Ok(at);
        };
        let Some(cell) = cells.cells.get(step.cell as usize) else {
            return Ok(at);
        };
        starts.step(cell, at.place, found)?;
        row = start_of_row(*found, step.ahead, step.opened);
        at = stand_after(told.past, step);
        ends = leaves(at, idle, *found, searches);
    }
    Ok(at)
}
