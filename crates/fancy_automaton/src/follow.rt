//! The inner loops of a search, where it is known where all ways began that wait, since that is one place.

ghost use Rattle.std.specs.Prelude.{◌≡◌, ◌+◌, ◌<◌, ◌≤◌, None, IfSome, is_some, length, option_map, true};
ghost use Rattle.fancy_states.specs.Cells.{HoldsFor, IsIdle};
ghost use Rattle.fancy_states.specs.Search.{IsFollowed};
ghost use Rattle.fancy_automaton.specs.Places.{IsNextPlace};
ghost use Rattle.fancy_automaton.specs.Sole.{IsLed, IsSole, Reaches, came_to};
ghost use Rattle.fancy_automaton.specs.Decided.{Goal, IsDecided, IsPlaced, Opens};

use crate::amid::{Amid, hunt};
use crate::hop::{Stand, ahead_of, idle_row, stand_after};
use crate::sole::Sole;
use crate::told::{is_wide_at, quiet_step, told_at};
use fancy_code::attempt::Attempt;
use fancy_meaning::options::is_match_boundary;
use fancy_prefilter::candidates::{next_candidate, next_opening};
use fancy_states::cells::Cells;
use fancy_states::origin::Origin;
use fancy_states::rows::Target;
use fancy_states::transitions::{Kind, Transition};

/// The first place, from one on, at which a match may begin by the byte there; past the last one where there is none.
#[inline(always)]
fn next_place(attempt: &Attempt, from: usize) -> usize
    requires ordered { from ≤ attempt.now.last + 1 }
    requires inside { attempt.now.last ≤ length attempt.now.haystack.now }
    ensures { IsNextPlace attempt.now from result }
{
    let last = attempt.last;
    let mut place = from;
    'places: while place <= last {
        place = next_candidate(&attempt.code.prefilter, attempt.haystack, last, place, last);
        if place > last || is_match_boundary(attempt.on_boundaries, attempt.haystack, place) {
            return place;
        }
        place += 1;
    }
    place
}

/// The same by all that tells where matches may begin. `region` is kept from call to call, as `next_opening` keeps it.
#[inline(never)]
pub(crate) fn next_opened(attempt: &Attempt, from: usize, region: &mut Option<usize>) -> usize
    requires ordered { from ≤ attempt.now.last + 1 }
    requires inside { attempt.now.last ≤ length attempt.now.haystack.now }
    ensures { IsNextPlace attempt.now from result }
{
    let last = attempt.last;
    let mut place = from;
    'places: while place <= last {
        let (prefilter, haystack) = (&attempt.code.prefilter, attempt.haystack);
        place = next_opening(prefilter, haystack, last, place, last, region);
        if place > last || is_match_boundary(attempt.on_boundaries, haystack, place) {
            return place;
        }
        place += 1;
    }
    place
}

/// The first place, from one on, at which a match may begin, by all that tells it where that is more than first bytes, and else by the
/// byte there; past the last one where there is none.
#[inline(always)]
pub(crate) fn next_start(attempt: &Attempt, from: usize, region: &mut Option<usize>) -> usize
    requires ordered { from ≤ attempt.now.last + 1 }
    requires inside { attempt.now.last ≤ length attempt.now.haystack.now }
    ensures { IsNextPlace attempt.now from result }
{
    if attempt.code.prefilter.passes_far() {
        next_opened(attempt, from, region)
    } else {
        next_place(attempt, from)
    }
}

/// Where a search stands at a place, a byte offset, after the last step that it took, if it took one.
#[inline(always)]
pub(crate) fn came_to(from: Stand, place: usize, last: Option<&Transition>) -> Stand
    ensures { result ≡ came_to from place (option_map (λ t. t.now) last.entry) }
{
    match last {
        None => Stand {
            place,
            next: from.next,
            begun: from.begun,
            opened: from.opened,
        },
        Some(step) => Stand {
            place,
            next: step.next as usize,
            begun: step.begun as usize,
            opened: step.opened,
        },
    }
}

/// Whether a match may start at a place, by its byte.
#[inline(always)]
pub(crate) fn may_start(attempt: &Attempt, place: usize) -> bool
    requires { attempt.now.last ≤ length attempt.now.haystack.now }
{
    match &attempt.code.prefilter.starts {
        None => true,
        Some(starts) => place < attempt.last && starts.contains(attempt.haystack[place]),
    }
}

/// Where all ways began that go on after a step at a place: there, if they come from the last way of its row.
#[inline(always)]
fn start_after(origin: Origin, place: usize, start: usize) -> usize
    ensures last { origin ≡ Origin.Last → result ≡ place }
    ensures earlier { origin ≡ Origin.Earlier → result ≡ start }
{
    if matches!(origin, Origin::Last) {
        place
    } else {
        start
    }
}

/// Goes on until a match is found, or ways wait that began at several places. Where no way waits at two places in a row, it may be left to
/// a scan to find the next place. Past ASCII, where a step costs more, that is so where none waits and none may start. Where the ways
/// began is told without a branch, which would be foreseen too seldom.
#[inline(always)]
fn seek(attempt: &Attempt, cells: &Cells, from: Sole, idle: usize, any: bool) -> Sole
    requires idle { IsIdle cells.now.rows.lists.items idle }
    requires sole { IsSole attempt.now cells.now from }
    requires nothing { from.end ≡ None }
    ensures reaches { Reaches attempt.now cells.now from.stand.place result }
    ensures nothing { result.end ≡ None }
{
    let table = cells.table.view();
    let mut place = from.stand.place;
    let mut row = from.stand.opened;
    let mut start = from.start;
    let mut last = None;
    'places: while place < attempt.last {
        let Some(told) = told_at(attempt, table, row, place, any) else {
            break 'places;
        };
        let step = told.step;
        let mut ends = false;
        match step.kind {
            Kind::Quiet => {}
            Kind::Mixed if step.next as usize == idle => {
                ends = !any || !may_start(attempt, told.past);
            }
            _ => break 'places,
        }
        start = start_after(step.origin, place, start);
        row = step.opened;
        place = told.past;
        last = Some(step);
        if ends {
            break 'places;
        }
    }
    Sole {
        stand: came_to(from.stand, place, last),
        start,
        end: None,
    }
}

/// The next place at which a match may begin, if no way waits and nothing was found, and first bytes tell it. `scans` says that it is left to
/// a scan for more than these.
#[inline(always)]
fn skip(attempt: &Attempt, cells: &Cells, from: Sole, idle: usize, scans: bool) -> Option<Sole>
    requires idle { IsIdle cells.now.rows.lists.items idle }
    requires sole { IsSole attempt.now cells.now from }
    requires nothing { from.end ≡ None }
    ensures { IfSome result (Reaches attempt.now cells.now from.stand.place) }
{
    if from.stand.next != idle || scans {
        return Some(from);
    }
    let place = next_place(attempt, from.stand.place);
    if place > attempt.last {
        return None;
    }
    let rows = Target {
        next: from.stand.next,
        begun: from.stand.begun,
    };
    Some(Sole::new(attempt, cells, rows, place))
}

/// The next place at which all ways that wait began at one place again, or if none waits there, and nothing was found, the one after it at
/// which a match may begin.
#[inline(never)]
fn onward(attempt: &Attempt, cells: &Cells, from: Amid, idle: usize, scans: bool) -> Option<Sole>
    requires idle { IsIdle cells.now.rows.lists.items idle }
    requires led { IsLed attempt.now cells.now from }
    ensures { IfSome result (Reaches attempt.now cells.now (from.stand.place + 1)) }
{
    let sole = hunt(attempt, cells, from)?;
    if sole.end.is_some() {
        return Some(sole);
    }
    let next = skip(attempt, cells, sole, idle, scans)?;
    Some(next)
}

/// The step at a place where a match is found, or on past ways that began at several places, and places where none waits.
#[inline(always)]
fn past(
    attempt: &Attempt,
    cells: &Cells,
    at: Sole,
    idle: usize,
    any: bool,
    scans: bool,
) -> Option<Sole>
    requires idle { IsIdle cells.now.rows.lists.items idle }
    requires sole { IsSole attempt.now cells.now at }
    requires nothing { at.end ≡ None }
    ensures { IfSome result (Reaches attempt.now cells.now (at.stand.place + 1)) }
{
    if at.stand.place >= attempt.last {
        return None;
    }
    if any && at.stand.next == idle && !may_start(attempt, at.stand.place) {
        let next = skip(attempt, cells, at, idle, scans)?;
        if next.stand.place > at.stand.place {
            return Some(next);
        }
    }
    let table = cells.table.view();
    let told = told_at(attempt, table, at.stand.opened, at.stand.place, any)?;
    if let Some(step) = quiet_step(*told.step) {
        if step.next as usize != idle {
            return onward(attempt, cells, Amid::new(cells, at), idle, scans);
        }
        let sole = Sole {
            stand: stand_after(told.past, step),
            start: at.stand.place,
            end: None,
        };
        return skip(attempt, cells, sole, idle, scans);
    }
    let step = *told.step;
    let Kind::Matching = step.kind else {
        return None;
    };
    let start = match step.origin {
        Origin::Mixed => return None,
        Origin::Last => at.stand.place,
        Origin::Earlier => at.start,
    };
    Some(Sole {
        stand: stand_after(told.past, step),
        start,
        end: Some(at.stand.place),
    })
}

/// Goes on where no way begins any more: after a match was found, and where a search is anchored. Where no way waits the table tells
/// no step, since none is asked there. Characters past ASCII are read where `any` says so.
#[inline(always)]
pub(crate) fn lengthen(attempt: &Attempt, cells: &Cells, from: Sole, any: bool) -> Sole
    requires followed { IsFollowed attempt.now }
    requires kept { HoldsFor cells.now attempt.now.code.now }
    requires row { from.stand.next < length cells.now.rows.lists.items }
    requires placed { IsPlaced attempt.now cells.now from.stand }
    ensures row { result.stand.next < length cells.now.rows.lists.items }
    ensures placed { IsPlaced attempt.now cells.now result.stand }
    ensures forth { from.stand.place ≤ result.stand.place }
    ensures found { is_some from.end ≡ true → is_some result.end ≡ true }
    ensures decided { (goal : Goal) → IsDecided attempt.now cells.now goal from
        → IsDecided attempt.now cells.now goal result }
    ensures opens { Opens attempt.now cells.now from.stand
        → Opens attempt.now cells.now result.stand }
{
    let table = cells.table.view();
    let mut place = from.stand.place;
    let mut row = ahead_of(attempt, cells, from.stand);
    let mut end = from.end;
    let mut last = None;
    'places: while place < attempt.last {
        let Some(told) = told_at(attempt, table, row, place, any) else {
            break 'places;
        };
        let step = told.step;
        match step.kind {
            Kind::Unknown => break 'places,
            Kind::Quiet | Kind::Mixed => {}
            Kind::Matching => end = Some(place),
        }
        row = step.ahead;
        place = told.past;
        last = Some(step);
    }
    Sole {
        stand: came_to(from.stand, place, last),
        start: from.start,
        end,
    }
}

/// Takes steps that the table tells on ASCII characters, as long as all ways that wait began at one place. It ends where no way waits
/// and more than first bytes tells where matches may begin: a loop with such a scan in it takes longer. On all characters the loops need
/// more registers.
#[inline(never)]
pub(crate) fn follow(attempt: &Attempt, cells: &Cells, from: Sole) -> Sole
    requires sole { IsSole attempt.now cells.now from }
    ensures reaches { Reaches attempt.now cells.now from.stand.place result }
{
    let idle = idle_row(cells);
    let scans = !cells.walks && attempt.code.prefilter.passes_far();
    let mut at = from;
    'places: while at.end.is_none() {
        at = seek(attempt, cells, at, idle, false);
        if at.stand.next == idle && scans {
            return at;
        }
        match past(attempt, cells, at, idle, false, scans) {
            None => return at,
            Some(next) => at = next,
        }
        if at.stand.next == idle && scans {
            return at;
        }
    }
    if at.stand.next == idle {
        return at;
    }
    lengthen(attempt, cells, at, false)
}

/// The same on any characters. One function with a flag for both would be too large to be put in line, and ask it at each step.
#[inline(never)]
pub(crate) fn follow_any(attempt: &Attempt, cells: &Cells, from: Sole) -> Sole
    requires sole { IsSole attempt.now cells.now from }
    ensures reaches { Reaches attempt.now cells.now from.stand.place result }
{
    let idle = idle_row(cells);
    let scans = !cells.walks && attempt.code.prefilter.passes_far();
    let mut at = from;
    'places: while at.end.is_none() {
        at = seek(attempt, cells, at, idle, true);
        if at.stand.next == idle && scans {
            return at;
        }
        match past(attempt, cells, at, idle, true, scans) {
            None => return at,
            Some(next) => at = next,
        }
        if at.stand.next == idle && scans {
            return at;
        }
    }
    if at.stand.next == idle {
        return at;
    }
    lengthen(attempt, cells, at, true)
}

/// Takes steps that the table tells, from a place on at which a match may begin.
#[inline(always)]
pub(crate) fn walk(attempt: &Attempt, cells: &Cells, from: Sole) -> Sole
    requires sole { IsSole attempt.now cells.now from }
    ensures reaches { Reaches attempt.now cells.now from.stand.place result }
{
    let mut to = from;
    if !is_wide_at(attempt, to.stand.place) {
        to = follow(attempt, cells, to);
    }
    if is_wide_at(attempt, to.stand.place) && !to.is_over(cells) {
        to = follow_any(attempt, cells, to);
    }
    to
}
