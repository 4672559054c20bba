//! Steps of a search whose ways that wait may have begun at several places, up to where they began at one again.

ghost use Rattle.std.specs.Prelude.{◌≡◌, ◌+◌, ◌<◌, ◌≤◌, ℕ, None, Some, IfSome, length, nat_lt, slice_index, true};
ghost use Rattle.std.specs.List.{list_all};
ghost use Rattle.fancy_code.specs.declared.attempt.Attempt.{Attempt};
ghost use Rattle.fancy_automaton.specs.Sole.{ComeFromFirst, IsLed, IsLedOn, IsSole, Reaches, stood};

use crate::hop::{Stand, stand_after};
use crate::sole::Sole;
use crate::told::told_at;
use fancy_code::attempt::Attempt;
use fancy_states::cells::{Cell, Cells};
use fancy_states::origin::Origin;
use fancy_states::transitions::{Kind, Transition};

/// A search whose ways that wait may have begun at several places, where nothing was found.
#[derive(Clone, Copy)]
pub struct Amid {
    /// Where it stands.
    pub stand: Stand,
    /// Where the first of the ways began, a byte offset.
    pub start: usize,
    /// How many of the first ways are known to have begun there.
    pub led: usize,
}

impl Amid {
    /// A search whose ways that wait all began at one place.
    #[inline(always)]
    pub(crate) fn new(cells: &Cells, at: Sole) -> Amid
        requires { at.stand.next < length cells.now.rows.lists.items }
        ensures led { (a : Attempt) → IsSole a cells.now at → at.end ≡ None
            → IsLed a cells.now result }
        ensures stand { result.stand ≡ at.stand }
    {
        Amid {
            stand: at.stand,
            start: at.start,
            led: cells.rows.lists[at.stand.next].len(),
        }
    }
}

/// How many of the first numbers are below one.
#[inline(always)]
fn first_below(numbers: &[usize], bound: usize) -> usize
    ensures within { result ≤ length numbers.now }
    ensures below { (i : ℕ) → i < result → slice_index numbers.now i < bound }
    ensures ends { result < length numbers.now → bound ≤ slice_index numbers.now result }
    ensures all { result ≡ length numbers.now
        → list_all (λ f. nat_lt f bound) numbers.now ≡ true }
{
    'numbers: for i in 0..numbers.len() {
        if numbers[i] >= bound {
            return i;
        }
    }
    numbers.len()
}

/// Whether all ways that a step leads to come from the first ways of its row, of which there are so many, and so does the match that it
/// finds, if it finds one.
fn come_from_first(cell: &Cell, led: usize) -> bool
    ensures { result ≡ true → ComeFromFirst led cell.now.came.items cell.now.matched }
{
    first_below(&cell.came, led) == cell.came.len() && cell.matched.unwrap_or(0) < led
}

/// Where a search stands after a step in which a match is found, up to a place, if all ways come from the first ones, and so does the match.
fn found_after(cells: &Cells, at: Amid, past: usize, step: Transition) -> Option<Sole>
    ensures { IfSome result (λ s. IsLedOn cells.now at step
        × (s ≡ record { stand = stood past step; start = at.start; end = Some at.stand.place })) }
{
    let cell = cells.cells.get(step.cell as usize)?;
    if !come_from_first(cell, at.led) {
        return None;
    }
    Some(Sole {
        stand: stand_after(past, step),
        start: at.start,
        end: Some(at.stand.place),
    })
}

/// The next place at which all ways that wait began at one place again, if the table leads there. Where it does not, as where a match is
/// found of a way that is not known to have begun there, the steps up to there are taken once more with the starts of all ways (`run`). So no
/// place is passed many times.
#[inline(always)]
pub(crate) fn hunt(attempt: &Attempt, cells: &Cells, from: Amid) -> Option<Sole>
    requires led { IsLed attempt.now cells.now from }
    ensures { IfSome result (Reaches attempt.now cells.now (from.stand.place + 1)) }
{
    let table = cells.table.view();
    let mut at = from;
    'places: while at.stand.place < attempt.last {
        let told = told_at(attempt, table, at.stand.opened, at.stand.place, false)?;
        let step = told.step;
        match step.kind {
            Kind::Unknown => return None,
            Kind::Matching => return found_after(cells, at, told.past, *step),
            Kind::Quiet | Kind::Mixed => {}
        }
        let stand = stand_after(told.past, *step);
        if matches!(step.origin, Origin::Last) {
            return Some(Sole {
                stand,
                start: at.stand.place,
                end: None,
            });
        }
        let cell = cells.cells.get(step.cell as usize)?;
        let led = first_below(&cell.came, at.led);
        let start = at.start;
        if led == cell.came.len() {
            return Some(Sole {
                stand,
                start,
                end: None,
            });
        }
        at = Amid { stand, start, led };
    }
    None
}
