//! How far a search has come, and the step to the next place.

ghost use Rattle.std.specs.Prelude.{◌≡◌, ◌+◌, ◌<◌, ◌≤◌, ℕ, true, [], OnOk, IfOk, IfSome, is_some, length, option_map};
ghost use Rattle.fancy_code.specs.Attempt.{context_in, may_end_in};
ghost use Rattle.fancy_alphabet.specs.Classes.{IsStart};
ghost use Rattle.fancy_code.specs.CodeLength.{code_len};
ghost use Rattle.fancy_meaning.specs.Reading.{unit_read};
ghost use Rattle.fancy_code.specs.declared.attempt.Attempt.{Attempt};
ghost use Rattle.fancy_states.specs.Cells.{HasPlace, KeepsHolding, HoldsFor, row_if};
ghost use Rattle.fancy_automaton.specs.Front.{IsFront, ways_of, Stands, GoesOn, TakesStep};
ghost use Rattle.fancy_automaton.specs.Sole.{IsSole};
ghost use Rattle.fancy_alphabet.specs.Units.{place_after};
ghost use Rattle.fancy_states.specs.Counts.{AddsSteps};

use crate::follow::{next_start, walk};
use crate::hop::{Stand, row_start, run};
use crate::sole::{Sole, span_from};
use crate::told::told_at;
use fancy_alphabet::sight::ascii_at;
use fancy_code::attempt::Attempt;
use fancy_code::code::Code;
use fancy_input::span::Span;
use fancy_input::work::Work;
use fancy_meaning::options::is_match_boundary;
use fancy_meaning::reading::Reading;
use fancy_states::cells::{Cells, is_told, restart, seen_at, step_at};
use fancy_states::starts::Starts;
use fancy_states::transitions::Kind;
use std::alloc::AllocError;
use std::mem;

/// How far a search has come: the ways that wait at the next place, and what was found so far.
#[derive(Drop)]
pub struct Front {
    /// The row of the ways that wait.
    pub next: usize,
    /// That row with one more way, which begins there.
    pub begun: usize,
    /// Where the ways began that wait.
    pub starts: Starts,
    /// The match that was found, to which only the ways that wait are preferred.
    pub found: Option<Span>,
}

impl Front {
    ghost use Rattle.std.specs.Prelude.{None, false, ◌≢◌};

    /// Where a walk ended.
    pub fn new(cells: &mut Cells, from: Sole) -> Result<Front, AllocError>
        requires { from.stand.next < length cells.old.rows.lists.items }
        ensures kept { KeepsHolding cells.old cells.new }
        ensures front { IfOk result (λ f. (a : Attempt) → IsSole a cells.old from
            → IsFront a cells.new f from.stand.place from.stand.place) }
    {
        let starts = mem::replace(&mut cells.spare, Starts::new(cells.alloc));
        let mut front = Front {
            next: from.stand.next,
            begun: from.stand.begun,
            starts,
            found: None,
        };
        front.rest(cells, from)?;
        Ok(front)
    }

    /// Goes on from where a walk ended.
    fn rest(&mut self, cells: &Cells, from: Sole) -> Result<(), AllocError>
        requires { from.stand.next < length cells.now.rows.lists.items }
        ensures front { OnOk result ((a : Attempt) → IsSole a cells.now from
            → IsFront a cells.now self.new from.stand.place from.stand.place) }
    {
        let waiting = cells.rows.lists[from.stand.next].len();
        self.starts.fill(waiting, from.start)?;
        self.next = from.stand.next;
        self.begun = from.stand.begun;
        self.found = span_from(from.start, from.end);
        Ok(())
    }

    /// Whether some way waits.
    fn has_waiting(&self, cells: &Cells) -> bool
        requires { self.now.next < length cells.now.rows.lists.items }
        ensures none { result ≡ false → ways_of cells.now self.now ≡ [] }
        ensures some { result ≡ true → ways_of cells.now self.now ≢ [] }
    {
        cells.rows.lists[self.next].len() > 0
    }

    /// Whether the search is over before the last place: something was found, and no way waits.
    pub fn is_over(&self, cells: &Cells) -> bool
        requires row { self.now.next < length cells.now.rows.lists.items }
        ensures found { result ≡ true → is_some self.now.found ≡ true }
        ensures over { result ≡ true → ways_of cells.now self.now ≡ [] }
    {
        if self.found.is_none() {
            return false;
        }
        !self.has_waiting(cells)
    }

    /// Ends a search that stops reading at a place, a byte offset: what it found.
    pub fn end(self, cells: &mut Cells, place: usize) -> Option<Span>
        ensures found { result ≡ self.found }
        ensures kept { KeepsHolding cells.old cells.new }
    {
        cells.reached = place;
        cells.spare = self.starts;
        self.found
    }

    /// The row of a place: where nothing was found, one more way begins there.
    fn row(&self) -> usize
        ensures { result ≡ row_if self.now.found self.now.next self.now.begun }
    {
        match self.found {
            None => self.begun,
            Some(_) => self.next,
        }
    }

    /// Forgets all but the row of the ways that wait, where one more step may be one too many.
    fn make_place(&mut self, code: &Code, cells: &mut Cells) -> Result<(), AllocError>
        requires row { self.old.next < length cells.old.rows.lists.items }
        requires kept { HoldsFor cells.old code.now }
        ensures kept { HoldsFor cells.new code.now }
        ensures place { OnOk result (HasPlace cells.new) }
        ensures front { OnOk result ((a : Attempt) (place resume : ℕ) → a.code.now ≡ code.now
            → IsFront a cells.old self.old place resume
            → IsFront a cells.new self.new place resume) }
    {
        if !cells.is_full() {
            return Ok(());
        }
        let target = restart(cells, code.start, self.next)?;
        self.next = target.next;
        self.begun = target.begun;
        Ok(())
    }

    /// Takes the step at a place, where a way begins unless something was found. The answer is the place where the ways wait
    /// then, a byte offset.
    fn step(
        &mut self,
        attempt: &Attempt,
        cells: &mut Cells,
        place: usize,
        work: &mut Work,
    ) -> Result<usize, AllocError>
        requires stands { Stands attempt.now cells.old self.old place }
        requires place { HasPlace cells.old }
        ensures step { TakesStep attempt.now cells.new place result self.new }
        ensures kept { HoldsFor cells.new attempt.now.code.now }
        ensures counts { AddsSteps (code_len attempt.now.code.now) work.old work.new }
    {
        let row = self.row();
        let sight = seen_at(attempt, cells, place);
        let k = step_at(attempt.code, cells, row, sight, work)?;
        let cell = &cells.cells[k];
        self.starts.step(cell, place, &mut self.found)?;
        self.next = cell.next;
        self.begun = cell.begun;
        Ok(place_after(place, sight.reading, attempt.last))
    }

    /// Takes the step at a place, with room for it made before. The answer is the place where the ways wait then, a byte offset.
    fn advance(
        &mut self,
        attempt: &Attempt,
        cells: &mut Cells,
        place: usize,
        work: &mut Work,
    ) -> Result<usize, AllocError>
        requires stands { Stands attempt.now cells.old self.old place }
        ensures step { TakesStep attempt.now cells.new place result self.new }
        ensures kept { HoldsFor cells.new attempt.now.code.now }
        ensures counts { AddsSteps (code_len attempt.now.code.now) work.old work.new }
    {
        self.make_place(attempt.code, cells)?;
        let resume = self.step(attempt, cells, place, work)?;
        Ok(resume)
    }

    /// Where the search stands at a place.
    fn stand(&self, attempt: &Attempt, cells: &Cells, place: usize) -> Stand
        requires place { place ≤ length attempt.now.haystack.now }
        requires row { self.now.begun < 65_536 }
        ensures place { result.place ≡ place }
        ensures opened { IsStart (context_in attempt.now) place cells.now.table.classes
            result.begun result.opened }
        ensures next { result.next ≡ self.now.next }
        ensures begun { result.begun ≡ self.now.begun }
    {
        Stand {
            place,
            next: self.next,
            begun: self.begun,
            opened: row_start(attempt, cells, place, self.begun),
        }
    }

    /// Where the search stands at a place, if all ways that wait began at one place, and so did the match that was found.
    fn sole(&self, attempt: &Attempt, cells: &Cells, place: usize) -> Option<Sole>
        requires stands { Stands attempt.now cells.now self.now place }
        ensures sole { IfSome result (λ s. IsSole attempt.now cells.now s) }
        ensures stand { IfSome result (λ s. s.stand.place ≡ place) }
    {
        let start = self.starts.shared(place)?;
        let end = match self.found {
            None => None,
            Some(found) => {
                if found.start != start {
                    return None;
                }
                Some(found.end)
            }
        };
        Some(Sole {
            stand: self.stand(attempt, cells, place),
            start,
            end,
        })
    }

    /// Takes steps that the table tells, as long as all ways that wait began at one place. The answer is the place where the ways wait
    /// then, a byte offset.
    fn follow(
        &mut self,
        attempt: &Attempt,
        cells: &Cells,
        place: usize,
    ) -> Result<usize, AllocError>
        requires stands { Stands attempt.now cells.now self.old place }
        ensures { GoesOn attempt.now cells.now place result self.new }
    {
        let Some(sole) = self.sole(attempt, cells, place) else {
            return Ok(place);
        };
        let to = walk(attempt, cells, sole);
        self.rest(cells, to)?;
        Ok(to.stand.place)
    }

    /// Whether the table tells the step at a place.
    fn is_told(&self, attempt: &Attempt, cells: &Cells, place: usize) -> bool
        requires { Stands attempt.now cells.now self.now place }
    {
        if place >= attempt.last {
            return false;
        }
        let start = row_start(attempt, cells, place, self.row());
        match told_at(attempt, cells.table.view(), start, place, true) {
            None => false,
            Some(told) => !matches!(told.step.kind, Kind::Unknown),
        }
    }

    /// Takes steps that the table tells where some way waits, wherever the ways began. The answer is the place where the ways wait then, a
    /// byte offset.
    pub fn run(
        &mut self,
        attempt: &Attempt,
        cells: &Cells,
        place: usize,
    ) -> Result<usize, AllocError>
        requires front { IsFront attempt.now cells.now self.old place place }
        requires within { place ≤ attempt.now.last }
        ensures { GoesOn attempt.now cells.now place result self.new }
    {
        if !self.has_waiting(cells) {
            return Ok(place);
        }
        if !self.is_told(attempt, cells, place) {
            return Ok(place);
        }
        let from = self.stand(attempt, cells, place);
        let to = run(attempt, cells, from, &mut self.starts, &mut self.found)?;
        self.next = to.next;
        self.begun = to.begun;
        Ok(to.place)
    }

    /// Takes steps that the table tells. The answer is the place where the ways wait then, a byte offset.
    fn hop(&mut self, attempt: &Attempt, cells: &Cells, place: usize) -> Result<usize, AllocError>
        requires stands { Stands attempt.now cells.now self.old place }
        ensures { GoesOn attempt.now cells.now place result self.new }
    {
        if !self.is_told(attempt, cells, place) {
            return Ok(place);
        }
        let followed = self.follow(attempt, cells, place)?;
        let reached = self.run(attempt, cells, followed)?;
        Ok(reached)
    }

    /// Goes past a place. The answer is the next place that is to be passed, a byte offset.
    pub fn pass(
        &mut self,
        attempt: &Attempt,
        cells: &mut Cells,
        place: usize,
        work: &mut Work,
    ) -> Result<usize, AllocError>
        requires stands { Stands attempt.now cells.old self.old place }
        ensures front { IfOk result (λ next. IsFront attempt.now cells.new self.new next next) }
        ensures forth { IfOk result (λ next. place < next) }
        ensures ends { IfOk result (λ next. next ≤ attempt.now.last + 1) }
        ensures kept { HoldsFor cells.new attempt.now.code.now }
        ensures counts { AddsSteps (code_len attempt.now.code.now) work.old work.new }
    {
        let hopped = self.hop(attempt, cells, place)?;
        if hopped > place {
            return Ok(hopped);
        }
        let resume = self.advance(attempt, cells, place, work)?;
        Ok(resume)
    }

    /// Whether an ASCII character is read at a place, and the step of the way that begins there by itself is not remembered. Where
    /// it is remembered on all that is read between matches, other rows need not follow that way again.
    fn learns(&self, attempt: &Attempt, cells: &Cells, place: usize) -> bool
        requires { IsFront attempt.now cells.now self.now place place }
        ensures good { result ≡ true → may_end_in attempt.now place ≡ true }
        ensures within { result ≡ true → place ≤ attempt.now.last }
    {
        let Some(byte) = ascii_at(attempt, place) else {
            return false;
        };
        if !is_match_boundary(attempt.on_boundaries, attempt.haystack, place) {
            return false;
        }
        let before = cells.table.classes.tests.before(attempt, place);
        !is_told(cells, self.begun, before, byte)
    }

    /// The next place that is to be passed, from one on: where no way waits, one where a match may start, or past the last place where
    /// none may. One is passed too at which the step of the way that begins is not remembered. `region` is kept from call to call, as
    /// `next_opening` keeps it.
    pub fn seek(
        &self,
        attempt: &Attempt,
        cells: &Cells,
        place: usize,
        region: &mut Option<usize>,
    ) -> usize
        requires within { place ≤ attempt.now.last + 1 }
        requires front { IsFront attempt.now cells.now self.now place place }
        ensures front { IsFront attempt.now cells.now self.now result result }
        ensures good { result ≤ attempt.now.last → may_end_in attempt.now result ≡ true }
        ensures forth { place ≤ result }
        ensures ends { result ≤ attempt.now.last + 1 }
    {
        if self.has_waiting(cells) {
            return place;
        }
        if self.learns(attempt, cells, place) {
            return place;
        }
        next_start(attempt, place, region)
    }
}

/// The place after what is read; where nothing is, the next byte offset.
#[inline(always)]
pub(crate) fn place_after(place: usize, reading: Option<Reading>, limit: usize) -> usize
    requires more { place < usize.MAX }
    requires fits { IfSome reading (λ r. place + r.width ≤ limit) }
    requires within { place ≤ limit }
    ensures after { result ≡ place_after place (option_map unit_read reading) }
    ensures ends { result ≤ limit + 1 }
{
    match reading {
        None => place + 1,
        Some(reading) => place + reading.width,
    }
}
