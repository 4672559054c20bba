//! The way that the machine follows, with the branches that it saved and the regions that are open.

ghost use Rattle.std.specs.Prelude.{◌≡◌, ◌^◌, ◌≢◌, ◌+◌, ◌-◌, ◌<◌, ◌≤◌, ◌↔◌, List, [], ◌∷◌, Err, Some, map, length, replicate, IsTrue, OnOk, IfSome, slice_index, true, is_some};
ghost use Rattle.fancy_meaning.specs.Context.{group_span};
ghost use Rattle.fancy_code.specs.Thread.{empty_slot, slot_span};
ghost use Rattle.fancy_input.specs.Work.{returns_of};
ghost use Rattle.fancy_trail.specs.Log.{cell_slot, writes_allowed};
ghost use Rattle.fancy_trail.specs.Frames.{Frame, Region, saved};
ghost use Rattle.fancy_trail.specs.Layers.{spot_of, outcome_of, frame_by, saves};
ghost use Rattle.fancy_trail.specs.Ways.{at_instr, at_place, written, opened_at, closed_at, kept_at, within_at, past_items, saved_ways, saved_run, EndsInRun, SavedOn, IsBare, IsEndedByAny, HasInnermost, TookBranch};
ghost use Rattle.fancy_trail.specs.Left.{Stops};
ghost use Rattle.fancy_trail.specs.Moves.{GoesOn, GoesOnIfOk, LaysFrames, SavesBranches};

use crate::layer::{
    Kind, Layer, cut, earlier, is_ended, is_ended_by_any, is_saved, put_layer, put_two, region_by,
    take_last,
};
use crate::log::{Cell, Write, begin_cells, cell_at, forget_levels, put_write, thin, undo};
use fancy_code::slot::Slot;
use fancy_code::step::Next;
use fancy_input::refusal::SearchRefusal;
use fancy_input::span::Span;
use fancy_input::work::Work;
use std::alloc::{AllocError, Global};
use std::marker::Model;
use std::mem::swap;

/// Branches that one instruction saved, at consecutive places and otherwise the same.
#[derive(Clone, Copy)]
pub struct SavedRun {
    /// The number of the instruction that saved them. No answer rests on it.
    pub by: usize,
    /// Where each goes on.
    pub at: usize,
    /// Where the first of them stands, a byte offset, and where the last. The last one is taken first.
    pub first: usize,
    pub last: usize,
}

/// The way that is followed, the saved branches and the open regions. Each is seen with the slots that there were
/// when it was made; what is kept is one list of cells and a log of writes.
#[derive(Drop)]
pub struct Trail {
    at: usize,
    limit: usize,
    place: usize,
    kept: usize,
    cells: Vec<Cell>,
    layers: Vec<Layer>,
    branches: usize,
    /// How many layers stand up to the innermost region, 0 where none is open.
    region: usize,
    log: Vec<Write>,
    /// Whether a group was written since the cells were begun.
    written: bool,
    most: usize,
}

impl Model for Trail {
    ghost use Rattle.std.specs.Prelude.{◌≡◌, ◌≤◌, false, length, map};
    ghost use Rattle.fancy_trail.specs.Frames.{Held};
    ghost use Rattle.fancy_trail.specs.Layers.{spot_of, frames_of, branches_in, Rises, KnowRegions, IsLog};
    ghost use Rattle.fancy_trail.specs.Log.{cell_slot, IsUnwritten};

    ghost Value = { Held };

    ghost view = { λ t. record {
      now = spot_of t.at t.limit t.place t.kept (map cell_slot t.cells.items);
      frames = frames_of t.log.items (map cell_slot t.cells.items) t.layers.items;
      most = t.most;
    } };

    ghost invariant = { λ t. (t.branches ≡ branches_in t.layers.items)
        × (t.branches ≤ t.most)
        × Rises 0 t.layers.items (length t.log.items)
        × KnowRegions 0 0 t.layers.items t.region
        × IsLog t.layers.items t.log.items t.cells.items
        × (t.written ≡ false → IsUnwritten t.log.items t.cells.items) };
}

impl Trail {
    /// No way and no branch.
    pub fn new(alloc: Global) -> Trail
        ensures captures { result.now.state.captures ≡ [] }
        ensures frames { result.frames ≡ [] }
        ensures most { result.most ≡ 0 }
    {
        Trail {
            at: 0,
            limit: 0,
            place: 0,
            kept: 0,
            cells: Vec::new(alloc),
            layers: Vec::new(alloc),
            branches: 0,
            region: 0,
            log: Vec::new(alloc),
            written: false,
            most: 0,
        }
    }

    /// Begins anew with so many slots, none written, and lets at most so many branches be saved. The memory that it
    /// has is kept, and so are slots that nothing was written to, where there are as many.
    pub fn begin(
        &mut self,
        at: usize,
        place: usize,
        limit: usize,
        count: usize,
        most: usize,
    ) -> Result<(), AllocError>
        ensures begun { OnOk result (self.new.now
            ≡ spot_of at limit place place (replicate count empty_slot)) }
        ensures frames { self.new.frames ≡ [] }
        ensures most { self.new.most ≡ most }
    {
        self.layers.clear();
        self.branches = 0;
        self.region = 0;
        self.log.clear();
        self.at = at;
        self.limit = limit;
        self.place = place;
        self.kept = place;
        self.most = most;
        if !self.written && self.cells.len() == count {
            return Ok(());
        }
        self.written = false;
        begin_cells(&mut self.cells, count)?;
        Ok(())
    }

    /// The next instruction.
    pub fn at(&self) -> usize
        ensures { result ≡ self.now.now.at }
    {
        self.at
    }

    /// Consumed text ends here at the latest, a byte offset.
    pub fn limit(&self) -> usize
        ensures { result ≡ self.now.now.limit }
    {
        self.limit
    }

    /// The place, a byte offset.
    pub fn place(&self) -> usize
        ensures { result ≡ self.now.now.state.place }
    {
        self.place
    }

    /// Where the match starts, a byte offset.
    pub fn kept(&self) -> usize
        ensures { result ≡ self.now.now.state.kept }
    {
        self.kept
    }

    /// What is known of each group.
    pub fn cells(&self) -> &[Cell]
        ensures { map slot_span (map cell_slot result.now) ≡ self.now.now.state.captures }
    {
        &self.cells
    }

    /// How many writes to groups are kept, to go back to what stood there before.
    pub fn writes(&self) -> usize
        ensures few { result
            ≤ writes_allowed (saved self.now.frames) (length self.now.now.state.captures) }
        ensures bounded { result
            ≤ writes_allowed self.now.most (length self.now.now.state.captures) }
    {
        self.log.len()
    }

    /// Stands where a way stood that had these cells, and gives up its own for them. No branch is saved any more.
    pub fn stand(&mut self, place: usize, kept: usize, cells: &mut Vec<Cell>)
        ensures stands { Some self.new.now.state
            ≡ outcome_of true place kept (map cell_slot cells.old.items) }
        ensures most { self.new.most ≡ self.old.most }
    {
        self.layers.clear();
        self.branches = 0;
        self.region = 0;
        self.log.clear();
        self.place = place;
        self.kept = kept;
        self.written = true;
        swap(&mut self.cells, cells);
        forget_levels(&mut self.cells);
    }

    /// Whether a group has taken part.
    pub fn is_taken(&self, group: usize) -> bool
        ensures { result ≡ is_some (group_span self.now.now.state group) }
    {
        self.span(group).is_some()
    }

    /// Where the text of a group stands, if it has taken part.
    pub fn span(&self, group: usize) -> Option<Span>
        ensures { result ≡ group_span self.now.now.state group }
    {
        cell_at(&self.cells, group).slot.span
    }

    /// Where a group began last, a byte offset.
    fn from(&self, group: usize) -> usize
        ensures { result ≡ slice_index self.now.now.starts group }
    {
        cell_at(&self.cells, group).slot.from
    }

    /// Goes on at another instruction.
    pub fn go(&mut self, next: usize)
        ensures { GoesOn (at_instr next self.old.now) self.old self.new }
    {
        self.at = next;
    }

    /// Goes on at another instruction and place.
    pub fn go_to(&mut self, next: usize, place: usize)
        ensures { GoesOn (at_place next place self.old.now) self.old self.new }
    {
        self.at = next;
        self.place = place;
    }

    /// Goes on at another instruction, where consumed text ends by another limit.
    pub fn go_within(&mut self, next: usize, limit: usize)
        ensures { GoesOn (within_at next limit self.old.now) self.old self.new }
    {
        self.at = next;
        self.limit = limit;
    }

    /// The match starts at the place.
    pub fn keep(&mut self, next: usize)
        ensures { GoesOn (kept_at next self.old.now) self.old self.new }
    {
        self.at = next;
        self.kept = self.place;
    }

    /// One more layer, which is no saved branch.
    #[inline]
    pub fn enter(&mut self, kind: Kind, at: usize) -> Result<(), AllocError>
        requires { saves kind ≡ 0 }
        ensures { LaysFrames result (frame_by kind (at_instr at self.old.now) ∷ self.old.frames)
            self.old self.new }
    {
        let layer = Layer {
            kind,
            by: self.at,
            at,
            from: self.place,
            place: self.place,
            kept: self.kept,
            limit: self.limit,
            log: self.log.len(),
            region: self.region,
        };
        put_layer(&mut self.layers, layer)?;
        self.region = region_by(layer, self.layers.len());
        Ok(())
    }

    /// One more layer, which is a saved branch.
    #[inline]
    pub fn save(&mut self, kind: Kind, at: usize) -> Result<(), SearchRefusal>
        requires { saves kind ≡ 1 }
        ensures { SavesBranches result 1
            (frame_by kind (at_instr at self.old.now) ∷ self.old.frames) self.old self.new }
    {
        if self.branches >= self.most {
            return Err(SearchRefusal::Choices);
        }
        let layer = Layer {
            kind,
            by: self.at,
            at,
            from: self.place,
            place: self.place,
            kept: self.kept,
            limit: self.limit,
            log: self.log.len(),
            region: self.region,
        };
        put_layer(&mut self.layers, layer)?;
        self.branches += 1;
        self.region = region_by(layer, self.layers.len());
        Ok(())
    }

    /// Two more layers, each of them a saved branch: that at `inner` is taken first. Both are refused with `Choices` where the second
    /// may not be saved.
    #[inline(always)]
    pub fn save_two(&mut self, outer: usize, inner: usize) -> Result<(), SearchRefusal>
        ensures { SavesBranches result 2
            (saved_ways (outer ∷ inner ∷ []) self.old.now self.old.frames) self.old self.new }
    {
        if !self.has_room_for(2) {
            return Err(SearchRefusal::Choices);
        }
        let lower = Layer {
            kind: Kind::Branch,
            by: self.at,
            at: outer,
            from: self.place,
            place: self.place,
            kept: self.kept,
            limit: self.limit,
            log: self.log.len(),
            region: self.region,
        };
        let upper = Layer { at: inner, ..lower };
        put_two(&mut self.layers, lower, upper)?;
        self.branches += 2;
        Ok(())
    }

    /// Whether so many more branches may be saved.
    pub fn has_room_for(&self, count: usize) -> bool
        ensures { IsTrue result ↔ (saved self.now.frames + count ≤ self.now.most) }
    {
        count <= self.most - self.branches
    }

    /// Saves a branch at each of so many places, from a byte offset on: the last place's is taken first. One layer stands for
    /// them all, and there is none where there are no places. It is refused with `Choices` where so many may not be saved.
    pub fn save_run(&mut self, at: usize, from: usize, count: usize) -> Result<(), SearchRefusal>
        requires fits { from + count ≤ 2 ^ 64 }
        ensures { SavesBranches result count (saved_run at from count self.old.now self.old.frames)
            self.old self.new }
    {
        if count == 0 {
            return Ok(());
        }
        if !self.has_room_for(count) {
            return Err(SearchRefusal::Choices);
        }
        let layer = Layer {
            kind: Kind::Branch,
            by: self.at,
            at,
            from,
            place: from + (count - 1),
            kept: self.kept,
            limit: self.limit,
            log: self.log.len(),
            region: self.region,
        };
        put_layer(&mut self.layers, layer)?;
        self.branches += count;
        Ok(())
    }

    /// Writes to a group. What stood there is logged, if that is the first write to it since the last branch was saved.
    #[inline(always)]
    fn write(&mut self, group: usize, slot: Slot) -> Result<(), AllocError>
        ensures { GoesOnIfOk result (written group slot self.old.now) self.old self.new }
    {
        if group >= self.cells.len() {
            return Ok(());
        }
        self.written = true;
        let old = self.cells[group];
        if old.level >= self.branches {
            self.cells[group] = Cell {
                slot,
                level: old.level,
            };
            return Ok(());
        }
        put_write(&mut self.log, Write { group, old })?;
        self.cells[group] = Cell {
            slot,
            level: self.branches,
        };
        Ok(())
    }

    /// A group begins.
    pub fn open_group(&mut self, group: usize, next: usize) -> Result<(), AllocError>
        ensures { GoesOnIfOk result (opened_at group next self.old.now) self.old self.new }
    {
        let slot = Slot {
            from: self.place,
            span: self.span(group),
        };
        self.at = next;
        self.write(group, slot)
    }

    /// A group ends.
    pub fn close_group(&mut self, group: usize, next: usize) -> Result<(), AllocError>
        ensures { GoesOnIfOk result (closed_at group next self.old.now) self.old self.new }
    {
        let from = self.from(group);
        let span = Span {
            start: from,
            end: self.place,
        };
        let slot = Slot {
            from,
            span: Some(span),
        };
        self.at = next;
        self.write(group, slot)
    }

    /// Reads so many items of one byte each, in a group if there is one, and goes on at another instruction.
    pub fn read_items(
        &mut self,
        group: Option<usize>,
        count: usize,
        next: usize,
    ) -> Result<(), AllocError>
        requires fits { self.old.now.state.place + count < 2 ^ 64 }
        ensures { GoesOnIfOk result (at_instr next (past_items group count self.old.now))
            self.old self.new }
    {
        let past = self.place + count;
        if let Some(group) = group {
            if count > 0 {
                self.go_to(next, past - 1);
                self.open_group(group, next)?;
                self.go_to(next, past);
                return self.close_group(group, next);
            }
        }
        self.go_to(next, past);
        Ok(())
    }

    /// Whether a region is open, and each way that stops ends the innermost one.
    pub fn closes_at_any_stop(&self) -> bool
        ensures { result ≡ true → IsEndedByAny self.now.frames }
    {
        let top = self.region;
        top > 0 && is_ended_by_any(self.layers[top - 1].kind)
    }

    /// Leaves the innermost region, and drops the branches that were saved since it began. Of the log it keeps what the layers
    /// below ask for: all of it, where no saved branch is dropped.
    fn leave(&mut self)
        requires { IsBare self.old.frames → ⊥ }
        ensures now { self.new.now ≡ self.old.now }
        ensures left { (region : Region) (rest : List Frame)
            → HasInnermost self.old.frames region rest → self.new.frames ≡ rest }
        ensures most { self.new.most ≡ self.old.most }
    {
        let len = self.region - 1;
        let lowest = self.layers[len];
        let saved = self.branches;
        cut(&mut self.layers, &mut self.branches, len);
        self.region = lowest.region;
        if self.branches < saved {
            thin(&mut self.cells, &mut self.log, lowest.log, self.branches);
        }
    }

    /// The way stops: the innermost region ends where it may, and what is round it goes on at `next`.
    #[inline(always)]
    pub fn stop(&mut self, next: usize) -> Next
        ensures stopped { Stops result next self.old self.new.now self.new.frames }
        ensures most { self.new.most ≡ self.old.most }
    {
        let top = self.region;
        if top == 0 {
            return Next::Found;
        }
        let layer = self.layers[top - 1];
        if !is_ended(layer.kind, layer.place, self.place) {
            return Next::Dead;
        }
        self.leave();
        match layer.kind {
            Kind::Branch => Next::Dead,
            Kind::Atom => {
                self.at = next;
                self.limit = layer.limit;
                Next::On
            }
            Kind::Condition => {
                self.at = next;
                self.limit = layer.limit;
                Next::On
            }
            Kind::Look(_) => {
                self.at = layer.at;
                self.place = layer.place;
                self.limit = layer.limit;
                Next::On
            }
            Kind::Denial(_) => Next::Dead,
        }
    }

    /// Whether the layer that was made last may save branches at more places than one.
    pub fn has_run(&self) -> bool {
        let len = self.layers.len();
        len > 0 && self.layers[len - 1].place != self.layers[len - 1].from
    }

    /// The branches of the layer that was made last, if it saves branches and is no region.
    pub fn last_run(&self) -> Option<SavedRun>
        ensures run { IfSome result (λ r. (gs : List Frame)
            × EndsInRun r.at r.last (r.last - r.first + 1) self.now.frames gs) }
        ensures ordered { IfSome result (λ r. r.first ≤ r.last) }
    {
        let len = self.layers.len();
        if len == 0 {
            return None;
        }
        let layer = self.layers[len - 1];
        if layer.kind != Kind::Branch {
            return None;
        }
        Some(SavedRun {
            by: layer.by,
            at: layer.at,
            first: layer.place - earlier(layer),
            last: layer.place,
        })
    }

    /// Drops branches that were saved last, those of one layer and at most so many of them: how many it dropped.
    pub fn drop_last(&mut self, count: usize) -> usize
        ensures dropped { SavedOn result self.old.frames self.new.frames }
        ensures few { result ≤ count }
        ensures most { self.new.most ≡ self.old.most }
    {
        let len = self.layers.len();
        if len == 0 || count == 0 {
            return 0;
        }
        let layer = self.layers[len - 1];
        if layer.kind != Kind::Branch {
            return 0;
        }
        self.region = layer.region;
        undo(&mut self.cells, &mut self.log, layer.log);
        let earlier = earlier(layer);
        if count <= earlier {
            self.branches -= count;
            self.layers[len - 1].place = layer.place - count;
            return count;
        }
        self.branches -= earlier + 1;
        self.layers.pop();
        earlier + 1
    }

    /// Takes the branch that was saved last, which is one return, and goes back to what was written then.
    pub fn back(&mut self, limit: usize, work: &mut Work) -> Result<bool, SearchRefusal>
        requires { returns_of work.old ≤ limit }
        ensures took { TookBranch result limit self.old self.new work.old work.new }
        ensures most { self.new.most ≡ self.old.most }
    {
        'layers: loop {
            let Some(layer) = take_last(&mut self.layers) else {
                return Ok(false);
            };
            self.region = layer.region;
            if !is_saved(layer.kind) {
                continue;
            }
            self.branches -= 1;
            undo(&mut self.cells, &mut self.log, layer.log);
            if work.returns() >= limit {
                return Err(SearchRefusal::Returns);
            }
            work.count_return();
            self.at = layer.at;
            self.place = layer.place;
            self.kept = layer.kept;
            self.limit = layer.limit;
            return Ok(true);
        }
    }
}
