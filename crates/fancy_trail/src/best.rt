//! The best outcome of an attempt so far, where the longest is asked for.

ghost use Rattle.std.specs.Prelude.{◌≡◌, None, OnOk};

use crate::log::Cell;
use crate::trail::Trail;
use std::alloc::{AllocError, Global};
use std::marker::Model;

/// The best outcome so far, if there is one. It has cells of its own, since the trail goes on from it.
#[derive(Drop)]
pub struct Best {
    found: bool,
    place: usize,
    kept: usize,
    cells: Vec<Cell>,
}

impl Model for Best {
    ghost use Rattle.std.specs.Prelude.{Option, map};
    ghost use Rattle.fancy_meaning.specs.Context.{State};
    ghost use Rattle.fancy_trail.specs.Layers.{outcome_of};
    ghost use Rattle.fancy_trail.specs.Log.{cell_slot};

    ghost Value = { Option State };

    ghost view = { λ b. outcome_of b.found b.place b.kept (map cell_slot b.cells.items) };
}

impl Best {
    ghost use Rattle.fancy_trail.specs.Best.{state_if_found};
    ghost use Rattle.fancy_trail.specs.Best.{betters, better};

    /// No outcome so far.
    pub fn new(alloc: Global) -> Best
        ensures { result ≡ None }
    {
        Best {
            found: false,
            place: 0,
            kept: 0,
            cells: Vec::new(alloc),
        }
    }

    /// Forgets the outcome, and keeps its memory.
    pub fn clear(&mut self)
        ensures { self.new ≡ None }
    {
        self.found = false;
    }

    /// Whether an outcome that ends at a place is better: of those that end at one place the first is kept.
    fn is_bettered_by(&self, place: usize) -> bool
        ensures { result ≡ betters self.now place }
    {
        !self.found || self.place < place
    }

    /// Keeps the outcome at which the trail stands, if it is better.
    pub fn offer(&mut self, trail: &Trail) -> Result<(), AllocError>
        ensures { OnOk result (self.new ≡ better self.old trail.now.now.state) }
    {
        if !self.is_bettered_by(trail.place()) {
            return Ok(());
        }
        self.cells.clear();
        self.cells.extend_from_slice(trail.cells())?;
        self.place = trail.place();
        self.kept = trail.kept();
        self.found = true;
        Ok(())
    }

    /// Whether there is an outcome, where the trail then stands.
    pub fn give(&mut self, trail: &mut Trail) -> bool
        ensures given { state_if_found result trail.new.now ≡ self.old }
        ensures most { trail.new.most ≡ trail.old.most }
    {
        if self.found {
            trail.stand(self.place, self.kept, &mut self.cells);
        }
        self.found
    }
}
