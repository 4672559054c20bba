//! Which instructions were met.

ghost use Rattle.std.specs.Prelude.{◌≡◌, ◌<◌, ◌≤◌, [], ℕ, true, All, Bool, List, false, length, not, replicate, slice_index_or, slice_set, OnOk};
ghost use Rattle.fancy_states.specs.Marks.{marks_of};

use std::alloc::{AllocError, Global};
use std::marker::Model;

/// A mark for each number below a count, which it has or has not. Each number has the turn in which it was marked last, so
/// that all marks are taken away by the next turn: no number is visited for that.
#[derive(Drop)]
pub struct Marks {
    stamps: Vec<u32>,
    turn: u32,
}

impl Model for Marks {
    ghost Value = { List Bool };

    ghost view = { λ m. marks_of m.turn m.stamps.items };

    ghost invariant = { λ m. All (λ s. s ≤ m.turn) m.stamps.items };
}

impl Marks {
    /// Marks of no numbers.
    pub fn new(alloc: Global) -> Marks
        ensures { result ≡ [] }
    {
        Marks {
            stamps: Vec::new(alloc),
            turn: 0,
        }
    }

    /// Begins anew with so many numbers, none marked. The memory that it has is kept.
    pub fn reset(&mut self, count: usize) -> Result<(), AllocError>
        ensures { OnOk result (self.new ≡ replicate count false) }
    {
        if self.stamps.len() == count && self.turn < u32::MAX {
            self.turn += 1;
            return Ok(());
        }
        self.stamps.clear();
        self.turn = 1;
        self.stamps.resize(count, 0)?;
        Ok(())
    }

    /// Marks a number, and returns whether it was new. It takes no memory.
    pub fn mark(&mut self, n: usize) -> bool
        requires { n < length self.old }
        ensures new { result ≡ not (slice_index_or self.old n false) }
        ensures after { self.new ≡ slice_set self.old n true }
        ensures same { result ≡ false → self.new ≡ self.old }
    {
        if self.stamps[n] == self.turn {
            return false;
        }
        self.stamps[n] = self.turn;
        true
    }
}
