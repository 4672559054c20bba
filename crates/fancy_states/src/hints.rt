//! Hints: which number may be meant by a key. What a hint names is tested, so a false one costs time alone.

ghost use Rattle.std.specs.Prelude.{◌≤◌, length};

use std::alloc::{AllocError, Global};

/// The most hints of a table, of 8 bytes each, so 1 MB.
pub const HINTS: usize = 131_072;

/// Numbers by keys. Each key has two places, which it shares with other keys. A table has a power of two of places; a new one has
/// none, and nothing is found in it.
#[derive(Drop)]
pub struct Hints {
    /// The numbers; `usize::MAX` where none was left.
    slots: Vec<usize>,
    ghost within: { length slots.items ≤ 131_072 },
}

impl Hints {
    /// No hint.
    pub fn new(alloc: Global) -> Hints {
        Hints {
            slots: Vec::new(alloc),
        }
    }

    /// The first place of a key, an even one. Its second place is the next.
    #[inline(always)]
    fn place(&self, key: usize) -> usize {
        (key << 1) & self.slots.len().wrapping_sub(1)
    }

    /// The number that was left last for a key, or for one that shares its place.
    #[inline(always)]
    pub fn first(&self, key: usize) -> Option<usize> {
        self.slots.get(self.place(key)).copied()
    }

    /// The number at the second place of a key.
    #[inline(always)]
    pub fn second(&self, key: usize) -> Option<usize> {
        self.slots.get(self.place(key) | 1).copied()
    }

    /// Leaves a number for a key. What was at its first place goes to the second one.
    pub fn leave(&mut self, key: usize, number: usize) {
        let first = self.place(key);
        let second = first | 1;
        if first < self.slots.len() && second < self.slots.len() {
            self.slots[second] = self.slots[first];
            self.slots[first] = number;
        }
    }

    /// Whether so many numbers fill more than an eighth of the table, and it may grow.
    pub fn is_small(&self, numbers: usize) -> bool {
        numbers > self.slots.len() / 8 && self.slots.len() < HINTS
    }

    /// Begins the table anew, with twice as many places, and 64 at first.
    pub fn widen(&mut self, alloc: Global) -> Result<(), AllocError> {
        let count = self.slots.len().saturating_mul(2).max(64).min(HINTS);
        let mut slots = Vec::new(alloc);
        slots.resize(count, usize::MAX)?;
        self.slots = slots;
        Ok(())
    }
}
