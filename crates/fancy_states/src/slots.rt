//! Steps on what is no ASCII character, found by hashing.

ghost use Rattle.std.specs.Prelude.{◌≡◌, ◌≢◌, IfSome, true};
ghost use Rattle.fancy_states.specs.Slots.{ComeFrom, IsIn, blank, nothing};

use crate::transitions::Transition;
use fancy_alphabet::side::Side;
use std::alloc::{AllocError, Global};

/// The most slots of a table, of 32 bytes each, so 1 MB.
pub const SLOTS: usize = 32_768;

/// Stands for a character where nothing is read.
pub const NOTHING: u32 = 4_294_967_295;

/// A step from a row on what is no ASCII character.
#[derive(Clone, Copy)]
pub struct Slot {
    /// Where the columns of the row begin for what stands before.
    pub start: u32,
    /// The number of the character, or the byte; [`NOTHING`] where nothing is read.
    pub code: u32,
    /// How many bytes it has.
    pub width: u32,
    /// What stands after the place.
    pub after: Side,
    /// The step.
    pub entry: Transition,
}

impl Slot {
    /// No step.
    fn blank() -> Slot
        ensures { result ≡ blank }
    {
        Slot {
            start: 0,
            code: NOTHING,
            width: 0,
            after: Side::Other,
            entry: Transition::unknown(),
        }
    }

    /// Whether a character is read there, so many bytes long, and this stands after the place.
    #[inline(always)]
    pub fn has(&self, width: usize, after: Side) -> bool
        ensures { result ≡ true → (self.now.code ≢ nothing) × (self.now.width ≡ width)
            × (self.now.after ≡ after) }
    {
        self.code != NOTHING && self.width as usize == width && self.after == after
    }
}

/// The first of the two slots of a row and a character, among so many. The second is the next.
#[inline(always)]
fn place(slots: usize, start: u32, code: u32) -> usize {
    let key = (start as usize)
        .wrapping_mul(97)
        .wrapping_add(code as usize);
    (key << 1) & slots.wrapping_sub(1)
}

/// The slot of the step from a row, whose columns begin at `start` for what stands before, on a character, if it is one of these.
#[inline(always)]
pub fn slot_at(slots: &[Slot], start: u32, code: u32) -> Option<&Slot>
    ensures { IfSome result (λ s. (s.now.start ≡ start) × (s.now.code ≡ code)
        × IsIn slots.now s.now) }
{
    let first = place(slots.len(), start, code);
    let slot = slots.get(first)?;
    if slot.start == start && slot.code == code {
        return Some(slot);
    }
    let other = slots.get(first | 1)?;
    if other.start == start && other.code == code {
        return Some(other);
    }
    None
}

/// Slots by the starts of rows and characters. Such a key has two, which it shares with other keys. There is a power of two of them; a
/// new table has none, and nothing is found in it.
#[derive(Drop)]
pub struct Slots {
    /// The slots.
    pub items: Vec<Slot>,
}

impl Slots {
    ghost use Rattle.std.specs.Prelude.{[]};

    /// No slot.
    pub fn new(alloc: Global) -> Slots
        ensures { result.items.items ≡ [] }
    {
        Slots {
            items: Vec::new(alloc),
        }
    }

    /// Puts in a step. What was in the first slot of its key goes to the second one.
    pub fn leave(&mut self, slot: Slot)
        ensures { ComeFrom self.old.items.items slot self.new.items.items }
    {
        let first = place(self.items.len(), slot.start, slot.code);
        let second = first | 1;
        if first < self.items.len() && second < self.items.len() {
            self.items[second] = self.items[first];
            self.items[first] = slot;
        }
    }

    /// Whether so many steps fill more than a quarter of the table, and it may grow.
    pub fn is_small(&self, steps: usize) -> bool {
        steps > self.items.len() / 4 && self.items.len() < SLOTS
    }

    /// Begins the table anew, with twice as many slots, and 64 at first, and puts in the steps that it has.
    pub fn widen(&mut self, alloc: Global) -> Result<(), AllocError>
        ensures { ComeFrom self.old.items.items blank self.new.items.items }
    {
        let count = self.items.len().saturating_mul(2).max(64).min(SLOTS);
        let mut items = Vec::new(alloc);
        items.resize(count, Slot::blank())?;
        let mut wider = Slots { items };
        for k in 0..self.items.len() {
            wider.leave(self.items[k]);
        }
        *self = wider;
        Ok(())
    }
}
