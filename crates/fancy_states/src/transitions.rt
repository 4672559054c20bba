//! The table that a search goes by: the step from each row on a character, as far as it is remembered.

ghost use Rattle.std.specs.Prelude.{◌≡◌, ◌+◌, ◌*◌, ◌<◌, ◌≤◌, ℕ, [], List, OnOk, IfSome, get_or, length, slice_get, Some};
ghost use Rattle.fancy_alphabet.specs.Classes.{row_start, sight_for};
ghost use Rattle.fancy_alphabet.specs.Sides.{number_of, sides_of};
ghost use Rattle.fancy_states.specs.Slots.{unknown};
ghost use Rattle.fancy_states.specs.Transitions.{AreTold, IsEntry, IsSlot, IsView};
ghost use Rattle.fancy_states.specs.declared.transitions.Transitions.{Transitions};
ghost use Rattle.fancy_states.specs.declared.cells.Cell.{Cell};
ghost use Rattle.fancy_alphabet.specs.declared.side.Side.{Side};

use crate::origin::Origin;
use crate::slots::{NOTHING, Slot, Slots, slot_at};
use fancy_alphabet::classes::Classes;
use fancy_alphabet::side::{Side, Tests};
use fancy_alphabet::sight::Sight;
use fancy_meaning::reading::Reading;
use std::alloc::{AllocError, Global};

/// What an entry of the table tells of its step.
#[derive(Clone, Copy, PartialEq, Eq, Debug)]
pub enum Kind {
    /// Nothing: the step is not remembered.
    Unknown,
    /// No way ended with an outcome in it, and it is told of which ways those come that go on.
    Quiet,
    /// No way ended with an outcome in it.
    Mixed,
    /// One did.
    Matching,
}

/// What the table has of a row and a character: a step, told by numbers, if it is remembered. Loops go by 16 bytes.
#[derive(Clone, Copy)]
pub struct Transition {
    /// Where the columns begin of the row after what is read, which stands before it.
    pub ahead: u32,
    /// Where those begin of that row with one more way.
    pub opened: u32,
    /// The number of its cell.
    pub cell: u16,
    /// The row after what is read.
    pub next: u16,
    /// That row with one more way, which begins there.
    pub begun: u16,
    /// Of which ways those come that it leads to.
    pub origin: Origin,
    /// What is told of it.
    pub kind: Kind,
}

impl Transition {
    /// A step that is not remembered.
    pub fn unknown() -> Transition
        ensures { result ≡ unknown }
    {
        Transition {
            ahead: 0,
            opened: 0,
            cell: 0,
            next: 0,
            begun: 0,
            origin: Origin::Mixed,
            kind: Kind::Unknown,
        }
    }
}

/// The slot of a step from a row on what is no ASCII character, if there is one for it.
fn slot_of(classes: &Classes, row: usize, sight: Sight, entry: Transition) -> Option<Slot>
    requires { row < 65_536 }
    ensures { IfSome result (λ s. (cells : List Cell)
        → IsEntry classes.now cells row sight entry → IsSlot classes.now cells s) }
{
    if classes.len() == 0 || sight.before.number() >= classes.tests.sides() {
        return None;
    }
    let start = classes.start(row, sight.before);
    let after = sight.after;
    match sight.reading {
        None => Some(Slot {
            start,
            code: NOTHING,
            width: 0,
            after,
            entry,
        }),
        Some(reading) if reading.width <= 4 => Some(Slot {
            start,
            code: reading.code,
            width: reading.width as u32,
            after,
            entry,
        }),
        Some(_) => None,
    }
}

/// The entries of all rows, one for each class of characters and side before it, by the numbers of the rows.
#[derive(Drop)]
pub struct Transitions {
    /// The classes.
    pub classes: Classes,
    /// The entries.
    pub entries: Vec<Transition>,
    /// The steps on all else, which need not be there.
    pub slots: Slots,
}

impl Transitions {
    /// No step is remembered, and no character has a class.
    pub fn new(alloc: Global) -> Transitions
        ensures entries { result.entries.items ≡ [] }
        ensures slots { result.slots.items.items ≡ [] }
        ensures columns { result.classes.columns.items ≡ [] }
    {
        Transitions {
            classes: Classes::new(alloc),
            entries: Vec::new(alloc),
            slots: Slots::new(alloc),
        }
    }

    /// The table, to be read.
    #[inline(always)]
    pub fn view(&self) -> View<'_>
        ensures { IsView self.now result }
    {
        View {
            columns: &self.classes.columns,
            entries: &self.entries,
            slots: &self.slots.items,
            tests: self.classes.tests,
        }
    }

    /// Makes room for the entries of a row.
    fn reserve(&mut self, row: usize) -> Result<(), AllocError>
        requires { row < 4_294_967_296 }
        ensures same { (i : ℕ) → get_or self.new.entries.items i unknown
            ≡ get_or self.old.entries.items i unknown }
        ensures classes { self.new.classes ≡ self.old.classes }
        ensures slots { self.new.slots ≡ self.old.slots }
        ensures room { OnOk result (row * self.new.classes.width + self.new.classes.width
            ≤ length self.new.entries.items) }
    {
        let wanted = row * self.classes.width + self.classes.width;
        if self.entries.len() < wanted {
            self.entries.resize(wanted, Transition::unknown())?;
        }
        Ok(())
    }

    /// Puts in an entry of a row, on a character that stands for its class.
    pub fn note(&mut self, row: usize, sight: Sight, entry: Transition) -> Result<(), AllocError>
        requires { row < 4_294_967_296 }
        ensures told { (cells : List Cell) → AreTold cells self.old
            → IsEntry self.old.classes cells row sight entry → AreTold cells self.new }
        ensures classes { self.new.classes ≡ self.old.classes }
    {
        let Some(column) = self.classes.column_of(sight) else {
            return Ok(());
        };
        self.reserve(row)?;
        self.entries[row * self.classes.width + column] = entry;
        Ok(())
    }

    /// Puts in the step from a row on what is no ASCII character, where so many steps are remembered.
    pub fn leave(
        &mut self,
        alloc: Global,
        row: usize,
        sight: Sight,
        entry: Transition,
        steps: usize,
    ) -> Result<(), AllocError>
        requires { row < 65_536 }
        ensures told { (cells : List Cell) → AreTold cells self.old
            → IsEntry self.old.classes cells row sight entry → AreTold cells self.new }
        ensures classes { self.new.classes ≡ self.old.classes }
    {
        let Some(slot) = slot_of(&self.classes, row, sight, entry) else {
            return Ok(());
        };
        if self.slots.is_small(steps) {
            self.slots.widen(alloc)?;
        }
        self.slots.leave(slot);
        Ok(())
    }
}

/// A table that is read: a loop holds it in registers.
#[derive(Clone, Copy)]
pub struct View<'t> {
    /// The column of each character that has one.
    pub columns: &'t [u8],
    /// The entries.
    pub entries: &'t [Transition],
    /// The steps on all else.
    pub slots: &'t [Slot],
    /// Which sides of a place are told apart.
    pub tests: Tests,
}

impl<'t> View<'t> {
    /// The column of a character, if it has one.
    #[inline(always)]
    pub fn column(self, byte: u8) -> Option<u8>
        ensures { result ≡ slice_get self.entry.columns.now byte }
    {
        self.columns.get(byte as usize).copied()
    }

    /// What the table has of a column of a row, whose columns begin at `start` for what stands before, if it has that column: a loop
    /// reads of it what it goes by, and the rest where it ends.
    #[inline(always)]
    pub fn entry(self, start: u32, column: u8) -> Option<&'t Transition>
        ensures { (cells : List Cell) (table : Transitions) (row : ℕ) (before : Side) (byte : ℕ)
            → IsView table self.entry → AreTold cells table
            → number_of before < sides_of table.classes.tests
            → start ≡ row_start table.classes row before
            → slice_get self.entry.columns.now byte ≡ Some column
            → IfSome result (λ e. IsEntry table.classes cells row
            (sight_for table.classes before byte) e.now) }
    {
        match self.entries.get(start as usize + column as usize) {
            Some(entry) => Some(entry),
            None => None,
        }
    }

    /// What the table has of a column of a row, whose columns begin at `start` for what stands before.
    #[inline(always)]
    pub fn at(self, start: u32, column: u8) -> Transition
        ensures { (cells : List Cell) (table : Transitions) (row : ℕ) (before : Side) (byte : ℕ)
            → IsView table self.entry → AreTold cells table
            → number_of before < sides_of table.classes.tests
            → start ≡ row_start table.classes row before
            → slice_get self.entry.columns.now byte ≡ Some column
            → IsEntry table.classes cells row (sight_for table.classes before byte) result }
    {
        match self.entry(start, column) {
            Some(entry) => *entry,
            None => Transition::unknown(),
        }
    }

    /// What the table has of a row, whose columns begin at `start` for what stands before, and a character past ASCII, with what stands
    /// after the place.
    #[inline(always)]
    pub fn wide(self, start: u32, after: Side, reading: Reading) -> Option<&'t Transition>
        ensures { (cells : List Cell) (table : Transitions) (row : ℕ) (before : Side)
            → IsView table self.entry → AreTold cells table
            → number_of before < sides_of table.classes.tests
            → start ≡ row_start table.classes row before
            → IfSome result (λ e. IsEntry table.classes cells row
            (record { before = before; after = after; reading = Some reading }) e.now) }
    {
        let slot = slot_at(self.slots, start, reading.code)?;
        if slot.has(reading.width, after) {
            Some(&slot.entry)
        } else {
            None
        }
    }
}
