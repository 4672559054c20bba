//! What is known of the groups, and a log of what was known before, to go back to it.
//!
//! Only a saved branch asks for what was known before. So of the writes to a group that come between two saved branches the first
//! alone is logged, and the log holds no more writes than groups for each saved branch. A cell has the number of branches that were
//! saved when a write to it was logged last. Where a region ends and its branches are dropped, the writes that were logged for them
//! are left out of the log, but for the first ones since the branch that is the last one then.

ghost use Rattle.std.specs.Prelude.{◌≡◌, ◌≤◌, ◌+◌, ◌++◌, ◌∷◌, [], map, length, take, drop, filter, replicate, OnOk, OnErr, vec_len, slice_set, slice_index_or, ℕ};
ghost use Rattle.fancy_trail.specs.Log.{cell_slot, cell_level, empty_cell, old_cell, undone_by, is_kept, lowered};

use fancy_code::slot::{EMPTY, Slot};
use std::alloc::AllocError;

/// What is known of a group.
#[derive(Clone, Copy, PartialEq, Eq, Debug)]
pub struct Cell {
    pub slot: Slot,
    /// How many branches were saved when a write to it was logged last, 0 where none was.
    pub level: usize,
}

/// A cell that nothing was written to.
pub const EMPTY_CELL: Cell = Cell {
    slot: EMPTY,
    level: 0,
};

/// A write to a group, with what was known of it before.
#[derive(Clone, Copy, PartialEq, Eq, Debug)]
pub struct Write {
    pub group: usize,
    pub old: Cell,
}

/// What is known of a group.
pub fn cell_at(cells: &[Cell], number: usize) -> Cell
    ensures { result ≡ slice_index_or cells.now number empty_cell }
{
    match cells.get(number) {
        Some(cell) => *cell,
        None => EMPTY_CELL,
    }
}

/// Begins a list of cells anew with so many, none written. It has only such also where memory runs out.
#[tactic(auto, using(std::proofs::lemmas::List::replicate_more))]
pub fn begin_cells(cells: &mut Vec<Cell>, count: usize) -> Result<(), AllocError>
    ensures empty { cells.new.items ≡ replicate (length cells.new.items) empty_cell }
    ensures begun { OnOk result (cells.new.items ≡ replicate count empty_cell) }
{
    cells.clear();
    'cells: for _ in 0..count {
        cells.push(EMPTY_CELL)?;
    }
    Ok(())
}

/// Says that so many branches were saved when a write to a group was logged last.
fn set_level(cells: &mut Vec<Cell>, group: usize, level: usize)
    ensures slots { map cell_slot cells.new.items ≡ map cell_slot cells.old.items }
    ensures levels { map cell_level cells.new.items
        ≡ slice_set (map cell_level cells.old.items) group level }
    ensures len { vec_len cells.new ≡ vec_len cells.old }
{
    if group < cells.len() {
        let old = cells[group];
        cells[group] = Cell {
            slot: old.slot,
            level,
        };
    }
}

/// Forgets when writes were logged.
pub fn forget_levels(cells: &mut Vec<Cell>)
    ensures slots { map cell_slot cells.new.items ≡ map cell_slot cells.old.items }
    ensures levels { (number : ℕ) → slice_index_or (map cell_level cells.new.items) number 0 ≡ 0 }
{
    'cells: for index in 0..cells.len() {
        set_level(cells, index, 0);
    }
}

/// Puts a write at the end of a log.
#[inline(never)]
pub fn put_write(log: &mut Vec<Write>, write: Write) -> Result<(), AllocError>
    ensures items { OnOk result (log.new.items ≡ log.old.items ++ write ∷ []) }
    ensures refused { OnErr result (log.new.items ≡ log.old.items) }
    ensures len { OnOk result (vec_len log.new ≡ vec_len log.old + 1) }
{
    log.push(write)?;
    Ok(())
}

/// Undoes the writes of a log that has more, the last one first, down to a length.
#[inline(never)]
fn undo_last(cells: &mut Vec<Cell>, log: &mut Vec<Write>, down: usize)
    requires { down ≤ vec_len log.old }
    ensures cells { cells.new.items ≡ undone_by old_cell cells.old.items (drop down log.old.items) }
    ensures log { log.new.items ≡ take down log.old.items }
{
    'writes: while log.len() > down {
        let Some(write) = log.pop() else {
            return;
        };
        if write.group < cells.len() {
            cells[write.group] = write.old;
        }
    }
}

/// Undoes the writes of a log, the last one first, down to a length. Most often it has no more.
#[inline]
pub fn undo(cells: &mut Vec<Cell>, log: &mut Vec<Write>, down: usize)
    requires { down ≤ vec_len log.old }
    ensures cells { cells.new.items ≡ undone_by old_cell cells.old.items (drop down log.old.items) }
    ensures log { log.new.items ≡ take down log.old.items }
{
    if log.len() > down {
        undo_last(cells, log, down);
    }
}

/// Leaves out of a log, from one of its writes on, those that are not the first to their group since the last of so many saved
/// branches, and says in the cells that so many are saved.
pub fn thin(cells: &mut Vec<Cell>, log: &mut Vec<Write>, from: usize, level: usize)
    requires fits { from ≤ vec_len log.old }
    requires low { filter (is_kept level) (take from log.old.items) ≡ take from log.old.items }
    ensures log { log.new.items ≡ filter (is_kept level) log.old.items }
    ensures slots { map cell_slot cells.new.items ≡ map cell_slot cells.old.items }
    ensures levels { map cell_level cells.new.items
        ≡ lowered level (map cell_level cells.old.items) (drop from log.old.items) }
{
    let mut kept = from;
    'writes: for index in from..log.len() {
        let write = log[index];
        set_level(cells, write.group, level);
        if write.old.level >= level {
            continue;
        }
        log[kept] = write;
        kept += 1;
    }
    log.truncate(kept);
}
