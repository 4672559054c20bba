//! Rows of waiting instructions, each with a number.

ghost use Rattle.std.specs.Prelude.{◌≡◌, [], ◌∷◌, true, IfOk, IfSome, OnOk, map};
ghost use Rattle.fancy_states.specs.Steps.{at_of};
ghost use Rattle.fancy_states.specs.Cells.{HasRow, GrowsBy, HasRows};

use crate::hints::Hints;
use crate::way::Way;
use std::alloc::{AllocError, Global};
use std::mem;

/// Rows of instructions, each in order of preference.
#[derive(Drop)]
pub struct Rows {
    /// The rows.
    pub lists: Vec<Vec<usize>>,
    /// The numbers of rows, by their instructions.
    pub names: Hints,
    /// The number of the row without an instruction, where it is one; that is tested.
    pub nothing: usize,
    /// How many instructions all rows have together.
    pub held: usize,
    /// The row that was looked for last, whose memory the next one takes over.
    sought: Vec<usize>,
}

impl Rows {
    /// No row.
    pub fn new(alloc: Global) -> Rows
        ensures { result.lists.items ≡ [] }
    {
        Rows {
            lists: Vec::new(alloc),
            names: Hints::new(alloc),
            nothing: 0,
            held: 0,
            sought: Vec::new(alloc),
        }
    }

    /// Whether the row with this number has these instructions.
    pub fn has(&self, r: usize, ways: &[usize]) -> bool
        ensures { result ≡ true → HasRow self.now.lists.items r ways.now }
    {
        match self.lists.get(r) {
            None => false,
            Some(row) => row.as_slice() == ways,
        }
    }

    /// Whether the row with this number has no instruction.
    #[inline(always)]
    pub fn is_empty(&self, r: usize) -> bool
        ensures { result ≡ true → HasRow self.now.lists.items r [] }
    {
        match self.lists.get(r) {
            None => false,
            Some(row) => row.len() == 0,
        }
    }

    /// Whether the row with this number has this instruction alone.
    #[inline(always)]
    pub fn has_alone(&self, r: usize, way: usize) -> bool
        ensures { result ≡ true → HasRow self.now.lists.items r (way ∷ []) }
    {
        match self.lists.get(r) {
            None => false,
            Some(row) => row.len() == 1 && row[0] == way,
        }
    }

    /// Forgets all rows. Hints that are left name none, or a later row, which is tested.
    pub fn clear(&mut self)
        ensures { self.new.lists.items ≡ [] }
    {
        self.lists.clear();
        self.held = 0;
    }
}

/// The key of a row, by its instructions.
fn row_key(ways: &[usize]) -> usize {
    let mut key = ways.len();
    for way in ways {
        key = (key ^ *way).wrapping_mul(0x9E37_79B9_7F4A_7C15);
        key = key ^ (key >> 29);
    }
    key
}

/// The number of a row with these instructions, if a hint leads to one. There is one row without an instruction, since searches tell
/// by its number that no way waits.
fn named_row(rows: &Rows, key: usize, ways: &[usize]) -> Option<usize>
    ensures { IfSome result (λ r. HasRow rows.now.lists.items r ways.now) }
{
    if rows.has(rows.nothing, ways) {
        return Some(rows.nothing);
    }
    let first = rows.names.first(key)?;
    if rows.has(first, ways) {
        return Some(first);
    }
    let second = rows.names.second(key)?;
    if rows.has(second, ways) {
        return Some(second);
    }
    None
}

/// Leaves hints for all rows.
fn name_all(names: &mut Hints, lists: &[Vec<usize>]) {
    for r in 0..lists.len() {
        names.leave(row_key(&lists[r]), r);
    }
}

/// Leaves a hint for a row, in a larger table where this one is too small.
fn name_row(
    alloc: Global,
    names: &mut Hints,
    lists: &[Vec<usize>],
    key: usize,
    row: usize,
) -> Result<(), AllocError> {
    if !names.is_small(lists.len()) {
        names.leave(key, row);
        return Ok(());
    }
    names.widen(alloc)?;
    name_all(names, lists);
    Ok(())
}

/// The instructions of a row, once more.
pub fn copied(alloc: Global, ways: &[usize]) -> Result<Vec<usize>, AllocError>
    ensures { IfOk result (λ copy. copy.items ≡ ways.now) }
{
    ways.to_vec(alloc)
}

/// The number of a row with these instructions: one that a hint leads to, or else a new one.
pub fn intern(alloc: Global, rows: &mut Rows, ways: &[usize]) -> Result<usize, AllocError>
    ensures rows { GrowsBy 1 rows.old.lists.items rows.new.lists.items }
    ensures row { IfOk result (λ r. HasRow rows.new.lists.items r ways.now) }
{
    let key = row_key(ways);
    if let Some(r) = named_row(rows, key, ways) {
        return Ok(r);
    }
    let r = rows.lists.len();
    rows.nothing = if ways.len() == 0 { r } else { rows.nothing };
    rows.held = rows.held.saturating_add(ways.len());
    let row = copied(alloc, ways)?;
    rows.lists.push(row)?;
    name_row(alloc, &mut rows.names, &rows.lists, key, r)?;
    Ok(r)
}

/// Puts the instructions of the ways in place of those that are there.
fn gather(ways: &mut Vec<usize>, next: &[Way]) -> Result<(), AllocError>
    ensures { OnOk result (ways.new.items ≡ map at_of next.now) }
{
    ways.clear();
    for way in next {
        ways.push(way.at)?;
    }
    Ok(())
}

/// Two rows: one of ways, and the same with one more way, which begins there.
#[derive(Clone, Copy, PartialEq, Eq, Debug)]
pub struct Target {
    /// The number of the row of the ways.
    pub next: usize,
    /// The number of the row with one more.
    pub begun: usize,
}

/// The rows of the ways, where one more may begin at `start`.
pub fn target_of(
    alloc: Global,
    rows: &mut Rows,
    start: usize,
    next: &[Way],
) -> Result<Target, AllocError>
    ensures rows { GrowsBy 2 rows.old.lists.items rows.new.lists.items }
    ensures leads { IfOk result (λ t.
        HasRows rows.new.lists.items t.next t.begun (map at_of next.now) start) }
{
    let mut ways = mem::replace(&mut rows.sought, Vec::new(alloc));
    gather(&mut ways, next)?;
    let next = intern(alloc, rows, &ways)?;
    ways.push(start)?;
    let begun = intern(alloc, rows, &ways)?;
    rows.sought = ways;
    Ok(Target { next, begun })
}
