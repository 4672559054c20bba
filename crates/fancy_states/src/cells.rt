//! What an automaton remembers: steps that were computed, each of them true of the code.

ghost use Rattle.std.specs.Prelude.{◌≡◌, ◌+◌, ◌-◌, ◌++◌, ◌∷◌, [], ◌<◌, ◌≤◌, ℕ, true, IfOk, IfSome, map, min, length, take};
ghost use Rattle.fancy_code.specs.CodeLength.{code_len};
ghost use Rattle.fancy_input.specs.Work.{steps_of};
ghost use Rattle.fancy_code.specs.declared.code.Code.{Code};
ghost use Rattle.fancy_alphabet.specs.Alike.{IsSeenLike};
ghost use Rattle.fancy_states.specs.Steps.{from_of, IsStepOn};
ghost use Rattle.fancy_states.specs.Starts.{came_at};
ghost use Rattle.fancy_states.specs.Transitions.{AreTold, IsEntry};
ghost use Rattle.fancy_states.specs.Cells.{KeepsRows, KeepsCells, HasRow, HasCell, HasPlace, IsFor, IsCell, IsBounded, ways_at, IsEmpty, StaysTrue, GrowsBy, HasRows, HoldsFor};
ghost use Rattle.fancy_states.specs.Counts.{AddsSteps, PaysFor};

use crate::join::{Begun, joined};
use crate::origin::{Origin, origin_of};
use crate::rows::{Rows, Target, copied, intern, target_of};
use crate::slots::{NOTHING, slot_at};
use crate::starts::Starts;
use crate::step::{Scratch, Step, step_from};
use crate::transitions::{Kind, Transition, Transitions};
use crate::way::Way;
use fancy_alphabet::alike::classes_of;
use fancy_alphabet::classes::Classes;
use fancy_alphabet::side::Side;
use fancy_alphabet::sight::{Sight, ascii_at, sight_at};
use fancy_code::attempt::Attempt;
use fancy_code::code::Code;
use fancy_input::work::Work;
use fancy_meaning::reading::Reading;
use std::alloc::{AllocError, Global};
use std::mem;

/// A step from a row of waiting instructions on what is seen there.
#[derive(Drop)]
pub struct Cell {
    /// The number of the row.
    pub row: usize,
    /// What is seen there.
    pub sight: Sight,
    /// The row after what is read.
    pub next: usize,
    /// That row with one more way, which begins there.
    pub begun: usize,
    /// Of each way of that row, the number of the way that it comes from.
    pub came: Vec<usize>,
    /// The number of the way from which one ended with an outcome.
    pub matched: Option<usize>,
    /// Of which ways of the row those come.
    pub origin: Origin,
}

/// The most rows that are kept. A search for a thousand words makes some thousand.
pub const ROWS: usize = 32_768;

/// The most steps that are kept.
pub const CELLS: usize = 16_384;

/// So many bytes the rows and the steps may take in any haystack, and in a longer one as many more as it is long, up to
/// [`MORE_ROOM`].
const ROOM: usize = 524_288;

/// The most bytes that rows and steps may take more in a longer haystack.
const MORE_ROOM: usize = 2_097_152;

/// A row takes about so many bytes, with its hints and without its instructions and its entries in the table.
const ROW_BYTES: usize = 160;

/// An entry of the table takes so many bytes.
const ENTRY_BYTES: usize = 16;

/// A step takes about so many bytes, with its slots and without the ways that it leads to.
const CELL_BYTES: usize = 320;

/// Rows and steps with numbers below this are told by the table.
const SMALL: usize = 65_536;

/// An instruction of a row takes so many bytes, and so does a way that a step leads to.
const WAY_BYTES: usize = 8;

/// Rows of waiting instructions, and steps between them. A row has each instruction in order of preference. Where a step
/// is kept is a mere hint: what it leads to is tested.
#[derive(Drop)]
pub struct Cells {
    /// Where the memory comes from.
    pub alloc: Global,
    /// The rows.
    pub rows: Rows,
    /// The steps.
    pub cells: Vec<Cell>,
    /// The steps by their row, what stands before, and the character, an ASCII one by its class.
    pub table: Transitions,
    /// The number of the row of the first instruction alone, where it is one; that is tested.
    pub alone: usize,
    /// How many ways all steps lead to together.
    pub held: usize,
    /// Once rows and steps take about so many bytes, they are forgotten before the next step is computed.
    pub room: usize,
    /// Where the ways of the search before began, whose memory the next one takes over.
    pub spare: Starts,
    /// The place where the last search stopped reading, a byte offset.
    pub reached: usize,
    /// Whether searches walk on by the table where no way waits. Else a scan finds the next place there.
    pub walks: bool,
    /// Where the last step was computed.
    scratch: Scratch,
}

impl Cells {
    ghost use Rattle.std.specs.Prelude.{false};

    /// Nothing is remembered.
    pub fn new(alloc: Global) -> Cells
        ensures rows { result.rows.lists.items ≡ [] }
        ensures cells { result.cells.items ≡ [] }
        ensures within { IsBounded result }
    {
        Cells {
            alloc,
            rows: Rows::new(alloc),
            cells: Vec::new(alloc),
            table: Transitions::new(alloc),
            alone: 0,
            held: 0,
            room: ROOM,
            spare: Starts::new(alloc),
            reached: 0,
            walks: false,
            scratch: Scratch::new(alloc),
        }
    }

    /// The place where the last search stopped reading, a byte offset.
    pub fn reached(&self) -> usize {
        self.reached
    }

    /// About how many bytes so many rows and steps take, and so many entries of the table.
    fn bytes_of(&self, rows: usize, cells: usize, entries: usize) -> usize {
        let ways = self.rows.held.saturating_add(self.held);
        ways.saturating_mul(WAY_BYTES)
            .saturating_add(rows.saturating_mul(ROW_BYTES))
            .saturating_add(cells.saturating_mul(CELL_BYTES))
            .saturating_add(entries.saturating_mul(ENTRY_BYTES))
    }

    /// About how many bytes the rows, the steps and the table take.
    fn bytes(&self) -> usize {
        self.bytes_of(
            self.rows.lists.len(),
            self.cells.len(),
            self.table.entries.len(),
        )
    }

    /// About how many bytes of memory they hold, with what is held of those that were forgotten.
    pub fn held_bytes(&self) -> usize {
        self.bytes_of(
            self.rows.lists.capacity(),
            self.cells.capacity(),
            self.table.entries.capacity(),
        )
    }

    /// Whether one more step may be one too many.
    pub fn is_full(&self) -> bool
        requires { IsBounded self.now }
        ensures { result ≡ false → HasPlace self.now }
    {
        self.rows.lists.len() > ROWS - 2 || self.cells.len() >= CELLS || self.bytes() >= self.room
    }

    /// Forgets all rows and steps.
    pub fn forget(&mut self)
        ensures empty { IsEmpty self.new }
        ensures place { HasPlace self.new }
        ensures stays { StaysTrue self.old self.new }
    {
        self.rows.clear();
        self.cells.clear();
        self.table.entries.clear();
        self.table.slots.items.clear();
        self.held = 0;
    }

    /// Forgets all, so that another code may be searched for, in a haystack of so many bytes.
    pub fn clear(&mut self, bytes: usize)
        ensures rows { self.new.rows.lists.items ≡ [] }
        ensures cells { self.new.cells.items ≡ [] }
        ensures place { HasPlace self.new }
        ensures kept { IsBounded self.new }
        ensures all { (code : Code) → IsFor self.new code }
    {
        self.make_room(bytes);
        self.forget();
        self.table.classes = Classes::new(self.alloc);
    }

    /// Takes as much memory from now on as is allowed in a haystack of so many bytes.
    pub fn make_room(&mut self, bytes: usize)
        ensures { self.new ≡ record self.old { room = self.new.room } }
    {
        self.room = ROOM.saturating_add(bytes.min(MORE_ROOM));
    }

    /// Forgets all where one more step may be one too many.
    pub fn make_place(&mut self)
        requires { IsBounded self.old }
        ensures place { HasPlace self.new }
        ensures stays { StaysTrue self.old self.new }
    {
        if !self.is_full() {
            return;
        }
        self.forget();
    }
}

/// The numbers of the ways that they come from.
fn origins(alloc: Global, next: &[Way]) -> Result<Vec<usize>, AllocError>
    ensures { IfOk result (λ came. came.items ≡ map from_of next.now) }
{
    let mut came = Vec::with_capacity(alloc, next.len())?;
    for way in next {
        came.push(way.from)?;
    }
    Ok(came)
}

/// Puts a step from a row on what is seen among the steps, with the rows that it leads to. `walks` says that searches walk on where no
/// way waits.
fn computed(
    code: &Code,
    rows: &mut Rows,
    row: usize,
    sight: Sight,
    step: Step,
    walks: bool,
) -> Result<Cell, AllocError>
    requires row { row < length rows.old.lists.items }
    requires step { IsStepOn code.now (ways_at rows.old.lists.items row) sight step }
    ensures rows { GrowsBy 2 rows.old.lists.items rows.new.lists.items }
    ensures from { IfOk result (λ c. c.row ≡ row) }
    ensures on { IfOk result (λ c. c.sight ≡ sight) }
    ensures cell { IfOk result (λ c. IsCell code.now rows.new.lists.items row sight
        c.next c.begun c.came.items c.matched c.origin) }
    ensures ways { IfOk result (λ c. length c.came.items ≡ length step.next.items) }
{
    let alloc = *step.next.allocator();
    let came = origins(alloc, &step.next)?;
    let origin = origin_of(&came, step.matched, rows.lists[row].len(), walks);
    let target = target_of(alloc, rows, code.start, &step.next)?;
    Ok(Cell {
        row,
        sight,
        next: target.next,
        begun: target.begun,
        came,
        matched: step.matched,
        origin,
    })
}

/// Whether the same is read.
#[inline(always)]
fn is_same_reading(a: Option<Reading>, b: Option<Reading>) -> bool
    ensures { result ≡ true → a ≡ b }
{
    match (a, b) {
        (None, None) => true,
        (Some(a), Some(b)) => a.code == b.code && a.width == b.width,
        _ => false,
    }
}

/// Whether the same is seen.
#[inline(always)]
fn is_same_sight(a: Sight, b: Sight) -> bool
    ensures { result ≡ true → a ≡ b }
{
    a.before == b.before && a.after == b.after && is_same_reading(a.reading, b.reading)
}

/// The step that a hint names, if it is from this row on what is seen.
#[inline(always)]
fn tested_cell(cells: &[Cell], hint: Option<usize>, row: usize, sight: Sight) -> Option<usize>
    ensures { IfSome result (λ k. HasCell cells.now k row sight) }
{
    let k = hint?;
    if k >= cells.len() {
        return None;
    }
    let cell = &cells[k];
    if cell.row != row {
        return None;
    }
    if !is_same_sight(cell.sight, sight) {
        return None;
    }
    Some(k)
}

/// What is seen at a place, as the code tells it apart: where an ASCII character is read, the one that stands for its class.
#[inline(always)]
pub fn seen_at(attempt: &Attempt, cells: &Cells, place: usize) -> Sight
    requires within { place ≤ attempt.now.last }
    requires inside { attempt.now.last ≤ length attempt.now.haystack.now }
    ensures told { IsFor cells.now attempt.now.code.now
        → IsSeenLike attempt.now place result }
{
    let classes = &cells.table.classes;
    match ascii_at(attempt, place) {
        None => sight_at(attempt, classes.tests, place),
        Some(byte) => classes.sight(classes.tests.before(attempt, place), byte),
    }
}

/// The number of a step, if it is remembered.
#[inline(always)]
fn cell_of(step: Transition) -> Option<usize> {
    match step.kind {
        Kind::Unknown => None,
        Kind::Quiet | Kind::Mixed | Kind::Matching => Some(step.cell as usize),
    }
}

/// The number of the step from a row on what is seen, an ASCII character, if the table tells it.
fn told(cells: &Cells, row: usize, sight: Sight, byte: u8) -> Option<usize>
    requires row { row < 65_536 }
    ensures { IfSome result (λ k. HasCell cells.now.cells.items k row sight) }
{
    let classes = &cells.table.classes;
    let column = classes.column(byte)?;
    let table = cells.table.view();
    let step = table.at(classes.start(row, sight.before), column);
    tested_cell(&cells.cells, cell_of(step), row, sight)
}

/// The number of the step from a row on what is seen, which is no ASCII character, if a slot tells it.
#[inline(always)]
fn told_apart(cells: &Cells, row: usize, sight: Sight) -> Option<usize>
    requires row { row < 65_536 }
    ensures { IfSome result (λ k. HasCell cells.now.cells.items k row sight) }
{
    let code = match sight.reading {
        None => NOTHING,
        Some(reading) => reading.code,
    };
    let start = cells.table.classes.start(row, sight.before);
    let slot = slot_at(&cells.table.slots.items, start, code)?;
    tested_cell(&cells.cells, cell_of(slot.entry), row, sight)
}

/// Whether the table tells the step from a row on an ASCII character, with what stands before it.
pub fn is_told(cells: &Cells, row: usize, before: Side, byte: u8) -> bool
    requires row { row < 65_536 }
{
    let classes = &cells.table.classes;
    let Some(column) = classes.column(byte) else {
        return false;
    };
    let table = cells.table.view();
    !matches!(
        table.at(classes.start(row, before), column).kind,
        Kind::Unknown
    )
}

/// The number of the step from a row on what is seen, if it is remembered.
#[inline(always)]
pub fn remembered(cells: &Cells, row: usize, sight: Sight) -> Option<usize>
    requires within { IsBounded cells.now }
    requires row { row < length cells.now.rows.lists.items }
    ensures { IfSome result (λ k. HasCell cells.now.cells.items k row sight) }
{
    match sight.ascii() {
        Some(byte) => told(cells, row, sight, byte),
        None => told_apart(cells, row, sight),
    }
}

/// The entry of the step with this number, in a table of these classes.
fn entry_of(cells: &[Cell], k: usize, classes: &Classes) -> Transition
    requires { k < length cells.now }
    ensures { (row : ℕ) (sight : Sight) → HasCell cells.now k row sight
        → IsEntry classes.now cells.now row sight result }
{
    let cell = &cells[k];
    if k >= SMALL || cell.next >= SMALL || cell.begun >= SMALL {
        return Transition::unknown();
    }
    let after = cell.sight.after;
    let step = Transition {
        ahead: classes.start(cell.next, after),
        opened: classes.start(cell.begun, after),
        cell: k as u16,
        next: cell.next as u16,
        begun: cell.begun as u16,
        origin: cell.origin,
        kind: Kind::Matching,
    };
    match cell.matched {
        Some(_) => step,
        None if matches!(cell.origin, Origin::Mixed) => Transition {
            kind: Kind::Mixed,
            ..step
        },
        None => Transition {
            kind: Kind::Quiet,
            ..step
        },
    }
}

/// Notes the step with this number, so that it is found again.
fn note(alloc: Global, table: &mut Transitions, cells: &[Cell], k: usize) -> Result<(), AllocError>
    requires { k < length cells.now }
    ensures told { AreTold cells.now table.old → AreTold cells.now table.new }
    ensures classes { table.new.classes ≡ table.old.classes }
{
    let cell = &cells[k];
    if cell.row >= SMALL {
        return Ok(());
    }
    let entry = entry_of(cells, k, &table.classes);
    if cell.sight.ascii().is_none() {
        return table.leave(alloc, cell.row, cell.sight, entry, cells.len());
    }
    table.note(cell.row, cell.sight, entry)
}

/// Whether the rows before the first place are where they are looked for.
#[inline(always)]
pub fn has_origin(code: &Code, cells: &Cells) -> bool
    ensures { result ≡ true
        → HasRows cells.now.rows.lists.items cells.now.rows.nothing cells.now.alone [] code.now.start }
{
    if !cells.rows.is_empty(cells.rows.nothing) {
        return false;
    }
    cells.rows.has_alone(cells.alone, code.start)
}

/// Sorts ASCII characters into classes, where that was not done for the code.
fn sort(code: &Code, cells: &mut Cells) -> Result<(), AllocError>
    requires kept { HoldsFor cells.old code.now }
    ensures kept { HoldsFor cells.new code.now }
{
    if cells.table.classes.len() > 0 {
        return Ok(());
    }
    cells.forget();
    cells.table.classes = classes_of(cells.alloc, code)?;
    Ok(())
}

/// Makes the rows before the first place: that without an instruction, and that of the first instruction alone. Where one more step
/// may be one too many, all is forgotten before they are made.
#[inline(never)]
fn made_origin(code: &Code, cells: &mut Cells) -> Result<Target, AllocError>
    requires kept { HoldsFor cells.old code.now }
    ensures kept { HoldsFor cells.new code.now }
    ensures rows { IfOk result (λ t.
        HasRows cells.new.rows.lists.items t.next t.begun [] code.now.start) }
{
    sort(code, cells)?;
    cells.make_place();
    let target = target_of(cells.alloc, &mut cells.rows, code.start, &[])?;
    cells.alone = target.begun;
    Ok(target)
}

/// The rows before the first place, made where they are not there.
#[inline(always)]
pub fn origin(code: &Code, cells: &mut Cells) -> Result<Target, AllocError>
    requires kept { HoldsFor cells.old code.now }
    ensures kept { HoldsFor cells.new code.now }
    ensures rows { IfOk result (λ t.
        HasRows cells.new.rows.lists.items t.next t.begun [] code.now.start) }
{
    if has_origin(code, cells) {
        return Ok(Target {
            next: cells.rows.nothing,
            begun: cells.alone,
        });
    }
    made_origin(code, cells)
}

/// The number of the step of the way that begins, where that is the last of these ways, there are others before it, and what it
/// does by itself on what is seen there is remembered.
fn begun_cell(code: &Code, cells: &Cells, ways: &[usize], sight: Sight) -> Option<usize>
    requires within { IsBounded cells.now }
    ensures more { IfSome result (λ _. 0 < length ways.now) }
    ensures last { IfSome result (λ _.
        ways.now ≡ take (length ways.now - 1) ways.now ++ code.now.start ∷ []) }
    ensures alone { IfSome result (λ _.
        HasRow cells.now.rows.lists.items cells.now.alone (code.now.start ∷ [])) }
    ensures cell { IfSome result (λ k. HasCell cells.now.cells.items k cells.now.alone sight) }
{
    if ways.len() < 2 {
        return None;
    }
    if ways[ways.len() - 1] != code.start {
        return None;
    }
    if !cells.rows.has(cells.alone, &[code.start]) {
        return None;
    }
    let k = remembered(cells, cells.alone, sight)?;
    Some(k)
}

/// Counts steps until there are so many, as far as the number goes.
fn count_up(work: &mut Work, wanted: usize)
    ensures counts { AddsSteps (wanted - steps_of work.old) work.old work.new }
    ensures reached { wanted ≤ steps_of work.new }
{
    for step in work.steps()..wanted {
        work.count_step_within();
    }
}

/// Computes the step from a row on what is seen there. Where the step of the way that begins there is remembered, only the others
/// are followed. Each instruction is fetched once at most, and each way that the step leads to costs a step at least.
fn step_of(
    code: &Code,
    cells: &Cells,
    row: usize,
    sight: Sight,
    scratch: &mut Scratch,
    work: &mut Work,
) -> Result<Step, AllocError>
    requires row { row < length cells.now.rows.lists.items }
    requires kept { HoldsFor cells.now code.now }
    ensures step { IfOk result (IsStepOn code.now (ways_at cells.now.rows.lists.items row) sight) }
    ensures counts { AddsSteps (code_len code.now) work.old work.new }
    ensures paid { IfOk result (λ s.
        PaysFor (min (length s.next.items) (code_len code.now)) work.old work.new) }
{
    let ways = cells.rows.lists[row].as_slice();
    let Some(k) = begun_cell(code, cells, ways, sight) else {
        let step = step_from(cells.alloc, code, ways, sight, scratch, work)?;
        return Ok(step);
    };
    let before = work.steps();
    let others = &ways[..ways.len() - 1];
    let first = step_from(cells.alloc, code, others, sight, scratch, work)?;
    let cell = &cells.cells[k];
    let begun = Begun {
        ats: &cells.rows.lists[cell.next],
        matched: cell.matched,
    };
    let step = joined(
        cells.alloc,
        code,
        others.len(),
        first,
        begun,
        &mut scratch.marks,
    )?;
    count_up(work, before.saturating_add(step.next.len().min(code.len())));
    Ok(step)
}

/// The number of the step from a row on what is seen there: one that is remembered, or else it is computed. What is computed
/// is counted in `work`: each way that it leads to costs a step at least.
pub fn step_at(
    code: &Code,
    cells: &mut Cells,
    row: usize,
    sight: Sight,
    work: &mut Work,
) -> Result<usize, AllocError>
    requires row { row < length cells.old.rows.lists.items }
    requires place { HasPlace cells.old }
    requires all { IsFor cells.old code.now }
    ensures kept { HoldsFor cells.new code.now }
    ensures rows { KeepsRows cells.old.rows.lists.items cells.new.rows.lists.items }
    ensures grown { KeepsCells cells.old.cells.items cells.new.cells.items }
    ensures cell { IfOk result (λ k. HasCell cells.new.cells.items k row sight) }
    ensures counts { AddsSteps (code_len code.now) work.old work.new }
    ensures paid { IfOk result (λ k. length cells.old.cells.items < length cells.new.cells.items
        → PaysFor (min (length (came_at cells.new.cells.items k)) (code_len code.now))
        work.old work.new) }
{
    if let Some(k) = remembered(cells, row, sight) {
        return Ok(k);
    }
    let mut scratch = mem::replace(&mut cells.scratch, Scratch::new(cells.alloc));
    let step = step_of(code, cells, row, sight, &mut scratch, work)?;
    cells.scratch = scratch;
    let cell = computed(code, &mut cells.rows, row, sight, step, cells.walks)?;
    let k = cells.cells.len();
    cells.held = cells.held.saturating_add(cell.came.len());
    cells.cells.push(cell)?;
    note(cells.alloc, &mut cells.table, &cells.cells, k)?;
    Ok(k)
}

/// Forgets all rows and steps but the row with this number, which is two rows then: its own, and that with one more way,
/// which begins at `start`.
pub fn restart(cells: &mut Cells, start: usize, row: usize) -> Result<Target, AllocError>
    requires row { row < length cells.old.rows.lists.items }
    requires within { IsBounded cells.old }
    ensures stays { StaysTrue cells.old cells.new }
    ensures rows { IfOk result (λ t. HasRows cells.new.rows.lists.items t.next t.begun
        (ways_at cells.old.rows.lists.items row) start) }
    ensures within { IsBounded cells.new }
    ensures place { IfOk result (λ _. HasPlace cells.new) }
{
    let mut ways = copied(cells.alloc, &cells.rows.lists[row])?;
    cells.forget();
    let alone = intern(cells.alloc, &mut cells.rows, &[start])?;
    cells.alone = alone;
    let next = intern(cells.alloc, &mut cells.rows, &ways)?;
    ways.push(start)?;
    let begun = intern(cells.alloc, &mut cells.rows, &ways)?;
    Ok(Target { next, begun })
}
