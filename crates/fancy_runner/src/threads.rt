//! The slots of the thread that a search follows, and the branches that it saved, over one list of slots.

ghost use Rattle.std.specs.Prelude.{◌≡◌, ℕ, [], replicate, reverse, OnOk, IfSome, slice_index_or};
ghost use Rattle.fancy_runner.specs.Saved.{kept_of};
ghost use Rattle.fancy_code.specs.Code.{instrs_of};
ghost use Rattle.fancy_code.specs.Instructions.{Open, Close};
ghost use Rattle.fancy_code.specs.Run.{instr_at};
ghost use Rattle.fancy_code.specs.Thread.{empty_slot};
ghost use Rattle.fancy_runner.specs.Threads.{slots_past, with_group, other_way, slots_after, AreFresh, SavedWay, PassedInstr, TookWay, Backed};

use crate::pair::Pair;
use fancy_code::code::{Code, Instr};
use fancy_code::slot::{EMPTY, Slot};
use fancy_input::span::Span;
use fancy_input::work::Work;
use std::alloc::{AllocError, Global};
use std::marker::Model;
use std::mem;

/// Begins a list of slots anew with so many, none written. They are pushed one by one: most patterns have one or two, for
/// which a call that fills memory costs more.
#[tactic(auto, using(std::proofs::lemmas::List::replicate_more))]
pub fn begin_slots(slots: &mut Vec<Slot>, count: usize) -> Result<(), AllocError>
    ensures { OnOk result (slots.new.items ≡ replicate count empty_slot) }
{
    slots.clear();
    'slots: for _ in 0..count {
        slots.push(EMPTY)?;
    }
    Ok(())
}

/// A group begins at a place: its slot says so, and its span stays.
fn begin_group(slots: &mut Vec<Slot>, group: usize, place: usize)
    ensures { (next : ℕ) → slots.new.items ≡ slots_past (Open group next) place slots.old.items }
{
    if group < slots.len() {
        let span = slots[group].span;
        slots[group] = Slot { from: place, span };
    }
}

/// A group ends at a place: its text goes from where it began up to there.
fn end_group(slots: &mut Vec<Slot>, group: usize, place: usize)
    ensures { (next : ℕ) → slots.new.items ≡ slots_past (Close group next) place slots.old.items }
{
    if group < slots.len() {
        let from = slots[group].from;
        let span = Span {
            start: from,
            end: place,
        };
        slots[group] = Slot {
            from,
            span: Some(span),
        };
    }
}

/// Writes the slot of the group that begins or ends at a pair, if one does.
pub(crate) fn write_group(slots: &mut Vec<Slot>, code: &Code, pair: Pair)
    ensures { slots.new.items ≡ slots_past (instr_at
        (instrs_of code.now) pair.at) pair.place slots.old.items }
{
    if pair.at >= code.len() {
        return;
    }
    match code.instr(pair.at) {
        Instr::Open(group, _) => begin_group(slots, *group, pair.place),
        Instr::Close(group, _) => end_group(slots, *group, pair.place),
        _ => {}
    }
}

/// Writes the slots of the groups that begin and end at pairs, the first pair first.
fn write_groups(slots: &mut Vec<Slot>, code: &Code, pairs: &[Pair])
    ensures { slots.new.items ≡ slots_after (instrs_of code.now)
        (reverse pairs.now) slots.old.items }
{
    'pairs: for n in 0..pairs.len() {
        write_group(slots, code, pairs[n]);
    }
}

/// The pair that the other way from a pair begins at, if the pair is at a choice.
pub(crate) fn way_from(code: &Code, pair: Pair) -> Option<Pair>
    ensures { result ≡ other_way (instr_at (instrs_of code.now) pair.at) pair.place }
{
    if pair.at >= code.len() {
        return None;
    }
    match code.instr(pair.at) {
        Instr::Split(_, second) => Some(Pair {
            at: *second,
            place: pair.place,
        }),
        _ => None,
    }
}

/// Takes pairs away, the last one first, up to a choice, and returns the other way from there.
fn take_way(code: &Code, passed: &mut Vec<Pair>) -> Option<Pair>
    ensures { TookWay (instrs_of code.now) result (reverse passed.old.items)
        (reverse passed.new.items) }
{
    'passed: while let Some(pair) = passed.pop() {
        if let Some(way) = way_from(code, pair) {
            return Some(way);
        }
    }
    None
}

/// With so many branches or so many pairs, 256 KB of them, a search goes on place by place.
const MOST_KEPT: usize = 16_384;

/// So many slots are copied at each place as fast as what is kept grows there. A code with more of them keeps more before it goes on
/// place by place, in proportion.
const FEW_SLOTS: usize = 16;

/// What threads keep: the slots, the branches that were saved before a group began or ended, and the pairs that were passed since.
#[derive(Drop)]
pub struct Saved {
    /// The slots as they were up to the first pair that was passed.
    pub slots: Vec<Slot>,
    /// Where the branches go on, the oldest first.
    pub branches: Vec<Pair>,
    /// The pairs that were passed, the oldest first.
    pub passed: Vec<Pair>,
}

/// The slots of the thread that is followed, and the saved branches, each with slots of its own. Where the thread
/// stands is told beside it.
///
/// As long as no group begins or ends past a saved branch, all have the slots that are kept, and a branch is the pair
/// where it goes on. From the first such group on, what is kept is the pairs that the thread passed: each choice, and
/// each start and end of a group. A pair takes two words, whatever it is. To go back is to take pairs away, up to a
/// choice. The slots are written once, when a match is found.
///
/// In `(?:(a)|b)*c` on `aac` the first choice of the star is a branch. Then four pairs are kept for each `a`: the
/// choice between the two ways, the start and the end of the group, and the star's next choice.
#[derive(Drop)]
pub struct Threads {
    slots: Vec<Slot>,
    branches: Vec<Pair>,
    passed: Vec<Pair>,
    // whether a slot was written since they were begun
    written: bool,
}

impl Model for Threads {
    ghost use Rattle.std.specs.Prelude.{◌≡◌, false, reverse, length, replicate};
    ghost use Rattle.fancy_runner.specs.Threads.{KeptThreads, threads_at};
    ghost use Rattle.fancy_code.specs.Thread.{empty_slot};

    ghost Value = { KeptThreads };

    ghost view = { λ w. record {
      slots = w.slots.items;
      saved = threads_at w.slots.items (reverse w.branches.items);
      passed = reverse w.passed.items;
    } };

    ghost invariant = { λ w. w.written ≡ false
        → w.slots.items ≡ replicate (length w.slots.items) empty_slot };
}

impl Threads {
    /// No slot and no branch.
    pub fn new(alloc: Global) -> Threads
        ensures slots { result.slots ≡ [] }
        ensures fresh { AreFresh result }
    {
        Threads {
            slots: Vec::new(alloc),
            branches: Vec::new(alloc),
            passed: Vec::new(alloc),
            written: false,
        }
    }

    /// Begins anew with so many slots, none written. The memory that it has is kept, and so are slots that nothing was
    /// written to.
    pub fn begin(&mut self, count: usize) -> Result<(), AllocError>
        ensures slots { OnOk result (self.new.slots ≡ replicate count empty_slot) }
        ensures fresh { AreFresh self.new }
    {
        self.branches.clear();
        self.passed.clear();
        if self.written || self.slots.len() != count {
            self.written = true;
            begin_slots(&mut self.slots, count)?;
            self.written = false;
        }
        Ok(())
    }

    /// Begins anew with so many slots, none written but that of a group which begins at a place, if one does.
    pub(crate) fn begin_with(
        &mut self,
        count: usize,
        group: Option<usize>,
        place: usize,
    ) -> Result<(), AllocError>
        ensures slots { OnOk result (self.new.slots
            ≡ with_group group place (replicate count empty_slot)) }
        ensures fresh { OnOk result (AreFresh self.new) }
    {
        self.begin(count)?;
        if let Some(group) = group {
            self.written = true;
            begin_group(&mut self.slots, group, place);
        }
        Ok(())
    }

    /// What is known of a group, up to the pairs that were passed since.
    pub fn slot(&self, number: usize) -> Slot
        ensures { result ≡ slice_index_or self.now.slots number empty_slot }
    {
        match self.slots.get(number) {
            Some(slot) => *slot,
            None => EMPTY,
        }
    }

    /// The thread passes a choice at a pair, and the way that begins at `second` is saved.
    pub fn save(&mut self, pair: Pair, second: usize) -> Result<(), AllocError>
        ensures { OnOk result (SavedWay pair second self.old self.new) }
    {
        if self.passed.is_empty() {
            let branch = Pair {
                at: second,
                place: pair.place,
            };
            self.branches.push(branch)?;
        } else {
            self.passed.push(pair)?;
        }
        Ok(())
    }

    /// The thread passes the start of a group at a pair.
    pub fn open_group(&mut self, pair: Pair, group: usize) -> Result<(), AllocError>
        ensures { (next : ℕ) → OnOk result (PassedInstr pair (Open group next) self.old self.new) }
    {
        if self.branches.is_empty() && self.passed.is_empty() {
            self.written = true;
            begin_group(&mut self.slots, group, pair.place);
            return Ok(());
        }
        self.passed.push(pair)?;
        Ok(())
    }

    /// The thread passes the end of a group at a pair.
    pub fn close_group(&mut self, pair: Pair, group: usize) -> Result<(), AllocError>
        ensures { (next : ℕ) → OnOk result (PassedInstr pair (Close group next) self.old self.new) }
    {
        if self.branches.is_empty() && self.passed.is_empty() {
            self.written = true;
            end_group(&mut self.slots, group, pair.place);
            return Ok(());
        }
        self.passed.push(pair)?;
        Ok(())
    }

    /// Takes the branch that was saved last, which is one return, and goes back to what was passed before it. Returns
    /// where the branch stands, if there was one.
    pub fn back(&mut self, code: &Code, work: &mut Work) -> Option<Pair>
        ensures { Backed (instrs_of code.now) result self.old self.new work.old work.new }
    {
        if let Some(way) = take_way(code, &mut self.passed) {
            work.count_return_within();
            return Some(way);
        }
        let Some(branch) = self.branches.pop() else {
            return None;
        };
        work.count_return_within();
        Some(branch)
    }

    /// Writes the slots of the thread that is followed. What is saved has no meaning from then on.
    pub fn settle(&mut self, code: &Code)
        ensures { self.new.slots ≡ slots_after (instrs_of code.now) self.old.passed self.old.slots }
    {
        if !self.passed.is_empty() {
            self.written = true;
            write_groups(&mut self.slots, code, &self.passed);
        }
    }

    /// Where the memory for slots and branches comes from.
    pub(crate) fn allocator(&self) -> Global {
        *self.slots.allocator()
    }

    /// Whether so much is kept that a search is to go on place by place. There each thread has slots of its own, which are copied
    /// from place to place.
    pub(crate) fn is_long(&self) -> bool {
        let kept = self.branches.len().max(self.passed.len());
        kept >= MOST_KEPT && kept / MOST_KEPT >= self.slots.len() / FEW_SLOTS
    }

    /// Gives up all that is kept.
    pub(crate) fn give_up(&mut self) -> Saved
        ensures { self.old ≡ kept_of result }
    {
        let alloc = self.allocator();
        self.written = true;
        Saved {
            slots: mem::replace(&mut self.slots, Vec::new(alloc)),
            branches: mem::replace(&mut self.branches, Vec::new(alloc)),
            passed: mem::replace(&mut self.passed, Vec::new(alloc)),
        }
    }

    /// Begins anew with these slots. The memory that it has is kept.
    pub(crate) fn load(&mut self, slots: &[Slot]) -> Result<(), AllocError>
        ensures slots { OnOk result (self.new.slots ≡ slots.now) }
        ensures fresh { AreFresh self.new }
    {
        self.branches.clear();
        self.passed.clear();
        self.written = true;
        self.slots.clear();
        self.slots.extend_from_slice(slots)?;
        Ok(())
    }

    /// The slots of the thread that is followed, if no pair was passed since they were written.
    pub(crate) fn plain_slots(&self) -> Option<&[Slot]>
        ensures { IfSome result (λ slots. (slots.now ≡ self.now.slots) × (self.now.passed ≡ [])) }
    {
        if self.passed.is_empty() {
            Some(&self.slots)
        } else {
            None
        }
    }

    /// Copies the slots of the thread that is followed.
    pub(crate) fn copy_slots(&self, code: &Code, out: &mut Vec<Slot>) -> Result<(), AllocError>
        ensures { OnOk result (out.new.items ≡ slots_after
            (instrs_of code.now) self.now.passed self.now.slots) }
    {
        out.clear();
        out.extend_from_slice(&self.slots)?;
        write_groups(out, code, &self.passed);
        Ok(())
    }
}
