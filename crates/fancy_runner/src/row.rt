//! A row of threads that wait, each with slots of its own.

ghost use Rattle.std.specs.Prelude.{◌≡◌, ◌∷◌, ◌++◌, [], drop, reverse, OnOk, IfOk, length, ◌==◌};
ghost use Rattle.fancy_code.specs.Code.{instrs_of};
ghost use Rattle.fancy_runner.specs.Rows.{row_threads, Popped, PassedOn};
ghost use Rattle.fancy_runner.specs.Threads.{thread_of, slots_after};

use crate::pair::Pair;
use crate::threads::Threads;
use fancy_code::code::Code;
use fancy_code::slot::Slot;
use std::alloc::{AllocError, Global};
use std::marker::Model;
use std::mem;

/// A thread that waits.
#[derive(Clone, Copy)]
pub struct Waiting {
    /// Where it stands.
    pub pair: Pair,
    /// Where its slots begin, among those of all threads.
    pub from: usize,
}

/// Threads that wait. The one that came last is taken first.
#[derive(Drop)]
pub struct Row {
    waiting: Vec<Waiting>,
    slots: Vec<Slot>,
    // the slots of one thread, while it comes
    spare: Vec<Slot>,
}

impl Model for Row {
    ghost use Rattle.std.specs.Prelude.{List, reverse};
    ghost use Rattle.fancy_code.specs.Thread.{Thread};
    ghost use Rattle.fancy_runner.specs.Rows.{row_threads};

    ghost Value = { List Thread };

    ghost view = { λ r. row_threads (reverse r.waiting.items) r.slots.items };
}

/// The slots from one on.
fn slots_from(slots: &[Slot], from: usize) -> &[Slot]
    ensures { result.now ≡ drop from slots.now }
{
    if from >= slots.len() {
        return &[];
    }
    &slots[from..]
}

/// One more thread waits, with these slots.
fn put(
    waiting: &mut Vec<Waiting>,
    all: &mut Vec<Slot>,
    pair: Pair,
    slots: &[Slot],
) -> Result<(), AllocError>
    ensures { OnOk result (row_threads (reverse waiting.new.items) all.new.items
        ≡ thread_of pair slots.now ∷ row_threads (reverse waiting.old.items) all.old.items) }
{
    let from = all.len();
    waiting.push(Waiting { pair, from })?;
    all.extend_from_slice(slots)?;
    Ok(())
}

impl Row {
    /// No thread.
    pub fn new(alloc: Global) -> Row
        ensures { result ≡ [] }
    {
        Row {
            waiting: Vec::new(alloc),
            slots: Vec::new(alloc),
            spare: Vec::new(alloc),
        }
    }

    /// Whether no thread waits.
    pub fn is_empty(&self) -> bool
        ensures { result ≡ (length self.now == 0) }
    {
        self.waiting.is_empty()
    }

    /// Whether one thread waits.
    fn is_one(&self) -> bool
        ensures { result ≡ (length self.now == 1) }
    {
        self.waiting.len() == 1
    }

    /// Leaves out all threads. The memory that it has is kept.
    pub fn clear(&mut self)
        ensures { self.new ≡ [] }
    {
        self.waiting.clear();
        self.slots.clear();
    }

    /// One more thread waits, which is taken first.
    pub fn push(&mut self, pair: Pair, slots: &[Slot]) -> Result<(), AllocError>
        ensures { OnOk result (self.new ≡ thread_of pair slots.now ∷ self.old) }
    {
        put(&mut self.waiting, &mut self.slots, pair, slots)
    }

    /// The thread that is followed waits, at a pair, and is taken first.
    pub fn push_current(
        &mut self,
        pair: Pair,
        threads: &Threads,
        code: &Code,
    ) -> Result<(), AllocError>
        ensures { OnOk result (self.new
            ≡ thread_of pair (slots_after (instrs_of code.now) threads.now.passed threads.now.slots)
            ∷ self.old) }
    {
        if let Some(slots) = threads.plain_slots() {
            return put(&mut self.waiting, &mut self.slots, pair, slots);
        }
        threads.copy_slots(code, &mut self.spare)?;
        put(&mut self.waiting, &mut self.slots, pair, &self.spare)
    }

    /// Takes the thread that came last, and loads its slots.
    pub fn pop(&mut self, threads: &mut Threads) -> Result<Option<Pair>, AllocError>
        ensures { IfOk result (λ taken. Popped taken self.old self.new threads.new) }
    {
        let Some(last) = self.waiting.pop() else {
            return Ok(None);
        };
        threads.load(slots_from(&self.slots, last.from))?;
        self.slots.truncate(last.from);
        Ok(Some(last.pair))
    }

    /// Takes the thread that came last over to another row.
    fn pass_last(&mut self, row: &mut Row) -> Result<bool, AllocError>
        ensures { IfOk result (λ any. PassedOn any self.old self.new row.old row.new) }
    {
        let Some(last) = self.waiting.pop() else {
            return Ok(false);
        };
        row.push(last.pair, slots_from(&self.slots, last.from))?;
        self.slots.truncate(last.from);
        Ok(true)
    }

    /// Takes all threads over to another row, the one that came last first.
    pub fn pass_all(&mut self, row: &mut Row) -> Result<(), AllocError>
        ensures row { OnOk result (row.new ≡ reverse self.old ++ row.old) }
        ensures empty { OnOk result (self.new ≡ []) }
    {
        if row.is_empty() && self.is_one() {
            mem::swap(self, row);
            return Ok(());
        }
        'threads: while self.pass_last(row)? {}
        Ok(())
    }
}
