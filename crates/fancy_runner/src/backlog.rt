//! The threads that a search saved, taken out from the oldest on.

ghost use Rattle.std.specs.Prelude.{◌≡◌, Some, [], List, drop};
ghost use Rattle.fancy_code.specs.Instructions.{Instruction};
ghost use Rattle.fancy_runner.specs.Threads.{with_way, held_of};
ghost use Rattle.fancy_runner.specs.Backlog.{threads_in_backlog, TookOldest, TookNext};
ghost use Rattle.fancy_code.specs.Code.{instrs_of};

use crate::pair::Pair;
use crate::threads::{Saved, Threads, way_from, write_group};
use fancy_code::code::Code;
use fancy_code::slot::Slot;

/// The threads that a search has before it: those that it saved, of which the oldest are taken out first, and the one that it
/// followed last.
#[derive(Drop)]
pub struct Backlog {
    /// What was saved. The slots are those of the thread that was taken out last.
    pub saved: Saved,
    /// So many of the branches were taken out.
    pub begun: usize,
    /// So many of the pairs that were passed were passed anew.
    pub gone: usize,
    /// Where the thread stands that was followed last, as long as it was not taken out.
    pub current: Option<Pair>,
}

impl Backlog {
    /// All of the threads, of which the one that is followed stands at a pair.
    pub fn new(threads: &mut Threads, pair: Pair) -> Backlog
        ensures { (code : List Instruction) → threads_in_backlog code result
            ≡ with_way (Some pair) (held_of code threads.old).slots
            (held_of code threads.old).saved }
    {
        Backlog {
            saved: threads.give_up(),
            begun: 0,
            gone: 0,
            current: Some(pair),
        }
    }

    /// Passes pairs anew up to the next choice, and takes out the other way from there.
    fn next_way(&mut self, code: &Code) -> Option<Pair>
        requires { drop self.old.begun self.old.saved.branches.items ≡ [] }
        ensures took { TookNext (instrs_of code.now) result self.old self.new }
        ensures current { self.new.current ≡ self.old.current }
    {
        'passed: while self.gone < self.saved.passed.len() {
            let pair = self.saved.passed[self.gone];
            self.gone += 1;
            if let Some(way) = way_from(code, pair) {
                return Some(way);
            }
            write_group(&mut self.saved.slots, code, pair);
        }
        None
    }

    /// Takes out the oldest thread, and returns where it stands. Its slots are those of the backlog then.
    pub fn oldest(&mut self, code: &Code) -> Option<Pair>
        ensures { TookOldest (instrs_of code.now) result self.old self.new }
    {
        if self.begun < self.saved.branches.len() {
            let branch = self.saved.branches[self.begun];
            self.begun += 1;
            return Some(branch);
        }
        if let Some(way) = self.next_way(code) {
            return Some(way);
        }
        let current = self.current;
        self.current = None;
        current
    }

    /// The slots of the thread that was taken out last.
    pub fn slots(&self) -> &[Slot]
        ensures { result.now ≡ self.now.saved.slots.items }
    {
        &self.saved.slots
    }
}
