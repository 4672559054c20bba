//! The code of a pattern while it is made.

ghost use Rattle.std.specs.Prelude.{◌≡◌, ◌+◌, ◌<◌, IfOk, IfSome, IsTrue, true, length, slice_set, None, []};
ghost use Rattle.fancy_tree.specs.Pattern.{member_of, backreference};
ghost use Rattle.fancy_tree.specs.Members.{edges_of};
ghost use Rattle.fancy_prefilter.specs.Prefilters.{branches_in};
ghost use Rattle.fancy_code.specs.Instructions.{are_known, is_known, edges_at};

use crate::code::{Code, Entry, Instr};
use fancy_prefilter::prefilter::Prefilter;
use fancy_tree::char_set::CharSet;
use fancy_tree::set::Set;
use fancy_tree::tree::Meaning;
use std::alloc::{AllocError, Global};

/// How many of the last sets are looked at for the next one.
const LAST_FEW: usize = 8;

/// How many edges may be compared in any code.
const COMPARED_AT_FIRST: usize = 1 << 24;

/// How many more may be compared for each set.
const COMPARED_FOR_EACH: usize = 64;

/// The instructions so far, and the sets in them.
///
/// A repeat that emits its body more than once goes back before each further copy, by `next_set`, to the first set of the
/// copy before; so each copy of a set finds the one that is there. A set that is one of the last few before that is found, too.
/// Each set makes room for a few more edges to be compared, so that the time is in proportion to the instructions, however many
/// edges a set has; one that was not found is there once more, and shares its edges.
#[derive(Drop)]
pub(crate) struct Emitter {
    instrs: Vec<Instr>,
    sets: Vec<CharSet>,
    // the number of the next set, if that is there already
    pub(crate) next_set: usize,
    // how many edges may be compared yet
    comparable: usize,
    ghost known: { IsTrue (are_known (length sets.items) instrs.items) },
}

impl Emitter {
    ghost use Rattle.fancy_code.specs.Code.{IsMadeOf};
    ghost use Rattle.fancy_code.specs.Emitted.{Emits, Puts, PutsBoth, PutsShared, emitted, len_of, instr_by};

    /// No instruction yet.
    pub(crate) fn new(alloc: Global) -> Emitter
        ensures { emitted result ≡ [] }
    {
        Emitter {
            instrs: Vec::new(alloc),
            sets: Vec::new(alloc),
            next_set: 0,
            comparable: COMPARED_AT_FIRST,
        }
    }

    pub(crate) fn allocator(&self) -> Global {
        *self.instrs.allocator()
    }

    /// One more instruction, and its number.
    pub(crate) fn put(&mut self, instr: Instr) -> Result<usize, AllocError>
        requires known { is_known (length self.old.sets.items) instr ≡ true }
        ensures puts { IfOk result (λ at.
            Puts (instr_by self.old instr) self.old self.new at) }
        ensures sets { self.new.sets ≡ self.old.sets }
    {
        let at = self.instrs.len();
        self.instrs.push(instr)?;
        Ok(at)
    }

    /// One more instruction, for both forms.
    pub(crate) fn put_shared(&mut self, instr: Instr) -> Result<Entry, AllocError>
        requires known { is_known (length self.old.sets.items) instr ≡ true }
        ensures { IfOk result (λ entry.
            PutsShared (instr_by self.old instr) self.old self.new entry) }
    {
        let at = self.put(instr)?;
        Ok(Entry {
            moved: at,
            still: at,
        })
    }

    /// One more instruction for each form.
    pub(crate) fn put_both(&mut self, moved: Instr, still: Instr) -> Result<Entry, AllocError>
        requires moved_known { is_known (length self.old.sets.items) moved ≡ true }
        requires still_known { is_known (length self.old.sets.items) still ≡ true }
        ensures { IfOk result (λ entry.
            PutsBoth (instr_by self.old moved) (instr_by self.old still) self.old self.new entry) }
    {
        let moved = self.put(moved)?;
        let still = self.put(still)?;
        Ok(Entry { moved, still })
    }

    /// One more instruction that consumes an item of the set, for both forms.
    pub(crate) fn put_member(
        &mut self,
        meaning: Meaning,
        set: &Set,
        next: Entry,
    ) -> Result<Entry, AllocError>
        ensures { IfOk result (λ entry.
            Emits meaning (member_of (edges_of set.now)) self.old self.new next entry) }
    {
        let number = self.number_of(set)?;
        self.put_shared(Instr::Member(number, next.moved))
    }

    /// One more instruction for each form, which reads on over the text of a group.
    pub(crate) fn put_recall(
        &mut self,
        meaning: Meaning,
        folded: bool,
        group: usize,
        next: Entry,
    ) -> Result<Entry, AllocError>
        ensures { IfOk result (λ entry.
            Emits meaning (backreference folded group) self.old self.new next entry) }
    {
        let moved = next.moved;
        let read = Instr::Recall {
            folded,
            group,
            moved,
            still: moved,
        };
        let still = Instr::Recall {
            folded,
            group,
            moved,
            still: next.still,
        };
        self.put_both(read, still)
    }

    /// The number of this set, if it is one of the last few, or the next one of the copy before.
    fn number_before(&self, set: &Set) -> Option<usize>
        ensures within { IfSome result (λ number. number < length self.now.sets.items) }
        ensures edges { IfSome result (λ number.
            edges_at self.now.sets.items number ≡ edges_of set.now) }
    {
        let first = self.next_set.saturating_sub(LAST_FEW);
        let end = self.next_set.saturating_add(1).min(self.sets.len());
        for number in first..end {
            if self.sets[number].is_of(set) {
                return Some(number);
            }
        }
        None
    }

    /// The number of this set, if it was found by comparing no more edges than may be compared yet.
    fn number_compared(&mut self, set: &Set) -> Option<usize>
        ensures instrs { self.new.instrs ≡ self.old.instrs }
        ensures sets { self.new.sets ≡ self.old.sets }
        ensures within { IfSome result (λ number. number < length self.old.sets.items) }
        ensures edges { IfSome result (λ number.
            edges_at self.old.sets.items number ≡ edges_of set.now) }
    {
        let edges = set.edges().len();
        self.comparable = self.comparable.saturating_add(COMPARED_FOR_EACH);
        if edges > self.comparable {
            return None;
        }
        self.comparable -= edges;
        self.number_before(set)
    }

    /// The number of the set, which is shared with one of the last few, or with the copy before, where one is the same.
    fn number_of(&mut self, set: &Set) -> Result<usize, AllocError>
        ensures instrs { IfOk result (λ _. emitted self.new ≡ emitted self.old) }
        ensures within { IfOk result (λ number. number < length self.new.sets.items) }
        ensures edges { IfOk result (λ number.
            edges_at self.new.sets.items number ≡ edges_of set.now) }
    {
        if let Some(number) = self.number_compared(set) {
            self.next_set = self.next_set.max(number + 1);
            return Ok(number);
        }
        let number = self.sets.len();
        self.sets.push(CharSet::new(set.copied()?))?;
        self.next_set = number + 1;
        Ok(number)
    }

    /// The instruction at `at`, which was reserved, is this one.
    pub(crate) fn write(&mut self, at: usize, instr: Instr)
        requires within { at < len_of self.old }
        requires known { is_known (length self.old.sets.items) instr ≡ true }
        ensures length { len_of self.new ≡ len_of self.old }
        ensures items { emitted self.new
            ≡ slice_set (emitted self.old) at (instr_by self.old instr) }
    {
        self.instrs[at] = instr;
    }

    /// The code, which begins at `start`.
    pub(crate) fn into_code(
        self,
        start: usize,
        groups: usize,
        meaning: Meaning,
        prefilter: Prefilter,
    ) -> Result<Code, AllocError>
        requires { branches_in prefilter.opening ≡ None }
        ensures { IfOk result (λ code.
            IsMadeOf (emitted self) start groups meaning prefilter code) }
    {
        Code::new(self.instrs, self.sets, start, groups, meaning, prefilter)
    }
}
