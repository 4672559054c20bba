//! The code of a pattern: instructions that say where they go on.

ghost use Rattle.std.specs.Prelude.{◌≡◌, ◌<◌, ℕ, None, IfOk, IsTrue, length, slice_index};
ghost use Rattle.std.specs.Option.{ForSome};
ghost use Rattle.fancy_prefilter.specs.Prefilters.{branches_in};
ghost use Rattle.fancy_code.specs.Branches.{ArePaid};
ghost use Rattle.fancy_code.specs.Choices.{AreBeginnings};
ghost use Rattle.fancy_code.specs.Instructions.{are_known, edges_in, with_sets};
ghost use Rattle.fancy_code.specs.Marking.{IsPaid};

use crate::marking::Marking;
use fancy_input::work::Work;
use fancy_prefilter::choice::{Beginnings, Choice, ItemLoop};
use fancy_prefilter::prefilter::Prefilter;
use fancy_tree::char_set::CharSet;
use fancy_tree::tree::{Assertion, Meaning};
use std::alloc::AllocError;

/// One instruction. The last numbers of an instruction are those of the instructions that follow it.
#[derive(Drop)]
pub enum Instr {
    /// The way ends with an outcome.
    Match,
    /// The way ends without one.
    Fail,
    /// One item with this code.
    Character(char, usize),
    /// One item of the set with this number.
    Member(usize, usize),
    /// One byte, in any meaning.
    RawByte(u8, usize),
    /// A test of the place.
    Assert(Assertion, usize),
    /// Two ways, the first of which is preferred.
    Split(usize, usize),
    /// The group with this number begins.
    Open(usize, usize),
    /// The group with this number ends.
    Close(usize, usize),
    /// A part begins of which the first way that stops is taken, and no other.
    Enter(usize),
    /// The way stops, and what is round it goes on there.
    Commit(usize),
    /// A look-around begins: whether it looks behind, its body, and what follows.
    Look(bool, usize, usize),
    /// A negated look-around begins: whether it looks behind, its body, and what follows where that finds nothing.
    Deny(bool, usize, usize),
    /// A condition begins; what follows where it finds nothing.
    Test(usize, usize),
    /// So many units back.
    Back(usize, usize),
    /// The text of a group once more.
    Recall {
        /// Letters are matched in either case.
        folded: bool,
        /// The group's number.
        group: usize,
        /// What follows where something was consumed.
        moved: usize,
        /// What follows where nothing was.
        still: usize,
    },
    /// The match starts here.
    Keep(usize),
    /// The search starts here.
    Continue(usize),
    /// The group with this number has taken part.
    Taken(usize, usize),
}

/// The number of the instruction that ends a way with an outcome.
pub const MATCH: usize = 0;

/// The number of the instruction that ends a way without one.
pub const FAIL: usize = 1;

/// Where to go on: once something was consumed since the innermost star's turn began, and before that.
#[derive(Clone, Copy, PartialEq, Eq, Debug)]
pub struct Entry {
    /// The number of the instruction to go on at where something was consumed since the innermost star's turn began.
    pub moved: usize,
    /// The number of the instruction to go on at where nothing was.
    pub still: usize,
}

/// The two ways of a split, the first one preferred.
#[derive(Clone, Copy)]
pub struct Ways {
    /// The number of the instruction that the first way begins at.
    pub first: usize,
    /// The number of the one that the second way begins at.
    pub second: usize,
}

/// The instructions of a pattern, and the sets in them. Instructions share a set: the copies of a repeat
/// have equal sets once, as far as the emitter's budget of comparisons goes.
#[derive(Drop)]
pub struct Code {
    instrs: Vec<Instr>,
    sets: Vec<CharSet>,
    marking: Marking,
    // for each instruction what tells which ways of a choice are to be gone, or none where that tells nothing
    beginnings: Vec<Beginnings>,
    /// The number of the first instruction.
    pub start: usize,
    /// The groups of the pattern, with group 0.
    pub groups: usize,
    /// What one item consumes.
    pub meaning: Meaning,
    /// What tells where matches may begin.
    pub prefilter: Prefilter,
    ghost known: { IsTrue (are_known (length sets.items) instrs.items) },
    ghost marked: { length marking.numbers.items ≡ length instrs.items },
    ghost paid: { IsPaid (with_sets sets.items instrs.items) marking.numbers.items
        marking.weights.items start },
    ghost begun: { AreBeginnings beginnings.items (with_sets sets.items instrs.items) meaning },
    ghost branches_paid: { ForSome (branches_in prefilter.opening) (λ b.
        ArePaid b marking.numbers.items marking.weights.items start) },
}

impl Code {
    ghost use Rattle.std.specs.Prelude.{IfSome};
    ghost use Rattle.fancy_code.specs.Choices.{GoesRound, LeavesOut};
    ghost use Rattle.fancy_code.specs.Code.{IsMadeOf, instrs_of, instr_in, sets_len, set_edges, due_of, number_of, width_of};
    ghost use Rattle.fancy_code.specs.CodeLength.{code_len};
    ghost use Rattle.fancy_code.specs.Instructions.{Split};
    ghost use Rattle.fancy_code.specs.Run.{instr_at};
    ghost use Rattle.fancy_input.specs.Work.{stepped_within};

    /// These instructions with these sets, which begin at `start`.
    pub(crate) fn new(
        instrs: Vec<Instr>,
        sets: Vec<CharSet>,
        start: usize,
        groups: usize,
        meaning: Meaning,
        prefilter: Prefilter,
    ) -> Result<Code, AllocError>
        requires known { IsTrue (are_known (length sets.items) instrs.items) }
        requires branches { branches_in prefilter.opening ≡ None }
        ensures { IfOk result (λ code.
            IsMadeOf (with_sets sets.items instrs.items) start groups meaning prefilter code) }
    {
        let alloc = *instrs.allocator();
        let marking = Marking::new(alloc, &instrs, start)?;
        Ok(Code {
            instrs,
            sets,
            marking,
            beginnings: Vec::new(alloc),
            start,
            groups,
            meaning,
            prefilter,
        })
    }

    /// The same code, with the bytes that the ways of each choice may begin with.
    pub(crate) fn with_beginnings(self, beginnings: Vec<Beginnings>) -> Code
        requires { AreBeginnings beginnings.items (instrs_of self) self.meaning }
        ensures { IsMadeOf (instrs_of self) self.start self.groups self.meaning self.prefilter
            result }
    {
        Code {
            instrs: self.instrs,
            sets: self.sets,
            marking: self.marking,
            beginnings,
            start: self.start,
            groups: self.groups,
            meaning: self.meaning,
            prefilter: self.prefilter,
        }
    }

    /// Which ways of the choice with this number are to be gone at a place of a haystack, by the byte that stands there.
    #[inline(always)]
    pub fn choice_at(&self, at: usize, haystack: &[u8], place: usize) -> Choice
        ensures { (first second : ℕ) → instr_at (instrs_of self.now) at ≡ Split first second
            → LeavesOut (instrs_of self.now) self.now.meaning haystack.now place result
            first second }
    {
        let Some(beginnings) = self.beginnings.get(at) else {
            return Choice::Both;
        };
        let Some(byte) = haystack.get(place) else {
            return Choice::Both;
        };
        beginnings.choice(*byte)
    }

    /// The loop of one item that the choice with this number goes round, if the byte that stands at a place of a haystack tells that.
    #[inline(always)]
    pub fn item_loop_at(&self, at: usize, haystack: &[u8], place: usize) -> Option<&ItemLoop>
        ensures round { IfSome result (λ l. GoesRound (instrs_of self.now) self.now.meaning l.now at) }
        ensures bytes { (k : ℕ) → slice_index haystack.now k < 256 }
    {
        let item_loop = self.beginnings.get(at)?.item_loop.as_ref()?;
        let byte = haystack.get(place)?;
        if item_loop.bytes.contains(*byte) {
            Some(item_loop)
        } else {
            None
        }
    }

    /// The instruction with this number. Each call counts as one step, as far as the number of steps goes.
    #[inline]
    pub fn fetch(&self, at: usize, work: &mut Work) -> &Instr
        requires within { at < code_len self.now }
        ensures instr { instr_in self.now result.now ≡ instr_at (instrs_of self.now) at }
        ensures known { (number next : ℕ) → result.now ≡ Instr.Member number next
            → number < sets_len self.now }
        ensures work { work.new ≡ stepped_within work.old }
    {
        work.count_step_within();
        self.instr(at)
    }

    /// The instruction with this number. The call counts as no step.
    #[inline]
    pub fn instr(&self, at: usize) -> &Instr
        requires within { at < code_len self.now }
        ensures instr { instr_in self.now result.now ≡ instr_at (instrs_of self.now) at }
        ensures known { (number next : ℕ) → result.now ≡ Instr.Member number next
            → number < sets_len self.now }
    {
        &self.instrs[at]
    }

    /// The ways of the instruction with this number, if it is a split.
    pub fn ways(&self, at: usize) -> Option<Ways>
        ensures { IfSome result (λ w. instr_at (instrs_of self.now) at ≡ Split w.first w.second) }
    {
        if at >= self.len() {
            return None;
        }
        match self.instr(at) {
            Instr::Split(first, second) => Some(Ways {
                first: *first,
                second: *second,
            }),
            _ => None,
        }
    }

    /// The set with this number, which an instruction has.
    #[inline]
    pub fn set(&self, number: usize) -> &CharSet
        requires { number < sets_len self.now }
        ensures { edges_in result.now ≡ set_edges self.now number }
    {
        &self.sets[number]
    }

    /// The number of the instruction's mark, among those of a place; `None` where it has none.
    #[inline]
    pub fn mark_number(&self, at: usize) -> Option<usize>
        requires { at < code_len self.now }
        ensures { result ≡ number_of self.now at }
    {
        self.marking.number(at)
    }

    /// What is due where a thread goes on at the instruction.
    #[inline]
    pub fn due(&self, at: usize) -> usize
        ensures { result ≡ due_of self.now at }
    {
        self.marking.due(at)
    }

    /// How many marks a place has.
    pub fn marks(&self) -> usize
        ensures { result ≡ width_of self.now }
    {
        self.marking.width()
    }

    /// How many instructions there are.
    #[inline]
    pub fn len(&self) -> usize
        ensures { result ≡ code_len self.now }
    {
        self.instrs.len()
    }
}
