//! The choices and atomic groups of code, and the bytes that tell what their ways do.

ghost use Rattle.std.specs.Prelude.{◌≡◌, ℕ, ◌<◌, ◌==◌, true, false, Some, None, IfOk, IfSome};
ghost use Rattle.fancy_tree.specs.Sets.{has};
ghost use Rattle.fancy_bytes.specs.Sets.{IsSetOf, member};
ghost use Rattle.fancy_code.specs.declared.code.Code.{Code};
ghost use Rattle.fancy_code.specs.Code.{instrs_of};
ghost use Rattle.fancy_code.specs.Instructions.{edges_in};
ghost use Rattle.fancy_code.specs.Items.{ReadsEach};
ghost use Rattle.fancy_splits.specs.Splits.{AreApart, AreSplits, DiesPast, IsTold, IsToldSplit, IsNoted, IsPart, LeavesAt, ReadsEachIn, StopsAt};

use crate::atoms::{ToldAtom, atom_at};
use crate::choices::{ToldChoice, choice_at};
use crate::denials::{ToldDenial, denial_at};
use fancy_bytes::byte_set::ByteSet;
use fancy_code::code::{Code, Instr};
use fancy_code::items::items_at;
use fancy_prices::facts::Facts;
use fancy_prices::free::is_free;
use fancy_tree::char_set::CharSet;
use fancy_tree::tree::Meaning;
use std::alloc::{AllocError, Global};

/// The most parts that are noted. For a choice it is asked of 256 bytes, at most three times, what the code does where the byte stands.
const MOST: usize = 192;

/// How many instructions are followed one after another.
const DEPTH: usize = 48;

/// A loop of one item, and at which bytes its ways may go on. It is a choice whose first way reads an item, by itself or in a group, and
/// comes back to the choice.
///
/// ```text
/// [a-z]*b    // its items are the bytes a to z, with which alone they begin; what follows may go on at the byte b alone
/// (a)*+b     // its item is the byte a, in a group; what follows it closes the region of the possessive repeat
/// ```
#[derive(Drop)]
pub struct ToldSplit {
    /// The number of the instruction that the first way begins at.
    pub first: usize,
    /// The number of the one that the second way begins at, which is what follows a loop.
    pub second: usize,
    /// The group that holds each item, if one does.
    pub group: Option<usize>,
    /// Where the second way stops at once, as at the end of an atomic group, the number of the instruction at which what is round that
    /// goes on.
    pub stop: Option<usize>,
    /// Whether the second way cannot go on where an item of one byte stands.
    pub apart: bool,
    // bytes that are an item by themselves
    pub(crate) items: [bool; 256],
    // bytes at which the first way may cost something, or find a match
    begins: [bool; 256],
    // bytes at which the second way may cost something, or find a match
    leaves: [bool; 256],
}

impl ToldSplit {
    /// Whether the byte is an item by itself. In text by characters that is told of ASCII alone, and of a loop of one raw byte.
    #[inline]
    #[tactic(auto, unfolding(fancy_bytes::specs::Sets::member))]
    pub fn is_item(&self, byte: u8) -> bool
        ensures { result ≡ member self.now.items byte }
    {
        self.items[byte as usize]
    }

    /// Whether the first way may cost something, or find a match, where the byte stands: an item may begin there.
    #[inline]
    #[tactic(auto, unfolding(fancy_bytes::specs::Sets::member))]
    pub fn may_begin(&self, byte: u8) -> bool
        ensures { result ≡ member self.now.begins byte }
    {
        self.begins[byte as usize]
    }

    /// Whether the second way may cost something, or find a match, where the byte stands.
    #[inline]
    #[tactic(auto, unfolding(fancy_bytes::specs::Sets::member))]
    pub fn may_leave(&self, byte: u8) -> bool
        ensures { result ≡ member self.now.leaves byte }
    {
        self.leaves[byte as usize]
    }
}

/// What is told of an instruction of code.
#[derive(Drop)]
pub enum ToldPart {
    /// A loop of one item stands there.
    Loop(ToldSplit),
    /// Another choice stands there.
    Choice(ToldChoice),
    /// An atomic group begins there.
    Atom(ToldAtom),
    /// A negated look-around stands there.
    Denial(ToldDenial),
}

/// The choices, atomic groups and negated look-arounds of a code, by the number of their instruction: the first 192 of which something
/// is told.
#[derive(Drop)]
pub struct Splits {
    // at an instruction the number of its part, as far as the last one's instruction
    numbers: Vec<Option<u8>>,
    parts: Vec<ToldPart>,
}

/// What reads an item, before it goes on elsewhere.
#[derive(Drop)]
pub(crate) struct Reader {
    /// Whether it is one item that is read, which may be one byte.
    pub(crate) is_item: bool,
    /// The group that holds it, if one does.
    pub(crate) group: Option<usize>,
    /// The bytes that are such an item by themselves.
    pub(crate) items: ByteSet,
}

impl Reader {
    /// What reads no item.
    fn none() -> Reader
        ensures none { result.is_item ≡ false }
        ensures alone { result.group ≡ None }
        ensures reads { (code : Code) (at back : ℕ) → ReadsEach (instrs_of code) code.meaning result.items at back }
    {
        Reader {
            is_item: false,
            group: None,
            items: ByteSet::new(),
        }
    }

    /// What reads an item by itself.
    fn alone(items: ByteSet) -> Reader
        ensures alone { result.group ≡ None }
        ensures items { result.items ≡ items }
    {
        Reader {
            is_item: !items.is_empty(),
            group: None,
            items,
        }
    }
}

/// The item that an instruction reads before it goes on at `back`, if it does that.
pub(crate) fn reader_at(code: &Code, at: usize, back: usize) -> Reader
    ensures alone { result.group ≡ None }
    ensures reads { ReadsEach (instrs_of code.now) code.now.meaning result.items at back }
    ensures ends { result.is_item ≡ true → DiesPast (instrs_of code.now) at }
{
    match items_at(code, at, back) {
        Some(items) => Reader::alone(items),
        None => Reader::none(),
    }
}

/// Where an instruction goes on once it has read an item, if it reads one.
pub(crate) fn past_item(code: &Code, at: usize) -> Option<usize> {
    if at >= code.len() {
        return None;
    }
    match code.instr(at) {
        Instr::Character(_, next) | Instr::Member(_, next) | Instr::RawByte(_, next) => Some(*next),
        _ => None,
    }
}

/// The item that the code from an instruction on reads before it goes on at `back`, by itself or in a group, if it does that.
pub(crate) fn reader_of(code: &Code, at: usize, back: usize) -> Reader
    ensures alone { result.group ≡ None → ReadsEach (instrs_of code.now) code.now.meaning result.items at back }
    ensures within { (g : ℕ) → result.group ≡ Some g
        → ReadsEachIn (instrs_of code.now) code.now.meaning result.items g at back }
    ensures ends { result.is_item ≡ true → DiesPast (instrs_of code.now) at }
{
    if at >= code.len() {
        return Reader::none();
    }
    let Instr::Open(group, inner) = code.instr(at) else {
        return reader_at(code, at, back);
    };
    let Some(last) = past_item(code, *inner) else {
        return Reader::none();
    };
    if last >= code.len() {
        return Reader::none();
    }
    match code.instr(last) {
        Instr::Close(closed, next) if *closed == *group && *next == back => {
            let reader = reader_at(code, *inner, last);
            Reader {
                is_item: reader.is_item,
                group: Some(*group),
                items: reader.items,
            }
        }
        _ => Reader::none(),
    }
}

/// Where what is round a region goes on, if a way that comes to an instruction stops there at once.
pub(crate) fn stop_at(code: &Code, at: usize) -> Option<usize>
    ensures { IfSome result (λ next. StopsAt (instrs_of code.now) at next) }
{
    if at >= code.len() {
        return None;
    }
    match code.instr(at) {
        Instr::Match => Some(at),
        Instr::Commit(next) => Some(*next),
        _ => None,
    }
}

/// Whether the code from an instruction on opens a choice before it reads anything. No answer rests on it.
#[cycle(opens)]
fn opens_choice(code: &Code, at: usize, deep: usize) -> bool {
    if at >= code.len() || deep == 0 {
        return false;
    }
    let deep = deep - 1;
    match code.instr(at) {
        Instr::Split(_, _) | Instr::Deny(_, _, _) | Instr::Test(_, _) => true,
        Instr::Open(_, next) | Instr::Close(_, next) => opens_choice(code, *next, deep),
        Instr::Keep(next) | Instr::Enter(next) => opens_choice(code, *next, deep),
        _ => false,
    }
}

/// The bytes at which the code from an instruction on may cost something, or find a match.
fn begins_of(code: &Code, at: usize) -> ByteSet
    ensures { LeavesAt (instrs_of code.now) code.now.meaning result at }
{
    let mut bytes = ByteSet::new();
    for here in 0..256u32 {
        let facts = Facts {
            here: here as u8,
            before: None,
        };
        if !is_free(code, at, facts, DEPTH) {
            bytes.insert(here as u8);
        }
    }
    bytes
}

/// The bytes at which the code from an instruction on may cost something, or find a match: each of them, where it opens a choice.
fn leaves_of(code: &Code, at: usize) -> ByteSet
    ensures { LeavesAt (instrs_of code.now) code.now.meaning result at }
{
    if opens_choice(code, at, DEPTH) {
        return ByteSet::all();
    }
    begins_of(code, at)
}

/// The bytes of a set as flags: a test reads one.
pub(crate) fn flags_of(set: &ByteSet) -> [bool; 256]
    ensures { (b : ℕ) → b < 256 → member result b ≡ member set.now b }
{
    let mut flags = [false; 256];
    for byte in 0..256u32 {
        flags[byte as usize] = set.contains(byte as u8);
    }
    flags
}

/// Whether no byte is in both sets.
#[tactic(auto, unfolding(fancy_bytes::specs::Sets::member))]
fn are_apart(items: &[bool; 256], leaves: &[bool; 256]) -> bool
    ensures { result ≡ true → AreApart items.now leaves.now }
{
    for byte in 0..256u32 {
        if items[byte as usize] && leaves[byte as usize] {
            return false;
        }
    }
    true
}

/// The choice at an instruction, if there is one of which something is told: it is a loop of one item, or its first way cannot go on at
/// each byte.
fn split_at(code: &Code, at: usize) -> Option<ToldSplit>
    ensures { IfSome result (λ l. IsToldSplit (instrs_of code.now) code.now.meaning at l) }
{
    let ways = code.ways(at)?;
    let reader = reader_of(code, ways.first, at);
    if !reader.is_item {
        return None;
    }
    let items = flags_of(&reader.items);
    let begins = flags_of(&begins_of(code, ways.first));
    let leaves = flags_of(&leaves_of(code, ways.second));
    Some(ToldSplit {
        first: ways.first,
        second: ways.second,
        group: reader.group,
        stop: stop_at(code, ways.second),
        apart: are_apart(&items, &leaves),
        items,
        begins,
        leaves,
    })
}

/// What is told of an instruction, if anything is. The parts so far are those of instructions before it.
fn part_at(
    alloc: Global,
    splits: &Splits,
    code: &Code,
    at: usize,
) -> Result<Option<ToldPart>, AllocError>
    requires { AreSplits splits.now code.now }
    ensures { IfOk result (λ o. IfSome o (λ l. IsTold (instrs_of code.now) code.now.meaning at l)) }
{
    if let Some(split) = split_at(code, at) {
        return Ok(Some(ToldPart::Loop(split)));
    }
    if let Some(choice) = choice_at(alloc, splits, code, at)? {
        return Ok(Some(ToldPart::Choice(choice)));
    }
    if let Some(atom) = atom_at(code, at) {
        return Ok(Some(ToldPart::Atom(atom)));
    }
    match denial_at(alloc, code, at)? {
        Some(denial) => Ok(Some(ToldPart::Denial(denial))),
        None => Ok(None),
    }
}

impl Splits {
    /// None: nothing is told of the code.
    pub fn none(alloc: Global) -> Splits
        ensures { (code : Code) → AreSplits result code }
    {
        Splits {
            numbers: Vec::new(alloc),
            parts: Vec::new(alloc),
        }
    }

    /// The first 192 choices, atomic groups and negated look-arounds of a code of which something is told.
    ///
    /// It is refused where memory runs out.
    pub fn of(alloc: Global, code: &Code) -> Result<Splits, AllocError>
        ensures { IfOk result (λ splits. AreSplits splits code.now) }
    {
        let mut splits = Splits {
            numbers: Vec::new(alloc),
            parts: Vec::new(alloc),
        };
        for at in 0..code.len() {
            if splits.parts.len() == MOST {
                break;
            }
            let Some(found) = part_at(alloc, &splits, code, at)? else {
                continue;
            };
            splits.numbers.resize(at, None)?;
            splits.numbers.push(Some(splits.parts.len() as u8))?;
            splits.parts.push(found)?;
        }
        Ok(splits)
    }

    /// What is told of an instruction, if anything is.
    #[inline]
    pub fn part(&self, at: usize) -> Option<&ToldPart>
        ensures { IfSome result (λ l. IsPart self.now at l.now) }
    {
        let Some(Some(number)) = self.numbers.get(at) else {
            return None;
        };
        self.parts.get(*number as usize)
    }

    /// The loop at an instruction, if it is noted.
    #[inline]
    pub fn at(&self, at: usize) -> Option<&ToldSplit>
        ensures { IfSome result (λ l. IsNoted self.now at l.now) }
    {
        match self.part(at) {
            Some(ToldPart::Loop(split)) => Some(split),
            _ => None,
        }
    }
}
