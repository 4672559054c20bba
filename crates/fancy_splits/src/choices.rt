//! Choices of code that are no loops: where the byte at a place leads from them.

ghost use Rattle.std.specs.Prelude.{◌≡◌, ℕ, List, true, [], ◌∷◌, Some, IfOk, IfSome, length, slice_get};
ghost use Rattle.fancy_tree.specs.declared.tree.Meaning.{Meaning as MeaningIs};
ghost use Rattle.fancy_code.specs.Code.{instrs_of};
ghost use Rattle.fancy_code.specs.Instructions.{Instruction, Split};
ghost use Rattle.fancy_code.specs.Run.{instr_at};
ghost use Rattle.fancy_splits.specs.declared.choices.Passage.{Passage as PassageIs};
ghost use Rattle.fancy_code.specs.Items.{ReadsByte};
ghost use Rattle.fancy_splits.specs.Splits.{AreSplits, IsOwn, IsPassage, IsPassageAt, IsToldChoice, Leads, LeadsBy, ways_in, ways_of};

use crate::splits::{Splits, ToldPart, stop_at};
use fancy_code::code::{Code, Instr, Ways};
use fancy_code::items::is_alone;
use fancy_prices::facts::Facts;
use fancy_prices::free::price_of;
use fancy_prices::price::Price;
use std::alloc::{AllocError, Global};

/// How many instructions are followed one after another.
const DEPTH: usize = 48;

/// The most passages of one choice that differ.
const MOST: usize = 255;

/// What follows the choices that a passage goes by.
#[derive(Clone, Copy, PartialEq, Eq)]
pub enum Onward {
    /// Nothing: all ways die.
    Ends,
    /// The code goes on at the instruction with this number.
    Goes(usize),
    /// The byte is read as an item by itself, and the code goes on at the instruction with this number.
    Reads(usize),
}

/// The ways that a passage saves: the second ways of choices, each by the number of the instruction that it begins at.
#[derive(Clone, Copy, PartialEq, Eq)]
pub enum SavedWays {
    /// None.
    Nothing,
    /// One.
    One(usize),
    /// Two, in the order in which they are saved.
    Two(usize, usize),
}

/// Where code goes on from a choice. It passes over choices whose first ways die, and saves the second ways of others.
#[derive(Clone, Copy)]
pub struct Passage {
    /// How many choices are passed over, and how many of them are taken back.
    pub price: Price,
    /// The ways that are saved of others.
    pub saved: SavedWays,
    /// What follows them.
    pub onward: Onward,
}

impl SavedWays {
    /// How many they are.
    fn count(self) -> u8
        ensures { result ≡ length (ways_in self) }
    {
        match self {
            SavedWays::Nothing => 0,
            SavedWays::One(_) => 1,
            SavedWays::Two(_, _) => 2,
        }
    }
}

impl Passage {
    /// Whether it is the same as another.
    fn is_same(&self, other: &Passage) -> bool
        ensures { result ≡ true → self.now ≡ other.now }
    {
        self.price == other.price && self.saved == other.saved && self.onward == other.onward
    }

    /// One that saves no way.
    fn alone(price: Price, onward: Onward) -> Passage
        ensures { (result.price ≡ price) × (result.onward ≡ onward) × (ways_of result ≡ []) }
    {
        Passage {
            price,
            saved: SavedWays::Nothing,
            onward,
        }
    }

    /// The same once a way was saved before, if no more than two are saved so.
    fn behind(self, way: usize) -> Option<Passage>
        ensures { IfSome result (λ p. (p.price ≡ self.price) × (p.onward ≡ self.onward)
            × (ways_of p ≡ way ∷ ways_of self)) }
    {
        let saved = match self.saved {
            SavedWays::Nothing => SavedWays::One(way),
            SavedWays::One(inner) => SavedWays::Two(way, inner),
            SavedWays::Two(_, _) => return None,
        };
        Some(Passage { saved, ..self })
    }
}

/// A choice of code that is no loop of one item, and where each byte leads from it.
///
/// ```text
/// a|b|c      // at b the first way is passed over, and that of c is saved; at c two choices are passed over; at d all ways die
/// ```
#[derive(Drop)]
pub struct ToldChoice {
    /// The number of the instruction that the first way begins at.
    pub first: usize,
    /// The number of the one that the second way begins at.
    pub second: usize,
    // for each byte the number of its passage, where one is told
    numbers: [Option<u8>; 256],
    passages: Vec<Passage>,
}

impl ToldChoice {
    /// Where the byte leads, if that is told.
    #[inline]
    pub fn passage(&self, byte: u8) -> Option<&Passage>
        ensures { IfSome result (λ p. IsPassage self.now byte p.now) }
    {
        let Some(number) = self.numbers[byte as usize] else {
            return None;
        };
        self.passages.get(number as usize)
    }

    /// The same, where the choice by itself is a passage too.
    fn passage_or_own(&self, byte: u8) -> Passage
        ensures { (code : List Instruction) (meaning : MeaningIs) (at : ℕ)
            → IsToldChoice code meaning at self.now
            → Leads code meaning byte result.price.marks result.price.returns
            (ways_of result) result.onward at }
    {
        if let Some(passage) = self.passage(byte) {
            return *passage;
        }
        self.own()
    }

    /// The choice by itself, as a passage.
    pub fn own(&self) -> Passage
        ensures { IsOwn self.now result }
    {
        Passage {
            price: Price::nothing(),
            saved: SavedWays::One(self.second),
            onward: Onward::Goes(self.first),
        }
    }
}

/// Where the code goes on from an instruction that reads the byte as an item by itself, if it does.
pub(crate) fn past_byte(code: &Code, at: usize, here: u8) -> Option<usize>
    ensures { IfSome result (ReadsByte (instrs_of code.now) code.now.meaning here at) }
{
    if at >= code.len() || !is_alone(code.meaning, here) {
        return None;
    }
    match code.instr(at) {
        Instr::Character(character, next) if *character as u32 == here as u32 => Some(*next),
        Instr::Member(set, next) if code.set(*set).contains(here as u32) => Some(*next),
        Instr::RawByte(byte, next) if *byte == here => Some(*next),
        _ => None,
    }
}

/// Where the byte leads from an instruction on, of which the parts so far may tell. No atomic group is entered.
fn passage_within(splits: &Splits, code: &Code, at: usize, here: u8) -> Passage
    requires { AreSplits splits.now code.now }
    ensures { Leads (instrs_of code.now) code.now.meaning here
        result.price.marks result.price.returns (ways_of result) result.onward at }
{
    if let Some(ToldPart::Choice(choice)) = splits.part(at) {
        return choice.passage_or_own(here);
    }
    let facts = Facts { here, before: None };
    if let Some(price) = price_of(code, at, facts, DEPTH) {
        return Passage::alone(price, Onward::Ends);
    }
    match past_byte(code, at, here) {
        Some(next) => Passage::alone(Price::nothing(), Onward::Reads(next)),
        None => Passage::alone(Price::nothing(), Onward::Goes(at)),
    }
}

/// Where the byte leads from an atomic group that it leads out of: the ways that are saved in it are dropped.
fn past_atom(splits: &Splits, code: &Code, at: usize, here: u8) -> Option<Passage>
    requires { AreSplits splits.now code.now }
    ensures { IfSome result (λ p. Leads (instrs_of code.now) code.now.meaning here
        p.price.marks p.price.returns (ways_of p) p.onward at) }
{
    if at >= code.len() {
        return None;
    }
    let Instr::Enter(body) = code.instr(at) else {
        return None;
    };
    let inner = passage_within(splits, code, *body, here);
    let price = inner.price.and(inner.saved.count())?;
    match inner.onward {
        Onward::Ends => None,
        Onward::Goes(last) => {
            let next = stop_at(code, last)?;
            Some(Passage::alone(price, Onward::Goes(next)))
        }
        Onward::Reads(last) => {
            let next = stop_at(code, last)?;
            Some(Passage::alone(price, Onward::Reads(next)))
        }
    }
}

/// Where the byte leads from an instruction on, of which the parts so far may tell.
fn passage_from(splits: &Splits, code: &Code, at: usize, here: u8) -> Passage
    requires { AreSplits splits.now code.now }
    ensures { Leads (instrs_of code.now) code.now.meaning here
        result.price.marks result.price.returns (ways_of result) result.onward at }
{
    match past_atom(splits, code, at, here) {
        Some(passage) => passage,
        None => passage_within(splits, code, at, here),
    }
}

/// Where the byte leads from a choice of two ways, if that is more than the choice by itself.
fn passage_of(splits: &Splits, code: &Code, ways: Ways, here: u8) -> Option<Passage>
    requires { AreSplits splits.now code.now }
    ensures { IfSome result (λ p. (at : ℕ)
        → instr_at (instrs_of code.now) at ≡ Split ways.first ways.second
        → IsPassageAt (instrs_of code.now) code.now.meaning here at p) }
{
    let first = passage_from(splits, code, ways.first, here);
    match first.onward {
        Onward::Ends => {
            let second = passage_from(splits, code, ways.second, here);
            let price = first.price.or(second.price)?;
            Some(Passage { price, ..second })
        }
        Onward::Goes(to) if to == ways.first => None,
        Onward::Goes(_) | Onward::Reads(_) => first.behind(ways.second),
    }
}

/// The number of a passage. It is noted where it is not yet, if there is room.
fn number_of(passages: &mut Vec<Passage>, passage: Passage) -> Result<Option<u8>, AllocError>
    ensures kept { (k : ℕ) (p : PassageIs) → slice_get passages.old.items k ≡ Some p
        → slice_get passages.new.items k ≡ Some p }
    ensures noted { IfOk result
        (λ o. IfSome o (λ k. slice_get passages.new.items k ≡ Some passage)) }
{
    for number in 0..passages.len().min(MOST) {
        if passages[number].is_same(&passage) {
            return Ok(Some(number as u8));
        }
    }
    let number = passages.len();
    if number >= MOST {
        return Ok(None);
    }
    passages.push(passage)?;
    Ok(Some(number as u8))
}

/// The number of the passage of a byte, if one is told.
fn number_at(
    splits: &Splits,
    code: &Code,
    ways: Ways,
    here: u8,
    passages: &mut Vec<Passage>,
) -> Result<Option<u8>, AllocError>
    requires { AreSplits splits.now code.now }
    ensures kept { (k : ℕ) (p : PassageIs) → slice_get passages.old.items k ≡ Some p
        → slice_get passages.new.items k ≡ Some p }
    ensures noted { IfOk result (λ o. (at : ℕ)
        → instr_at (instrs_of code.now) at ≡ Split ways.first ways.second
        → LeadsBy (instrs_of code.now) code.now.meaning passages.new.items at here o) }
{
    match passage_of(splits, code, ways, here) {
        Some(passage) => number_of(passages, passage),
        None => Ok(None),
    }
}

/// The choice at an instruction, if a byte leads from it over a choice. The parts are those of the instructions before it.
pub(crate) fn choice_at(
    alloc: Global,
    splits: &Splits,
    code: &Code,
    at: usize,
) -> Result<Option<ToldChoice>, AllocError>
    requires { AreSplits splits.now code.now }
    ensures { IfOk result (λ o. IfSome o
        (λ c. IsToldChoice (instrs_of code.now) code.now.meaning at c)) }
{
    let Some(ways) = code.ways(at) else {
        return Ok(None);
    };
    let mut numbers = [None; 256];
    let mut passages = Vec::new(alloc);
    for here in 0..256u32 {
        numbers[here as usize] = number_at(splits, code, ways, here as u8, &mut passages)?;
    }
    if passages.is_empty() {
        return Ok(None);
    }
    Ok(Some(ToldChoice {
        first: ways.first,
        second: ways.second,
        numbers,
        passages,
    }))
}
