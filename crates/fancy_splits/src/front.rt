//! The loop that code comes to where an item of it stands.

ghost use Rattle.std.specs.Prelude.{◌≡◌, ℕ, ◌<◌, true, IfSome};
ghost use Rattle.fancy_bytes.specs.Sets.{member};
ghost use Rattle.fancy_code.specs.Code.{instrs_of};
ghost use Rattle.fancy_prices.specs.Rows.{AreWhole};
ghost use Rattle.fancy_splits.specs.Front.{DiesAtEach, IsFront};

use crate::splits::{Splits, ToldSplit, reader_at};
use fancy_bytes::byte_set::ByteSet;
use fancy_code::code::{Code, Instr};
use fancy_prices::facts::Facts;
use fancy_prices::free::is_free;
use fancy_prices::price::Price;
use fancy_prices::rows::is_continuation;

/// How many instructions are followed one after another.
const DEPTH: usize = 48;

/// A loop of one item that code comes to wherever one of its items stands that is one byte: it has read this item, and nothing else.
///
/// ```text
/// [a-z]+=     // where one of the letters stands, it comes to the loop of them behind it
/// (<)?\w+@    // so it does here, with one choice before that, whose first way dies
/// ```
#[derive(Clone, Copy)]
pub struct Front {
    /// The number of the loop's instruction.
    pub at: usize,
    /// What the choices before it cost, whose first ways die.
    pub before: Price,
    /// Whether no item that is one byte is a byte within a character.
    pub whole: bool,
}

/// Whether the code from an instruction on dies at each item of a loop that is one byte, and costs nothing.
fn dies_at_each(code: &Code, at: usize, split: &ToldSplit) -> bool
    ensures { result ≡ true → DiesAtEach (instrs_of code.now) code.now.meaning split.now.items at }
{
    for here in 0..256u32 {
        let facts = Facts {
            here: here as u8,
            before: None,
        };
        if split.is_item(here as u8) && !is_free(code, at, facts, DEPTH) {
            return false;
        }
    }
    true
}

/// Whether each item of a loop that is one byte is in a set.
fn are_among(split: &ToldSplit, items: &ByteSet) -> bool
    ensures { result ≡ true → (b : ℕ) → b < 256 → member split.now.items b ≡ true
        → member items.now b ≡ true }
{
    for byte in 0..256u32 {
        if split.is_item(byte as u8) && !items.contains(byte as u8) {
            return false;
        }
    }
    true
}

/// Whether no item of a loop that is one byte is a byte within a character.
fn are_whole(split: &ToldSplit) -> bool
    ensures { result ≡ true → AreWhole split.now.items }
{
    for byte in 0..256u32 {
        if split.is_item(byte as u8) && is_continuation(byte as u8) {
            return false;
        }
    }
    true
}

/// The loop that the code comes to from an instruction on, if there is one that what follows is apart from.
#[cycle(front)]
fn front_from(code: &Code, splits: &Splits, at: usize, deep: usize) -> Option<Front>
    ensures { IfSome result (λ f. IsFront splits.now code.now at f) }
{
    if at >= code.len() || deep == 0 {
        return None;
    }
    let deep = deep - 1;
    match code.instr(at) {
        Instr::Open(_, next) => front_from(code, splits, *next, deep),
        Instr::Split(first, second) => {
            let front = front_from(code, splits, *second, deep)?;
            let split = splits.at(front.at)?;
            if !dies_at_each(code, *first, split) {
                return None;
            }
            let before = Price::nothing().or(front.before)?;
            Some(Front {
                at: front.at,
                before,
                whole: front.whole,
            })
        }
        Instr::Character(_, next) | Instr::Member(_, next) | Instr::RawByte(_, next) => {
            let split = splits.at(*next)?;
            if !split.apart || !are_among(split, &reader_at(code, at, *next).items) {
                return None;
            }
            Some(Front {
                at: *next,
                before: Price::nothing(),
                whole: are_whole(split),
            })
        }
        _ => None,
    }
}

impl Front {
    /// That of attempts with the code, if there is one.
    pub(crate) fn of(code: &Code, splits: &Splits) -> Option<Front>
        ensures { IfSome result (λ f. IsFront splits.now code.now code.now.start f) }
    {
        front_from(code, splits, code.start, DEPTH)
    }
}
