//! The bytes that the ways of the choices of code may begin with.

ghost use Rattle.std.specs.Prelude.{◌≡◌, ℕ, Some, not, true, IfOk};
ghost use Rattle.std.specs.Option.{ForSome};
ghost use Rattle.fancy_bytes.specs.Sets.{IsSetOf, KeepsBytes, member};
ghost use Rattle.fancy_tree.specs.Pattern.{Pattern};
ghost use Rattle.fancy_code.specs.Choices.{AreBeginnings, BeginAt, BeginsAmong, GoesRound, way_beside};
ghost use Rattle.fancy_code.specs.Code.{instrs_of};
ghost use Rattle.fancy_code.specs.Compile.{IsCodeOf};
ghost use Rattle.fancy_code.specs.Foretold.{GoesOnAtEnds, HoldsAtEnds, is_at_end};
ghost use Rattle.fancy_code.specs.Run.{instr_at};

use crate::code::{Code, Instr};
use crate::items::items_at;
use crate::prefilter::sets_within;
use fancy_bytes::byte_set::ByteSet;
use fancy_prefilter::choice::{Beginnings, ItemLoop};
use fancy_tree::tree::Assertion;
use std::alloc::{AllocError, Global};
use std::mem;

/// The most instructions of code for whose choices it is told: each takes 112 bytes.
const MOST: usize = 1_024;

/// How many instructions are followed from one way on.
const FROM_ONE: usize = 32;

/// How many instructions are followed for all choices of code.
const FROM_ALL: usize = 2_048;

/// Whether the assertion holds only at the end of the text or of a line.
fn is_end(assertion: Assertion) -> bool
    ensures { result ≡ true → HoldsAtEnds assertion }
{
    matches!(
        assertion,
        Assertion::TextEnd
            | Assertion::LineEnd
            | Assertion::LineEndCrlf
            | Assertion::LastLine
            | Assertion::LastLineCrlf
    )
}

/// Whether the code goes on from an instruction only at the end of the text or of a line, as far as no more than groups come before
/// the test for it.
fn ends_there(code: &Code, at: usize) -> bool
    ensures { result ≡ true → GoesOnAtEnds (instrs_of code.now) at }
{
    let mut at = at;
    for _ in 0..FROM_ONE {
        if at >= code.len() {
            return false;
        }
        match code.instr(at) {
            Instr::Open(_, next) | Instr::Close(_, next) => at = *next,
            Instr::Assert(assertion, _) => return is_end(*assertion),
            _ => return false,
        }
    }
    false
}

/// What may stand at the end of a line: its line end, or nothing, for which byte 0 stands.
fn bytes_at_end() -> ByteSet
    ensures { IsSetOf is_at_end result }
{
    let mut bytes = ByteSet::of(0);
    bytes.insert(b'\n');
    bytes.insert(b'\r');
    bytes
}

/// The bytes that the code may begin with from an instruction on, which are all where that is not told.
fn beginning_of(
    alloc: Global,
    code: &Code,
    at: usize,
    left: &mut usize,
) -> Result<ByteSet, AllocError>
    ensures { IfOk result (λ set. BeginsAmong (instrs_of code.now) code.now.meaning set at) }
{
    if ends_there(code, at) {
        return Ok(bytes_at_end());
    }
    let mut own = FROM_ONE.min(*left);
    let before = own;
    let mut sets = sets_within(alloc, code, at, 1, &mut own)?;
    *left -= before.saturating_sub(own).min(*left);
    if sets.is_empty() {
        return Ok(ByteSet::all());
    }
    Ok(mem::replace(&mut sets[0], ByteSet::all()))
}

/// The bytes that the ways of an instruction may begin with, if it is a choice.
fn beginnings_at(
    alloc: Global,
    code: &Code,
    at: usize,
    left: &mut usize,
) -> Result<Beginnings, AllocError>
    ensures begin { IfOk result (λ b. BeginAt (instrs_of code.now) code.now.meaning b at) }
    ensures round { IfOk result (λ b. ForSome b.item_loop
        (λ l. GoesRound (instrs_of code.now) code.now.meaning l at)) }
{
    let Some(ways) = code.ways(at) else {
        return Ok(Beginnings {
            first: ByteSet::all(),
            second: ByteSet::all(),
            item_loop: None,
        });
    };
    let first = beginning_of(alloc, code, ways.first, left)?;
    let second = beginning_of(alloc, code, ways.second, left)?;
    let item_loop = match item_loop(code, at, ways.first, &second) {
        Some(found) => Some(found),
        None => item_loop(code, at, ways.second, &first),
    };
    Ok(Beginnings {
        first,
        second,
        item_loop,
    })
}

/// The members of one set that are not in another one.
fn without(bytes: &ByteSet, other: &ByteSet) -> ByteSet
    ensures { KeepsBytes (λ b. not (member other.now b)) bytes.now result }
{
    let mut left = ByteSet::new();
    for byte in 0..256u32 {
        if bytes.contains(byte as u8) && !other.contains(byte as u8) {
            left.insert(byte as u8);
        }
    }
    left
}

/// The loop that a choice goes round by one way, if that reads one item and leads back, and some byte tells it. The other way may begin
/// with these bytes.
fn item_loop(code: &Code, at: usize, item: usize, other: &ByteSet) -> Option<ItemLoop>
    ensures { ForSome result (λ l. (rest : ℕ)
        → way_beside (instr_at (instrs_of code.now) at) item ≡ Some rest
        → BeginsAmong (instrs_of code.now) code.now.meaning other.now rest
        → GoesRound (instrs_of code.now) code.now.meaning l at) }
{
    let items = items_at(code, item, at)?;
    let bytes = without(&items, other);
    if bytes.is_empty() {
        return None;
    }
    Some(ItemLoop { item, bytes })
}

/// The bytes that the ways of each choice may begin with. There are none where they tell nothing, or the code is long.
fn beginnings_of(alloc: Global, code: &Code) -> Result<Vec<Beginnings>, AllocError>
    ensures { IfOk result (λ all. AreBeginnings all.items (instrs_of code.now) code.now.meaning) }
{
    if code.len() > MOST {
        return Ok(Vec::new(alloc));
    }
    let mut all = Vec::new(alloc);
    let mut left = FROM_ALL;
    let mut tell = false;
    for at in 0..code.len() {
        let beginnings = beginnings_at(alloc, code, at, &mut left)?;
        tell = tell || beginnings.are_telling();
        all.push(beginnings)?;
    }
    if !tell {
        return Ok(Vec::new(alloc));
    }
    Ok(all)
}

/// The same code, with the bytes that the ways of its choices may begin with.
pub(crate) fn with_choices(alloc: Global, code: Code) -> Result<Code, AllocError>
    ensures instrs { IfOk result (λ c. instrs_of c ≡ instrs_of code) }
    ensures groups { IfOk result (λ c. c.groups ≡ code.groups) }
    ensures meaning { IfOk result (λ c. c.meaning ≡ code.meaning) }
    ensures is { IfOk result (λ c. (p : Pattern) → IsCodeOf p code → IsCodeOf p c) }
{
    let beginnings = beginnings_of(alloc, &code)?;
    Ok(code.with_beginnings(beginnings))
}
