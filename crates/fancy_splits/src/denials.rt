//! Negated look-arounds of which one byte tells what they find.

ghost use Rattle.std.specs.Prelude.{◌≡◌, ◌<◌, ℕ, true, false, IfOk, IfSome, slice_index_or};
ghost use Rattle.fancy_bytes.specs.Sets.{member};
ghost use Rattle.fancy_code.specs.Code.{instrs_of};
ghost use Rattle.fancy_splits.specs.declared.denials.Sight.TheVariants.{Unclear};
ghost use Rattle.fancy_splits.specs.Denials.{AreSights, IsSight, IsToldDenial};

use crate::choices::past_byte;
use crate::splits::stop_at;
use fancy_code::code::{Code, Instr};
use fancy_prices::facts::{Before, Facts};
use fancy_prices::free::{finds_behind, misses_behind, price_of};
use fancy_prices::kinds::{Kind, kinds_of};
use fancy_prices::price::Price;
use std::alloc::{AllocError, Global};

/// How many instructions are followed one after another.
const DEPTH: usize = 48;

/// What a byte tells of a look-around.
#[derive(Clone, Copy, PartialEq, Eq)]
pub enum Sight {
    /// Nothing.
    Unclear,
    /// It finds what it looks for, and opens no choice.
    Finds,
    /// It finds nothing, and costs so much.
    Misses(Price),
}

/// A negated look-around of which one byte tells what it finds: the byte at its place where it looks ahead, the one before its place
/// where it looks behind.
///
/// ```text
/// (?!if|for)    // at the byte x it finds nothing, and its one choice is taken back
/// (?!\S)        // at a blank it finds nothing; at the byte x it finds that
/// (?<![0-9])    // behind the byte x it finds nothing; behind a digit it finds that
/// (?<!fn )      // behind the byte x it finds nothing; behind a blank it may find something
/// ```
#[derive(Drop)]
pub struct ToldDenial {
    /// Whether it looks behind.
    pub behind: bool,
    /// The number of the instruction that what it looks for begins at.
    pub body: usize,
    /// The number of the one at which the code goes on where it finds nothing.
    pub next: usize,
    // for each byte what it tells
    sights: [Sight; 256],
}

impl ToldDenial {
    /// What a byte tells of it.
    #[inline]
    pub fn sight(&self, byte: u8) -> Sight
        ensures { result ≡ slice_index_or self.now.sights byte Unclear }
    {
        self.sights[byte as usize]
    }
}

/// What the byte at the place tells of a look-ahead with this body.
fn sight_ahead(code: &Code, body: usize, here: u8) -> Sight
    ensures { IsSight (instrs_of code.now) code.now.meaning false body here result }
{
    let facts = Facts { here, before: None };
    if let Some(price) = price_of(code, body, facts, DEPTH) {
        return Sight::Misses(price);
    }
    let Some(last) = past_byte(code, body, here) else {
        return Sight::Unclear;
    };
    match stop_at(code, last) {
        Some(_) => Sight::Finds,
        None => Sight::Unclear,
    }
}

/// The same of each byte.
fn sights_ahead(code: &Code, body: usize) -> [Sight; 256]
    ensures { AreSights (instrs_of code.now) code.now.meaning false body result }
{
    let mut sights = [Sight::Unclear; 256];
    for here in 0..256u32 {
        sights[here as usize] = sight_ahead(code, body, here as u8);
    }
    sights
}

/// What it tells of a look-behind that the byte before its place is of a kind.
fn sight_behind(code: &Code, body: usize, kind: &Kind) -> Sight
    ensures { (b : ℕ) → b < 256 → member kind.now.bytes b ≡ true
        → IsSight (instrs_of code.now) code.now.meaning true body b result }
{
    if let Some(price) = misses_behind(code, body, kind) {
        return Sight::Misses(price);
    }
    if finds_behind(code, body, Before::Among(kind)) {
        return Sight::Finds;
    }
    Sight::Unclear
}

/// Notes what the bytes of a kind tell of a look-behind with this body.
fn note_kind(sights: &mut [Sight; 256], code: &Code, body: usize, kind: &Kind)
    requires { AreSights (instrs_of code.now) code.now.meaning true body sights.old }
    ensures { AreSights (instrs_of code.now) code.now.meaning true body sights.new }
{
    let sight = sight_behind(code, body, kind);
    for byte in 0..256u32 {
        if kind.has(byte as u8) {
            sights[byte as usize] = sight;
        }
    }
}

/// What each byte before the place tells of a look-behind with this body.
fn sights_behind(alloc: Global, code: &Code, body: usize) -> Result<[Sight; 256], AllocError>
    ensures { IfOk result (AreSights (instrs_of code.now) code.now.meaning true body) }
{
    let mut sights = [Sight::Unclear; 256];
    let kinds = kinds_of(alloc, code)?;
    for kind in &kinds {
        note_kind(&mut sights, code, body, kind);
    }
    Ok(sights)
}

/// Whether some byte tells something. No answer rests on it.
fn tell_some(sights: &[Sight; 256]) -> bool {
    for sight in sights {
        if *sight != Sight::Unclear {
            return true;
        }
    }
    false
}

/// The negated look-around at an instruction, if there is one of which bytes tell something.
pub(crate) fn denial_at(
    alloc: Global,
    code: &Code,
    at: usize,
) -> Result<Option<ToldDenial>, AllocError>
    ensures { IfOk result (λ o. IfSome o
        (λ l. IsToldDenial (instrs_of code.now) code.now.meaning at l)) }
{
    if at >= code.len() {
        return Ok(None);
    }
    let Instr::Deny(behind, body, next) = code.instr(at) else {
        return Ok(None);
    };
    let sights = if *behind {
        sights_behind(alloc, code, *body)?
    } else {
        sights_ahead(code, *body)
    };
    if !tell_some(&sights) {
        return Ok(None);
    }
    Ok(Some(ToldDenial {
        behind: *behind,
        body: *body,
        next: *next,
        sights,
    }))
}
