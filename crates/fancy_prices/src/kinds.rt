//! The bytes that are told apart where they stand before a position, by what a code tests there.

ghost use Rattle.std.specs.Prelude.{◌≡◌, ℕ, ◌<◌, ◌==◌, true, false};
ghost use Rattle.std.specs.Option.{ForSome};
ghost use Rattle.unicode.specs.Perl.{is_word_byte};
ghost use Rattle.fancy_bytes.specs.Sets.{IsSetOf, member};
ghost use Rattle.fancy_prices.specs.Kinds.{AreWords};

use crate::free::is_match;
use fancy_bytes::byte_set::ByteSet;
use fancy_bytes::items::is_ascii;
use fancy_code::code::{Code, Instr};
use fancy_tree::char_set::CharSet;
use fancy_tree::tree::Assertion;
use std::alloc::{AllocError, Global};

/// How many kinds are told apart at most.
const MOST: usize = 12;

/// How many instructions are followed one after another.
const DEPTH: usize = 16;

/// Bytes that are not told apart where they stand before a position.
#[derive(Drop)]
pub struct Kind {
    pub(crate) bytes: ByteSet,
    /// Whether they are word characters of ASCII, where that is so of each or of none. Of bytes past ASCII it is not told.
    pub(crate) word: Option<bool>,
    /// Whether some are past ASCII.
    pub(crate) wide: bool,
    ghost words: { ForSome word (AreWords bytes) },
    ghost low: { wide ≡ false → (b : ℕ) → b < 256 → member bytes b ≡ true → b < 128 },
}

/// Whether a byte is an ASCII letter, a digit or `_`.
pub(crate) fn is_word(byte: u8) -> bool
    ensures { result ≡ is_word_byte byte }
{
    byte.is_ascii_alphanumeric() || byte == b'_'
}

/// Whether some byte of the set is past ASCII.
fn has_wide(bytes: &ByteSet) -> bool
    ensures { result ≡ false → (b : ℕ) → b < 256 → member bytes.now b ≡ true → b < 128 }
{
    for byte in 0x80..0x100u32 {
        if bytes.contains(byte as u8) {
            return true;
        }
    }
    false
}

/// Whether each byte of the set is an ASCII letter, a digit or `_`, or with `false` none is.
fn are_words(bytes: &ByteSet, word: bool) -> bool
    ensures { result ≡ true → (b : ℕ) → b < 256 → member bytes.now b ≡ true → is_word_byte b ≡ word }
{
    for byte in 0..0x100u32 {
        if bytes.contains(byte as u8) && is_word(byte as u8) != word {
            return false;
        }
    }
    true
}

impl Kind {
    fn new(bytes: ByteSet) -> Kind
        ensures { result.bytes ≡ bytes }
    {
        let wide = has_wide(&bytes);
        let word = if wide {
            None
        } else if are_words(&bytes, true) {
            Some(true)
        } else if are_words(&bytes, false) {
            Some(false)
        } else {
            None
        };
        Kind { bytes, word, wide }
    }

    /// Whether a byte is one of them.
    pub fn has(&self, byte: u8) -> bool
        ensures { result ≡ member self.now.bytes byte }
    {
        self.bytes.contains(byte)
    }
}

/// The bytes that are not in the set.
fn others(bytes: &ByteSet) -> ByteSet {
    let mut others = ByteSet::new();
    for byte in 0..0x100u32 {
        if !bytes.contains(byte as u8) {
            others.insert(byte as u8);
        }
    }
    others
}

/// The bytes past ASCII.
fn wide_bytes() -> ByteSet {
    let mut bytes = ByteSet::new();
    for byte in 0x80..0x100u32 {
        bytes.insert(byte as u8);
    }
    bytes
}

/// The ASCII letters, the digits and `_`.
pub(crate) fn word_bytes() -> ByteSet {
    let mut bytes = ByteSet::new();
    for byte in 0..0x80u32 {
        if is_word(byte as u8) {
            bytes.insert(byte as u8);
        }
    }
    bytes
}

/// The ASCII members of a set.
fn low_members(set: &CharSet) -> ByteSet {
    let mut bytes = ByteSet::new();
    for byte in 0..0x80u32 {
        if set.contains(byte) {
            bytes.insert(byte as u8);
        }
    }
    bytes
}

/// Splits the sets by whether a byte is in another one, as long as there are few.
fn split_by(sets: &mut Vec<ByteSet>, bytes: &ByteSet) -> Result<(), AllocError> {
    let others = others(bytes);
    let count = sets.len();
    for i in 0..count {
        let inside = sets[i].intersection(bytes);
        let outside = sets[i].intersection(&others);
        if !inside.is_empty() && !outside.is_empty() && sets.len() < MOST {
            sets[i] = inside;
            sets.push(outside)?;
        }
    }
    Ok(())
}

/// The same by what an assertion tests before a position.
fn split_by_assertion(sets: &mut Vec<ByteSet>, assertion: Assertion) -> Result<(), AllocError> {
    match assertion {
        Assertion::LineStart => split_by(sets, &ByteSet::of(b'\n')),
        Assertion::LineStartCrlf => {
            split_by(sets, &ByteSet::of(b'\n'))?;
            split_by(sets, &ByteSet::of(b'\r'))
        }
        Assertion::WordBoundary
        | Assertion::NotWordBoundary
        | Assertion::WordStart
        | Assertion::WordEnd
        | Assertion::WordStartHalf => {
            split_by(sets, &word_bytes())?;
            split_by(sets, &wide_bytes())
        }
        _ => Ok(()),
    }
}

/// The same by the items that the body of a look-behind may end with. A character past ASCII may end with each byte past ASCII.
#[cycle(ends)]
fn split_by_ends(
    sets: &mut Vec<ByteSet>,
    code: &Code,
    at: usize,
    deep: usize,
) -> Result<(), AllocError> {
    if at >= code.len() || deep == 0 {
        return Ok(());
    }
    let deep = deep - 1;
    match code.instr(at) {
        Instr::Back(_, next) => split_by_ends(sets, code, *next, deep),
        Instr::Character(character, next) => {
            if !is_match(code, *next) {
                return split_by_ends(sets, code, *next, deep);
            }
            if (*character as u32) < 0x80 {
                split_by(sets, &ByteSet::of(*character as u8))
            } else {
                split_by(sets, &wide_bytes())
            }
        }
        Instr::Member(set, next) => {
            if !is_match(code, *next) {
                return split_by_ends(sets, code, *next, deep);
            }
            let set = code.set(*set);
            split_by(sets, &low_members(set))?;
            if is_ascii(set.edges()) {
                return Ok(());
            }
            split_by(sets, &wide_bytes())
        }
        Instr::Split(first, second) => {
            split_by_ends(sets, code, *first, deep)?;
            split_by_ends(sets, code, *second, deep)
        }
        _ => Ok(()),
    }
}

/// Kinds of bytes that the code does not tell apart where they stand before a position, as far as there are few. No answer rests on it:
/// where bytes of a kind are told apart after all, less is told of them.
pub fn kinds_of(alloc: Global, code: &Code) -> Result<Vec<Kind>, AllocError> {
    let mut sets = Vec::new(alloc);
    sets.push(ByteSet::all())?;
    for at in 0..code.len() {
        match code.instr(at) {
            Instr::Assert(assertion, _) => split_by_assertion(&mut sets, *assertion)?,
            Instr::Look(true, body, _) | Instr::Deny(true, body, _) => {
                split_by_ends(&mut sets, code, *body, DEPTH)?
            }
            _ => {}
        }
    }
    let mut kinds = Vec::new(alloc);
    for bytes in sets {
        kinds.push(Kind::new(bytes))?;
    }
    Ok(kinds)
}
