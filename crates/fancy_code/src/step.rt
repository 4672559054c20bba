//! What follows a step, and the place after what an instruction reads.

ghost use Rattle.std.specs.Prelude.{◌≡◌, ◌≤◌, ℕ, IfSome, ◌==◌};
ghost use Rattle.fancy_tree.specs.Sets.{has};
ghost use Rattle.fancy_meaning.specs.Context.{past_item, past_byte};
ghost use Rattle.fancy_code.specs.Instructions.{edges_in};
ghost use Rattle.fancy_meaning.specs.Reading.{search_context};

use fancy_meaning::reading::{SuppressedEnds, read_at};
use fancy_tree::char_set::CharSet;
use fancy_tree::tree::Meaning;

/// What follows a step.
#[derive(Clone, Copy, PartialEq, Eq, Debug)]
pub enum Next {
    /// The thread goes on.
    On,
    /// The thread ends without an outcome.
    Dead,
    /// The thread ends with an outcome.
    Found,
}

/// The place after the character at `place`, if it is this one.
#[inline]
pub fn past_character(
    haystack: &[u8],
    meaning: Meaning,
    character: char,
    place: usize,
) -> Option<usize>
    ensures past { (suppressed : SuppressedEnds) (from : ℕ)
        → result ≡ past_item (search_context haystack.now meaning suppressed from) (λ d.
        d == character) place }
    ensures forth { IfSome result (λ p. place ≤ p) }
{
    let code = character as u32;
    if code < 0x80 {
        return past_raw_byte(haystack, code as u8, place);
    }
    let reading = read_at(haystack, meaning, place)?;
    if reading.code == code {
        Some(place + reading.width)
    } else {
        None
    }
}

/// The place after the item at `place`, if the set has it.
#[inline(always)]
pub fn past_member(haystack: &[u8], meaning: Meaning, set: &CharSet, place: usize) -> Option<usize>
    ensures past { (suppressed : SuppressedEnds) (from : ℕ)
        → result ≡ past_item (search_context haystack.now meaning suppressed from)
        (has (edges_in set.now)) place }
    ensures forth { IfSome result (λ p. place ≤ p) }
{
    let reading = read_at(haystack, meaning, place)?;
    if set.contains(reading.code) {
        Some(place + reading.width)
    } else {
        None
    }
}

/// The place after the byte at `place`, if it is this one.
#[inline]
pub fn past_raw_byte(haystack: &[u8], byte: u8, place: usize) -> Option<usize>
    ensures past { (meaning : Meaning) (suppressed : SuppressedEnds) (from : ℕ)
        → result ≡ past_byte (search_context haystack.now meaning suppressed from) byte place }
    ensures forth { IfSome result (λ p. place ≤ p) }
{
    let found = *haystack.get(place)?;
    if found == byte { Some(place + 1) } else { None }
}
