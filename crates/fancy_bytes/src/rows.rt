//! Rows of sets of bytes, one for each of the first places of a match.

ghost use Rattle.std.specs.Prelude.{◌≡◌, ℕ, ◌+◌, List, false, length, slice_index};
ghost use Rattle.fancy_bytes.specs.Rows.{HasFrom, Wider, StandsFrom};

use crate::byte_set::ByteSet;
use std::alloc::{AllocError, Global};

/// A set of bytes tells something where it has at most so many that are ASCII: most texts have the others at most places. Past ASCII it
/// may have all, or at most so many that go on with a character: one of these stands after each byte that begins one.
const FEW: usize = 16;

/// So many bytes at most are in all sets of a row that few runs of one kind of byte have.
const FEW_SHARED: usize = 4;

/// So many sets without bytes.
pub fn empty_sets(alloc: Global, places: usize) -> Result<Vec<ByteSet>, AllocError> {
    let mut sets = Vec::with_capacity(alloc, places)?;
    for _ in 0..places {
        sets.push(ByteSet::new())?;
    }
    Ok(sets)
}

/// Adds bytes to each set from a number on; where that is told, to that one alone.
pub fn add_bytes(sets: &mut Vec<ByteSet>, from: usize, exact: bool, bytes: &ByteSet)
    ensures wider { Wider sets.old.items sets.new.items }
    ensures size { length sets.new.items ≡ length sets.old.items }
    ensures has { HasFrom sets.new.items from exact bytes.now }
{
    let end = if exact {
        sets.len().min(from.saturating_add(1))
    } else {
        sets.len()
    };
    for j in from..end {
        sets[j] = sets[j].union(bytes);
    }
}

/// How many members the set has from the one byte on and before the other.
fn count_between(set: &ByteSet, from: u8, to: u8) -> usize {
    let mut count = 0usize;
    for byte in from..to {
        if set.contains(byte) {
            count = count.saturating_add(1);
        }
    }
    count
}

/// Whether the set tells something.
fn is_telling(set: &ByteSet) -> bool {
    count_between(set, 0, 0x80) <= FEW
        && (count_between(set, 0x80, 0xC0) <= FEW || count_between(set, 0xC0, 0xFF) > 0)
}

/// Whether this byte may stand at a place of the row. At a place past it any byte may.
pub fn may_hold(sets: &[ByteSet], place: usize, byte: u8) -> bool
    ensures { result ≡ false → (haystack : List ℕ) (end p : ℕ) → slice_index haystack (p + place) ≡ byte
        → ¬ StandsFrom sets.now haystack end 0 p }
{
    place >= sets.len() || sets[place].contains(byte)
}

/// Whether few bytes are in all of the sets. Else a run of such bytes, as of digits, has a byte of each set.
pub fn are_apart(sets: &[ByteSet]) -> bool {
    let mut shared = ByteSet::all();
    for set in sets {
        shared = shared.intersection(set);
    }
    shared.len() <= FEW_SHARED
}

/// Whether the sets tell more than the first of them alone: another has few bytes.
pub fn are_telling(sets: &[ByteSet]) -> bool {
    for j in 1..sets.len() {
        if is_telling(&sets[j]) {
            return true;
        }
    }
    false
}
