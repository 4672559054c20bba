//! What an instruction reads that reads an item.

ghost use Rattle.std.specs.Prelude.{◌≡◌, ◌==◌, true, IfSome};
ghost use Rattle.fancy_tree.specs.Sets.{has};
ghost use Rattle.fancy_code.specs.Code.{instrs_of};
ghost use Rattle.fancy_code.specs.Instructions.{edges_in};
ghost use Rattle.fancy_code.specs.Items.{AreItems, IsAlone, ReadsEach, reads_to};
ghost use Rattle.fancy_code.specs.Run.{instr_at};

use crate::code::{Code, Instr};
use fancy_bytes::byte_set::ByteSet;
use fancy_tree::char_set::CharSet;
use fancy_tree::tree::Meaning;

/// Whether a byte can be an item by itself: an ASCII one, and any where items are bytes.
pub fn is_alone(meaning: Meaning, byte: u8) -> bool
    ensures { result ≡ true → IsAlone meaning byte }
{
    match meaning {
        Meaning::Bytes => true,
        Meaning::Unicode | Meaning::AsciiText => byte < 0x80,
    }
}

/// The byte that is the character by itself, if there is one.
fn bytes_of_character(character: char, meaning: Meaning) -> ByteSet
    ensures { AreItems meaning (λ d. d == character) result }
{
    let code = character as u32;
    if code < 256 && is_alone(meaning, code as u8) {
        return ByteSet::of(code as u8);
    }
    ByteSet::new()
}

/// The bytes that are a member by themselves.
fn bytes_of_set(set: &CharSet, meaning: Meaning) -> ByteSet
    ensures { AreItems meaning (has (edges_in set.now)) result }
{
    let mut items = ByteSet::new();
    for byte in 0..256u32 {
        if is_alone(meaning, byte as u8) && set.contains(byte) {
            items.insert(byte as u8);
        }
    }
    items
}

/// The bytes that are by themselves an item that an instruction reads before it goes on at `back`, if it does that.
pub fn items_at(code: &Code, at: usize, back: usize) -> Option<ByteSet>
    ensures reads { IfSome result (λ set. ReadsEach (instrs_of code.now) code.now.meaning set at back) }
    ensures item { IfSome result (λ _. reads_to (instr_at (instrs_of code.now) at) back ≡ true) }
{
    if at >= code.len() {
        return None;
    }
    match code.instr(at) {
        Instr::Character(character, next) if *next == back => {
            Some(bytes_of_character(*character, code.meaning))
        }
        Instr::Member(set, next) if *next == back => {
            Some(bytes_of_set(code.set(*set), code.meaning))
        }
        Instr::RawByte(byte, next) if *next == back => Some(ByteSet::of(*byte)),
        _ => None,
    }
}
