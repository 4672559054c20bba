//! The bytes of items, by the places at which they stand.

ghost use Rattle.std.specs.Prelude.{◌≡◌, ℕ, ◌<◌, ◌≤◌, true, false, [], ◌∷◌, length, encode_utf8};
ghost use Rattle.std.specs.Char.{len_utf8};
ghost use Rattle.fancy_tree.specs.Members.{edges_of};
ghost use Rattle.fancy_tree.specs.Sets.{has};
ghost use Rattle.fancy_bytes.specs.Items.{encoding, is_item};
ghost use Rattle.fancy_bytes.specs.Sets.{member};
ghost use Rattle.fancy_bytes.specs.Rows.{HasEncoding, HasItems, HasNone, Wider};

use crate::byte_set::ByteSet;
use crate::edges::{add_ascii, next_member};
use crate::rows::add_bytes;
use fancy_tree::char_set::CharSet;
use fancy_tree::tree::Meaning;

/// So many members of a set are added one by one.
const FEW: usize = 64;

/// How many bytes an item has.
#[derive(Clone, Copy)]
pub struct Sizes {
    /// So many at least.
    pub least: usize,
    /// And so many at most.
    pub most: usize,
}

/// Whether each member of a set is ASCII, by its edges.
pub fn is_ascii(edges: &[u32]) -> bool
    ensures { result ≡ true → (c : ℕ) → 128 ≤ c → has edges.now c ≡ false }
{
    for edge in edges {
        if *edge > 0x80 {
            return false;
        }
    }
    edges.len() % 2 == 0
}

/// The bytes that characters past ASCII consist of.
fn high_bytes() -> ByteSet
    ensures { (b : ℕ) → 128 ≤ b → b < 256 → member result b ≡ true }
{
    let mut bytes = ByteSet::new();
    for byte in 128..256u32 {
        bytes.insert(byte as u8);
    }
    bytes
}

/// The bytes whose numbers are members of a set.
fn bytes_of(set: &CharSet) -> ByteSet
    ensures { (b : ℕ) → b < 256 → has (edges_of set.now.set) b ≡ true → member result b ≡ true }
{
    let mut bytes = ByteSet::new();
    for byte in 0..256u32 {
        if set.contains(byte) {
            bytes.insert(byte as u8);
        }
    }
    bytes
}

/// The members of a set that are ASCII.
fn ascii_of(set: &CharSet) -> ByteSet
    ensures { (b : ℕ) → b < 128 → has (edges_of set.now.set) b ≡ true → member result b ≡ true }
{
    let mut bytes = ByteSet::new();
    add_ascii(set.edges(), &mut bytes);
    bytes
}

/// Adds the bytes of an item, the first to the set with a number, the others to those after it. Where it is not told that the item
/// stands there, they are added to all further sets too.
fn add_encoding(sets: &mut Vec<ByteSet>, from: usize, exact: bool, bytes: &[u8])
    requires inside { from < length sets.old.items }
    ensures wider { Wider sets.old.items sets.new.items }
    ensures size { length sets.new.items ≡ length sets.old.items }
    ensures has { HasEncoding sets.new.items from exact bytes.now }
{
    for i in 0..bytes.len() {
        add_bytes(sets, from + i, exact, &ByteSet::of(bytes[i]));
    }
}

/// The same for an item that is one byte, if its number is one.
fn add_number(sets: &mut Vec<ByteSet>, from: usize, exact: bool, code: u32)
    requires inside { from < length sets.old.items }
    ensures wider { Wider sets.old.items sets.new.items }
    ensures has { code < 256 → HasEncoding sets.new.items from exact (code ∷ []) }
{
    if code < 256 {
        add_encoding(sets, from, exact, &[code as u8]);
    }
}

/// The same for a character.
pub fn add_character(sets: &mut Vec<ByteSet>, from: usize, exact: bool, c: char, meaning: Meaning)
    requires inside { from < length sets.old.items }
    ensures wider { Wider sets.old.items sets.new.items }
    ensures has { HasEncoding sets.new.items from exact (encoding meaning c) }
{
    match meaning {
        Meaning::Bytes => add_number(sets, from, exact, c as u32),
        Meaning::Unicode | Meaning::AsciiText => {
            add_encoding(sets, from, exact, c.encode_utf8(&mut [0; 4]).as_bytes());
        }
    }
}

/// How many bytes a character has.
pub fn size_of(c: char, meaning: Meaning) -> usize
    ensures { result ≡ length (encoding meaning c) }
{
    match meaning {
        Meaning::Bytes => 1,
        Meaning::Unicode | Meaning::AsciiText => c.len_utf8(),
    }
}

/// The number of the first character that has so many bytes; with more than four the one past all of them.
fn first_with(size: usize) -> u32
    ensures from { (c : ℕ) → size ≤ len_utf8 c → result ≤ c }
    ensures before { (c : ℕ) → is_item Meaning.Unicode c ≡ true → len_utf8 c < size → c < result }
    ensures within { result ≤ 0x11_0000 }
{
    match size {
        0 | 1 => 0,
        2 => 0x80,
        3 => 0x800,
        4 => 0x1_0000,
        _ => 0x11_0000,
    }
}

/// Whether a set has few members past ASCII.
pub fn is_small(set: &CharSet) -> bool {
    let edges = set.edges();
    if edges.len() > 2 * FEW {
        return false;
    }
    let mut count = 0u32;
    for i in 0..edges.len() / 2 {
        let from = edges[2 * i].max(0x80);
        count = count.saturating_add(edges[2 * i + 1].saturating_sub(from));
    }
    count as usize <= FEW
}

/// Whether a member of a set may be a character of so many bytes.
fn has_character(set: &CharSet, sizes: Sizes) -> bool
    ensures { result ≡ false → HasNone Meaning.Unicode (has (edges_of set.now.set)) sizes.least sizes.most }
{
    match next_member(set.edges(), first_with(sizes.least)) {
        None => false,
        Some(c) => c < first_with(sizes.most.saturating_add(1)),
    }
}

/// Whether a member of a set may have so many bytes.
pub fn has_size(set: &CharSet, meaning: Meaning, sizes: Sizes) -> bool
    ensures { result ≡ false → HasNone meaning (has (edges_of set.now.set)) sizes.least sizes.most }
{
    match meaning {
        Meaning::Bytes => sizes.least <= 1,
        Meaning::Unicode => has_character(set, sizes),
        Meaning::AsciiText => has_character(set, sizes),
    }
}

/// Adds the bytes of a character, by its number. A number that is no character's adds nothing.
fn add_code(sets: &mut Vec<ByteSet>, from: usize, exact: bool, code: u32)
    requires inside { from < length sets.old.items }
    ensures wider { Wider sets.old.items sets.new.items }
    ensures size { length sets.new.items ≡ length sets.old.items }
    ensures has { is_item Meaning.Unicode code ≡ true → HasEncoding sets.new.items from exact (encode_utf8 code) }
{
    if let Some(c) = char::from_u32(code) {
        add_encoding(sets, from, exact, c.encode_utf8(&mut [0; 4]).as_bytes());
    }
}

/// Adds the bytes of all members of a set that are characters of so many bytes, if there are few.
fn add_each(sets: &mut Vec<ByteSet>, from: usize, exact: bool, set: &CharSet, sizes: Sizes) -> bool
    requires inside { from < length sets.old.items }
    ensures wider { Wider sets.old.items sets.new.items }
    ensures size { length sets.new.items ≡ length sets.old.items }
    ensures has { result ≡ true
        → HasItems sets.new.items from exact Meaning.Unicode (has (edges_of set.now.set)) sizes.least sizes.most }
{
    let end = first_with(sizes.most.saturating_add(1));
    let mut next = first_with(sizes.least);
    for _ in 0..FEW {
        match next_member(set.edges(), next) {
            Some(code) if code < end => {
                add_code(sets, from, exact, code);
                next = code + 1;
            }
            _ => return true,
        }
    }
    false
}

/// Adds to the sets of four places all bytes that characters past ASCII consist of, and to that of the first one the members of a set
/// that are ASCII.
fn add_all(sets: &mut Vec<ByteSet>, from: usize, exact: bool, set: &CharSet)
    requires inside { from < length sets.old.items }
    ensures wider { Wider sets.old.items sets.new.items }
    ensures has { (least most : ℕ) → HasItems sets.new.items from exact Meaning.Unicode (has (edges_of set.now.set)) least most }
{
    add_bytes(sets, from, exact, &ascii_of(set));
    let high = high_bytes();
    for i in 0..4 {
        add_bytes(sets, from + i, exact, &high);
    }
}

/// The same of those that have so many bytes, each with its own bytes if they are few.
fn add_characters(sets: &mut Vec<ByteSet>, from: usize, exact: bool, set: &CharSet, sizes: Sizes)
    requires inside { from < length sets.old.items }
    ensures wider { Wider sets.old.items sets.new.items }
    ensures has { HasItems sets.new.items from exact Meaning.Unicode (has (edges_of set.now.set)) sizes.least sizes.most }
{
    if sizes.most <= 1 {
        add_bytes(sets, from, exact, &ascii_of(set));
    } else if !is_small(set) || !add_each(sets, from, exact, set, sizes) {
        add_all(sets, from, exact, set);
    }
}

/// Adds the bytes of the members of a set that have so many bytes: of too many of them more bytes than they have.
pub fn add_members(
    sets: &mut Vec<ByteSet>,
    from: usize,
    exact: bool,
    set: &CharSet,
    meaning: Meaning,
    sizes: Sizes,
)
    requires inside { from < length sets.old.items }
    ensures wider { Wider sets.old.items sets.new.items }
    ensures has { HasItems sets.new.items from exact meaning (has (edges_of set.now.set)) sizes.least sizes.most }
{
    match meaning {
        Meaning::Bytes => add_bytes(sets, from, exact, &bytes_of(set)),
        Meaning::Unicode => add_characters(sets, from, exact, set, sizes),
        Meaning::AsciiText => add_characters(sets, from, exact, set, sizes),
    }
}
