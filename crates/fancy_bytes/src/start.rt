//! The bytes that a match can begin with.

ghost use Rattle.std.specs.Prelude.{◌≡◌, ℕ, ◌+◌, ◌<◌, ◌≤◌, ◌||◌, ◌==◌, ◌&&◌, nat_le, nat_lt, map, encode_utf8};
ghost use Rattle.fancy_tree.specs.Pattern.{pattern_of};
ghost use Rattle.fancy_tree.specs.Members.{edges_of};
ghost use Rattle.fancy_tree.specs.Sets.{has};
ghost use Rattle.fancy_input.specs.Places.{is_scalar};
ghost use Rattle.fancy_bytes.specs.Items.{first_of_items, first_of_characters, only, starts_with_byte, some_below};
ghost use Rattle.fancy_bytes.specs.Firsts.{nullable, has_keep_start, AreStartBytes, first_bytes, has_no_turn};
ghost use Rattle.fancy_bytes.specs.Lists.{all_nullable, some_nullable, some_keep_start, first_in_row, first_in_some};
ghost use Rattle.fancy_bytes.specs.Sets.{AddsBytes, IsSetOf};

use crate::byte_set::ByteSet;
use crate::edges::{add_ascii, next_member};
use fancy_tree::set::Set;
use fancy_tree::tree::{Meaning, Tree};

/// Whether the pattern may hold and consume nothing.
#[cycle(nullable)]
#[tactic(auto, using(fancy_tree::proofs::PatternLemmas::pattern_equations))]
pub fn is_nullable(tree: &Tree) -> bool
    ensures { result ≡ nullable (pattern_of tree.now) }
{
    match tree {
        Tree::Character(_) | Tree::Member(_) | Tree::InAnyCase(_) | Tree::RawByte(_) => false,
        Tree::Empty
        | Tree::Backreference { .. }
        | Tree::Assertion(_)
        | Tree::GroupTest(_)
        | Tree::KeepStart
        | Tree::ContinueHere
        | Tree::LookAhead { .. }
        | Tree::LookBehind { .. } => true,
        Tree::Group { body, .. } => is_nullable(body),
        Tree::Atomic(body) => is_nullable(body),
        Tree::Repeat { low, body, .. } => *low == 0 || is_nullable(body),
        Tree::Conditional {
            condition,
            on_match,
            otherwise,
        } => {
            if on_match.is_empty() && otherwise.is_empty() {
                is_nullable(condition)
            } else {
                (is_nullable(condition) && is_nullable(on_match)) || is_nullable(otherwise)
            }
        }
        Tree::Concat(parts) => are_all_nullable(parts),
        Tree::Alternation(branches) => is_some_nullable(branches),
    }
}

#[cycle(nullable)]
fn are_all_nullable(trees: &[Tree]) -> bool
    ensures { result ≡ all_nullable (map pattern_of trees.now) }
{
    for i in 0..trees.len() {
        if !is_nullable(&trees[i]) {
            return false;
        }
    }
    true
}

#[cycle(nullable)]
fn is_some_nullable(trees: &[Tree]) -> bool
    ensures { result ≡ some_nullable (map pattern_of trees.now) }
{
    for i in 0..trees.len() {
        if is_nullable(&trees[i]) {
            return true;
        }
    }
    false
}

/// Whether a repeat with these bounds allows no turn.
fn has_no_turn(low: u32, high: Option<u32>) -> bool
    ensures { result ≡ has_no_turn low high }
{
    match high {
        None => false,
        Some(high) => low == 0 && high == 0,
    }
}

/// Adds the bytes that what the pattern consumes can begin with.
#[cycle(first)]
#[tactic(auto, using(fancy_tree::proofs::PatternLemmas::pattern_equations))]
pub fn add_first(tree: &Tree, meaning: Meaning, set: &mut ByteSet)
    ensures { AddsBytes (first_bytes meaning (pattern_of tree.now)) set.old set.new }
{
    match tree {
        Tree::Empty
        | Tree::Assertion(_)
        | Tree::GroupTest(_)
        | Tree::KeepStart
        | Tree::ContinueHere
        | Tree::LookAhead { .. }
        | Tree::LookBehind { .. } => {}
        Tree::Character(c) => add_first_of_character(*c, meaning, set),
        Tree::Member(items) => add_first_of_set(items, meaning, set),
        Tree::InAnyCase(items) => add_first_of_set(items, meaning, set),
        Tree::RawByte(byte) => set.insert(*byte),
        Tree::Backreference { .. } => *set = ByteSet::all(),
        Tree::Group { body, .. } => add_first(body, meaning, set),
        Tree::Atomic(body) => add_first(body, meaning, set),
        Tree::Repeat {
            low,
            high,
            body,
            ..
        } => {
            if !has_no_turn(*low, *high) {
                add_first(body, meaning, set);
            }
        }
        Tree::Conditional {
            condition,
            on_match,
            otherwise,
        } => {
            add_first(condition, meaning, set);
            if !(on_match.is_empty() && otherwise.is_empty()) {
                if is_nullable(condition) {
                    add_first(on_match, meaning, set);
                }
                add_first(otherwise, meaning, set);
            }
        }
        Tree::Concat(parts) => add_first_in_row(parts, meaning, set),
        Tree::Alternation(branches) => add_first_in_some(branches, meaning, set),
    }
}

#[cycle(first)]
fn add_first_in_row(trees: &[Tree], meaning: Meaning, set: &mut ByteSet)
    ensures { AddsBytes (first_in_row meaning (map pattern_of trees.now)) set.old set.new }
{
    for i in 0..trees.len() {
        let part = &trees[i];
        add_first(part, meaning, set);
        if !is_nullable(part) {
            return;
        }
    }
}

#[cycle(first)]
fn add_first_in_some(trees: &[Tree], meaning: Meaning, set: &mut ByteSet)
    ensures { AddsBytes (first_in_some meaning (map pattern_of trees.now)) set.old set.new }
{
    for i in 0..trees.len() {
        add_first(&trees[i], meaning, set);
    }
}

/// The numbers of the characters whose UTF-8 begins with this byte: the first, and the one after the last.
fn characters_of(byte: u8) -> (u32, u32)
    ensures between { (c : ℕ) → (is_scalar c && starts_with_byte (encode_utf8 c) byte) ≡ (nat_le result.0 c && nat_lt c result.1) }
    ensures within { result.1 ≤ 0x11_0000 }
{
    let byte = byte as u32;
    if byte < 0x80 {
        (byte, byte + 1)
    } else if byte < 0xC2 {
        (0, 0)
    } else if byte < 0xE0 {
        ((byte - 0xC0) * 0x40, (byte - 0xC0) * 0x40 + 0x40)
    } else if byte == 0xE0 {
        (0x800, 0x1000)
    } else if byte == 0xED {
        (0xD000, 0xD800)
    } else if byte < 0xF0 {
        ((byte - 0xE0) * 0x1000, (byte - 0xE0) * 0x1000 + 0x1000)
    } else if byte == 0xF0 {
        (0x1_0000, 0x4_0000)
    } else if byte < 0xF4 {
        (
            (byte - 0xF0) * 0x4_0000,
            (byte - 0xF0) * 0x4_0000 + 0x4_0000,
        )
    } else if byte == 0xF4 {
        (0x10_0000, 0x11_0000)
    } else {
        (0, 0)
    }
}

/// Adds the first byte of the item that a character is.
pub(crate) fn add_first_of_character(c: char, meaning: Meaning, set: &mut ByteSet)
    ensures { AddsBytes (first_of_items meaning (only c)) set.old set.new }
{
    match meaning {
        Meaning::Bytes => {
            let code = c as u32;
            if code < 256 {
                set.insert(code as u8);
            }
        }
        Meaning::Unicode => set.insert(lead_byte(c)),
        Meaning::AsciiText => set.insert(lead_byte(c)),
    }
}

/// The first byte of the character's UTF-8.
fn lead_byte(c: char) -> u8
    ensures { (b : ℕ) → starts_with_byte (encode_utf8 c) b ≡ (b == result) }
{
    let code = c as u32;
    if code < 0x80 {
        code as u8
    } else if code < 0x800 {
        (0xC0 + code / 0x40) as u8
    } else if code < 0x1_0000 {
        (0xE0 + code / 0x1000) as u8
    } else {
        (0xF0 + code / 0x4_0000) as u8
    }
}

/// Whether a number from the first on and before the last is a member.
fn has_member(items: &Set, first: u32, last: u32) -> bool
    ensures { result ≡ some_below last (λ c. nat_le first c && has (edges_of items.now) c) }
{
    if last <= first {
        return false;
    }
    match next_member(items.edges(), first) {
        None => false,
        Some(member) => member < last,
    }
}

/// Adds the first bytes of the items of a set.
pub(crate) fn add_first_of_set(items: &Set, meaning: Meaning, set: &mut ByteSet)
    ensures { AddsBytes (first_of_items meaning (has (edges_of items.now))) set.old set.new }
{
    match meaning {
        Meaning::Bytes => add_bytes_of_set(items, set),
        Meaning::Unicode => add_leads_of_set(items, set),
        Meaning::AsciiText => add_leads_of_set(items, set),
    }
}

fn add_bytes_of_set(items: &Set, set: &mut ByteSet)
    ensures { AddsBytes (has (edges_of items.now)) set.old set.new }
{
    for byte in 0..256u32 {
        if items.contains(byte) {
            set.insert(byte as u8);
        }
    }
}

/// Whether a character of the set begins with this byte.
fn is_first(items: &Set, byte: u8) -> bool
    ensures { result ≡ first_of_characters (has (edges_of items.now)) byte }
{
    let (first, last) = characters_of(byte);
    has_member(items, first, last)
}

fn add_leads_of_set(items: &Set, set: &mut ByteSet)
    ensures { AddsBytes (first_of_characters (has (edges_of items.now))) set.old set.new }
{
    add_ascii(items.edges(), set);
    for byte in 0x80..256u32 {
        if is_first(items, byte as u8) {
            set.insert(byte as u8);
        }
    }
}

/// Whether `\K` stands somewhere in the pattern.
#[cycle(keep_start)]
#[tactic(auto, using(fancy_tree::proofs::PatternLemmas::pattern_equations))]
pub fn has_keep_start(tree: &Tree) -> bool
    ensures { result ≡ has_keep_start (pattern_of tree.now) }
{
    match tree {
        Tree::KeepStart => true,
        Tree::Empty
        | Tree::Character(_)
        | Tree::Member(_)
        | Tree::InAnyCase(_)
        | Tree::RawByte(_)
        | Tree::Backreference { .. }
        | Tree::Assertion(_)
        | Tree::GroupTest(_)
        | Tree::ContinueHere => false,
        Tree::Group { body, .. } => has_keep_start(body),
        Tree::Repeat { body, .. } => has_keep_start(body),
        Tree::LookAhead { body, .. } => has_keep_start(body),
        Tree::LookBehind { body, .. } => has_keep_start(body),
        Tree::Atomic(body) => has_keep_start(body),
        Tree::Conditional {
            condition,
            on_match,
            otherwise,
        } => has_keep_start(condition) || (has_keep_start(on_match) || has_keep_start(otherwise)),
        Tree::Concat(parts) => is_some_keep_start(parts),
        Tree::Alternation(branches) => is_some_keep_start(branches),
    }
}

#[cycle(keep_start)]
fn is_some_keep_start(trees: &[Tree]) -> bool
    ensures { result ≡ some_keep_start (map pattern_of trees.now) }
{
    for i in 0..trees.len() {
        if has_keep_start(&trees[i]) {
            return true;
        }
    }
    false
}

/// The bytes that a match starts with. `None` where a match may be empty, or need not start where it was
/// tried.
pub fn start_bytes(tree: &Tree, meaning: Meaning) -> Option<ByteSet>
    ensures { AreStartBytes meaning (pattern_of tree.now) result }
{
    if is_nullable(tree) || has_keep_start(tree) {
        return None;
    }
    let mut set = ByteSet::new();
    add_first(tree, meaning, &mut set);
    Some(set)
}
