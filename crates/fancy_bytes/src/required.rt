//! The bytes that every haystack with a match has.

ghost use Rattle.std.specs.Prelude.{◌≡◌, ℕ, ◌-◌, ◌<◌, ◌≤◌, ◌||◌, ◌&&◌, ◌==◌, not, map, Some, encode_utf8};
ghost use Rattle.fancy_tree.specs.Pattern.{pattern_of};
ghost use Rattle.fancy_input.specs.Places.{is_scalar};
ghost use Rattle.fancy_bytes.specs.Items.{encoding, includes, one_member, is_item, is_in_one, is_in_each, is_in_all};
ghost use Rattle.fancy_bytes.specs.Required.{required_bytes};
ghost use Rattle.fancy_bytes.specs.Lists.{required_in_some, required_in_choice};
ghost use Rattle.fancy_bytes.specs.Sets.{AddsBytes, KeepsBytes, IsSetOf};

use crate::byte_set::ByteSet;
use fancy_tree::tree::{Meaning, Tree};

/// The bytes that stand in every haystack in which the pattern holds somewhere.
#[cycle(required)]
#[tactic(auto, using(fancy_tree::proofs::PatternLemmas::pattern_equations))]
pub fn required_bytes(tree: &Tree, meaning: Meaning) -> ByteSet
    ensures { IsSetOf (required_bytes meaning (pattern_of tree.now)) result }
{
    match tree {
        Tree::Empty
        | Tree::Backreference { .. }
        | Tree::Assertion(_)
        | Tree::GroupTest(_)
        | Tree::KeepStart
        | Tree::ContinueHere => ByteSet::new(),
        Tree::Character(c) => bytes_of_character(*c, meaning),
        Tree::Member(set) => bytes_of_one(set.edges(), meaning),
        Tree::InAnyCase(set) => bytes_of_all(set.edges(), meaning),
        Tree::RawByte(byte) => ByteSet::of(*byte),
        Tree::Group { body, .. } => required_bytes(body, meaning),
        Tree::Atomic(body) => required_bytes(body, meaning),
        Tree::Repeat { low, body, .. } => required_where(*low >= 1, body, meaning),
        Tree::LookAhead { negated, body } => required_where(!*negated, body, meaning),
        Tree::LookBehind { negated, body } => required_where(!*negated, body, meaning),
        Tree::Conditional {
            condition,
            on_match,
            otherwise,
        } => {
            if on_match.is_empty() && otherwise.is_empty() {
                required_bytes(condition, meaning)
            } else {
                let here = required_bytes(condition, meaning);
                let there = required_bytes(on_match, meaning);
                let both = here.union(&there);
                let other = required_bytes(otherwise, meaning);
                both.intersection(&other)
            }
        }
        Tree::Concat(parts) => required_in_row(parts, meaning),
        Tree::Alternation(branches) => required_in_each(branches, meaning),
    }
}

/// What the pattern requires where it has to hold, and else nothing.
#[cycle(required)]
fn required_where(holds: bool, tree: &Tree, meaning: Meaning) -> ByteSet
    ensures { IsSetOf (λ b. holds && required_bytes meaning (pattern_of tree.now) b) result }
{
    if holds {
        required_bytes(tree, meaning)
    } else {
        ByteSet::new()
    }
}

#[cycle(required)]
fn required_in_row(trees: &[Tree], meaning: Meaning) -> ByteSet
    ensures { IsSetOf (required_in_some meaning (map pattern_of trees.now)) result }
{
    let mut set = ByteSet::new();
    for i in 0..trees.len() {
        let more = required_bytes(&trees[i], meaning);
        set = set.union(&more);
    }
    set
}

/// What each branch requires; nothing where there is none.
#[cycle(required)]
fn required_in_each(trees: &[Tree], meaning: Meaning) -> ByteSet
    ensures { IsSetOf (required_in_choice meaning (map pattern_of trees.now)) result }
{
    if trees.is_empty() {
        return ByteSet::new();
    }
    let mut set = ByteSet::all();
    for i in 0..trees.len() {
        let more = required_bytes(&trees[i], meaning);
        set = set.intersection(&more);
    }
    set
}

/// The bytes of the character's encoding, in byte meaning the number itself.
fn bytes_of_character(c: char, meaning: Meaning) -> ByteSet
    ensures { IsSetOf (includes (encoding meaning c)) result }
{
    let mut set = ByteSet::new();
    match meaning {
        Meaning::Bytes => {
            let code = c as u32;
            if code < 256 {
                set.insert(code as u8);
            }
        }
        Meaning::Unicode => add_encoding(c, &mut set),
        Meaning::AsciiText => add_encoding(c, &mut set),
    }
    set
}

fn add_encoding(c: char, set: &mut ByteSet)
    ensures { AddsBytes (includes (encode_utf8 c)) set.old set.new }
{
    let mut buffer = [0; 4];
    add_all(c.encode_utf8(&mut buffer).as_bytes(), set);
}

fn add_all(bytes: &[u8], set: &mut ByteSet)
    ensures { AddsBytes (includes bytes.now) set.old set.new }
{
    for i in 0..bytes.len() {
        let byte = bytes[i];
        set.insert(byte);
    }
}

/// The bytes of the set's one member, where it has a single one.
fn bytes_of_one(edges: &[u32], meaning: Meaning) -> ByteSet
    ensures { IsSetOf (is_in_one meaning (one_member edges.now)) result }
{
    if edges.len() == 2 && edges[0] < edges[1] && edges[1] - edges[0] == 1 {
        bytes_of_number(edges[0], meaning)
    } else {
        ByteSet::new()
    }
}

/// The bytes of the encoding of the item with this number, if there is one.
fn bytes_of_number(code: u32, meaning: Meaning) -> ByteSet
    ensures { IsSetOf (is_in_one meaning (Some code)) result }
{
    let mut set = ByteSet::new();
    match meaning {
        Meaning::Bytes => {
            if code < 256 {
                set.insert(code as u8);
            }
        }
        Meaning::Unicode => add_character(code, &mut set),
        Meaning::AsciiText => add_character(code, &mut set),
    }
    set
}

fn add_character(code: u32, set: &mut ByteSet)
    ensures { AddsBytes (λ b. is_scalar code && includes (encode_utf8 code) b) set.old set.new }
{
    if let Some(c) = char::from_u32(code) {
        add_encoding(c, set);
    }
}

/// The bytes that stand in the encoding of each member of the set, which these edges begin and end in turn.
fn bytes_of_all(edges: &[u32], meaning: Meaning) -> ByteSet
    ensures { IsSetOf (is_in_all meaning edges.now) result }
{
    let mut set = ByteSet::all();
    let mut i = 0;
    while i + 1 < edges.len() {
        let from = edges[i];
        let to = edges[i + 1];
        if to < from {
            return ByteSet::new();
        }
        keep_common(from, to, meaning, &mut set);
        i += 2;
    }
    if i < edges.len() {
        return ByteSet::new();
    }
    set
}

/// Keeps the bytes that stand in the encoding of each item from the one number on and before the other.
fn keep_common(from: u32, to: u32, meaning: Meaning, set: &mut ByteSet)
    ensures { KeepsBytes (is_in_each meaning (to - from) from) set.old set.new }
{
    for code in from..to {
        keep_bytes_of(code, meaning, set);
    }
}

/// Keeps the bytes that stand in the encoding of the item with this number; all, where there is no such item.
fn keep_bytes_of(code: u32, meaning: Meaning, set: &mut ByteSet)
    ensures { KeepsBytes (λ b. not (is_item meaning code) || includes (encoding meaning code) b) set.old set.new }
{
    match meaning {
        Meaning::Bytes => {
            let bytes = bytes_of_number(code, meaning);
            *set = set.intersection(&bytes);
        }
        Meaning::Unicode => keep_encoding(code, set),
        Meaning::AsciiText => keep_encoding(code, set),
    }
}

fn keep_encoding(code: u32, set: &mut ByteSet)
    ensures { KeepsBytes (λ b. not (is_scalar code) || includes (encode_utf8 code) b) set.old set.new }
{
    if let Some(c) = char::from_u32(code) {
        let mut bytes = ByteSet::new();
        add_encoding(c, &mut bytes);
        *set = set.intersection(&bytes);
    }
}
