//! The bytes with which the items that a pattern may consume begin.

ghost use Rattle.std.specs.Prelude.{map};
ghost use Rattle.fancy_tree.specs.Pattern.{pattern_of};
ghost use Rattle.fancy_bytes.specs.Reads.{item_starts, item_starts_in};
ghost use Rattle.fancy_bytes.specs.Sets.{AddsBytes};

use crate::byte_set::ByteSet;
use crate::start::{add_first_of_character, add_first_of_set};
use fancy_tree::tree::{Meaning, Tree};

/// Adds the bytes with which an item begins that the pattern may consume, its first one or a later one.
#[cycle(reads)]
#[tactic(auto, using(fancy_tree::proofs::PatternLemmas::pattern_equations))]
pub fn add_item_starts(tree: &Tree, meaning: Meaning, set: &mut ByteSet)
    ensures { AddsBytes (item_starts meaning (pattern_of tree.now)) set.old set.new }
{
    match tree {
        Tree::Empty
        | Tree::Assertion(_)
        | Tree::GroupTest(_)
        | Tree::KeepStart
        | Tree::ContinueHere
        | Tree::LookAhead { .. }
        | Tree::LookBehind { .. } => {}
        Tree::Character(c) => add_first_of_character(*c, meaning, set),
        Tree::Member(items) => add_first_of_set(items, meaning, set),
        Tree::InAnyCase(items) => add_first_of_set(items, meaning, set),
        Tree::RawByte(byte) => set.insert(*byte),
        Tree::Backreference { .. } => *set = ByteSet::all(),
        Tree::Group { body, .. } => add_item_starts(body, meaning, set),
        Tree::Atomic(body) => add_item_starts(body, meaning, set),
        Tree::Repeat { body, .. } => add_item_starts(body, meaning, set),
        Tree::Conditional {
            condition,
            on_match,
            otherwise,
        } => {
            add_item_starts(condition, meaning, set);
            add_item_starts(on_match, meaning, set);
            add_item_starts(otherwise, meaning, set);
        }
        Tree::Concat(parts) => add_item_starts_in(parts, meaning, set),
        Tree::Alternation(branches) => add_item_starts_in(branches, meaning, set),
    }
}

/// The same of several patterns.
#[cycle(reads)]
fn add_item_starts_in(trees: &[Tree], meaning: Meaning, set: &mut ByteSet)
    ensures { AddsBytes (item_starts_in meaning (map pattern_of trees.now)) set.old set.new }
{
    for i in 0..trees.len() {
        add_item_starts(&trees[i], meaning, set);
    }
}
