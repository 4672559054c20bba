//! The text that whatever a pattern matches begins with.

ghost use Rattle.std.specs.Prelude.{◌≡◌, ◌++◌, List, map, if◌then◌else◌, [], IfOk, encode_utf8};
ghost use Rattle.fancy_tree.specs.Pattern.{pattern_of};
ghost use Rattle.fancy_bytes.specs.Openings.{opening, is_literal, opening_of_row, are_literal, item_text, has_text};

use fancy_tree::tree::{Meaning, Tree};
use std::alloc::{AllocError, Global};

/// The text that whatever the pattern matches begins with. It is refused where memory runs out.
pub fn opening_text(alloc: Global, tree: &Tree, meaning: Meaning) -> Result<Vec<u8>, AllocError>
    ensures { IfOk result (λ text. text.items ≡ opening meaning (pattern_of tree.now)) }
{
    let mut text = Vec::new(alloc);
    add_opening(&mut text, tree, meaning)?;
    Ok(text)
}

/// Adds the text that whatever the pattern matches begins with, and tells whether the pattern consumes that and nothing else.
#[cycle(opening)]
#[tactic(auto, using(fancy_tree::proofs::PatternLemmas::pattern_equations))]
fn add_opening(text: &mut Vec<u8>, tree: &Tree, meaning: Meaning) -> Result<bool, AllocError>
    ensures added { IfOk result (λ _. text.new.items ≡ text.old.items ++ opening meaning (pattern_of tree.now)) }
    ensures literal { IfOk result (λ whole. whole ≡ is_literal meaning (pattern_of tree.now)) }
{
    match tree {
        Tree::Empty | Tree::Assertion(_) => Ok(true),
        Tree::Character(c) => add_character(text, *c, meaning),
        Tree::RawByte(byte) => {
            text.push(*byte)?;
            Ok(true)
        }
        Tree::Group { body, .. } => add_opening(text, body, meaning),
        Tree::Repeat { low, body, .. } => {
            if *low >= 1 {
                add_opening(text, body, meaning)?;
            }
            Ok(false)
        }
        Tree::Concat(parts) => add_openings(text, parts, meaning),
        Tree::Member(_)
        | Tree::InAnyCase(_)
        | Tree::Backreference { .. }
        | Tree::GroupTest(_)
        | Tree::KeepStart
        | Tree::ContinueHere
        | Tree::Atomic(_)
        | Tree::LookAhead { .. }
        | Tree::LookBehind { .. }
        | Tree::Conditional { .. } => Ok(false),
        Tree::Alternation(_) => Ok(false),
    }
}

/// The same of patterns one after another.
#[cycle(opening)]
fn add_openings(text: &mut Vec<u8>, trees: &[Tree], meaning: Meaning) -> Result<bool, AllocError>
    ensures added { IfOk result (λ _. text.new.items ≡ text.old.items ++ opening_of_row meaning (map pattern_of trees.now)) }
    ensures literal { IfOk result (λ whole. whole ≡ are_literal meaning (map pattern_of trees.now)) }
{
    for i in 0..trees.len() {
        if !add_opening(text, &trees[i], meaning)? {
            return Ok(false);
        }
    }
    Ok(true)
}

/// Adds the bytes of a character, in byte meaning its number, if it is one of a byte, and tells whether it could be added.
fn add_character(text: &mut Vec<u8>, c: char, meaning: Meaning) -> Result<bool, AllocError>
    ensures added { IfOk result (λ _. text.new.items ≡ text.old.items ++ item_text meaning c) }
    ensures literal { IfOk result (λ whole. whole ≡ has_text meaning c) }
{
    match meaning {
        Meaning::Bytes => {
            let code = c as u32;
            if code >= 256 {
                return Ok(false);
            }
            text.push(code as u8)?;
        }
        Meaning::Unicode => add_encoding(text, c)?,
        Meaning::AsciiText => add_encoding(text, c)?,
    }
    Ok(true)
}

/// Adds the bytes of a character's UTF-8.
fn add_encoding(text: &mut Vec<u8>, c: char) -> Result<(), AllocError>
    ensures { IfOk result (λ _. text.new.items ≡ text.old.items ++ encode_utf8 c) }
{
    let mut buffer = [0; 4];
    text.extend_from_slice(c.encode_utf8(&mut buffer).as_bytes())
}
