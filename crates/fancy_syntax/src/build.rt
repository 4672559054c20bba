//! Trees out of the parts that were read.

ghost use Rattle.std.specs.Prelude.{◌≡◌, map, IfOk};
ghost use Rattle.fancy_tree.specs.Pattern.{pattern_of, character, backreference, repeat, in_sequence, in_branches};
ghost use Rattle.fancy_syntax.specs.Dialect.{literal_of, conditional_of, group_of};
ghost use Rattle.fancy_syntax.specs.Grammar.{chooses, wrap};
ghost use Rattle.fancy_syntax.specs.Views.{opening_found};

use crate::count::Turns;
use crate::groups::{Grouping, Opening};
use fancy_tree::tree::{Meaning, RepeatKind, Tree};
use std::alloc::{AllocError, Global};

/// One part after another.
#[tactic(auto, using(fancy_tree::proofs::PatternLemmas::pattern_equations))]
pub(crate) fn sequence(mut parts: Vec<Tree>) -> Tree
    ensures { pattern_of result ≡ in_sequence (map pattern_of parts.items) }
{
    if parts.len() > 1 {
        return Tree::Concat(parts);
    }
    match parts.pop() {
        Some(only) => only,
        None => Tree::Empty,
    }
}

/// One of the branches; a single one is no alternative.
#[tactic(auto, using(fancy_tree::proofs::PatternLemmas::pattern_equations))]
pub(crate) fn branches(mut branches: Vec<Tree>) -> Tree
    ensures { pattern_of result ≡ in_branches (map pattern_of branches.items) }
{
    if branches.len() > 1 {
        return Tree::Alternation(branches);
    }
    match branches.pop() {
        Some(only) => only,
        None => Tree::Empty,
    }
}

/// A literal character; in byte meaning it is the sequence of its bytes.
#[tactic(auto, using(fancy_tree::proofs::PatternLemmas::pattern_equations))]
pub(crate) fn literal(alloc: Global, meaning: Meaning, c: char) -> Result<Tree, AllocError>
    ensures { IfOk result (λ t. pattern_of t ≡ literal_of meaning c) }
{
    match meaning {
        Meaning::Unicode | Meaning::AsciiText => Ok(Tree::Character(c)),
        Meaning::Bytes => {
            let mut buffer = [0; 4];
            let bytes = c.encode_utf8(&mut buffer).as_bytes();
            Ok(sequence(one_by_one(alloc, bytes)?))
        }
    }
}

/// Each byte as an item of its own.
#[tactic(auto, using(fancy_tree::proofs::PatternLemmas::pattern_equations))]
fn one_by_one(alloc: Global, bytes: &[u8]) -> Result<Vec<Tree>, AllocError>
    ensures { IfOk result (λ v. map pattern_of v.items ≡ map character bytes.now) }
{
    let mut parts = Vec::new(alloc);
    for byte in bytes {
        parts.push(Tree::Character(char::from(*byte)))?;
    }
    Ok(parts)
}

/// This many turns of the body.
#[tactic(auto, using(fancy_tree::proofs::PatternLemmas::pattern_equations))]
pub(crate) fn repeat(
    alloc: Global,
    turns: Turns,
    kind: RepeatKind,
    body: Tree,
) -> Result<Tree, AllocError>
    ensures { IfOk result (λ t. pattern_of t ≡ repeat turns.low turns.high kind (pattern_of body)) }
{
    Ok(Tree::Repeat {
        low: turns.low,
        high: turns.high,
        kind,
        body: Box::new(alloc, body)?,
    })
}

/// A reference, by how many stand before it.
#[tactic(auto, using(fancy_tree::proofs::PatternLemmas::pattern_equations))]
pub(crate) fn reference(folded: bool, index: usize) -> Tree
    ensures { pattern_of result ≡ backreference folded index }
{
    Tree::Backreference {
        folded,
        group: index,
    }
}

/// What an atomic group or look-around makes of its body.
#[tactic(auto, using(fancy_tree::proofs::PatternLemmas::pattern_equations))]
fn group_tree(how: Grouping, body: Box<Tree>) -> Tree
    ensures { pattern_of result ≡ group_of how (pattern_of body.value) }
{
    match how {
        Grouping::Atomic => Tree::Atomic(body),
        Grouping::LookAhead { negated } => Tree::LookAhead { negated, body },
        Grouping::LookBehind { negated } => Tree::LookBehind { negated, body },
    }
}

/// A conditional: the first branch of its body where the condition holds, and the others where it does not.
#[tactic(auto, using(fancy_tree::proofs::PatternLemmas::pattern_equations))]
fn conditional(alloc: Global, condition: Box<Tree>, mut body: Vec<Tree>) -> Result<Tree, AllocError>
    ensures { IfOk result (λ t. pattern_of t ≡ conditional_of (pattern_of condition.value) (map pattern_of body.items)) }
{
    let on_match = if body.is_empty() {
        Tree::Empty
    } else {
        body.remove(0)
    };
    Ok(Tree::Conditional {
        condition,
        on_match: Box::new(alloc, on_match)?,
        otherwise: Box::new(alloc, branches(body))?,
    })
}

/// The body of a conditional whose condition has these branches.
pub(crate) fn chooses(alloc: Global, condition: Vec<Tree>) -> Result<Opening, AllocError>
    ensures { IfOk result (λ how. opening_found how ≡ chooses (in_branches (map pattern_of condition.items))) }
{
    Ok(Opening::Chooses(Box::new(alloc, branches(condition))?))
}

/// What a group makes of the branches inside it.
#[tactic(auto, using(fancy_tree::proofs::PatternLemmas::pattern_equations))]
pub(crate) fn wrap(alloc: Global, how: Opening, body: Vec<Tree>) -> Result<Tree, AllocError>
    ensures { IfOk result (λ t. pattern_of t ≡ wrap (opening_found how) (map pattern_of body.items)) }
{
    match how {
        Opening::Setting | Opening::Plain | Opening::Reference { .. } | Opening::Condition => {
            Ok(branches(body))
        }
        Opening::Marked(how) => Ok(group_tree(how, Box::new(alloc, branches(body))?)),
        Opening::Capture(index) => Ok(Tree::Group {
            index,
            body: Box::new(alloc, branches(body))?,
        }),
        Opening::Chooses(condition) => conditional(alloc, condition, body),
    }
}
