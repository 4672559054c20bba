//! How large a pattern is.

ghost use Rattle.std.specs.Prelude.{◌≡◌, ◌↔◌, ℕ, ◌+◌, ◌-◌, ◌^◌, min, map, sum_by, ◌&&◌, IsTrue, Some};
ghost use Rattle.fancy_tree.specs.Pattern.{pattern_of, in_sequence, in_choice};
ghost use Rattle.fancy_tree.specs.Sizes.{nodes, repeat_nodes, kind_nodes, is_empty, size, raw_byte_size, plus_size, common_size, times_size, only_zero, repeat_size, fitting_size};

use crate::tree::{Meaning, RepeatKind, Tree};

impl Tree {
    /// The nodes with counted repeats written out; `usize::MAX` stands for any number past it.
    #[cycle(nodes)]
    #[tactic(auto, using(crate::proofs::PatternLemmas::pattern_equations), unfolding(crate::specs::Sizes::nodes))]
    pub fn nodes(&self) -> usize
        ensures { result ≡ min (nodes (pattern_of self.now)) (2 ^ 64 - 1) }
    {
        match self {
            Tree::Empty
            | Tree::Character(_)
            | Tree::Member(_)
            | Tree::InAnyCase(_)
            | Tree::RawByte(_)
            | Tree::Backreference { .. }
            | Tree::Assertion(_)
            | Tree::GroupTest(_)
            | Tree::KeepStart
            | Tree::ContinueHere => 1,
            Tree::Group { body, .. } => body.nodes().saturating_add(1),
            Tree::LookAhead { body, .. } => body.nodes().saturating_add(1),
            Tree::LookBehind { body, .. } => body.nodes().saturating_add(1),
            Tree::Atomic(body) => body.nodes().saturating_add(1),
            Tree::Repeat {
                low,
                high,
                kind,
                body,
            } => nodes_of_repeat(*low, *high, *kind, body.nodes()),
            Tree::Conditional {
                condition,
                on_match,
                otherwise,
            } => condition
                .nodes()
                .saturating_add(on_match.nodes())
                .saturating_add(otherwise.nodes())
                .saturating_add(1),
            Tree::Concat(parts) => nodes_of_all(parts).max(1),
            Tree::Alternation(branches) => nodes_of_all(branches)
                .saturating_add(branches.len())
                .max(1),
        }
    }
}

/// Whether the tree is the leaf of a sequence without parts, which no quantifier may follow.
#[tactic(auto, using(crate::proofs::PatternLemmas::pattern_equations))]
pub fn is_empty(tree: &Tree) -> bool
    ensures { result ≡ is_empty (pattern_of tree.now) }
{
    match tree {
        Tree::Empty => true,
        Tree::Concat(parts) => match parts.as_slice() {
            [] => true,
            [only] => is_empty(only),
            _ => false,
        },
        _ => false,
    }
}

impl Tree {
    /// Whether this is a sequence without parts.
    pub fn is_empty(&self) -> bool
        ensures { result ≡ is_empty (pattern_of self.now) }
    {
        is_empty(self)
    }
}

#[cycle(nodes)]
fn nodes_of_all(trees: &[Tree]) -> usize
    ensures { result ≡ min (sum_by nodes (map pattern_of trees.now)) (2 ^ 64 - 1) }
{
    let mut total: usize = 0;
    for i in 0..trees.len() {
        total = total.saturating_add(trees[i].nodes());
    }
    total
}

fn nodes_of_repeat(low: u32, high: Option<u32>, kind: RepeatKind, body: usize) -> usize
    ensures { (n : ℕ) → body ≡ min n (2 ^ 64 - 1) →
        result ≡ min (repeat_nodes low high n + kind_nodes kind) (2 ^ 64 - 1) }
{
    let copies = (low as usize).saturating_mul(body);
    let rest = match high {
        None => body.saturating_add(1),
        Some(high) => { (high.saturating_sub(low) as usize).saturating_mul(body.saturating_add(1)) }
    };
    let possessive = match kind {
        RepeatKind::Possessive => 1,
        _ => 0,
    };
    copies
        .saturating_add(rest)
        .saturating_add(1)
        .saturating_add(possessive)
}

impl Tree {
    /// How many units the pattern always consumes (bytes in byte meaning, else characters), where that is one
    /// number; `None` stands for any number past `usize::MAX` too, and only a pattern of more nodes has one.
    ///
    /// ```
    /// assert_eq!(Tree::Character('a').size(Meaning::Unicode), Some(1));
    /// ```
    #[cycle(size)]
    #[tactic(auto, using(crate::proofs::PatternLemmas::pattern_equations), unfolding(crate::specs::Sizes::size))]
    pub fn size(&self, meaning: Meaning) -> Option<usize>
        ensures { result ≡ fitting_size (size meaning (pattern_of self.now)) }
    {
        match self {
            Tree::Empty
            | Tree::Assertion(_)
            | Tree::GroupTest(_)
            | Tree::KeepStart
            | Tree::ContinueHere
            | Tree::LookAhead { .. }
            | Tree::LookBehind { .. } => Some(0),
            Tree::Character(_) | Tree::Member(_) | Tree::InAnyCase(_) => Some(1),
            Tree::RawByte(_) => size_of_raw_byte(meaning),
            Tree::Backreference { .. } => None,
            Tree::Group { body, .. } => body.size(meaning),
            Tree::Atomic(body) => body.size(meaning),
            Tree::Repeat {
                low,
                high,
                body,
                ..
            } => size_of_repeat(*low, *high, body.size(meaning)),
            Tree::Conditional {
                condition,
                on_match,
                otherwise,
            } => {
                let tested = condition.size(meaning);
                if are_empty(on_match, otherwise) {
                    return tested;
                }
                let matched = plus(tested, on_match.size(meaning));
                common(matched, otherwise.size(meaning))
            }
            Tree::Concat(parts) => size_of_sequence(parts, meaning),
            Tree::Alternation(branches) => size_of_choice(branches, meaning),
        }
    }
}

impl Tree {
    /// Whether it always consumes 0 units.
    pub fn consumes_nothing(&self, meaning: Meaning) -> bool
        ensures { IsTrue result ↔ (size meaning (pattern_of self.now) ≡ Some 0) }
    {
        matches!(self.size(meaning), Some(0))
    }
}

/// Whether both are sequences without parts, so that a conditional with these branches is no more than its condition.
pub fn are_empty(first: &Tree, second: &Tree) -> bool
    ensures { result ≡ (is_empty (pattern_of first.now) && is_empty (pattern_of second.now)) }
{
    first.is_empty() && second.is_empty()
}

/// The size of parts that follow one another.
#[cycle(size)]
fn size_of_sequence(parts: &[Tree], meaning: Meaning) -> Option<usize>
    ensures { result ≡ fitting_size (size meaning (in_sequence (map pattern_of parts.now))) }
{
    let mut total = Some(0);
    for i in (0..parts.len()).rev() {
        total = plus(parts[i].size(meaning), total);
    }
    total
}

/// The size of branches, which have one where all have the same.
#[cycle(size)]
fn size_of_choice(branches: &[Tree], meaning: Meaning) -> Option<usize>
    ensures { result ≡ fitting_size (size meaning (in_choice (map pattern_of branches.now))) }
{
    if branches.is_empty() {
        return Some(1);
    }
    let last = branches.len() - 1;
    let mut shared = branches[last].size(meaning);
    for i in (0..last).rev() {
        shared = common(branches[i].size(meaning), shared);
    }
    shared
}

/// The size of a single byte: one unit, where units are bytes.
fn size_of_raw_byte(meaning: Meaning) -> Option<usize>
    ensures { result ≡ raw_byte_size meaning }
{
    match meaning {
        Meaning::Bytes => Some(1),
        Meaning::Unicode | Meaning::AsciiText => None,
    }
}

/// The size of a repeat of a body of this size.
fn size_of_repeat(low: u32, high: Option<u32>, body: Option<usize>) -> Option<usize>
    ensures { result ≡ fitting_size (repeat_size low high body) }
{
    match high {
        Some(high) if low == high => times(low, body),
        _ => only_empty(body),
    }
}

/// So many times the size; no turn has the size 0 whatever its body.
fn times(count: u32, size: Option<usize>) -> Option<usize>
    ensures { result ≡ fitting_size (times_size count size) }
{
    if count == 0 {
        return Some(0);
    }
    let one = size?;
    (count as usize).checked_mul(one)
}

/// The size 0, which any number of turns leaves as it is.
fn only_empty(size: Option<usize>) -> Option<usize>
    ensures { result ≡ only_zero size }
{
    match size {
        Some(0) => Some(0),
        _ => None,
    }
}

/// Both sizes together.
fn plus(first: Option<usize>, second: Option<usize>) -> Option<usize>
    ensures { result ≡ fitting_size (plus_size first second) }
{
    let one = first?;
    let two = second?;
    one.checked_add(two)
}

/// Both sizes where they are one.
fn common(first: Option<usize>, second: Option<usize>) -> Option<usize>
    ensures { result ≡ common_size first second }
{
    let one = first?;
    let two = second?;
    if one == two { Some(one) } else { None }
}
