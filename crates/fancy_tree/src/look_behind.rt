//! Whether look-behind can step back: by a size, or by one for each branch.

ghost use Rattle.std.specs.Prelude.{◌≡◌, map};
ghost use Rattle.std.specs.List.{list_all};
ghost use Rattle.fancy_tree.specs.Pattern.{pattern_of};
ghost use Rattle.fancy_tree.specs.Sizes.{has_size, has_sizes, are_sized};

use crate::tree::{Meaning, Tree};

impl Tree {
    /// Whether it has a size.
    fn has_size(&self, meaning: Meaning) -> bool
        ensures { result ≡ has_size meaning (pattern_of self.now) }
    {
        self.size(meaning).is_some()
    }

    /// Whether a look-behind with this body can step back.
    fn has_sizes(&self, meaning: Meaning) -> bool
        ensures { result ≡ has_sizes meaning (pattern_of self.now) }
    {
        match self {
            Tree::Alternation(branches) => have_size(branches, meaning),
            Tree::Concat(parts) => match parts.as_slice() {
                [] => self.has_size(meaning),
                [only] => only.has_sizes(meaning),
                _ => self.has_size(meaning),
            },
            _ => self.has_size(meaning),
        }
    }

    /// Whether each look-behind in it can step back.
    #[cycle(sized)]
    #[tactic(auto, using(crate::proofs::PatternLemmas::pattern_equations), unfolding(crate::specs::Sizes::are_sized))]
    pub fn is_sized(&self, meaning: Meaning) -> bool
        ensures { result ≡ are_sized meaning (pattern_of self.now) }
    {
        match self {
            Tree::Empty
            | Tree::Character(_)
            | Tree::Member(_)
            | Tree::InAnyCase(_)
            | Tree::RawByte(_)
            | Tree::Backreference { .. }
            | Tree::Assertion(_)
            | Tree::GroupTest(_)
            | Tree::KeepStart
            | Tree::ContinueHere => true,
            Tree::Group { body, .. } => body.is_sized(meaning),
            Tree::Repeat { body, .. } => body.is_sized(meaning),
            Tree::LookAhead { body, .. } => body.is_sized(meaning),
            Tree::LookBehind { body, .. } => body.has_sizes(meaning) && body.is_sized(meaning),
            Tree::Atomic(body) => body.is_sized(meaning),
            Tree::Conditional {
                condition,
                on_match,
                otherwise,
            } => {
                condition.is_sized(meaning)
                    && on_match.is_sized(meaning)
                    && otherwise.is_sized(meaning)
            }
            Tree::Concat(parts) => are_sized(parts, meaning),
            Tree::Alternation(branches) => are_sized(branches, meaning),
        }
    }
}

/// Whether each branch has a size.
fn have_size(branches: &[Tree], meaning: Meaning) -> bool
    ensures { result ≡ list_all (λ t. has_size meaning (pattern_of t)) branches.now }
{
    branches.iter().all(|branch| branch.has_size(meaning))
}

/// Whether each look-behind in these trees can step back.
#[cycle(sized)]
fn are_sized(trees: &[Tree], meaning: Meaning) -> bool
    ensures { result ≡ list_all (are_sized meaning) (map pattern_of trees.now) }
{
    for i in 0..trees.len() {
        if !trees[i].is_sized(meaning) {
            return false;
        }
    }
    true
}
