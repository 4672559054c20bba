//! Which patterns are easy.

ghost use Rattle.std.specs.Prelude.{◌≡◌, map};
ghost use Rattle.fancy_tree.specs.Pattern.{pattern_of};
ghost use Rattle.fancy_meaning.specs.Easy.{is_easy, goes_back, all_easy};

use fancy_tree::tree::{RepeatKind, Tree};

/// Whether a repeat of this kind can go back to another number of turns.
fn goes_back(kind: RepeatKind) -> bool
    ensures { result ≡ goes_back kind }
{
    match kind {
        RepeatKind::Greedy | RepeatKind::Lazy => true,
        RepeatKind::Possessive => false,
    }
}

/// Whether the pattern is easy: without backreferences, look-around, atomic groups, possessive repeats,
/// conditionals, `\K` and `\G`. The search for an easy pattern is bounded by the length of its code and of the text.
#[cycle(is_easy)]
#[tactic(auto, using(fancy_tree::proofs::PatternLemmas::pattern_equations))]
pub fn is_easy(tree: &Tree) -> bool
    ensures { result ≡ is_easy (pattern_of tree.now) }
{
    match tree {
        Tree::Empty
        | Tree::Character(_)
        | Tree::Member(_)
        | Tree::InAnyCase(_)
        | Tree::RawByte(_)
        | Tree::Assertion(_) => true,
        Tree::Backreference { .. }
        | Tree::GroupTest(_)
        | Tree::KeepStart
        | Tree::ContinueHere
        | Tree::LookAhead { .. }
        | Tree::LookBehind { .. }
        | Tree::Atomic(_)
        | Tree::Conditional { .. } => false,
        Tree::Group { body, .. } => is_easy(body),
        Tree::Repeat { kind, body, .. } => goes_back(*kind) && is_easy(body),
        Tree::Concat(parts) => are_easy(parts),
        Tree::Alternation(branches) => are_easy(branches),
    }
}

/// Whether these are easy, all of them.
#[cycle(is_easy)]
#[tactic(auto, using(crate::proofs::ClassifyLemmas::easy_from, crate::proofs::ClassifyLemmas::easy_past))]
fn are_easy(trees: &[Tree]) -> bool
    ensures { result ≡ all_easy (map pattern_of trees.now) }
{
    for i in 0..trees.len() {
        if !is_easy(&trees[i]) {
            return false;
        }
    }
    true
}
