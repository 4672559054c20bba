//! Whether every match ends at the end of the text.

ghost use Rattle.std.specs.Prelude.{◌≡◌, map};
ghost use Rattle.fancy_tree.specs.Pattern.{in_sequence, pattern_of};
ghost use Rattle.fancy_required.specs.Ends.{ends_text, is_text_end};

use fancy_tree::tree::{Assertion, Tree};

/// Whether the assertion holds at the end of the text alone.
fn is_text_end(assertion: Assertion) -> bool
    ensures { result ≡ is_text_end assertion }
{
    matches!(assertion, Assertion::TextEnd)
}

/// Whether each match of the pattern ends at the end of the text, as far as its last part tells.
#[cycle(ends)]
#[tactic(auto, using(fancy_tree::proofs::PatternLemmas::pattern_equations))]
pub fn ends_text(tree: &Tree) -> bool
    ensures { result ≡ ends_text (pattern_of tree.now) }
{
    match tree {
        Tree::Assertion(assertion) => is_text_end(*assertion),
        Tree::Group { body, .. } => ends_text(body),
        Tree::Concat(parts) => ends_text_in_row(parts),
        Tree::Empty
        | Tree::Character(_)
        | Tree::Member(_)
        | Tree::InAnyCase(_)
        | Tree::RawByte(_)
        | Tree::Backreference { .. }
        | Tree::GroupTest(_)
        | Tree::KeepStart
        | Tree::ContinueHere
        | Tree::Atomic(_)
        | Tree::Repeat { .. }
        | Tree::LookAhead { .. }
        | Tree::LookBehind { .. }
        | Tree::Conditional { .. } => false,
        Tree::Alternation(_) => false,
    }
}

/// The same of patterns one after another.
#[cycle(ends)]
fn ends_text_in_row(trees: &[Tree]) -> bool
    ensures { result ≡ ends_text (in_sequence (map pattern_of trees.now)) }
{
    if trees.is_empty() {
        return false;
    }
    ends_text(&trees[trees.len() - 1])
}
