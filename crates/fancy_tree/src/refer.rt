//! The numbers of groups are put in the places of references and of tests of groups.

ghost use Rattle.std.specs.Prelude.{◌≡◌, map, slice_index_or};
ghost use Rattle.fancy_tree.specs.Pattern.{pattern_of};
ghost use Rattle.fancy_tree.specs.Refers.{number_in, refers_to};

use crate::tree::Tree;

/// The number with this index; 0 stands where there is none.
fn number_at(numbers: &[usize], index: usize) -> usize
    ensures { result ≡ number_in numbers.now index }
{
    if index < numbers.len() {
        numbers[index]
    } else {
        0
    }
}

impl Tree {
    /// Puts the number of its group in the place of the index of each reference and of each test of a group.
    #[cycle(refer)]
    #[tactic(auto, using(crate::proofs::PatternLemmas::pattern_equations), unfolding(crate::specs::Refers::refers_to))]
    pub fn refer(&mut self, numbers: &[usize])
        ensures { pattern_of self.new ≡ refers_to (number_in numbers.now) (pattern_of self.old) }
    {
        match self {
            Tree::Backreference { group, .. } => *group = number_at(numbers, *group),
            Tree::GroupTest(group) => *group = number_at(numbers, *group),
            Tree::Group { body, .. } => body.refer(numbers),
            Tree::Repeat { body, .. } => body.refer(numbers),
            Tree::LookAhead { body, .. } => body.refer(numbers),
            Tree::LookBehind { body, .. } => body.refer(numbers),
            Tree::Atomic(body) => body.refer(numbers),
            Tree::Conditional {
                condition,
                on_match,
                otherwise,
            } => {
                condition.refer(numbers);
                on_match.refer(numbers);
                otherwise.refer(numbers);
            }
            Tree::Concat(parts) => refer_all(parts, numbers),
            Tree::Alternation(branches) => refer_all(branches, numbers),
            Tree::Empty
            | Tree::Character(_)
            | Tree::Member(_)
            | Tree::InAnyCase(_)
            | Tree::RawByte(_)
            | Tree::Assertion(_)
            | Tree::KeepStart
            | Tree::ContinueHere => {}
        }
    }
}

/// Does the same in each of these trees.
#[cycle(refer)]
fn refer_all(trees: &mut Vec<Tree>, numbers: &[usize])
    ensures { map pattern_of trees.new.items ≡ map (refers_to (number_in numbers.now)) (map pattern_of trees.old.items) }
{
    for i in 0..trees.len() {
        trees[i].refer(numbers);
    }
}
