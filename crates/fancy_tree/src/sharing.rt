//! What flag `i` makes of a single character, found without a walk over all pairs.

ghost use Rattle.std.specs.Prelude.{◌≡◌, ℕ, map, IfOk};
ghost use Rattle.std.specs.List.Sorted.{IsNonDecreasingBy};
ghost use Rattle.unicode.specs.CaseFolding.{fold_pairs};
ghost use Rattle.fancy_tree.specs.Sets.{in_range};
ghost use Rattle.fancy_tree.specs.Members.{members};
ghost use Rattle.fancy_tree.specs.Widening.{case_closure, in_pairs};
ghost use Rattle.fancy_tree.specs.SetViews.{PairsCut, first_of, second_alone};

use crate::operation::Operation;
use crate::set::Set;
use crate::tree::Meaning;
use crate::widening::case_closure;
use std::alloc::{AllocError, Global};
use unicode::case::fold_pairs;

/// How many pairs begin with a number below `c`, of pairs in the order of their first parts.
fn pairs_below(pairs: &[(u32, u32)], c: u32) -> usize
    requires { IsNonDecreasingBy first_of pairs.now }
    ensures { PairsCut pairs.now result c }
{
    let mut low = 0;
    let mut high = pairs.len();
    while low < high {
        let middle = low + (high - low) / 2;
        if pairs[middle].0 < c {
            low = middle + 1;
        } else {
            high = middle;
        }
    }
    low
}

/// The second part of each pair, as a range of one number.
fn seconds(alloc: Global, pairs: &[(u32, u32)]) -> Result<Vec<(u32, u32)>, AllocError>
    ensures { IfOk result (λ out. out.items ≡ map second_alone pairs.now) }
{
    pairs.iter().map(|pair| (pair.1, pair.1)).collect(alloc)
}

/// The other characters that share the simple folding of one.
fn partners(alloc: Global, c: char) -> Result<Set, AllocError>
    ensures { IfOk result (λ s. (x : ℕ) → members s x ≡ in_pairs fold_pairs (in_range (c, c)) x) }
{
    let c = c as u32;
    let pairs = fold_pairs();
    let first = pairs_below(pairs, c);
    let last = pairs_below(pairs, c + 1);
    let others = seconds(alloc, &pairs[first..last])?;
    Set::from_ranges(alloc, &others)
}

/// The character with those that share its simple folding; outside Unicode meaning, an ASCII letter in
/// both cases.
pub fn case_variants(alloc: Global, meaning: Meaning, c: char) -> Result<Set, AllocError>
    ensures { IfOk result (λ s. (x : ℕ) → members s x ≡ case_closure meaning (in_range (c, c)) x) }
{
    let one = Set::range(alloc, c as u32, c as u32)?;
    match meaning {
        Meaning::Unicode => one.combine(Operation::Union, &partners(alloc, c)?),
        Meaning::Bytes | Meaning::AsciiText => case_closure(meaning, &one),
    }
}
