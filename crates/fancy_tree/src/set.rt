//! Sets of numbers.

ghost use Rattle.std.specs.Prelude.{◌≡◌, ◌↔◌, ◌||◌, ℕ, ◌+◌, ◌<◌, ◌≤◌, ◌⊎◌, [], ◌&&◌, false, length, slice_index, nat_le, IfOk, IsTrue, MatchOption};
ghost use Rattle.unicode.specs.Rows.{in_ranges};
ghost use Rattle.fancy_tree.specs.Sets.{has, is_odd, in_range, AreRising, AreEdges};
ghost use Rattle.fancy_tree.specs.SetViews.{Cut, IsNearest};
ghost use Rattle.fancy_tree.specs.SharedEdges.{listed};
ghost use Rattle.fancy_tree.specs.CharSet.{IsTable};

use crate::edges::Edges;
use crate::joining::{are_in_order, joined_edges};
use crate::operation::Operation;
use std::alloc::{AllocError, Global};

/// The last number that a set can have.
pub const LAST: u32 = 0x10_FFFF;

/// A set of numbers up to `LAST`, by the numbers at which it begins and ends. Copies of a set that is [`shared`](Set::shared)
/// share these.
#[derive(Debug, Drop)]
pub struct Set {
    edges: Edges,
    ghost are_edges: { AreEdges (listed edges) },
}

/// How many edges are at most `c`.
pub fn edges_to(edges: &[u32], c: u32) -> usize
    requires { AreRising edges.now }
    ensures { Cut edges.now result (c + 1) }
{
    let mut low = 0;
    let mut high = edges.len();
    while low < high {
        let middle = low + (high - low) / 2;
        if edges[middle] <= c {
            low = middle + 1;
        } else {
            high = middle;
        }
    }
    low
}

/// The next edge of either list.
fn next_edge(a: &[u32], i: usize, b: &[u32], j: usize) -> Option<u32>
    requires a_rises { AreRising a.now }
    requires b_rises { AreRising b.now }
    ensures { MatchOption result ((length a.now ≤ i) × (length b.now ≤ j)) (λ at. IsNearest a.now i b.now j at) }
{
    match (a.get(i), b.get(j)) {
        (Some(x), Some(y)) => Some(*x.min(y)),
        (Some(x), None) => Some(*x),
        (None, Some(y)) => Some(*y),
        (None, None) => None,
    }
}

/// The index after the edge `at`, if that stands at the index `i`; else `i`.
pub fn skip_edge(edges: &[u32], i: usize, at: u32) -> usize
    requires rising { AreRising edges.now }
    requires cut { Cut edges.now i at }
    ensures cut { Cut edges.now result (at + 1) }
    ensures forward { i ≤ result }
    ensures progress { i < length edges.now → slice_index edges.now i ≡ at → i < result }
{
    if i < edges.len() && edges[i] == at {
        i + 1
    } else {
        i
    }
}

/// Gives back the room that is not used, where that is more than half of it.
fn trim(edges: &mut Vec<u32>)
    ensures { edges.new.items ≡ edges.old.items }
{
    if edges.len() < edges.capacity() / 2 {
        edges.shrink_to_fit();
    }
}

impl Set {
    ghost use Rattle.fancy_tree.specs.Members.{edges_of, members, applied};
    ghost use Rattle.fancy_tree.specs.Widening.{in_pairs};

    /// The set without members.
    pub fn empty(alloc: Global) -> Set
        ensures none { (c : ℕ) → members result c ≡ false }
        ensures edges { edges_of result ≡ [] }
    {
        Set {
            edges: Edges::Own(Vec::new(alloc)),
        }
    }

    /// The numbers from the first to the last, none where the first is above the last.
    pub fn range(alloc: Global, first: u32, last: u32) -> Result<Set, AllocError>
        requires { last ≤ LAST }
        ensures { IfOk result (λ s. (c : ℕ) → members s c ≡ in_range (first, last) c) }
    {
        if last < first {
            return Ok(Set::empty(alloc));
        }
        Ok(Set {
            edges: Edges::Own(Vec::from_slice(alloc, &[first, last + 1])?),
        })
    }

    /// Where the memory of its edges is from.
    fn allocator(&self) -> Global {
        self.edges.allocator()
    }

    /// The same set such that copies share its edges. Where memory for that is refused it is what it was.
    pub fn shared(self) -> Set
        ensures { edges_of result ≡ edges_of self }
    {
        Set {
            edges: self.edges.shared(),
        }
    }

    /// The same set once more. Where its edges are shared this takes no memory, however many there are.
    pub fn copied(&self) -> Result<Set, AllocError>
        ensures { IfOk result (λ s. edges_of s ≡ edges_of self.now) }
    {
        Ok(Set {
            edges: self.edges.copied()?,
        })
    }

    /// The numbers at which the set begins and ends in turn.
    pub fn edges(&self) -> &[u32]
        ensures { result.now ≡ edges_of self.now }
    {
        self.edges.as_slice()
    }

    /// Which of the numbers below 2,048 are members. Empty where no member is past 255, and where the edges are not shared.
    pub(crate) fn table(&self) -> &[u64]
        ensures { IsTable result.now (length result.now) (members self.now) }
    {
        self.edges.table()
    }

    /// Whether both sets have the same members.
    pub fn is_same(&self, other: &Set) -> bool
        ensures { IsTrue result ↔ (edges_of self.now ≡ edges_of other.now) }
    {
        self.edges() == other.edges()
    }

    /// Whether this number is a member.
    pub fn contains(&self, c: u32) -> bool
        ensures { result ≡ members self.now c }
    {
        edges_to(self.edges(), c) % 2 == 1
    }

    /// The numbers that the operation keeps. One walk over the edges of both sets, for which the room is asked at once.
    pub fn combine(&self, how: Operation, other: &Set) -> Result<Set, AllocError>
        ensures { IfOk result (λ s. (c : ℕ) → members s c ≡ applied how (members self.now c) (members other.now c)) }
    {
        let a = self.edges();
        let b = other.edges();
        let mut edges = Vec::with_capacity(self.allocator(), a.len() + b.len())?;
        let mut i = 0;
        let mut j = 0;
        while let Some(at) = next_edge(a, i, b, j) {
            i = skip_edge(a, i, at);
            j = skip_edge(b, j, at);
            let turns = how.keeps(i % 2 == 1, j % 2 == 1) != (edges.len() % 2 == 1);
            if turns {
                edges.push_reserved(at);
            }
        }
        trim(&mut edges);
        Ok(Set {
            edges: Edges::Own(edges),
        })
    }

    /// The numbers up to `LAST` in any of the ranges, which hold both their ends and may be in any order. Ranges that are in
    /// order take one walk and one request for memory; others are halved, and the sets of both halves united.
    pub fn from_ranges(alloc: Global, ranges: &[(u32, u32)]) -> Result<Set, AllocError>
        ensures { IfOk result (λ s. (c : ℕ) → members s c ≡ (nat_le c LAST && in_ranges ranges.now c)) }
    {
        if are_in_order(ranges) {
            return Ok(Set {
                edges: Edges::Own(joined_edges(alloc, ranges)?),
            });
        }
        let (left, right) = ranges.split_at(ranges.len() / 2);
        let left = Set::from_ranges(alloc, left)?;
        let right = Set::from_ranges(alloc, right)?;
        left.combine(Operation::Union, &right)
    }

    /// The members as ranges in order, which hold both their ends.
    pub fn ranges(&self) -> Result<Vec<(u32, u32)>, AllocError>
        ensures { IfOk result (λ out. (c : ℕ) → in_ranges out.items c ≡ members self.now c) }
    {
        let edges = self.edges();
        let mut out = Vec::new(self.allocator());
        let mut i = 0;
        while i + 1 < edges.len() {
            out.push((edges[i], edges[i + 1] - 1))?;
            i += 2;
        }
        Ok(out)
    }

    /// This set with the first of each pair whose second is a member.
    pub(crate) fn with_pairs(&self, pairs: &[(u32, u32)]) -> Result<Set, AllocError>
        ensures { IfOk result (λ s. (c : ℕ) → members s c ≡ (members self.now c || (nat_le c LAST && in_pairs pairs.now (members self.now) c))) }
    {
        let alloc = self.allocator();
        let mut others = Vec::new(alloc);
        for pair in pairs {
            if self.contains(pair.1) {
                others.push((pair.0, pair.0))?;
            }
        }
        let others = Set::from_ranges(alloc, &others)?;
        self.combine(Operation::Union, &others)
    }
}
