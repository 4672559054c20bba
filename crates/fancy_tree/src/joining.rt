//! The edges of the numbers in ranges that are in order, found by one walk.

ghost use Rattle.std.specs.Prelude.{◌≡◌, ℕ, ◌+◌, ◌≤◌, ◌&&◌, ◌||◌, true, nat_le, length, IfOk, OnOk};
ghost use Rattle.unicode.specs.Rows.{in_ranges};
ghost use Rattle.fancy_tree.specs.Sets.{has, AreEdges};
ghost use Rattle.fancy_tree.specs.SetViews.{Cut, begin_in_order, in_part};

use crate::set::LAST;
use std::alloc::{AllocError, Global};

/// Whether each range that has numbers begins no earlier than those before it.
pub(crate) fn are_in_order(ranges: &[(u32, u32)]) -> bool
    ensures { result ≡ begin_in_order 0 ranges.now }
{
    let mut low = 0;
    let mut rest = ranges;
    while let [(first, last), others @ ..] = rest {
        if first <= last {
            if *first < low {
                return false;
            }
            low = *first;
        }
        rest = others;
    }
    true
}

/// Appends the edges of a part past all others, if it has numbers: those from `begin` on that are below `end`.
fn put_part(edges: &mut Vec<u32>, begin: u32, end: u32) -> Result<(), AllocError>
    requires edges { AreEdges edges.old.items }
    requires below { Cut edges.old.items (length edges.old.items) begin }
    requires order { begin ≤ end }
    requires within { end ≤ LAST + 1 }
    ensures edges { OnOk result (AreEdges edges.new.items) }
    ensures below { OnOk result (Cut edges.new.items (length edges.new.items) (end + 1)) }
    ensures members { OnOk result ((c : ℕ) → has edges.new.items c ≡ (has edges.old.items c || in_part begin end c)) }
{
    if begin < end {
        edges.push(begin)?;
        edges.push(end)?;
    }
    Ok(())
}

/// The edges of the numbers up to `LAST` in the ranges. The last part so far stays open, since the next range may begin in it or
/// right at its end.
pub(crate) fn joined_edges(alloc: Global, ranges: &[(u32, u32)]) -> Result<Vec<u32>, AllocError>
    requires { begin_in_order 0 ranges.now ≡ true }
    ensures edges { IfOk result (λ v. AreEdges v.items) }
    ensures members { IfOk result (λ v. (c : ℕ) → has v.items c ≡ (nat_le c LAST && in_ranges ranges.now c)) }
{
    let mut edges = Vec::with_capacity(alloc, 2 * ranges.len())?;
    let mut begin = 0;
    let mut end = 0;
    let mut rest = ranges;
    while let [(first, last), others @ ..] = rest {
        let past = LAST.min(*last) + 1;
        if *first <= end {
            end = end.max(past);
        } else if *first < past {
            put_part(&mut edges, begin, end)?;
            begin = *first;
            end = past;
        }
        rest = others;
    }
    put_part(&mut edges, begin, end)?;
    Ok(edges)
}
