//! Members of a set of numbers, by its edges.

ghost use Rattle.std.specs.Prelude.{◌≡◌, ℕ, ◌<◌, ◌≤◌, ◌||◌, ◌&&◌, nat_lt, true, false, MatchOption};
ghost use Rattle.fancy_tree.specs.Sets.{has, AreRising};
ghost use Rattle.fancy_bytes.specs.Sets.{member};

use crate::byte_set::ByteSet;
use fancy_tree::set::{edges_to, skip_edge};

/// The first member from a number on: the number itself, where an odd number of edges is at most that, and else the next edge.
///
/// ```text
/// next_member(&[97, 123], 98)     // of the small letters Some(98)
/// next_member(&[97, 123], 0)      // Some(97)
/// next_member(&[97, 123], 123)    // None
/// ```
pub fn next_member(edges: &[u32], from: u32) -> Option<u32>
    requires { AreRising edges.now }
    ensures { MatchOption result ((c : ℕ) → from ≤ c → has edges.now c ≡ false)
        (λ n. (from ≤ n) × ((c : ℕ) → from ≤ c → c < n → has edges.now c ≡ false) × (has edges.now n ≡ true)) }
{
    let next = edges_to(edges, from);
    if next % 2 == 1 {
        return Some(from);
    }
    edges.get(next).copied()
}

/// Adds the members that are ASCII.
pub fn add_ascii(edges: &[u32], set: &mut ByteSet)
    requires { AreRising edges.now }
    ensures { (b : ℕ) → b < 256
        → member set.new b ≡ (member set.old b || (nat_lt b 128 && has edges.now b)) }
{
    let mut next = 0;
    for byte in 0..0x80u32 {
        next = skip_edge(edges, next, byte);
        if next % 2 == 1 {
            set.insert(byte as u8);
        }
    }
}
