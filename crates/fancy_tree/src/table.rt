//! Tables of the low numbers of a set: for each a bit, which says whether it is a member.

ghost use Rattle.std.specs.Prelude.{◌≡◌, ◌↔◌, ℕ, ◌+◌, ◌*◌, ◌<◌, ◌≤◌, true, IsTrue, length};
ghost use Rattle.std.specs.Int.{bit_at};
ghost use Rattle.fancy_tree.specs.CharSet.{bit, IsTable};
ghost use Rattle.fancy_tree.specs.Sets.{has, AreRising};
ghost use Rattle.fancy_tree.specs.SetViews.{Cut};

use std::alloc::Global;

/// Whether the bit of this number is set.
pub(crate) fn is_marked(words: &[u64], i: usize) -> bool
    requires { i < 64 * length words.now }
    ensures { IsTrue result ↔ (bit words.now i ≡ 1) }
{
    (words[i / 64] >> (i % 64)) & 1 == 1
}

/// A word that says which of the 64 numbers from `first` on are members: each edge among them turns the bits from its own on.
/// The edges before `passed` are those below `first`, and afterwards those below the numbers that follow.
fn next_word(edges: &[u32], passed: &mut usize, first: u32) -> u64
    requires rising { AreRising edges.now }
    requires cut { Cut edges.now passed.old first }
    requires room { first + 64 ≤ 2048 }
    ensures cut { Cut edges.now passed.new (first + 64) }
    ensures bits { (k : ℕ) → k < 64 → (bit_at result k ≡ 1) ↔ (has edges.now (first + k) ≡ true) }
{
    let mut at = *passed;
    let mut word = if at % 2 == 1 { u64::MAX } else { 0 };
    while at < edges.len() && edges[at] < first + 64 {
        word ^= u64::MAX << (edges[at] - first);
        at += 1;
    }
    *passed = at;
    word
}

/// Makes these words the table of the numbers whose bits they have, by one walk over the edges below its end.
pub(crate) fn fill(words: &mut [u64], edges: &[u32])
    requires rising { AreRising edges.now }
    requires size { length words.old ≤ 32 }
    ensures size { length words.new ≡ length words.old }
    ensures table { IsTable words.new (length words.new) (has edges.now) }
{
    let mut passed = 0;
    for i in 0..words.len() {
        words[i] = next_word(edges, &mut passed, 64 * i as u32);
    }
}

/// Whether a set with these edges has a member past 255.
fn reaches_past_low(edges: &[u32]) -> bool {
    match edges.last() {
        Some(end) => *end > 256,
        None => false,
    }
}

/// The table of the numbers below 2,048. Empty where no member is past 255, and where memory for it is refused.
pub(crate) fn wide_table(alloc: Global, edges: &[u32]) -> Vec<u64>
    requires { AreRising edges.now }
    ensures { IsTable result.items (length result.items) (has edges.now) }
{
    if !reaches_past_low(edges) {
        return Vec::new(alloc);
    }
    let mut words = [0; 32];
    fill(&mut words, edges);
    match Vec::from_slice(alloc, &words) {
        Ok(wide) => wide,
        Err(_) => Vec::new(alloc),
    }
}
