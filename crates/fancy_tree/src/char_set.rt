//! Sets with a table of their members below 256, and below 2,048 where they reach past 255.

ghost use Rattle.std.specs.Prelude.{◌≡◌, ◌↔◌, ℕ, ◌+◌, ◌*◌, ◌<◌, ◌≤◌, true, IsTrue, length};
ghost use Rattle.std.specs.Int.{bit_at};
ghost use Rattle.fancy_tree.specs.CharSet.{bit, IsTable};
ghost use Rattle.fancy_tree.specs.Members.{members};
ghost use Rattle.fancy_tree.specs.Sets.{has, AreRising};
ghost use Rattle.fancy_tree.specs.SetViews.{Cut};

use crate::set::Set;
use crate::table::{fill, is_marked};

/// A set that is asked often: tables say which of the low numbers are members.
#[derive(Debug, Drop)]
pub struct CharSet {
    // the numbers below 256
    low: [u64; 4],
    // those below 2,048, which UTF-8 writes in two bytes at most, are in the table of the set
    set: Set,
    ghost low_is: { IsTable low 4 (members set) },
}

/// Whether the bit of this number below 256 is set.
fn is_low(words: &[u64; 4], i: usize) -> bool
    requires { i < 256 }
    ensures { IsTrue result ↔ (bit words.now i ≡ 1) }
{
    (words[i / 64] >> (i % 64)) & 1 == 1
}

impl CharSet {
    ghost use Rattle.fancy_tree.specs.Members.{edges_of};

    /// The set with its tables.
    pub fn new(set: Set) -> CharSet
        ensures { edges_of result.set ≡ edges_of set }
    {
        let set = set.shared();
        let mut low = [0; 4];
        fill(&mut low, set.edges());
        CharSet { low, set }
    }

    /// The numbers at which the set begins and ends in turn.
    pub fn edges(&self) -> &[u32]
        ensures { result.now ≡ edges_of self.now.set }
    {
        self.set.edges()
    }

    /// Whether it has the members of this set.
    pub fn is_of(&self, set: &Set) -> bool
        ensures { IsTrue result ↔ (edges_of self.now.set ≡ edges_of set.now) }
    {
        self.set.is_same(set)
    }

    /// Whether this number is a member: by a table that has it, else by binary search.
    pub fn contains(&self, c: u32) -> bool
        ensures { result ≡ members self.now.set c }
    {
        if c < 256 {
            is_low(&self.low, c as usize)
        } else {
            self.contains_past_low(c)
        }
    }

    /// Whether this number is a member, which is more than a byte. It is apart, so that the test of a byte is put in line.
    fn contains_past_low(&self, c: u32) -> bool
        requires { 256 ≤ c }
        ensures { result ≡ members self.now.set c }
    {
        let i = c as usize;
        let table = self.set.table();
        if i / 64 < table.len() {
            is_marked(table, i)
        } else {
            self.set.contains(c)
        }
    }
}
