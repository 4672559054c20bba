//! Scans of haystacks for the bytes of a set.

ghost use Rattle.std.specs.Prelude.{◌≡◌, ◌↔◌, ℕ, ◌+◌, ◌<◌, ◌≤◌, ◌==◌, List, Bool, true, length, slice_index, IfSome, IsTrue, MatchOption};
ghost use Rattle.fancy_tree.specs.Pattern.{pattern_of};
ghost use Rattle.fancy_bytes.specs.Firsts.{AreStartBytes};
ghost use Rattle.fancy_bytes.specs.Sets.{member, IsSetOf};
ghost use Rattle.fancy_prefilter.specs.Seeks.{NoneSeenBefore, IsNextSeen};
ghost use Rattle.fancy_prefilter.specs.HalfTables.{LetMembersThrough, AreMarks};

use crate::half_tables::HalfTables;
use crate::marks::lowest;
use crate::seek::next_seen;
use fancy_bytes::byte_set::ByteSet;
use fancy_bytes::start::start_bytes;
use fancy_tree::tree::{Meaning, Tree};
use memchr::memchr;
use std::marker::Model;

/// The member of a set that has one. `None` where it has none, or more.
fn only_member(set: &ByteSet) -> Option<u8>
    ensures { MatchOption result ((byte : ℕ) → byte < 256 → ¬ (IsSetOf (λ b. b == byte) set.now)) (λ byte. IsSetOf (λ b. b == byte) set.now) }
{
    let mut only = None;
    for code in 0..256u32 {
        let byte = code as u8;
        if set.contains(byte) {
            if only.is_some() {
                return None;
            }
            only = Some(byte);
        }
    }
    only
}

/// A set of bytes, made ready for scans, many places at a time: a set of one byte is searched for as that byte, and a set of
/// more by tables.
#[derive(Drop)]
pub struct Scan {
    set: ByteSet,
    only: Option<u8>,
    tables: HalfTables,
}

impl Model for Scan {
    ghost Value = { List Bool };

    ghost view = { λ s. s.set };

    ghost invariant = { λ s. IfSome s.only (λ byte. IsSetOf (λ b. b == byte) s.set)
        × LetMembersThrough s.tables.low s.tables.high s.set };
}

impl Scan {
    /// For the bytes of this set.
    pub fn new(set: ByteSet) -> Scan
        ensures { result ≡ set }
    {
        let only = only_member(&set);
        let tables = HalfTables::new(&set);
        Scan { set, only, tables }
    }

    /// The byte of a set that has one alone. It tells how fast a scan is, and no answer rests on it.
    pub fn only(&self) -> Option<u8> {
        self.only
    }

    /// Whether the byte is in the set.
    pub fn contains(&self, byte: u8) -> bool
        ensures { result ≡ member self.now byte }
    {
        self.set.contains(byte)
    }

    /// The first place, from the one on and before the other, where a byte of the set stands.
    #[inline]
    pub fn next_seen(&self, haystack: &[u8], from: usize, to: usize) -> Option<usize>
        requires ordered { from ≤ to }
        requires within { to ≤ length haystack.now }
        ensures { MatchOption result (NoneSeenBefore self.now haystack.now from to)
            (IsNextSeen self.now haystack.now from to) }
    {
        if from == to {
            return None;
        }
        if self.set.contains(haystack[from]) {
            return Some(from);
        }
        self.seen_ahead(haystack, from + 1, to)
    }

    /// The same by a scan. Many searches of a list end at its first place, where the tables are not asked.
    #[inline]
    fn seen_ahead(&self, haystack: &[u8], from: usize, to: usize) -> Option<usize>
        requires ordered { from ≤ to }
        requires within { to ≤ length haystack.now }
        ensures { MatchOption result (NoneSeenBefore self.now haystack.now from to)
            (IsNextSeen self.now haystack.now from to) }
    {
        match self.only {
            None if from < to && self.set.contains(haystack[from]) => Some(from),
            None => self.seen_by_tables(haystack, from, to),
            Some(byte) => match memchr(byte, &haystack[from..to]) {
                None => None,
                Some(passed) => Some(from + passed),
            },
        }
    }

    /// At which of the 32 places from this one on a byte of the set may stand.
    #[inline(always)]
    fn marks(&self, haystack: &[u8], place: usize) -> u64
        requires { place + 32 ≤ length haystack.now }
        ensures { AreMarks (λ p. member self.now (slice_index haystack.now p) ≡ true) place result }
    {
        self.tables.marks(haystack, place)
    }

    /// The same by the tables, 32 places at a time, and where fewer are left one at a time. It is a call of its own, and the tests of
    /// single bytes before it are none, since most searches of a list need no more.
    #[inline(never)]
    fn seen_by_tables(&self, haystack: &[u8], from: usize, to: usize) -> Option<usize>
        requires ordered { from ≤ to }
        requires within { to ≤ length haystack.now }
        ensures { MatchOption result (NoneSeenBefore self.now haystack.now from to)
            (IsNextSeen self.now haystack.now from to) }
    {
        let mut place = from;
        while 32 <= to - place {
            let marks = self.marks(haystack, place);
            if marks == 0 {
                place += 32;
            } else {
                let marked = place + lowest(marks);
                if self.set.contains(haystack[marked]) {
                    return Some(marked);
                }
                place = marked + 1;
            }
        }
        next_seen(&self.set, haystack, place, to)
    }
}

/// The bytes that a match starts with, made ready for scans. `None` where a match may be empty, or need not start where
/// it was tried.
pub fn start_scan(tree: &Tree, meaning: Meaning) -> Option<Scan>
    ensures { AreStartBytes meaning (pattern_of tree.now) result }
{
    match start_bytes(tree, meaning) {
        None => None,
        Some(set) => Some(Scan::new(set)),
    }
}
