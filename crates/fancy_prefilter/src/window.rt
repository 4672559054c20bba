//! Sets of bytes for the first places of what is looked for, and the scan for the places where they all stand.
//!
//! Probes tell of 32 windows at once in which of them the sets may all stand, and each of these is looked at by the sets. The
//! last places of a haystack, where fewer windows are left, are gone through by skips.

ghost use Rattle.std.specs.Prelude.{◌≡◌, ◌↔◌, ℕ, ◌+◌, ◌<◌, ◌≤◌, List, false, length, slice_index, IfOk, IfSome, IsTrue, MatchOption};
ghost use Rattle.fancy_bytes.specs.Sets.{ByteFlags};
ghost use Rattle.fancy_bytes.specs.Rows.{StandsFrom};
ghost use Rattle.fancy_prefilter.specs.Windows.{NoneStandsIn, IsSkip, AreSkips};
ghost use Rattle.fancy_prefilter.specs.HalfTables.{AreMarks};
ghost use Rattle.fancy_prefilter.specs.Probes.{AreProbesOf};

use crate::letters::frequent_letters;
use crate::marks::{lowest, without};
use crate::probes::Probes;
use fancy_bytes::byte_set::ByteSet;
use std::alloc::{AllocError, Global};
use std::marker::Model;

/// From so many marked windows of 32 on they are gone through by skips, and not one after another by the sets.
const MANY_MARKS: u32 = 6;

/// Whether a set has all letters that are frequent.
fn has_common(set: &ByteSet) -> bool {
    let frequent = frequent_letters();
    frequent.intersection(set).len() == frequent.len()
}

/// By how many places a window may be moved on where this byte stands last in it.
fn skip_of(sets: &[ByteSet], byte: u8) -> u8
    requires { length sets.now < 256 }
    ensures { IsSkip sets.now byte result }
{
    for passed in 0..sets.len() {
        if sets[sets.len() - 1 - passed].contains(byte) {
            return passed as u8;
        }
    }
    sets.len() as u8
}

/// The same for each byte.
fn skips_of(alloc: Global, sets: &[ByteSet]) -> Result<Vec<u8>, AllocError>
    requires { length sets.now < 256 }
    ensures { IfOk result (λ skips. AreSkips sets.now skips.items) }
{
    let mut skips = Vec::new(alloc);
    for byte in 0..256u32 {
        skips.push(skip_of(sets, byte as u8))?;
    }
    Ok(skips)
}

/// A row of sets of bytes, one for each of the first places of what is looked for. A window of as many places is moved over a
/// haystack, past 32 places at once where the probes let no window begin. At the end of a haystack the byte that stands last in
/// the window tells by how many places it may be moved on.
#[derive(Drop)]
pub struct Window {
    sets: Vec<ByteSet>,
    skips: Vec<u8>,
    probes: Probes,
    // whether it is moved by skips alone, since the probes would let most windows begin
    by_skips: bool,
}

impl Model for Window {
    ghost Value = { List ByteFlags };

    ghost view = { λ f. f.sets.items };

    ghost invariant = { λ f. (0 < length f.sets.items) × AreSkips f.sets.items f.skips.items
        × AreProbesOf f.sets.items f.probes };
}

impl Window {
    /// For a row of sets. `None` where it has none, or more than 255. It is refused where memory runs out.
    pub fn new(alloc: Global, sets: Vec<ByteSet>) -> Result<Option<Window>, AllocError>
        ensures { IfOk result (λ f. IfSome f (λ row. row ≡ sets.items)) }
    {
        if sets.is_empty() || sets.len() > 255 {
            return Ok(None);
        }
        let skips = skips_of(alloc, &sets)?;
        let probes = Probes::new(&sets);
        let by_skips = sets.iter().all(has_common);
        Ok(Some(Window {
            sets,
            skips,
            probes,
            by_skips,
        }))
    }

    /// Whether this byte may stand at a place of the window. At a place past the window any byte may.
    pub fn may_hold(&self, place: usize, byte: u8) -> bool
        ensures { result ≡ false → (haystack : List ℕ) (end p : ℕ) → slice_index haystack (p + place) ≡ byte
            → ¬ StandsFrom self.now haystack end 0 p }
    {
        place >= self.sets.len() || self.sets[place].contains(byte)
    }

    /// Whether a byte of each set stands in the window that begins at a place.
    fn stands_at(&self, haystack: &[u8], place: usize) -> bool
        requires { place + length self.now ≤ length haystack.now }
        ensures { IsTrue result ↔ StandsFrom self.now haystack.now (place + length self.now) 0 place }
    {
        for j in 0..self.sets.len() {
            if !self.sets[j].contains(haystack[place + j]) {
                return false;
            }
        }
        true
    }

    /// By how many places the window at a place may be moved on, as far as one of its bytes tells that. The last ones are asked first.
    #[inline(always)]
    fn skip_at(&self, haystack: &[u8], place: usize) -> usize
        requires { place + length self.now ≤ length haystack.now }
        ensures none { (end : ℕ) → NoneStandsIn self.now haystack.now end place (place + result) }
        ensures within { result ≤ length self.now }
    {
        let width = self.sets.len();
        for passed in 0..width {
            let byte = haystack[place + (width - 1 - passed)];
            let skip = self.skips[byte as usize] as usize;
            if skip > passed {
                return skip - passed;
            }
        }
        0
    }

    /// Which of the 32 windows from the one at this place on are to be looked at.
    #[inline(always)]
    fn marks(&self, haystack: &[u8], place: usize) -> u64
        requires { place + (length self.now + 31) ≤ length haystack.now }
        ensures { (end : ℕ) → AreMarks (λ p. StandsFrom self.now haystack.now end 0 p) place result }
    {
        self.probes.marks(haystack, place)
    }

    /// The first of the windows, 32 at a time, among which one is to be looked at, and which ones are. Where fewer than 32 are
    /// left before the end, none is marked.
    fn next_marked(&self, haystack: &[u8], from: usize, end: usize) -> (usize, u64)
        requires within { end ≤ length haystack.now }
        ensures passed { from ≤ result.0 }
        ensures none { NoneStandsIn self.now haystack.now end from result.0 }
        ensures inside { 0 < result.1 → result.0 + 32 ≤ end }
        ensures left { 0 < result.1 → result.0 + (length self.now + 31) ≤ end }
        ensures marks { 0 < result.1 → AreMarks (λ p. StandsFrom self.now haystack.now end 0 p) result.0 result.1 }
    {
        let reach = self.sets.len() + 31;
        let mut place = from;
        while place < end && reach <= end - place {
            let marks = self.marks(haystack, place);
            if marks != 0 {
                return (place, marks);
            }
            place += 32;
        }
        (place, 0)
    }

    /// The first of the marked windows in which a byte of each set stands.
    fn first_marked(&self, haystack: &[u8], place: usize, end: usize, marks: u64) -> Option<usize>
        requires within { end ≤ length haystack.now }
        requires inside { place + 32 ≤ end }
        requires left { place + (length self.now + 31) ≤ end }
        requires marks { AreMarks (λ p. StandsFrom self.now haystack.now end 0 p) place marks }
        ensures { MatchOption result (NoneStandsIn self.now haystack.now end place (place + 32))
            (λ p. (place ≤ p) × (p < end) × StandsFrom self.now haystack.now end 0 p
            × NoneStandsIn self.now haystack.now end place p) }
    {
        let mut left = marks;
        while left != 0 {
            let passed = lowest(left);
            if self.stands_at(haystack, place + passed) {
                return Some(place + passed);
            }
            left = without(left, passed);
        }
        None
    }

    /// The same where at least one is marked: where many are besides the first, they are gone through by skips.
    fn first_among(&self, haystack: &[u8], place: usize, end: usize, marks: u64) -> Option<usize>
        requires some { 0 < marks }
        requires within { end ≤ length haystack.now }
        requires inside { place + 32 ≤ end }
        requires left { place + (length self.now + 31) ≤ end }
        requires marks { AreMarks (λ p. StandsFrom self.now haystack.now end 0 p) place marks }
        ensures { MatchOption result (NoneStandsIn self.now haystack.now end place (place + 32))
            (λ p. (place ≤ p) × (p < end) × StandsFrom self.now haystack.now end 0 p
            × NoneStandsIn self.now haystack.now end place p) }
    {
        let passed = lowest(marks);
        let first = place + passed;
        if self.stands_at(haystack, first) {
            return Some(first);
        }
        let others = without(marks, passed);
        if others.count_ones() < MANY_MARKS {
            return self.first_marked(haystack, place, end, others);
        }
        self.seen_by_skips(haystack, first, place + (self.sets.len() + 31))
    }

    /// The first place, from the one on, at which a window begins in which a byte of each set stands, before the end.
    #[inline(always)]
    pub fn next_seen(&self, haystack: &[u8], from: usize, end: usize) -> Option<usize>
        requires within { end ≤ length haystack.now }
        ensures { MatchOption result ((k : ℕ) → from ≤ k → ¬ StandsFrom self.now haystack.now end 0 k)
            (λ p. (from ≤ p) × (p < end) × StandsFrom self.now haystack.now end 0 p
            × NoneStandsIn self.now haystack.now end from p) }
    {
        let width = self.sets.len();
        if from < end && width <= end - from && self.stands_at(haystack, from) {
            return Some(from);
        }
        if self.by_skips {
            return self.seen_by_skips(haystack, from, end);
        }
        self.seen_ahead(haystack, from, end)
    }

    /// The same by the probes, and at the end of the haystack by skips.
    fn seen_ahead(&self, haystack: &[u8], from: usize, end: usize) -> Option<usize>
        requires within { end ≤ length haystack.now }
        ensures { MatchOption result ((k : ℕ) → from ≤ k → ¬ StandsFrom self.now haystack.now end 0 k)
            (λ p. (from ≤ p) × (p < end) × StandsFrom self.now haystack.now end 0 p
            × NoneStandsIn self.now haystack.now end from p) }
    {
        let (mut place, mut marks) = self.next_marked(haystack, from, end);
        while marks != 0 {
            if let Some(found) = self.first_among(haystack, place, end, marks) {
                return Some(found);
            }
            let (next, others) = self.next_marked(haystack, place + 32, end);
            place = next;
            marks = others;
        }
        self.seen_by_skips(haystack, place, end)
    }

    /// The same by skips, one window at a time.
    fn seen_by_skips(&self, haystack: &[u8], from: usize, end: usize) -> Option<usize>
        requires within { end ≤ length haystack.now }
        ensures { MatchOption result ((k : ℕ) → from ≤ k → ¬ StandsFrom self.now haystack.now end 0 k)
            (λ p. (from ≤ p) × (p < end) × StandsFrom self.now haystack.now end 0 p
            × NoneStandsIn self.now haystack.now end from p) }
    {
        let width = self.sets.len();
        let mut place = from;
        while place < end && width <= end - place {
            let skip = self.skip_at(haystack, place);
            if skip > 0 {
                place += skip;
            } else if self.stands_at(haystack, place) {
                return Some(place);
            } else {
                place += 1;
            }
        }
        None
    }
}
