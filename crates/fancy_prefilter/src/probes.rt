//! Probes of windows: three places that tell of 32 windows at once in which of them a byte of each set may stand.

ghost use Rattle.std.specs.Prelude.{◌≡◌, ℕ, ◌+◌, ◌<◌, ◌≤◌, length};
ghost use Rattle.fancy_prefilter.specs.HalfTables.{AreMarks};
ghost use Rattle.fancy_prefilter.specs.Probes.{IsProbeOf, AreProbesOf, LetsBegin, LetBegin};

use crate::half_tables::HalfTables;
use crate::letters::frequent_letters;
use fancy_bytes::byte_set::ByteSet;

/// From this one on bytes begin characters of UTF-8, and texts of one script have few of them many times.
const LEAD: u32 = 0xC0;

/// The bytes that are frequent.
fn frequent_bytes() -> ByteSet {
    let mut bytes = frequent_letters();
    bytes.insert(b' ');
    for byte in LEAD..256u32 {
        bytes.insert(byte as u8);
    }
    bytes
}

/// How common the members of a set are taken to be: how many there are, and each that is frequent counts for 16 more.
fn commonness(set: &ByteSet, frequent: &ByteSet) -> usize {
    let most = set.intersection(frequent).len();
    set.len().saturating_add(most.saturating_mul(16))
}

/// The place of the set whose members are the least common, but for two places. Where there is no other, the first.
fn rarest_but(sets: &[ByteSet], frequent: &ByteSet, first: usize, second: usize) -> usize
    requires { 0 < length sets.now }
    ensures { result < length sets.now }
{
    let mut rarest = 0;
    let mut least = usize::MAX;
    for place in 0..sets.len() {
        let common = commonness(&sets[place], frequent);
        if common < least && place != first && place != second {
            least = common;
            rarest = place;
        }
    }
    rarest
}

/// A place of a window, and the tables of the set there.
#[derive(Drop)]
pub struct Probe {
    place: usize,
    tables: HalfTables,
}

impl Probe {
    /// For the set with this number.
    fn new(sets: &[ByteSet], place: usize) -> Probe
        requires { place < length sets.now }
        ensures { IsProbeOf sets.now result }
    {
        Probe {
            place,
            tables: HalfTables::new(&sets[place]),
        }
    }

    /// Which of 32 windows it lets begin, from the one that begins at this place on.
    #[inline(always)]
    fn marks(&self, haystack: &[u8], from: usize) -> u64
        requires { from + (self.now.place + 32) ≤ length haystack.now }
        ensures { AreMarks (λ p. LetsBegin self.now haystack.now p) from result }
    {
        self.tables.marks(haystack, from + self.place)
    }
}

/// Three probes, the places with the rarest bytes. A row of fewer sets has one place more than once.
#[derive(Drop)]
pub struct Probes {
    first: Probe,
    second: Probe,
    third: Probe,
}

impl Probes {
    /// For a row of sets.
    pub fn new(sets: &[ByteSet]) -> Probes
        requires { 0 < length sets.now }
        ensures { AreProbesOf sets.now result }
    {
        let none = sets.len();
        let frequent = frequent_bytes();
        let first = rarest_but(sets, &frequent, none, none);
        let second = rarest_but(sets, &frequent, first, none);
        let third = rarest_but(sets, &frequent, first, second);
        Probes {
            first: Probe::new(sets, first),
            second: Probe::new(sets, second),
            third: Probe::new(sets, third),
        }
    }

    /// Which of 32 windows all let begin, from the one that begins at this place on. Where the first lets none begin, the
    /// others are not asked.
    #[inline(always)]
    pub fn marks(&self, haystack: &[u8], from: usize) -> u64
        requires first { from + (self.now.first.place + 32) ≤ length haystack.now }
        requires second { from + (self.now.second.place + 32) ≤ length haystack.now }
        requires third { from + (self.now.third.place + 32) ≤ length haystack.now }
        ensures { AreMarks (λ p. LetBegin self.now haystack.now p) from result }
    {
        let first = self.first.marks(haystack, from);
        if first == 0 {
            return 0;
        }
        let second = self.second.marks(haystack, from);
        let third = self.third.marks(haystack, from);
        first & second & third
    }
}
