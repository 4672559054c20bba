//! Sets of bytes.

ghost use Rattle.std.specs.Prelude.{◌≡◌, ℕ, ◌-◌, ◌<◌, ◌==◌, ◌||◌, ◌&&◌, List, Bool, false, true, length, slice_index, bit_or, bit_and};
ghost use Rattle.fancy_tree.specs.CharSet.{bit};
ghost use Rattle.fancy_bytes.specs.Sets.{ByteFlags, member, flags_in_words, all_members, AddsBytes, IsSetOf, KeepsBytes};

use std::marker::Model;

/// The bits that are set in one of the two.
fn union_of(a: &[u64; 4], b: &[u64; 4]) -> [u64; 4]
    ensures { (k : ℕ) → k < 4 → slice_index result k ≡ bit_or (slice_index a.now k) (slice_index b.now k) }
{
    let mut words = [0; 4];
    for i in 0..4 {
        words[i] = a[i] | b[i];
    }
    words
}

/// The bits that are set in both.
fn intersection_of(a: &[u64; 4], b: &[u64; 4]) -> [u64; 4]
    ensures { (k : ℕ) → k < 4 → slice_index result k ≡ bit_and (slice_index a.now k) (slice_index b.now k) }
{
    let mut words = [0; 4];
    for i in 0..4 {
        words[i] = a[i] & b[i];
    }
    words
}

/// Whether the bit of this byte is set.
fn has_bit(words: &[u64; 4], byte: u8) -> bool
    ensures { result ≡ (bit words.now byte == 1) }
{
    let i = byte as usize;
    (words[i / 64] >> (i % 64)) & 1 == 1
}

/// A set of bytes, as `RegexOptionsBuilder::start_bytes` gives it.
///
/// ```text
/// RegexOptionsBuilder::new().start_bytes(alloc, "fn|let|impl")?    // Some, of the bytes f, i, l: len() is 3
/// ```
#[derive(Drop)]
pub struct ByteSet {
    words: [u64; 4],
}

impl Model for ByteSet {
    ghost Value = { List Bool };

    ghost view = { λ s. flags_in_words s.words 256 };
}

impl ByteSet {
    /// The set without members.
    pub fn new() -> ByteSet
        ensures { (b : ℕ) → b < 256 → member result b ≡ false }
    {
        ByteSet { words: [0; 4] }
    }

    /// The set of one byte.
    pub fn of(byte: u8) -> ByteSet
        ensures { IsSetOf (λ b. b == byte) result }
    {
        let mut set = ByteSet::new();
        set.insert(byte);
        set
    }

    /// The set of all bytes.
    pub fn all() -> ByteSet
        ensures { (b : ℕ) → b < 256 → member result b ≡ true }
    {
        ByteSet {
            words: [u64::MAX; 4],
        }
    }

    /// Whether the byte is a member.
    pub fn contains(&self, byte: u8) -> bool
        ensures { result ≡ member self.now byte }
    {
        has_bit(&self.words, byte)
    }

    /// Adds a byte.
    pub fn insert(&mut self, byte: u8)
        ensures { AddsBytes (λ b. b == byte) self.old self.new }
    {
        let i = byte as usize;
        self.words[i / 64] |= 1 << (i % 64);
    }

    /// The members of either set.
    pub fn union(&self, other: &ByteSet) -> ByteSet
        ensures { AddsBytes (member other.now) self.now result }
    {
        ByteSet {
            words: union_of(&self.words, &other.words),
        }
    }

    /// The members of both sets.
    pub fn intersection(&self, other: &ByteSet) -> ByteSet
        ensures { KeepsBytes (member other.now) self.now result }
    {
        ByteSet {
            words: intersection_of(&self.words, &other.words),
        }
    }

    /// How many members there are.
    pub fn len(&self) -> usize
        ensures { result ≡ length (all_members self.now) }
    {
        let words = &self.words;
        let low = words[0].count_ones() + words[1].count_ones();
        let high = words[2].count_ones() + words[3].count_ones();
        (low + high) as usize
    }

    /// Whether there is no member.
    pub fn is_empty(&self) -> bool
        ensures { result ≡ (length (all_members self.now) == 0) }
    {
        self.len() == 0
    }
}
