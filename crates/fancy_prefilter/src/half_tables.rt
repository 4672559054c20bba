//! Tables that tell of 32 bytes at once which of them may be members of a set.

ghost use Rattle.std.specs.Prelude.{◌≡◌, ℕ, ◌+◌, ◌/◌, ◌%◌, ◌<◌, ◌≤◌, true, length, slice_index, bit_and, IsTrue, IfSome};
ghost use Rattle.std.specs.Int.{bit_at};
ghost use Rattle.fancy_bytes.specs.Sets.{member};
ghost use Rattle.fancy_prefilter.specs.HalfTables.{LetsThrough, LetMembersThrough, AreLanes, AreMarks};

use fancy_bytes::byte_set::ByteSet;
use std::simd::prelude::*;

/// The 16 entries of a table, twice.
#[inline(always)]
fn twice(table: &[u8; 16]) -> u8x32
    ensures { AreLanes (λ k. slice_index table.now (k % 16)) result }
{
    u8x16::from_slice(table).swizzle([
        0, 1, 2, 3, 4, 5, 6, 7, 8, 9, 10, 11, 12, 13, 14, 15, 0, 1, 2, 3, 4, 5, 6, 7, 8, 9, 10, 11,
        12, 13, 14, 15,
    ])
}

/// What the low half of each byte reads.
#[inline(always)]
fn by_low_halves(table: &[u8; 16], bytes: u8x32) -> u8x32
    ensures { AreLanes (λ k. slice_index table.now (slice_index bytes k % 16)) result }
{
    twice(table).swizzle_dyn_within::<16>(bytes & u8x32::splat(15))
}

/// What the high half of each byte reads.
#[inline(always)]
fn by_high_halves(table: &[u8; 16], bytes: u8x32) -> u8x32
    ensures { AreLanes (λ k. slice_index table.now (slice_index bytes k / 16)) result }
{
    twice(table).swizzle_dyn_within::<16>(bytes >> u8x32::splat(4))
}

/// A bit for each lane in which the two have a bit in common.
#[inline(always)]
fn common_bits(a: u8x32, b: u8x32) -> u64
    ensures common { (k : ℕ) → k < 32 → 0 < bit_and (slice_index a k) (slice_index b k) → bit_at result k ≡ 1 }
    ensures few { result < 4294967296 }
{
    (a & b).simd_ne(u8x32::splat(0)).to_bitmask()
}

/// For each high half the low halves with which it makes a member, the lowest bit for 0.
fn rows_of(set: &ByteSet) -> [u16; 16] {
    let mut rows = [0u16; 16];
    for byte in 0..256usize {
        if set.contains(byte as u8) {
            rows[byte / 16] |= 1 << (byte % 16);
        }
    }
    rows
}

/// A high half before this one that has the same row.
fn same_row(rows: &[u16; 16], high: usize) -> Option<usize>
    requires { high < 16 }
    ensures { IfSome result (λ before. before < high) }
{
    for before in 0..high {
        if rows[before] == rows[high] {
            return Some(before);
        }
    }
    None
}

/// The table for high halves: one bit for all that have the same row, and for others the next of the eight bits in turn. A row
/// without members has none.
fn high_table(rows: &[u16; 16]) -> [u8; 16] {
    let mut table = [0u8; 16];
    let mut bit = 1u8;
    for high in 0..16usize {
        table[high] = match same_row(rows, high) {
            Some(before) => table[before],
            None if rows[high] == 0 => 0,
            None => {
                bit = bit.rotate_left(1);
                bit
            }
        };
    }
    table
}

/// The table for low halves, to go with the other.
fn low_table(set: &ByteSet, high: &[u8; 16]) -> [u8; 16] {
    let mut table = [0u8; 16];
    for byte in 0..256usize {
        if set.contains(byte as u8) {
            table[byte % 16] |= high[byte / 16];
        }
    }
    table
}

/// Two tables for a set of bytes. The low half of a byte reads the one and its high half the other, and where it is a member
/// they read numbers with a bit in common. Some more bytes may be let through.
#[derive(Drop)]
pub struct HalfTables {
    low: [u8; 16],
    high: [u8; 16],
}

impl HalfTables {
    /// For the bytes of a set. The tables that are filled are tried on each member, and were they to stop one, tables that stop
    /// no byte would stand in their place.
    pub fn new(set: &ByteSet) -> HalfTables
        ensures { LetMembersThrough result.low result.high set.now }
    {
        let high = high_table(&rows_of(set));
        let low = low_table(set, &high);
        let filled = HalfTables { low, high };
        if filled.let_through(set) {
            return filled;
        }
        HalfTables {
            low: [255; 16],
            high: [255; 16],
        }
    }

    /// Whether the byte is let through.
    fn lets_through(&self, byte: u8) -> bool
        ensures { IsTrue result → LetsThrough self.now.low self.now.high byte }
    {
        0 < self.low[(byte % 16) as usize] & self.high[(byte / 16) as usize]
    }

    /// Whether each member of a set is let through.
    fn let_through(&self, set: &ByteSet) -> bool
        ensures { IsTrue result → LetMembersThrough self.now.low self.now.high set.now }
    {
        for byte in 0..256u32 {
            let byte = byte as u8;
            if set.contains(byte) && !self.lets_through(byte) {
                return false;
            }
        }
        true
    }

    /// At which of the 32 places from this one on a byte stands that is let through.
    #[inline(always)]
    pub fn marks(&self, haystack: &[u8], place: usize) -> u64
        requires { place + 32 ≤ length haystack.now }
        ensures { AreMarks (λ p. LetsThrough self.now.low self.now.high (slice_index haystack.now p)) place result }
    {
        let bytes = u8x32::from_slice(&haystack[place..]);
        common_bits(
            by_low_halves(&self.low, bytes),
            by_high_halves(&self.high, bytes),
        )
    }
}
