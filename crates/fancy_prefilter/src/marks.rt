//! Marks: a number whose bits stand for 32 places of a haystack, the lowest for the first.

ghost use Rattle.std.specs.Prelude.{◌≡◌, ◌≢◌, ℕ, ◌<◌};
ghost use Rattle.std.specs.Int.{bit_at};

/// The number of the lowest bit.
#[inline(always)]
pub fn lowest(marks: u64) -> usize
    requires { 0 < marks }
    ensures bound { result < 64 }
    ensures set { bit_at marks result ≡ 1 }
    ensures first { (k : ℕ) → k < result → bit_at marks k ≡ 0 }
{
    marks.trailing_zeros() as usize
}

/// The marks without the bit with this number, which is set.
#[inline(always)]
pub fn without(marks: u64, bit: usize) -> u64
    requires bound { bit < 64 }
    requires set { bit_at marks bit ≡ 1 }
    ensures fewer { result < marks }
    ensures kept { (k : ℕ) → k < 64 → k ≢ bit → bit_at result k ≡ bit_at marks k }
{
    marks & !(1 << bit)
}
