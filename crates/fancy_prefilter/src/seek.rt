//! The scan for the next byte of a set.

ghost use Rattle.std.specs.Prelude.{◌≡◌, ℕ, ◌<◌, ◌≤◌, true, false, length, slice_index, MatchOption};
ghost use Rattle.fancy_bytes.specs.Sets.{member};
ghost use Rattle.fancy_prefilter.specs.Seeks.{NoneSeenBefore, IsNextSeen};

use fancy_bytes::byte_set::ByteSet;

/// The first place, from the one on and before the other, where a byte of the set stands.
pub fn next_seen(set: &ByteSet, haystack: &[u8], from: usize, to: usize) -> Option<usize>
    requires { to ≤ length haystack.now }
    ensures { MatchOption result (NoneSeenBefore set.now haystack.now from to)
        (IsNextSeen set.now haystack.now from to) }
{
    for place in from..to {
        let byte = haystack[place];
        if set.contains(byte) {
            return Some(place);
        }
    }
    None
}
