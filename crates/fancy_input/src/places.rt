//! The steps between the places of a haystack, over its bytes.

ghost use Rattle.std.specs.Prelude.{◌≡◌, ◌≤◌, ◌<◌, ◌+◌, true, length, slice_index};
ghost use Rattle.fancy_input.specs.Places.{is_boundary, is_continuation, prev_place, next_place};

/// Whether the byte continues a character of UTF-8.
pub(crate) fn is_continuation(byte: u8) -> bool
    ensures { result ≡ is_continuation byte }
{
    byte >= 0x80 && byte < 0xC0
}

/// Whether a byte that continues a character stands at a place; past the end none does.
fn continues_at(bytes: &[u8], at: usize) -> bool
    ensures { result ≡ is_continuation (slice_index bytes.now at) }
{
    match bytes.get(at) {
        Some(byte) => is_continuation(*byte),
        None => false,
    }
}

/// Whether a match of these bytes may begin or end at `i`.
pub fn is_boundary(bytes: &[u8], i: usize) -> bool
    ensures { result ≡ is_boundary bytes.now i }
{
    i == 0 || i >= bytes.len() || !is_continuation(bytes[i])
}

/// The next byte, or one past the end.
pub fn next_byte(bytes: &[u8], i: usize) -> usize
    requires { i ≤ length bytes.now }
    ensures { result ≡ i + 1 }
{
    if i < bytes.len() {
        i + 1
    } else {
        bytes.len() + 1
    }
}

/// The last place before `i` where no continuation byte stands, or 0.
#[tactic(auto, using(crate::proofs::PlaceLemmas::prev_place_over, crate::proofs::PlaceLemmas::prev_place_stop, crate::proofs::PlaceLemmas::prev_place_first))]
pub fn prev_boundary(bytes: &[u8], i: usize) -> usize
    requires { 0 < i }
    ensures value { result ≡ prev_place bytes.now i }
    ensures below { result < i }
{
    let mut at = i - 1;
    while at > 0 && continues_at(bytes, at) {
        at -= 1;
    }
    at
}

/// The first place after `i` where no continuation byte stands, or the end; from the end one past it.
pub fn next_boundary(bytes: &[u8], i: usize) -> usize
    requires { i ≤ length bytes.now }
    ensures value { result ≡ next_place true bytes.now i }
    ensures above { i < result }
    ensures most { result ≤ length bytes.now + 1 }
    ensures within { i < length bytes.now → result ≤ length bytes.now }
{
    let mut at = next_byte(bytes, i);
    while at < bytes.len() && is_continuation(bytes[at]) {
        at += 1;
    }
    at
}
