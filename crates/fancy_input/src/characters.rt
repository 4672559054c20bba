//! The characters of a haystack, by its bytes.

ghost use Rattle.std.specs.Prelude.{◌≡◌, [], ◌∷◌};
ghost use Rattle.std.specs.Str.{continuation_len};
ghost use Rattle.fancy_input.specs.Places.{char_at, char_before, char_of_width_before};

use crate::places::is_continuation;

/// The character of two bytes. The first says that there are two.
#[inline(always)]
fn two_bytes(first: u8, second: u8) -> Option<char>
    requires { continuation_len first ≡ 1 }
    ensures { result ≡ char_at (first ∷ second ∷ []) 0 }
{
    if first < 0xC2 || !is_continuation(second) {
        return None;
    }
    char::from_u32((first % 32) as u32 * 64 + (second % 64) as u32)
}

/// The character of three bytes. The first says that there are three.
#[inline(always)]
fn three_bytes(first: u8, second: u8, third: u8) -> Option<char>
    requires { continuation_len first ≡ 2 }
    ensures { result ≡ char_at (first ∷ second ∷ third ∷ []) 0 }
{
    let high = (first % 16) as u32 * 64 + (second % 64) as u32;
    let code = high * 64 + (third % 64) as u32;
    if code < 0x800 || !is_continuation(second) || !is_continuation(third) {
        return None;
    }
    char::from_u32(code)
}

/// The character of four bytes. The first says that there are four.
fn four_bytes(first: u8, second: u8, third: u8, fourth: u8) -> Option<char>
    requires { continuation_len first ≡ 3 }
    ensures { result ≡ char_at (first ∷ second ∷ third ∷ fourth ∷ []) 0 }
{
    let high = (first % 16) as u32 * 64 + (second % 64) as u32;
    let low = (third % 64) as u32 * 64 + (fourth % 64) as u32;
    let code = high * 4096 + low;
    if code < 0x1_0000 || !is_continuation(second) {
        return None;
    }
    if !is_continuation(third) || !is_continuation(fourth) {
        return None;
    }
    char::from_u32(code)
}

/// The character whose UTF-8 starts at a place, a byte offset.
///
/// ```
/// assert_eq!(character_at("aé".as_bytes(), 1), Some('é'));
/// assert_eq!(character_at("aé".as_bytes(), 2), None);
/// ```
#[inline(always)]
pub fn character_at(haystack: &[u8], place: usize) -> Option<char>
    ensures { result ≡ char_at haystack.now place }
{
    if place >= haystack.len() {
        return None;
    }
    let first = haystack[place];
    if first < 0x80 {
        return Some(first as char);
    }
    let follow = haystack.len() - place - 1;
    if first < 0xE0 {
        if follow < 1 {
            return None;
        }
        return two_bytes(first, haystack[place + 1]);
    }
    if first < 0xF0 {
        if follow < 2 {
            return None;
        }
        return three_bytes(first, haystack[place + 1], haystack[place + 2]);
    }
    if follow < 3 {
        return None;
    }
    four_bytes(
        first,
        haystack[place + 1],
        haystack[place + 2],
        haystack[place + 3],
    )
}

/// The character of this many bytes that ends at a place.
fn wide_before(haystack: &[u8], place: usize, width: usize) -> Option<char>
    ensures { result ≡ char_of_width_before haystack.now width place }
{
    let start = place.checked_sub(width)?;
    let c = character_at(haystack, start)?;
    if c.len_utf8() == width { Some(c) } else { None }
}

/// The character whose UTF-8 ends at a place, a byte offset.
///
/// ```
/// assert_eq!(character_before("aé".as_bytes(), 3), Some('é'));
/// assert_eq!(character_before("aé".as_bytes(), 2), None);
/// ```
pub fn character_before(haystack: &[u8], place: usize) -> Option<char>
    ensures { result ≡ char_before haystack.now place }
{
    if place > haystack.len() {
        return None;
    }
    for width in 1..5 {
        if place < width {
            return None;
        }
        if !is_continuation(haystack[place - width]) {
            return wide_before(haystack, place, width);
        }
    }
    None
}
