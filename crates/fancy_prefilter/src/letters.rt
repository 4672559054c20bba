//! How often texts have letters.

use fancy_bytes::byte_set::ByteSet;

/// How many of a thousand letters of English text are each of these.
pub const SHARES: [(u8, usize); 26] = [
    (b'e', 127),
    (b't', 91),
    (b'a', 82),
    (b'o', 75),
    (b'i', 70),
    (b'n', 67),
    (b's', 63),
    (b'h', 61),
    (b'r', 60),
    (b'd', 43),
    (b'l', 40),
    (b'c', 28),
    (b'u', 28),
    (b'm', 24),
    (b'w', 24),
    (b'f', 22),
    (b'g', 20),
    (b'y', 20),
    (b'p', 19),
    (b'b', 15),
    (b'v', 10),
    (b'k', 7),
    (b'j', 1),
    (b'q', 1),
    (b'x', 1),
    (b'z', 1),
];

/// A letter of which a thousand have so many is frequent.
const FREQUENT: usize = 40;

/// How many of a thousand bytes of text are blanks, or line feeds.
const BLANK: usize = 180;

/// The same of a digit.
const DIGIT: usize = 20;

/// The same of each other byte.
const OTHER: usize = 4;

/// The letters that are frequent.
pub(crate) fn frequent_letters() -> ByteSet {
    let mut letters = ByteSet::new();
    for (letter, share) in SHARES {
        if share >= FREQUENT {
            letters.insert(letter);
        }
    }
    letters
}

/// The share of a byte that is no small letter.
fn other_share(byte: u8) -> usize {
    match byte {
        b' ' | b'\n' => BLANK,
        b'0'..=b'9' => DIGIT,
        _ => OTHER,
    }
}

/// At how many of a thousand places of text a byte of the set stands, about.
pub fn share(set: &ByteSet) -> usize {
    let mut sum = 0usize;
    for (letter, share) in SHARES {
        if set.contains(letter) {
            sum = sum.saturating_add(share);
        }
    }
    for code in 0..256u32 {
        let byte = code as u8;
        if !byte.is_ascii_lowercase() && set.contains(byte) {
            sum = sum.saturating_add(other_share(byte));
        }
    }
    sum.min(1000)
}
