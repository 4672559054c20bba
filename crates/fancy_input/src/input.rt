//! What can be searched, and what a search is asked.

ghost use Rattle.std.specs.Prelude.{◌≡◌, ◌≤◌, ◌<◌, ◌↔◌, ◌+◌, ◌-◌, ℕ, Bool, true, List, length, IsTrue, IsFalse, IsUtf8, IsAscii, IsCharBoundary};
ghost use Rattle.fancy_input.specs.Requests.{effective_start, positions};
ghost use Rattle.fancy_input.specs.Places.{is_boundary, is_place, prev_place, next_place};
ghost use Rattle.fancy_input.specs.Spans.{from_to};
ghost use Rattle.fancy_input.specs.declared.span.Span.{Span};

use crate::places;

/// Where and how a haystack is searched. Offsets are in bytes from the start of the haystack.
///
/// A search starts at the greater of `start` and `range_start`, and consumes no text past `range_end`.
/// Assertions and look-around still see the whole haystack.
#[derive(Clone, Copy, PartialEq, Eq)]
pub struct Request {
    /// The first position that is wanted.
    pub start: usize,
    /// No match begins before this offset.
    pub range_start: usize,
    /// No match ends after this offset.
    pub range_end: usize,
    /// One position alone is tried.
    pub anchored: bool,
    /// Whether the start of the text may be found; `false` suppresses `^` and `\A` where the regex allows it.
    pub start_text: bool,
    /// Whether the end of the text may be found; `false` suppresses `$` and `\z` where the regex allows it.
    pub end_text: bool,
    /// Whether `\G` may hold, at the first position that is tried; `false` suppresses it where the regex allows it.
    pub continues: bool,
}

impl Request {
    /// The first position that is tried, in bytes: the greater of `start` and `range_start`.
    pub fn effective_start(&self) -> usize
        ensures { result ≡ effective_start self.now }
    {
        self.start.max(self.range_start)
    }

    /// The last position that is tried, in bytes, where the first one is within the range.
    pub fn last_position(&self) -> usize
        requires { effective_start self.now ≤ self.now.range_end }
        ensures count { result + 1 - effective_start self.now ≡ positions self.now }
        ensures inside { result ≤ self.now.range_end }
    {
        if self.anchored {
            self.effective_start()
        } else {
            self.range_end
        }
    }
}

/// What a haystack means: its bytes, and whether they are text.
///
/// It has no associated type, so that a struct can be bound by it and be used at a type with a lifetime.
pub trait Haystack: Copy {
    ghost bytes: { Self → List ℕ };

    ghost text: { Self → Bool };
}

/// A haystack that can be searched: `&str`, `&String`, `&[u8]` or `&[u8; N]`.
///
/// The first two are text, whose places are the boundaries of characters. The others are bytes; a place of
/// theirs is any offset that has no byte of `0x80..0xC0`, and each one from their length on.
///
/// ```text
/// "aé".len()                   // 3
/// "aé".is_char_boundary(2)     // false, inside of é
/// "aé".is_char_boundary(4)     // false, past the end
/// "aé".prev_codepoint_ix(3)    // 1
/// "aé".advance_position(1)     // 3
/// "aé".advance_position(3)     // 4, one past the end
/// b"a\xC3\xA9".is_char_boundary(4)     // true
/// b"a\xC3\xA9".advance_position(1)     // 2
/// ```
pub trait Input: Haystack {
    /// What a match in a haystack of this form is.
    type Match: Copy;

    // The haystack of a match, and its two ends.
    ghost within: { Self.Match → List ℕ };

    ghost span: { Self.Match → Span };

    /// The bytes of the haystack, for text its UTF-8.
    fn as_bytes(&self) -> &[u8]
        ensures bytes { result.now ≡ Self.bytes self.now }
        ensures utf8 { Self.text self.now ≡ true → IsUtf8 result.now };

    /// Whether the haystack is text, and so matches begin and end on the boundaries of characters.
    fn is_text(&self) -> bool
        ensures { result ≡ Self.text self.now };

    /// The match from `start` to `end`, both within the haystack, and for text on boundaries.
    ///
    /// In `"aé"` the match from 1 to 3 is `é`, and none begins or ends at 2.
    fn make_match(&self, start: usize, end: usize) -> Self::Match
        requires ordered { start ≤ end }
        requires inside { end ≤ length (Self.bytes self.now) }
        requires starts_cleanly { Self.text self.now ≡ true → IsTrue (is_boundary (Self.bytes self.now) start) }
        requires ends_cleanly { Self.text self.now ≡ true → IsTrue (is_boundary (Self.bytes self.now) end) }
        ensures span { span result ≡ from_to start end }
        ensures within { within result ≡ Self.bytes self.now };

    /// The length in bytes.
    fn len(&self) -> usize
        ensures { result ≡ length (Self.bytes self.now) }
    {
        self.as_bytes().len()
    }

    /// Whether there is no byte.
    fn is_empty(&self) -> bool
        ensures { IsTrue result ↔ (length (Self.bytes self.now) ≡ 0) }
    {
        self.as_bytes().is_empty()
    }

    /// Whether each byte is below `0x80`. The empty haystack is ASCII too.
    fn is_ascii(&self) -> bool
        ensures { IsTrue result ↔ IsAscii (Self.bytes self.now) }
    {
        self.as_bytes().is_ascii()
    }

    /// Whether a character may begin or end at the offset `ix`, which may be any number.
    ///
    /// The start and the end are boundaries. Past the end there is none in text, and each place is one in bytes.
    #[tactic(auto, using(crate::proofs::PlaceLemmas::boundary_of_text, crate::proofs::PlaceLemmas::text_of_boundary))]
    fn is_char_boundary(&self, ix: usize) -> bool
        ensures value { result ≡ is_place (Self.text self.now) (Self.bytes self.now) ix }
        ensures of_text { Self.text self.now ≡ true → (IsTrue result ↔ IsCharBoundary (Self.bytes self.now) ix) }
        ensures at_start { ix ≡ 0 → IsTrue result }
        ensures at_end { ix ≡ length (Self.bytes self.now) → IsTrue result }
    {
        places::is_boundary(self.as_bytes(), ix) && (!self.is_text() || ix <= self.len())
    }

    /// The place before `i`, which is above 0, at most the length, and for text on a boundary.
    ///
    /// It goes back one byte, and on over continuation bytes while it is above 0. In text that is the
    /// start of the character that ends at `i`: 1 in `"aé"` from 3.
    #[tactic(auto, using(crate::proofs::PlaceLemmas::prev_place_boundary, crate::proofs::PlaceLemmas::prev_place_nearest))]
    fn prev_codepoint_ix(&self, i: usize) -> usize
        requires above { 0 < i }
        requires inside { i ≤ length (Self.bytes self.now) }
        requires cleanly { Self.text self.now ≡ true → IsTrue (is_boundary (Self.bytes self.now) i) }
        ensures value { result ≡ prev_place (Self.bytes self.now) i }
        ensures below { result < i }
        ensures boundary { IsTrue (is_boundary (Self.bytes self.now) result) }
        ensures nearest { (j : ℕ) → result < j → j < i → IsFalse (is_boundary (Self.bytes self.now) j) }
    {
        places::prev_boundary(self.as_bytes(), i)
    }

    /// The place after `i`, which is at most the length, and for text on a boundary.
    ///
    /// In text it is the end of the character that starts at `i`, and in bytes it is the next byte. From
    /// the end it is one past the end, in both: 4 in `"aé"` from 3.
    #[tactic(auto, using(crate::proofs::PlaceLemmas::next_place_boundary, crate::proofs::PlaceLemmas::next_place_nearest))]
    fn advance_position(&self, i: usize) -> usize
        requires inside { i ≤ length (Self.bytes self.now) }
        requires cleanly { Self.text self.now ≡ true → IsTrue (is_boundary (Self.bytes self.now) i) }
        ensures value { result ≡ next_place (Self.text self.now) (Self.bytes self.now) i }
        ensures above { i < result }
        ensures most { result ≤ length (Self.bytes self.now) + 1 }
        ensures within { i < length (Self.bytes self.now) → result ≤ length (Self.bytes self.now) }
        ensures boundary { Self.text self.now ≡ true → IsTrue (is_boundary (Self.bytes self.now) result) }
        ensures nearest { Self.text self.now ≡ true → (j : ℕ) → i < j → j < result
            → IsFalse (is_boundary (Self.bytes self.now) j) }
    {
        if self.is_text() {
            places::next_boundary(self.as_bytes(), i)
        } else {
            places::next_byte(self.as_bytes(), i)
        }
    }
}
