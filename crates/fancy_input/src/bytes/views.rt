//! Making a match in bytes, and what it says.

ghost use Rattle.std.specs.Prelude.{◌≡◌, ◌≤◌, length, slice_range};
ghost use Rattle.fancy_input.specs.Spans.{from_to, span_in_bytes, bytes_in};

use crate::bytes::MatchBytes;
use std::ops::Range;

impl<'t> MatchBytes<'t> {
    /// The match from `start` to `end` in `bytes`.
    ///
    /// `MatchBytes::new(b"a\xFFb", 1, 2)` is the match of `\xFF`.
    pub fn new(bytes: &'t [u8], start: usize, end: usize) -> MatchBytes<'t>
        requires ordered { start ≤ end }
        requires inside { end ≤ length bytes.now }
        ensures haystack { bytes_in result ≡ bytes.now }
        ensures span { span_in_bytes result ≡ from_to start end }
    {
        MatchBytes { bytes, start, end }
    }

    /// Where the match starts, in bytes from the start of the haystack: 1 for `\xFF` in `b"a\xFFb"`.
    pub fn start(&self) -> usize
        ensures { result ≡ (span_in_bytes self.now).start }
    {
        self.range().start
    }

    /// The offset after the last byte of the match: 2 for `\xFF` in `b"a\xFFb"`.
    pub fn end(&self) -> usize
        ensures { result ≡ (span_in_bytes self.now).end }
    {
        self.range().end
    }

    /// Both ends: `1..2` for `\xFF` in `b"a\xFFb"`.
    pub fn range(&self) -> Range<usize>
        ensures starts { result.start ≡ (span_in_bytes self.now).start }
        ensures ends { result.end ≡ (span_in_bytes self.now).end }
        ensures ordered { result.start ≤ result.end }
        ensures inside { result.end ≤ length (bytes_in self.now) }
    {
        self.start..self.end
    }

    /// The bytes that were matched: `b"\xFF"` for `1..2` of `b"a\xFFb"`.
    pub fn as_bytes(&self) -> &'t [u8]
        ensures { result.now
            ≡ slice_range (bytes_in self.now) (span_in_bytes self.now).start (span_in_bytes self.now).end }
    {
        &self.bytes[self.start()..self.end()]
    }
}

impl<'t> From<MatchBytes<'t>> for &'t [u8] {
    ghost from_gives = { λ m r. r.now ≡ slice_range (bytes_in m) (span_in_bytes m).start (span_in_bytes m).end };

    fn from(m: MatchBytes<'t>) -> &'t [u8] {
        m.as_bytes()
    }
}

impl<'t> From<MatchBytes<'t>> for Range<usize> {
    ghost from_gives = { λ m r. (r.start ≡ (span_in_bytes m).start) × (r.end ≡ (span_in_bytes m).end) };

    fn from(m: MatchBytes<'t>) -> Range<usize> {
        m.range()
    }
}
