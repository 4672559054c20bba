//! What a match says: its two ends in bytes, and what stands between them.
//!
//! A match in text has the span `span_in` of the text `text_in`, one in bytes the span `span_in_bytes` of the bytes `bytes_in`.

ghost use Rattle.std.specs.Prelude.{◌≡◌, ◌≤◌, length, slice_range};
ghost use Rattle.fancy_regex.specs.Spans.{bytes_in, span_in, span_in_bytes, text_in};

use fancy_regex::{Match, MatchBytes};
use std::ops::Range;

/// A match in text: its ends, its range and its text.
pub fn reads<'t>(found: Match<'t>) -> (usize, usize, Range<usize>, &'t str)
    ensures start { result.0 ≡ (span_in found.entry).start }
    ensures end { result.1 ≡ (span_in found.entry).end }
    ensures range { (result.2.start ≡ (span_in found.entry).start)
        × (result.2.end ≡ (span_in found.entry).end) }
    ensures ordered { result.2.start ≤ result.2.end }
    ensures inside { result.2.end ≤ length (text_in found.entry) }
    ensures text { result.3.now
        ≡ slice_range (text_in found.entry) (span_in found.entry).start (span_in found.entry).end }
{
    (found.start(), found.end(), found.range(), found.as_str())
}

/// A match in bytes: its ends, its range and its bytes.
pub fn reads_in_bytes<'t>(found: MatchBytes<'t>) -> (usize, usize, Range<usize>, &'t [u8])
    ensures start { result.0 ≡ (span_in_bytes found.entry).start }
    ensures end { result.1 ≡ (span_in_bytes found.entry).end }
    ensures range { (result.2.start ≡ (span_in_bytes found.entry).start)
        × (result.2.end ≡ (span_in_bytes found.entry).end) }
    ensures ordered { result.2.start ≤ result.2.end }
    ensures inside { result.2.end ≤ length (bytes_in found.entry) }
    ensures bytes { result.3.now
        ≡ slice_range (bytes_in found.entry) (span_in_bytes found.entry).start
        (span_in_bytes found.entry).end }
{
    (found.start(), found.end(), found.range(), found.as_bytes())
}
