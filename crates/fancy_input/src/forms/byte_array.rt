//! Bytes that are lent as an array.

ghost use Rattle.std.specs.Prelude.{false};
ghost use Rattle.fancy_input.specs.Spans.{span_in_bytes, bytes_in};

use crate::bytes::MatchBytes;
use crate::input::{Haystack, Input};

impl<'t, const N: usize> Haystack for &'t [u8; N] {
    ghost bytes = { λ s. s.now };

    ghost text = { λ _. false };
}

impl<'t, const N: usize> Input for &'t [u8; N] {
    type Match = MatchBytes<'t>;

    ghost within = { λ m. bytes_in m };

    ghost span = { λ m. span_in_bytes m };

    fn as_bytes(&self) -> &[u8] {
        *self
    }

    fn is_text(&self) -> bool {
        false
    }

    fn make_match(&self, start: usize, end: usize) -> MatchBytes<'t> {
        let bytes: &'t [u8] = *self;
        MatchBytes::new(bytes, start, end)
    }
}
