//! Text that is lent as a `&String`.

ghost use Rattle.std.specs.Prelude.{true, string_bytes};
ghost use Rattle.fancy_input.specs.Spans.{span_in, text_in};

use crate::input::{Haystack, Input};
use crate::matches::Match;

impl<'t> Haystack for &'t String {
    ghost bytes = { λ s. string_bytes s.now };

    ghost text = { λ _. true };
}

impl<'t> Input for &'t String {
    type Match = Match<'t>;

    ghost within = { λ m. text_in m };

    ghost span = { λ m. span_in m };

    fn as_bytes(&self) -> &[u8] {
        str::as_bytes(self.as_str())
    }

    fn is_text(&self) -> bool {
        true
    }

    fn make_match(&self, start: usize, end: usize) -> Match<'t> {
        Match::new(String::as_str(*self), start, end)
    }
}
