//! Text that is lent as a `&str`.

ghost use Rattle.std.specs.Prelude.{true};
ghost use Rattle.fancy_input.specs.Spans.{span_in, text_in};

use crate::input::{Haystack, Input};
use crate::matches::Match;

impl<'t> Haystack for &'t str {
    ghost bytes = { λ s. s.now };

    ghost text = { λ _. true };
}

impl<'t> Input for &'t str {
    type Match = Match<'t>;

    ghost within = { λ m. text_in m };

    ghost span = { λ m. span_in m };

    fn as_bytes(&self) -> &[u8] {
        str::as_bytes(self)
    }

    fn is_text(&self) -> bool {
        true
    }

    fn make_match(&self, start: usize, end: usize) -> Match<'t> {
        Match::new(*self, start, end)
    }
}
