//! What a line or a file has, as it is searched.

ghost use Rattle.std.specs.Prelude.{◌≡◌, ◌≤◌, ◌++◌, true, length, IsUtf8};
ghost use Rattle.fancy_input.specs.Spans.{bytes_in, span_in_bytes};
ghost use Rattle.loft_texts.specs.Contents.{bytes_of, is_text};

use fancy_input::bytes::MatchBytes;
use fancy_input::input::{Haystack, Input};
use simdutf8::basic::from_utf8;

/// What a line or a file has: text where it is UTF-8, and else bytes.
#[derive(Clone, Copy)]
pub enum Content<'t> {
    Text(&'t str),
    Bytes(&'t [u8]),
}

impl<'t> Content<'t> {
    /// These bytes, as text where they are UTF-8.
    pub fn of(bytes: &'t [u8]) -> Content<'t>
        ensures { bytes_of result ≡ bytes.now }
    {
        match from_utf8(bytes) {
            Ok(text) => Content::Text(text),
            Err(_) => Content::Bytes(bytes),
        }
    }

    /// Its bytes.
    pub fn bytes(self) -> &'t [u8]
        ensures bytes { result.now ≡ bytes_of self.entry }
        ensures utf8 { is_text self.entry ≡ true → IsUtf8 result.now }
    {
        match self {
            Content::Text(text) => text.as_bytes(),
            Content::Bytes(bytes) => bytes,
        }
    }

    /// As text, where it is UTF-8.
    pub(crate) fn as_text_if_it_is(self) -> Content<'t>
        ensures { bytes_of result ≡ bytes_of self.entry }
    {
        match self {
            Content::Text(_) => self,
            Content::Bytes(bytes) => Content::of(bytes),
        }
    }

    /// What stands before a place, and what follows it.
    #[tactic(auto, using(crate::proofs::ContentLemmas::parts_are_whole))]
    pub(crate) fn split_at(self, at: usize) -> (Content<'t>, Content<'t>)
        requires { at ≤ length (bytes_of self) }
        ensures { bytes_of result.0 ++ bytes_of result.1 ≡ bytes_of self.entry }
    {
        if let Content::Text(text) = self {
            if let Some((before, after)) = text.split_at_checked(at) {
                return (Content::Text(before), Content::Text(after));
            }
        }
        let (before, after) = self.bytes().split_at(at);
        (Content::Bytes(before), Content::Bytes(after))
    }
}

impl<'t> Haystack for Content<'t> {
    ghost bytes = { λ s. bytes_of s };

    ghost text = { λ s. is_text s };
}

impl<'t> Input for Content<'t> {
    type Match = MatchBytes<'t>;

    ghost within = { λ m. bytes_in m };

    ghost span = { λ m. span_in_bytes m };

    fn as_bytes(&self) -> &[u8] {
        self.bytes()
    }

    fn is_text(&self) -> bool {
        match self {
            Content::Text(_) => true,
            Content::Bytes(_) => false,
        }
    }

    fn make_match(&self, start: usize, end: usize) -> MatchBytes<'t> {
        MatchBytes::new(self.bytes(), start, end)
    }
}
