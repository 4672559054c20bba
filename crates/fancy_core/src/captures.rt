//! The groups of a match.

ghost use Rattle.std.specs.Prelude.{◌≡◌};
ghost use Rattle.fancy_search.specs.Groups.{AreCut, spans_held};

mod borrowed_text;
mod named;
mod owned_text;
mod texts;
mod views;

use crate::regex::Regex;
use fancy_input::input::Haystack;
use fancy_search::groups::GroupSpans;
pub use views::{SubCaptureMatches, group_span};

/// The groups of a match in a haystack of the form `S`, by their numbers: group 0 is the whole match, and the
/// others go by the order in which they are opened. It borrows the regex that found it.
///
/// ```text
/// let regex = Regex::new(alloc, "(a)|b")?;
/// let captures = regex.captures("b")?;  // Some
/// captures.get(0)  // 0..1
/// captures.get(1)  // None: the group took no part
/// captures.get(2)  // None: there is no such group
/// ```
#[derive(Drop)]
pub struct Captures<'r, S: Haystack> {
    regex: &'r Regex,
    haystack: S,
    groups: GroupSpans,
    pub ghost placed: { AreCut (S.text haystack) (S.bytes haystack) (spans_held groups) },
}
