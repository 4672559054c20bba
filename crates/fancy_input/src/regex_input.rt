//! A haystack with the settings of its search.

ghost use Rattle.std.specs.Prelude.{◌≤◌, length};

mod copies;
mod settings;

use crate::input::{Haystack, Request};

/// A haystack, and where and how it is searched.
///
/// The settings change where a search looks and what its anchors find. They cut nothing off: assertions and
/// look-around still see the whole haystack, and the offsets of a match are offsets into it.
///
/// ```text
/// RegexInput::new("abcabc").from_pos(1)           // finds `abc` at 3
/// RegexInput::new("abcabc").range(0..2)           // finds no `abc`
/// RegexInput::new("abcabc").from_pos(1).anchored(true)     // finds no `abc`: 1 alone is tried
/// ```
#[derive(Drop)]
pub struct RegexInput<S: Haystack> {
    haystack: S,
    request: Request,
    pub ghost ordered: { request.range_start ≤ request.range_end },
    pub ghost inside: { request.range_end ≤ length (S.bytes haystack) },
}
