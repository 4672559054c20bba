//! Matches in bytes.

ghost use Rattle.std.specs.Prelude.{◌≤◌, length};

mod views;

/// A match in bytes: the bytes, and where the match starts and ends in them.
///
/// `end` is the offset after the last byte, so an empty match has two equal ends. Two matches are equal if
/// the bytes that they are in and both ends are.
#[derive(Clone, Copy, PartialEq, Eq)]
pub struct MatchBytes<'t> {
    bytes: &'t [u8],
    start: usize,
    end: usize,
    pub ghost ordered: { start ≤ end },
    pub ghost inside: { end ≤ length bytes.now },
}
