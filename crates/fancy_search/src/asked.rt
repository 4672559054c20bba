//! What is asked of a program.

ghost use Rattle.std.specs.Prelude.{◌≡◌, ◌≤◌, true, length, IsUtf8};
ghost use Rattle.std.proofs.Props.{props};

use fancy_input::input::Request;

/// What a search asks of a program, or an attempt at one position.
#[derive(Clone, Copy)]
pub struct Asked<'h> {
    /// The bytes of the haystack.
    pub haystack: &'h [u8],
    /// Whether the haystack is known to be text.
    pub text: bool,
    /// Where a match is wanted.
    pub request: &'h Request,
    /// Whether `\G` is on.
    pub continues: bool,
    /// Whether the groups of the match are asked for.
    pub groups: bool,
    pub ghost inside: { request.now.range_end ≤ length haystack.now },
    pub ghost utf8: { text ≡ true → IsUtf8 haystack.now } by { Prim.hlevel props },
}
