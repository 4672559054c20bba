//! The text of a pattern, as far as it is left to read.

ghost use Rattle.std.specs.Prelude.{◌≡◌, ◌+◌, ◌≤◌, length, drop};

use crate::named_sets::NamedSets;

/// What is left to read, and the named sets that were read last.
#[derive(Drop)]
pub struct Cursor<'a> {
    pub rest: &'a [char],
    pub named: NamedSets,
}

impl<'a> Cursor<'a> {
    /// Passes over so many characters.
    pub fn skip(&mut self, count: usize)
        requires { count ≤ length self.old.rest.now }
        ensures place { self.new.rest.now ≡ drop count self.old.rest.now }
        ensures len { length self.new.rest.now + count ≡ length self.old.rest.now }
    {
        self.rest = &self.rest[count..];
    }
}
