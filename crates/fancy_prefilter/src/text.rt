//! The text that an alternative begins with.

ghost use Rattle.std.specs.Prelude.{◌≡◌, ◌+◌, ◌≤◌, ℕ, true, false, length};
ghost use Rattle.fancy_bytes.specs.Openings.{StandsBefore};

/// The text that an alternative begins with, as far as that is plain.
#[derive(Drop)]
pub struct Text {
    /// The bytes.
    pub bytes: Vec<u8>,
    /// The alternative is this text, and nothing follows.
    pub is_all: bool,
}

impl Text {
    /// Whether the last byte stands where the text would have it.
    fn ends_at(&self, haystack: &[u8], place: usize) -> bool
        requires { place + length self.now.bytes.items ≤ length haystack.now }
        ensures { result ≡ false → (end : ℕ) → ¬ StandsBefore haystack.now end self.now.bytes.items place }
    {
        let len = self.bytes.len();
        if len == 0 {
            return true;
        }
        haystack[place + (len - 1)] == self.bytes[len - 1]
    }

    /// Whether the text stands at a place, before the end. Its last byte is compared first, since those before it may have told already
    /// that the text is a candidate.
    pub fn stands_at(&self, haystack: &[u8], place: usize, end: usize) -> bool
        requires ordered { place ≤ end }
        requires within { end ≤ length haystack.now }
        ensures stands { result ≡ true → StandsBefore haystack.now end self.now.bytes.items place }
        ensures lacks { result ≡ false → ¬ StandsBefore haystack.now end self.now.bytes.items place }
    {
        if self.bytes.len() > end - place {
            return false;
        }
        if !self.ends_at(haystack, place) {
            return false;
        }
        for i in 0..self.bytes.len() {
            if haystack[place + i] != self.bytes[i] {
                return false;
            }
        }
        true
    }
}
