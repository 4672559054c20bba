//! What stands at the start of a text.

ghost use Rattle.std.specs.Prelude.{◌≡◌, ◌<◌, ◌≤◌, length, IsTrue, nat_eq};
ghost use Rattle.std.specs.List.{starts_with};
ghost use Rattle.fancy_class.specs.Words.{is_at_any};

/// Whether the text begins with this word.
pub fn begins(text: &[char], word: &[char]) -> bool
    ensures value { result ≡ starts_with nat_eq text.now word.now }
    ensures room { IsTrue result → length word.now ≤ length text.now }
{
    text.starts_with(word)
}

/// Whether the first character is one of these.
pub fn is_at_any(text: &[char], chars: &[char]) -> bool
    ensures value { result ≡ is_at_any chars.now text.now }
    ensures room { IsTrue result → 0 < length text.now }
{
    match text {
        [c, ..] => chars.contains(c),
        [] => false,
    }
}
