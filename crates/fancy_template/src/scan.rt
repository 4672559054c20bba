//! Reading a text from its front, character by character.

ghost use Rattle.std.specs.Prelude.{◌≡◌, ◌∷◌, ◌++◌, ℕ, [], true, false, chars, drop, length, MatchOption, IfSome, ◌<◌, encode_utf8, IsUtf8};
ghost use Rattle.std.specs.List.{list_all};
ghost use Rattle.std.specs.Char.{is_ascii_digit};
ghost use Rattle.fancy_template.specs.Templates.{Follows, begins_with, row, past_row};
ghost use Rattle.fancy_template.specs.Expansions.{as_number};
ghost use Rattle.fancy_template.specs.Expanders.{test_of};

use fancy_tree::name::is_name_character;

/// What a row of characters is made of.
#[derive(Clone, Copy)]
pub(crate) enum CharKind {
    /// Alphabetic characters, numbers of any script, and `_`.
    OfName,
    /// The ASCII digits.
    Digit,
}

impl CharKind {
    /// Whether such a row may have the character.
    pub(crate) fn includes(self, c: char) -> bool
        ensures { result ≡ test_of self c }
    {
        match self {
            CharKind::OfName => is_name_character(c),
            CharKind::Digit => c.is_ascii_digit(),
        }
    }
}

/// The first character, and what follows it.
pub(crate) fn split_first(text: &str) -> Option<(char, &str)>
    ensures chars { MatchOption result (chars text.now ≡ []) (λ x. chars text.now ≡ x.0 ∷ chars x.1.now) }
    ensures bytes { MatchOption result (text.now ≡ []) (λ x. text.now ≡ encode_utf8 x.0 ++ x.1.now) }
    ensures shorter { IfSome result (λ x. length x.1.now < length text.now) }
{
    let mut all = text.chars();
    let first = all.next()?;
    Some((first, all.as_str()))
}

/// What follows a character, if the text begins with it.
pub(crate) fn after_char(text: &str, c: char) -> Option<&str>
    ensures { MatchOption result (begins_with (c ∷ []) (chars text.now) ≡ false) (λ x. Follows (c ∷ []) (chars text.now) (chars x.now)) }
{
    let (first, rest) = split_first(text)?;
    if first == c { Some(rest) } else { None }
}

/// What follows a word, if the text begins with it.
pub(crate) fn after_word<'a>(text: &'a str, word: &str) -> Option<&'a str>
    ensures { MatchOption result (begins_with (chars word.now) (chars text.now) ≡ false) (λ x. Follows (chars word.now) (chars text.now) (chars x.now)) }
{
    text.strip_prefix(word)
}

/// The longest row of such characters at the front, which may be empty, and what follows it.
pub(crate) fn split_row(text: &str, kind: CharKind) -> (&str, &str)
    ensures row { chars result.0.now ≡ row (test_of kind) (chars text.now) }
    ensures rest { chars result.1.now ≡ past_row (test_of kind) (chars text.now) }
    ensures text { IsUtf8 result.0.now }
{
    let mut rest = text;
    while let Some((c, after)) = split_first(rest) {
        if !kind.includes(c) {
            break;
        }
        rest = after;
    }
    text.split_at(text.len() - rest.len())
}

/// The number that a text of ASCII digits writes in decimal, where it fits `usize`.
pub(crate) fn as_number(text: &str) -> Option<usize>
    ensures { result ≡ as_number (chars text.now) }
{
    if !are_digits(text) {
        return None;
    }
    match text.parse::<usize>() {
        Ok(number) => Some(number),
        Err(_) => None,
    }
}

fn are_digits(text: &str) -> bool
    ensures { result ≡ list_all is_ascii_digit (chars text.now) }
{
    text.chars().all(|c| c.is_ascii_digit())
}
