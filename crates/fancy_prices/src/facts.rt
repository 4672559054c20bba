//! What is told where an attempt stands: the byte there, and what stands before it.

ghost use Rattle.std.specs.Prelude.{◌≡◌, ℕ, ◌≤◌, ◌==◌, ◌||◌, true, false, not, Some};
ghost use Rattle.fancy_input.specs.Lines.{is_line_feed, is_carriage_return};
ghost use Rattle.fancy_prices.specs.Prices.{EndsNotWith, EndsOtherwise};
ghost use Rattle.fancy_prices.specs.Facts.{FailsWith, HoldsWith, IsAlways, IsOfKind, TellsBefore, TellsHere, TellsWord};

use crate::kinds::{Kind, is_word};
use fancy_tree::tree::{Assertion, Meaning};

/// What stands before a position.
#[derive(Clone, Copy)]
pub enum Before<'a> {
    /// Nothing: it is the text's start.
    Nothing,
    /// One of the bytes of a kind.
    Among(&'a Kind),
}

/// What is told of how the text before a place ends.
#[derive(Clone, Copy)]
pub enum Ending<'a> {
    /// What its last byte is.
    Last(Before<'a>),
    /// The byte before its last one.
    Second(u8),
}

/// What is told of a position.
#[derive(Clone, Copy)]
pub struct Facts<'a> {
    /// The byte that stands there.
    pub here: u8,
    /// What stands before it. `None` where that is not told.
    pub before: Option<Before<'a>>,
}

/// Whether a character may end with a byte.
pub(crate) fn may_end_with(character: char, byte: u8) -> bool
    ensures { result ≡ false → EndsNotWith character byte }
{
    let code = character as u32;
    if byte < 0x80 {
        return code == byte as u32;
    }
    code >= 0x80
}

impl Before<'_> {
    /// Whether a byte stands before.
    pub(crate) fn is_byte(self) -> bool
        ensures { result ≡ true → IsAlways self.entry (λ _. true) }
    {
        matches!(self, Before::Among(_))
    }

    /// Whether a byte stands before, and is not this one.
    fn is_other_than(self, byte: u8) -> bool
        ensures { result ≡ true → IsAlways self.entry (λ b. not (b == byte)) }
    {
        self.is_byte() && !self.may_be(byte)
    }

    /// Whether a byte stands before, and is neither a line feed nor a carriage return.
    fn is_in_line(self) -> bool
        ensures { result ≡ true → IsAlways self.entry (λ b. not (is_line_feed (Some b) || is_carriage_return (Some b))) }
    {
        if self.is_other_than(b'\n') {
            return self.is_other_than(b'\r');
        }
        false
    }

    /// Whether a byte may stand before.
    pub(crate) fn may_be(self, byte: u8) -> bool
        ensures { result ≡ false → IsOfKind self.entry (Some byte) → ⊥ }
    {
        match self {
            Before::Nothing => false,
            Before::Among(kind) => kind.bytes.contains(byte),
        }
    }

    /// Whether a byte past ASCII may stand before.
    pub(crate) fn is_wide(self) -> bool
        ensures { result ≡ false → (b : ℕ) → 128 ≤ b → IsOfKind self.entry (Some b) → ⊥ }
    {
        match self {
            Before::Nothing => false,
            Before::Among(kind) => kind.wide,
        }
    }

    /// Whether a character may end with the byte that stands before.
    pub(crate) fn may_end(self, character: char) -> bool
        ensures { result ≡ false → EndsOtherwise self.entry character }
    {
        let code = character as u32;
        if code < 0x80 {
            return self.may_be(code as u8);
        }
        self.is_wide()
    }

    /// Whether a word character stands before. `None` where that is not told.
    fn is_word(self) -> Option<bool>
        ensures { TellsWord self.entry result }
    {
        match self {
            Before::Nothing => Some(false),
            Before::Among(kind) => kind.word,
        }
    }
}

impl Facts<'_> {
    /// Whether a word character stands before. `None` where that is not told.
    fn is_word_before(self) -> Option<bool>
        ensures { TellsBefore self.entry result }
    {
        self.before?.is_word()
    }

    /// Whether a word character begins there. `None` where that is not told.
    fn is_word_here(self) -> Option<bool>
        ensures { TellsHere self.entry result }
    {
        if self.here < 0x80 {
            return Some(is_word(self.here));
        }
        None
    }

    /// Whether an assertion fails. It is not told of each that does.
    pub(crate) fn fails(self, assertion: Assertion) -> bool
        ensures { result ≡ true → FailsWith assertion self.entry }
    {
        self.fails_by_start(assertion) || self.fails_by_words(assertion)
    }

    /// Whether an assertion of a word's boundary holds. It is not told of each that does.
    pub(crate) fn holds(self, assertion: Assertion) -> bool
        ensures { result ≡ true → HoldsWith assertion self.entry }
    {
        match assertion {
            Assertion::WordBoundary => self.fails(Assertion::NotWordBoundary),
            Assertion::NotWordBoundary => self.fails(Assertion::WordBoundary),
            _ => false,
        }
    }

    /// Whether an assertion of the text's start, or of a line's start, fails.
    fn fails_by_start(self, assertion: Assertion) -> bool
        ensures { result ≡ true → FailsWith assertion self.entry }
    {
        let Some(before) = self.before else {
            return false;
        };
        match assertion {
            Assertion::TextStart => before.is_byte(),
            Assertion::LineStart => before.is_other_than(b'\n'),
            Assertion::LineStartCrlf => before.is_in_line(),
            _ => false,
        }
    }

    /// Whether an assertion of words fails.
    fn fails_by_words(self, assertion: Assertion) -> bool
        ensures { result ≡ true → FailsWith assertion self.entry }
    {
        let (Some(before), Some(here)) = (self.is_word_before(), self.is_word_here()) else {
            return false;
        };
        match assertion {
            Assertion::WordBoundary => before == here,
            Assertion::NotWordBoundary => before != here,
            Assertion::WordStart => before || !here,
            Assertion::WordEnd => !before || here,
            Assertion::WordStartHalf => before,
            Assertion::WordEndHalf => here,
            _ => false,
        }
    }
}
