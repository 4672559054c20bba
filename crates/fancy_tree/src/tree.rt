//! A pattern as a tree.

ghost use Rattle.std.specs.Prelude.{◌≡◌};
ghost use Rattle.fancy_tree.specs.Modes.{meaning_of, keeps_characters};
ghost use Rattle.fancy_tree.specs.declared.tree.BytesMode.TheVariants.{Unicode as ByCharacters};

use crate::set::Set;

/// How bytes are read, in the pattern and in the haystack.
///
/// | Mode | An item is | with the Unicode mode off | A match begins and ends |
/// |---|---|---|---|
/// | `Unicode` | a character | a character, and classes are of ASCII | on character boundaries |
/// | `Ascii` | a byte | a byte | anywhere |
/// | `UnicodeBytes` | a character | a byte | anywhere |
#[derive(Clone, Copy, PartialEq, Eq)]
pub enum BytesMode {
    /// Characters are items, and matches stand on character boundaries.
    Unicode,
    /// Bytes are items.
    Ascii,
    /// Characters are items, and matches may stand anywhere.
    UnicodeBytes,
}

impl BytesMode {
    /// What an item consumes, with the Unicode mode on or off.
    pub fn meaning(self, unicode_mode: bool) -> Meaning
        ensures { result ≡ meaning_of self unicode_mode }
    {
        match self {
            BytesMode::Ascii => Meaning::Bytes,
            _ if unicode_mode => Meaning::Unicode,
            BytesMode::Unicode => Meaning::AsciiText,
            BytesMode::UnicodeBytes => Meaning::Bytes,
        }
    }

    /// Whether matches begin and end on character boundaries alone.
    pub fn keeps_characters(self) -> bool
        ensures { result ≡ keeps_characters self }
    {
        match self {
            BytesMode::Unicode => true,
            BytesMode::Ascii | BytesMode::UnicodeBytes => false,
        }
    }
}

impl Default for BytesMode {
    ghost is_default = { λ m. m ≡ ByCharacters };

    fn default() -> BytesMode {
        BytesMode::Unicode
    }
}

/// What one item of a pattern consumes.
#[derive(Clone, Copy, PartialEq, Eq)]
pub enum Meaning {
    /// One well-formed UTF-8 sequence; classes range over all characters.
    Unicode,
    /// One byte.
    Bytes,
    /// One well-formed UTF-8 sequence; classes range over U+0000 to U+007F.
    AsciiText,
}

/// A test of a place that consumes nothing.
#[derive(Clone, Copy, PartialEq, Eq)]
pub enum Assertion {
    /// The text's start.
    TextStart,
    /// The text's end.
    TextEnd,
    /// The text's start, or after a line feed.
    LineStart,
    /// The text's end, or before a line feed.
    LineEnd,
    /// The text's start, after a line feed, or after a carriage return that no line feed follows.
    LineStartCrlf,
    /// The text's end, before a carriage return, or before a line feed that no carriage return precedes.
    LineEndCrlf,
    /// Only line feeds follow, if anything.
    LastLine,
    /// Only line feeds follow, each perhaps with a carriage return before it, if anything.
    LastLineCrlf,
    /// A word character stands before or after the place, but not both.
    WordBoundary,
    /// Word characters stand before and after the place, or neither.
    NotWordBoundary,
    /// No word character stands before the place, and one after it.
    WordStart,
    /// A word character stands before the place, and none after it.
    WordEnd,
    /// No word character stands before the place.
    WordStartHalf,
    /// No word character stands after the place.
    WordEndHalf,
}

/// Which number of turns a repeat prefers, and whether it goes back to another one.
#[derive(Clone, Copy, PartialEq, Eq)]
pub enum RepeatKind {
    /// One more turn first.
    Greedy,
    /// No more turn first.
    Lazy,
    /// One more turn first, and never back.
    Possessive,
}

/// A pattern. A concatenation or an alternation holds its parts side by side, so that a pattern of a million
/// characters is not a million deep; only groups and repeats go deeper.
#[derive(Drop)]
pub enum Tree {
    /// Consumes nothing, and always holds.
    Empty,
    /// One item, a character or in byte meaning a byte, with this code.
    Character(char),
    /// One item of a set.
    Member(Set),
    /// A literal under flag `i`: one item of the set of what that flag takes for the literal's character.
    InAnyCase(Set),
    /// One byte, in any meaning.
    RawByte(u8),
    /// The text of the group with this number; where it is folded, as flag `i` compares it.
    Backreference {
        folded: bool,
        group: usize,
    },
    /// A test of the place.
    Assertion(Assertion),
    /// Whether the group with this number has taken part.
    GroupTest(usize),
    /// `\K`: the match starts here.
    KeepStart,
    /// `\G`: the search starts here.
    ContinueHere,
    /// A capturing group, with its number from 1 on.
    Group {
        index: usize,
        body: Box<Tree>,
    },
    /// At least `low` turns, and at most `high` where that is set.
    Repeat {
        low: u32,
        high: Option<u32>,
        kind: RepeatKind,
        body: Box<Tree>,
    },
    /// The body stands after the place, or does not where it is negated.
    LookAhead {
        negated: bool,
        body: Box<Tree>,
    },
    /// The body stands before the place, or does not where it is negated.
    LookBehind {
        negated: bool,
        body: Box<Tree>,
    },
    /// The first outcome of the body, and no other.
    Atomic(Box<Tree>),
    /// The first branch after the condition, or without it the second.
    Conditional {
        condition: Box<Tree>,
        on_match: Box<Tree>,
        otherwise: Box<Tree>,
    },
    /// One part after another.
    Concat(Vec<Tree>),
    /// One of the branches, an earlier one first.
    Alternation(Vec<Tree>),
}
