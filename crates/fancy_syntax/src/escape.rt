//! Escapes and anchors: what one character means after a backslash, or by itself.

ghost use Rattle.std.specs.Prelude.{◌≡◌, option_map};
ghost use Rattle.fancy_syntax.specs.Dialect.{anchor_of, place_test, start_mark, is_escapable, must_be_escaped, is_one_item, ends_line};
ghost use Rattle.fancy_tree.specs.Pattern.{pattern_of};
ghost use Rattle.fancy_syntax.specs.Flags.{flags_of};

use crate::flags::Flags;
use fancy_tree::error::ParseErrorKind;
use fancy_tree::tree::{Assertion, Meaning, Tree};

/// Whether a backslash makes this character a literal.
pub(crate) fn is_escapable(c: char) -> bool
    ensures { result ≡ is_escapable c }
{
    (c == ' ' || c.is_ascii_punctuation()) && !['<', '>'].contains(&c)
}

/// Whether this character stands for itself only where it is escaped.
pub(crate) fn is_special(c: char) -> bool
    ensures { result ≡ must_be_escaped c }
{
    ['|', '(', ')', '*', '+', '?', '\\', '.', '^', '$', '['].contains(&c)
}

/// Whether the character is one item, so that flag `i` can give it others.
pub(crate) fn is_one_item(meaning: Meaning, c: char) -> bool
    ensures { result ≡ is_one_item meaning c }
{
    match meaning {
        Meaning::Unicode | Meaning::AsciiText => true,
        Meaning::Bytes => (c as u32) < 128,
    }
}

/// What `^` and `$` test.
pub(crate) fn anchor(flags: Flags, c: char) -> Option<Assertion>
    ensures { result ≡ anchor_of (flags_of flags) c }
{
    match c {
        '^' if !flags.multi_line => Some(Assertion::TextStart),
        '^' if flags.crlf => Some(Assertion::LineStartCrlf),
        '^' => Some(Assertion::LineStart),
        '$' if !flags.multi_line => Some(Assertion::TextEnd),
        '$' if flags.crlf => Some(Assertion::LineEndCrlf),
        '$' => Some(Assertion::LineEnd),
        _ => None,
    }
}

/// What `\A`, `\z`, `\Z`, `\B`, `\<` and `\>` test.
pub(crate) fn place_test(flags: Flags, letter: char) -> Option<Assertion>
    ensures { result ≡ place_test (flags_of flags) letter }
{
    match letter {
        'A' => Some(Assertion::TextStart),
        'z' => Some(Assertion::TextEnd),
        'Z' if flags.crlf => Some(Assertion::LastLineCrlf),
        'Z' => Some(Assertion::LastLine),
        'B' => Some(Assertion::NotWordBoundary),
        '<' => Some(Assertion::WordStart),
        '>' => Some(Assertion::WordEnd),
        _ => None,
    }
}

/// What `\G` and `\K` stand for; inside of look-around `\K` stands for nothing.
#[tactic(auto, using(fancy_tree::proofs::PatternLemmas::pattern_equations))]
pub(crate) fn start_mark(in_look_around: bool, letter: char) -> Option<Tree>
    ensures { option_map pattern_of result ≡ start_mark in_look_around letter }
{
    match letter {
        'G' => Some(Tree::ContinueHere),
        'K' if !in_look_around => Some(Tree::KeepStart),
        _ => None,
    }
}

/// What is wrong with an escape by a letter that stands for nothing, or not in this meaning; the text begins after its backslash.
pub(crate) fn escape_fault(text: &[char]) -> ParseErrorKind {
    match text {
        ['R' | 'X' | 'g' | 'K', ..] => ParseErrorKind::NotInProfile,
        ['D' | 'S' | 'W' | 'H', ..] => ParseErrorKind::InvalidClass,
        _ => ParseErrorKind::InvalidEscape,
    }
}
