//! Sets of characters with a fixed name.

ghost use Rattle.std.specs.Prelude.{◌≡◌, ℕ, ◌&&◌, IfOk};
ghost use Rattle.unicode.specs.Rows.{in_ranges, HasExactly};
ghost use Rattle.fancy_tree.specs.Members.{members};
ghost use Rattle.fancy_tree.specs.Named.{in_named_set, is_unicode, is_wide, in_wide, ascii_ranges, universe_ranges, in_universe};

use crate::operation::Operation;
use crate::set::Set;
use crate::tree::Meaning;
use std::alloc::{AllocError, Global};
use unicode::perl::{digit_ranges, space_ranges, word_ranges};

/// The sets with a fixed name: those of `\d \w \s \h`, and the POSIX sets that none of these is.
#[derive(Clone, Copy, Debug, PartialEq, Eq)]
pub enum Named {
    /// `\d`.
    Digit,
    /// `\w`.
    Word,
    /// `\s`.
    Space,
    /// `\h` and `[:xdigit:]`.
    Hexadecimal,
    /// `[:alnum:]`.
    Alphanumeric,
    /// `[:alpha:]`.
    Alphabetic,
    /// `[:ascii:]`.
    Ascii,
    /// `[:blank:]`.
    Blank,
    /// `[:cntrl:]`.
    Control,
    /// `[:graph:]`.
    Graphic,
    /// `[:lower:]`.
    Lowercase,
    /// `[:print:]`.
    Printable,
    /// `[:punct:]`.
    Punctuation,
    /// `[:space:]`.
    AsciiSpace,
    /// `[:upper:]`.
    Uppercase,
    /// `[:word:]`.
    AsciiWord,
    /// `[:digit:]`.
    AsciiDigit,
}

/// The ranges of a set within ASCII.
fn ascii_ranges(which: Named) -> &'static [(u32, u32)]
    ensures { result.now ≡ ascii_ranges which }
{
    match which {
        Named::Digit | Named::AsciiDigit => &[(48, 57)],
        Named::Word | Named::AsciiWord => &[(48, 57), (65, 90), (95, 95), (97, 122)],
        Named::Space | Named::AsciiSpace => &[(9, 13), (32, 32)],
        Named::Hexadecimal => &[(48, 57), (65, 70), (97, 102)],
        Named::Alphanumeric => &[(48, 57), (65, 90), (97, 122)],
        Named::Alphabetic => &[(65, 90), (97, 122)],
        Named::Ascii => &[(0, 127)],
        Named::Blank => &[(9, 9), (32, 32)],
        Named::Control => &[(0, 31), (127, 127)],
        Named::Graphic => &[(33, 126)],
        Named::Lowercase => &[(97, 122)],
        Named::Printable => &[(32, 126)],
        Named::Punctuation => &[(33, 47), (58, 64), (91, 96), (123, 126)],
        Named::Uppercase => &[(65, 90)],
    }
}

/// All that an item can consume.
pub fn universe(alloc: Global, meaning: Meaning) -> Result<Set, AllocError>
    ensures { IfOk result (λ s. (c : ℕ) → members s c ≡ in_universe meaning c) }
{
    match meaning {
        Meaning::Unicode => Set::from_ranges(alloc, &[(0, 0xD7FF), (0xE000, 0x10_FFFF)]),
        Meaning::Bytes => Set::from_ranges(alloc, &[(0, 0xFF)]),
        Meaning::AsciiText => Set::from_ranges(alloc, &[(0, 0x7F)]),
    }
}

/// What is left of the ranges without surrogates.
pub fn characters(alloc: Global, ranges: &[(u32, u32)]) -> Result<Set, AllocError>
    ensures { IfOk result (λ s. (c : ℕ) → members s c ≡ (in_universe Meaning.Unicode c && in_ranges ranges.now c)) }
{
    let all = universe(alloc, Meaning::Unicode)?;
    let found = Set::from_ranges(alloc, ranges)?;
    all.combine(Operation::Intersection, &found)
}

fn is_unicode(meaning: Meaning) -> bool
    ensures { result ≡ is_unicode meaning }
{
    matches!(meaning, Meaning::Unicode)
}

/// Whether a set has other members in Unicode meaning than in the others.
fn is_wide(which: Named) -> bool
    ensures { result ≡ is_wide which }
{
    matches!(which, Named::Digit | Named::Word | Named::Space)
}

fn is_wide_in(meaning: Meaning, which: Named) -> bool
    ensures { result ≡ (is_unicode meaning && is_wide which) }
{
    is_unicode(meaning) && is_wide(which)
}

/// The code points of such a set.
fn wide_ranges(alloc: Global, which: Named) -> Result<Vec<(u32, u32)>, AllocError>
    ensures { IfOk result (λ out. HasExactly out.items (in_wide which)) }
{
    match which {
        Named::Digit => digit_ranges(alloc),
        Named::Word => word_ranges(alloc),
        _ => space_ranges(alloc),
    }
}

/// The members of a set with a name.
pub fn members_of(alloc: Global, meaning: Meaning, which: Named) -> Result<Set, AllocError>
    ensures { IfOk result (λ s. (c : ℕ) → members s c ≡ in_named_set meaning which c) }
{
    if is_wide_in(meaning, which) {
        characters(alloc, &wide_ranges(alloc, which)?)
    } else {
        Set::from_ranges(alloc, ascii_ranges(which))
    }
}
