//! The bytes round the positions at which an attempt costs something, or may find a match.

ghost use Rattle.std.specs.Prelude.{IfOk};
ghost use Rattle.std.specs.Option.{ForSome};
ghost use Rattle.fancy_prices.specs.Around.{AreSecond, IsAround};

use crate::kinds::word_bytes;
use crate::price::Price;
use crate::rows::{Rows, are_whole, is_free};
use fancy_bytes::byte_set::ByteSet;
use fancy_prefilter::prefilter::{Anchor, Opening, Prefilter};
use fancy_prefilter::window::Window;
use std::alloc::{AllocError, Global};

/// How many bytes before a position are told.
pub(crate) const BEFORE: usize = 2;

/// The bytes that may stand before the one before such a position, where these are the bytes there. It may be any, where one of these
/// is within a character.
fn bytes_behind(behind: &Option<[Option<Price>; 256]>, bytes: &ByteSet) -> ByteSet
    ensures { AreSecond behind.now bytes.now result }
{
    let Some(row) = behind else {
        return ByteSet::all();
    };
    if !are_whole(bytes) {
        return ByteSet::all();
    }
    let mut seconds = ByteSet::new();
    for byte in 0..256u32 {
        if !is_free(row[byte as usize]) {
            seconds.insert(byte as u8);
        }
    }
    seconds
}

/// Whether a set has fewer letters and digits than another one. No answer rests on it.
fn has_fewer_words(set: &ByteSet, other: &ByteSet) -> bool {
    let words = word_bytes();
    set.intersection(&words).len() < other.intersection(&words).len()
}

/// What tells where such a position may be, by the bytes there and two before it: the place of the first of them is told. There is none
/// where those before it tell little, or where one byte alone is looked for.
///
/// ```text
/// (?<=fn )\w+    // a letter or a digit behind a blank, behind the byte n
/// \b[A-Z]       // a capital behind a byte that is no ASCII letter
/// ```
pub(crate) fn around_of(
    alloc: Global,
    rows: &Rows,
    behind: &Option<[Option<Price>; 256]>,
    bytes: &ByteSet,
) -> Result<Option<Prefilter>, AllocError>
    ensures { IfOk result (λ around. ForSome around (IsAround rows.now behind.now bytes.now)) }
{
    let before = rows.bytes_before();
    let seconds = bytes_behind(behind, bytes);
    let tells = has_fewer_words(&before, bytes) || has_fewer_words(&seconds, bytes);
    if bytes.len() == 1 || !tells {
        return Ok(None);
    }
    let mut sets = Vec::new(alloc);
    sets.push(seconds)?;
    sets.push(before)?;
    sets.push(bytes.union(bytes))?;
    let Some(window) = Window::new(alloc, sets)? else {
        return Ok(None);
    };
    Ok(Some(Prefilter {
        starts: None,
        anchor: Anchor::Anywhere,
        opening: Opening::Window(window),
        region: None,
    }))
}
