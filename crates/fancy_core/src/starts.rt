//! Where a match of a regex may start, by bytes further on, and where it may end.

ghost use Rattle.std.specs.Prelude.{◌≡◌, false, true};
ghost use Rattle.fancy_tree.specs.Modes.{keeps_characters};
ghost use Rattle.fancy_core.specs.Regexes.{options_in};
ghost use Rattle.fancy_core.specs.RegexStarts.{EndsByOneItem, NoneHolds};

use crate::regex::Regex;

/// Whether a match may start so many places, 1 or more, before this byte. Where the answer is `false`, none does. It is `true` for a
/// regex that is not easy, and where nothing is told of the place.
///
/// ```text
/// let regex = Regex::new(alloc, "abc*")?;
/// may_hold(&regex, 1, b'b')    // true
/// may_hold(&regex, 1, b'c')    // false: each match opens with `ab`
/// may_hold(&regex, 2, b'x')    // true
/// ```
pub fn may_hold(regex: &Regex, place: usize, byte: u8) -> bool
    ensures { result ≡ false → NoneHolds regex.now place byte }
{
    regex.program.may_hold(place, byte)
}

/// Whether the pattern is one item, or alternatives of one item each, as far as this is told, so that no match goes past an ASCII
/// character that it starts with. For a regex that is not easy the answer is `false`.
///
/// ```text
/// is_one_item(&Regex::new(alloc, "[a-z]")?)     // true
/// is_one_item(&Regex::new(alloc, ";|[^{]")?)    // true
/// is_one_item(&Regex::new(alloc, "[a-z]+")?)    // false
/// ```
pub fn is_one_item(regex: &Regex) -> bool
    ensures { result ≡ true → EndsByOneItem regex.now }
{
    regex.program.is_one_item()
}

/// Whether matches begin and end on character boundaries alone. So it is unless the regex was built with `BytesMode::Ascii` or
/// `BytesMode::UnicodeBytes`.
///
/// ```text
/// keeps_characters(&Regex::new(alloc, "é")?)    // true
/// ```
pub fn keeps_characters(regex: &Regex) -> bool
    ensures { result ≡ keeps_characters (options_in regex.now).bytes_mode }
{
    regex.program.options().bytes_mode.keeps_characters()
}
