//! Units before a place.

ghost use Rattle.std.specs.Prelude.{◌≡◌, ◌<◌, ◌-◌, Option};
ghost use Rattle.fancy_meaning.specs.Context.{Context, previous_in, units_back};
ghost use Rattle.fancy_machine.specs.Attempt.{reading};

use fancy_input::places::prev_boundary;
use fancy_tree::tree::Meaning;

/// The place one unit before another.
fn previous(haystack: &[u8], meaning: Meaning, place: usize) -> usize
    requires { 0 < place }
    ensures { result ≡ previous_in meaning haystack.now place }
{
    match meaning {
        Meaning::Unicode => prev_boundary(haystack, place),
        Meaning::Bytes => place - 1,
        Meaning::AsciiText => prev_boundary(haystack, place),
    }
}

/// The place so many units before another; none where the text's start is passed.
pub fn units_back(haystack: &[u8], meaning: Meaning, units: usize, place: usize) -> Option<usize>
    ensures { (x : Context) → result ≡ units_back (reading haystack.now meaning x) units place }
{
    let mut at = place;
    for done in 0..units {
        if at == 0 {
            return None;
        }
        at = previous(haystack, meaning, at);
    }
    Some(at)
}
