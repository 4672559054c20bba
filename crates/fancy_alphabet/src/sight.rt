//! What a search sees at a place: what it reads there, and what stands beside the place.

ghost use Rattle.std.specs.Prelude.{◌≡◌, ◌+◌, ◌<◌, ◌≤◌, IfSome, Some, length, option_map, slice_get};
ghost use Rattle.fancy_meaning.specs.Reading.{unit_read};
ghost use Rattle.fancy_alphabet.specs.Units.{unit_by};
ghost use Rattle.fancy_code.specs.Attempt.{context_in};
ghost use Rattle.fancy_alphabet.specs.Sights.{IsSeenAs, ascii};

use crate::side::{Side, Tests};
use fancy_code::attempt::Attempt;
use fancy_meaning::reading::{Reading, read_at};

/// What is seen at a place.
#[derive(Clone, Copy, PartialEq, Eq, Debug)]
pub struct Sight {
    /// What stands before it.
    pub before: Side,
    /// What stands after it.
    pub after: Side,
    /// What is read there; `None` where the haystack, or what is searched of it, ends.
    pub reading: Option<Reading>,
}

impl Sight {
    /// The byte, if that is an ASCII character.
    #[inline(always)]
    pub fn ascii(self) -> Option<u8>
        ensures { IfSome result (λ b. (b < 128) × (self.reading ≡ Some (ascii b))) }
    {
        let reading = self.reading?;
        if reading.code >= 0x80 || reading.width != 1 {
            return None;
        }
        Some(reading.code as u8)
    }
}

/// What is read at a place, if it ends within what is searched.
#[inline(always)]
fn reading_at(attempt: &Attempt, place: usize) -> Option<Reading>
    ensures reading { option_map unit_read result
        ≡ unit_by (context_in attempt.now) attempt.now.last place }
    ensures fits { IfSome result (λ r. place + r.width ≤ attempt.now.last) }
{
    match read_at(attempt.haystack, attempt.code.meaning, place) {
        None => None,
        Some(reading) => {
            if place + reading.width <= attempt.last {
                Some(reading)
            } else {
                None
            }
        }
    }
}

/// The byte at a place, if that is an ASCII character within what is searched.
#[inline(always)]
pub fn ascii_at(attempt: &Attempt, place: usize) -> Option<u8>
    requires { attempt.now.last ≤ length attempt.now.haystack.now }
    ensures { IfSome result (λ b. (b < 128) × (place < attempt.now.last)
        × (slice_get attempt.now.haystack.now place ≡ Some b)) }
{
    if place >= attempt.last {
        return None;
    }
    let byte = attempt.haystack[place];
    if byte >= 0x80 {
        return None;
    }
    Some(byte)
}

/// What tests tell apart of what is seen at a place, a byte offset.
#[inline(always)]
pub fn sight_at(attempt: &Attempt, tests: Tests, place: usize) -> Sight
    requires within { place ≤ attempt.now.last }
    requires inside { attempt.now.last ≤ length attempt.now.haystack.now }
    ensures seen { IsSeenAs (context_in attempt.now) attempt.now.last place tests result }
    ensures fits { IfSome result.reading (λ r. place + r.width ≤ attempt.now.last) }
{
    Sight {
        before: tests.before(attempt, place),
        after: tests.after(attempt, place),
        reading: reading_at(attempt, place),
    }
}
