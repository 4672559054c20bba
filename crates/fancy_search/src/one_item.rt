//! Code of one item, or of one test of the place.

ghost use Rattle.std.specs.Prelude.{◌≡◌, true};
ghost use Rattle.fancy_code.specs.Code.{instrs_of};
ghost use Rattle.fancy_code.specs.Run.{instr_at};
ghost use Rattle.fancy_search.specs.OneItem.{AreOneItems, IsOneItem};

use crate::straight::after_part;
use fancy_code::code::{Code, MATCH};

/// How many choices are followed.
const MOST: usize = 16;

/// Whether an instruction reads one item, or tests the place, after which a match is found.
fn reads_one(code: &Code, at: usize) -> bool
    ensures { result ≡ true → IsOneItem (instr_at (instrs_of code.now) at) }
{
    match after_part(code, at) {
        None => false,
        Some(next) => next == MATCH,
    }
}

/// Whether each way of code reads one item, after which a match is found, as in `[a-z]` and in `[a-z]|(?s:.)`.
pub(crate) fn is_one_item(code: &Code) -> bool
    ensures { result ≡ true → AreOneItems (instrs_of code.now) code.now.start }
{
    let mut at = code.start;
    'ways: for _ in 0..MOST {
        let Some(ways) = code.ways(at) else {
            return reads_one(code, at);
        };
        if !reads_one(code, ways.first) {
            return false;
        }
        at = ways.second;
    }
    false
}
