//! What the calls answer, as the header's `fancy_regex_answer` numbers it.

ghost use Rattle.std.specs.Prelude.{◌≡◌, ◌<◌};
ghost use Rattle.fancy_regex_c.specs.Answers.{answer_for};

use fancy_regex::{Error, RuntimeError};

/// It is done, or found.
pub const DONE: u32 = 0;

/// There is no match, no name or no further item.
pub const NONE: u32 = 1;

/// What was handed in as text is no UTF-8.
pub const NOT_TEXT: u32 = 2;

/// The start or the end of a search is not on a boundary of characters, or the end is past the haystack; or the regex reads
/// text only where it is ASCII.
pub const NO_PLACE: u32 = 3;

/// Memory was refused.
pub const NO_MEMORY: u32 = 4;

/// The handle is empty, or holds another kind of thing.
pub const NO_HANDLE: u32 = 5;

/// The pattern is refused, and the fault says why.
pub const REFUSED: u32 = 6;

/// The options have another size, or a number that means nothing.
pub const NO_OPTIONS: u32 = 7;

/// The buffer is too short; how long it has to be is told.
pub const TOO_SHORT: u32 = 8;

/// A hard search took more returns than its limit allows.
pub const BACKTRACK_LIMIT: u32 = 9;

/// A hard search saved more branches than its limit allows.
pub const STACK_LIMIT: u32 = 10;

/// A search did more work than its limit allows.
pub const STEP_LIMIT: u32 = 11;

/// No pattern of the set gives a token at a place.
pub const UNMATCHED: u32 = 12;

/// The answer for an error of the library.
pub fn answer_of(error: Error) -> u32
    ensures value { result ≡ answer_for error }
    ensures refused { 3 < result }
{
    match error {
        Error::Memory => NO_MEMORY,
        Error::RuntimeError(RuntimeError::BacktrackLimitExceeded) => BACKTRACK_LIMIT,
        Error::RuntimeError(RuntimeError::StackOverflow) => STACK_LIMIT,
        Error::RuntimeError(RuntimeError::StepLimitExceeded) => STEP_LIMIT,
        Error::RuntimeError(RuntimeError::Unmatched(_)) => UNMATCHED,
        _ => REFUSED,
    }
}
