//! The structs that cross as they are.

ghost use Rattle.std.specs.Prelude.{◌≡◌, None};
ghost use Rattle.fancy_regex_c.specs.Asked.{has_flag, onward_from};
ghost use Rattle.fancy_regex_c.specs.Searches.{crossing};

use fancy_regex::Onward;

/// A span of bytes.
#[repr(C)]
#[derive(Clone, Copy)]
pub struct Span {
    /// Where it starts, as a byte offset.
    pub start: usize,
    /// The offset after its last byte.
    pub end: usize,
}

impl Span {
    /// The span of a group that took no part, whose two ends are [`usize::MAX`].
    pub fn absent() -> Span
        ensures { result ≡ crossing None }
    {
        Span {
            start: usize::MAX,
            end: usize::MAX,
        }
    }
}

/// A pattern of a set, and what it matched.
#[repr(C)]
#[derive(Clone, Copy)]
pub struct Member {
    /// The index of the pattern in its set.
    pub pattern: usize,
    /// Where the match starts, as a byte offset.
    pub start: usize,
    /// The offset after its last byte.
    pub end: usize,
}

impl Member {
    /// Nothing, at this place: an empty match of pattern 0.
    pub fn nothing_at(place: usize) -> Member
        ensures { result ≡ record { pattern = 0; start = place; end = place } }
    {
        Member {
            pattern: 0,
            start: place,
            end: place,
        }
    }
}

/// The bytes are text.
pub const TEXT: u32 = 1;

/// One position alone is tried.
pub const ANCHORED: u32 = 2;

/// The start of the text does not count as one.
pub const NO_START: u32 = 4;

/// The end of the text does not count as one.
pub const NO_END: u32 = 8;

/// There was no match before: `\G` holds nowhere.
pub const NOT_CONTINUED: u32 = 16;

/// A list goes on right after a match that ended at its start: an empty match there is passed over.
const AFTER_MATCH: u32 = 1;

/// A list goes on after an empty match that was found where its search began: `\G` does not hold at the start.
const AFTER_EMPTY: u32 = 2;

/// Whether a flag is among these, added up.
pub fn has_flag(flags: u32, flag: u32) -> bool
    ensures { result ≡ has_flag flags flag }
{
    flags & flag != 0
}

/// Where and how a haystack is searched. A list moves it on.
#[repr(C)]
#[derive(Clone, Copy)]
pub struct Request {
    /// The first position that is tried, as a byte offset. It may be any number: past the end nothing is found.
    pub start: usize,
    /// No match ends after this byte offset.
    pub end: usize,
    /// The flags above, added up.
    pub flags: u32,
    /// Where a list stands, which lists alone read: 0 at first. They set it.
    pub standing: u32,
}

impl Request {
    /// Whether a flag is set.
    pub fn has(&self, flag: u32) -> bool
        ensures { result ≡ has_flag self.now.flags flag }
    {
        has_flag(self.flags, flag)
    }

    /// How a list goes on from the start.
    pub fn onward(&self) -> Onward
        ensures { result ≡ onward_from self.now.standing }
    {
        Onward {
            continues: !has_flag(self.standing, AFTER_EMPTY),
            skips_empty: has_flag(self.standing, AFTER_MATCH),
        }
    }

    /// Has the list go on from this start.
    pub fn go_on(&mut self, start: usize, onward: Onward)
        ensures moved { self.new ≡ record self.old { start = start; standing = self.new.standing } }
        ensures onward { onward_from self.new.standing ≡ onward }
    {
        self.start = start;
        self.standing = match (onward.skips_empty, onward.continues) {
            (false, true) => 0,
            (true, true) => AFTER_MATCH,
            (false, false) => AFTER_EMPTY,
            (true, false) => AFTER_MATCH + AFTER_EMPTY,
        };
    }

    /// Has the list give nothing more.
    pub fn end_list(&mut self)
        ensures moved { self.new ≡ record self.old { start = self.new.start } }
        ensures past { self.new.start ≡ 18446744073709551615 }
    {
        self.start = usize::MAX;
    }
}

/// The options of a pattern. The switches are those of [`crate::reading`].
#[repr(C)]
#[derive(Clone, Copy)]
pub struct Options {
    /// The size of this struct in bytes, by the caller's header.
    pub size: usize,
    /// How many returns a hard search may take.
    pub backtrack_limit: usize,
    /// How many branches a hard search may have saved at one time.
    pub stack_limit: usize,
    /// How much work a search may do; [`usize::MAX`] for no limit.
    pub step_limit: usize,
    /// How many instructions a hard pattern's code may have; [`usize::MAX`] for no limit.
    pub program_limit: usize,
    /// The switches, added up.
    pub switches: u32,
    /// What bytes mean: 0 for text, 1 for ASCII, 2 for bytes with the characters of Unicode.
    pub bytes_mode: u32,
}

/// Why a pattern is refused.
#[repr(C)]
#[derive(Clone, Copy)]
pub struct Fault {
    /// What is wrong, by the numbers of [`crate::faults`].
    pub kind: u32,
    /// The index of the pattern in its set, and 0 for a pattern alone.
    pub pattern: usize,
    /// Where it is wrong, as a byte offset into the pattern, where its kind has a place.
    pub place: usize,
    /// The number of the group that a pattern refers to and does not have, where its kind has a number.
    pub number: usize,
}
