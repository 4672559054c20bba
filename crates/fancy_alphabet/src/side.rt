//! What stands beside a place, as far as the tests of a place tell it.

ghost use Rattle.std.specs.Prelude.{◌≡◌, ◌≤◌, ℕ, length};
ghost use Rattle.fancy_code.specs.Code.{instr_in, instrs_of};
ghost use Rattle.fancy_code.specs.Instructions.{Assert};
ghost use Rattle.fancy_code.specs.Attempt.{context_in};
ghost use Rattle.fancy_alphabet.specs.Sides.{AreToldBy, IsAfter, IsAfterAs, IsBefore, IsBeforeAs, IsToldBy, holds_between, is_edge, is_feed, is_nothing, is_return, is_worded, nothing_where, number_of, seen_as, side_of, sides_of, tests_for, wide_of};

use fancy_code::attempt::Attempt;
use fancy_code::code::{Code, Instr};
use fancy_input::lines::{byte_at, byte_before};
use fancy_meaning::reading::{is_word_after, is_word_before};
use fancy_tree::tree::Assertion;

/// What stands on one side of a place.
#[derive(Clone, Copy, PartialEq, Eq, Debug)]
pub enum Side {
    /// Something that is none of the others.
    Other,
    /// A word character.
    Word,
    /// A line feed.
    LineFeed,
    /// A carriage return.
    CarriageReturn,
    /// Nothing: the text begins or ends there.
    Edge,
    /// Nothing, where that is not to count as the text's start or end.
    Hidden,
}

/// Which sides of a place the tests of a code tell apart.
#[derive(Clone, Copy, PartialEq, Eq, Debug)]
pub enum Tests {
    /// None: it has no test of a place.
    Nothing,
    /// Words.
    Words,
    /// All.
    All,
}

impl Side {
    /// What an ASCII character is.
    pub fn of_byte(byte: u8) -> Side
        ensures { result ≡ side_of byte }
    {
        match byte {
            b'\n' => Side::LineFeed,
            b'\r' => Side::CarriageReturn,
            _ if byte.is_ascii_alphanumeric() || byte == b'_' => Side::Word,
            _ => Side::Other,
        }
    }

    /// Whether nothing stands there.
    fn is_nothing(self) -> bool
        ensures { result ≡ is_nothing self }
    {
        matches!(self, Side::Edge | Side::Hidden)
    }

    /// Whether the text begins or ends there.
    fn is_edge(self) -> bool
        ensures { result ≡ is_edge self }
    {
        matches!(self, Side::Edge)
    }

    /// Whether a line feed stands there.
    fn is_feed(self) -> bool
        ensures { result ≡ is_feed self }
    {
        matches!(self, Side::LineFeed)
    }

    /// Whether a carriage return stands there.
    fn is_return(self) -> bool
        ensures { result ≡ is_return self }
    {
        matches!(self, Side::CarriageReturn)
    }

    /// Whether a word character stands there.
    fn is_word(self) -> bool
        ensures { result ≡ is_worded self }
    {
        matches!(self, Side::Word)
    }

    /// The number of a side.
    #[inline(always)]
    pub fn number(self) -> usize
        ensures { result ≡ number_of self }
    {
        match self {
            Side::Other => 0,
            Side::Word => 1,
            Side::LineFeed => 2,
            Side::CarriageReturn => 3,
            Side::Edge => 4,
            Side::Hidden => 5,
        }
    }
}

impl Tests {
    /// The tests that an instruction has, besides these.
    fn with(self, instr: &Instr) -> Tests
        ensures kept { (a : Assertion) → IsToldBy self a → IsToldBy result a }
        ensures told { (code : Code) (a : Assertion) (next : ℕ)
            → instr_in code instr.now ≡ Assert a next → IsToldBy result a }
    {
        match instr {
            Instr::Assert(assertion, _) => self.or(tests_for(*assertion)),
            _ => self,
        }
    }

    /// The wider one of two.
    fn or(self, other: Tests) -> Tests
        ensures first { (a : Assertion) → IsToldBy self a → IsToldBy result a }
        ensures second { (a : Assertion) → IsToldBy other a → IsToldBy result a }
    {
        match (self, other) {
            (Tests::All, _) | (_, Tests::All) => Tests::All,
            (Tests::Words, _) | (_, Tests::Words) => Tests::Words,
            (Tests::Nothing, Tests::Nothing) => Tests::Nothing,
        }
    }

    /// The tests of a code.
    pub fn of_code(code: &Code) -> Tests
        ensures { AreToldBy result (instrs_of code.now) }
    {
        let mut tests = Tests::Nothing;
        for at in 0..code.len() {
            tests = tests.with(code.instr(at));
        }
        tests
    }

    /// What they tell apart of a side.
    #[inline(always)]
    pub fn sees(self, side: Side) -> Side
        ensures { result ≡ seen_as self side }
    {
        match self {
            Tests::Nothing => Side::Other,
            Tests::Words => match side {
                Side::Word => Side::Word,
                _ => Side::Other,
            },
            Tests::All => side,
        }
    }

    /// What they tell apart of what stands before a place, a byte offset.
    #[inline(always)]
    pub fn before(self, attempt: &Attempt, place: usize) -> Side
        requires { place ≤ length attempt.now.haystack.now }
        ensures { IsBeforeAs (context_in attempt.now) place self result }
    {
        match self {
            Tests::Nothing => Side::Other,
            _ => self.sees(side_before(attempt, place)),
        }
    }

    /// What they tell apart of what stands after a place, a byte offset.
    #[inline]
    pub fn after(self, attempt: &Attempt, place: usize) -> Side
        requires { place ≤ length attempt.now.haystack.now }
        ensures { IsAfterAs (context_in attempt.now) place self result }
    {
        match self {
            Tests::Nothing => Side::Other,
            _ => self.sees(side_after(attempt, place)),
        }
    }

    /// How many sides they tell apart.
    #[inline(always)]
    pub fn sides(self) -> usize
        ensures { result ≡ sides_of self }
    {
        match self {
            Tests::Nothing => 1,
            Tests::Words => 2,
            Tests::All => 6,
        }
    }
}

/// Which tests tell where an assertion holds.
fn tests_for(assertion: Assertion) -> Tests
    ensures { result ≡ tests_for assertion }
{
    match assertion {
        Assertion::TextStart
        | Assertion::TextEnd
        | Assertion::LineStart
        | Assertion::LineEnd
        | Assertion::LineStartCrlf
        | Assertion::LineEndCrlf => Tests::All,
        Assertion::WordBoundary
        | Assertion::NotWordBoundary
        | Assertion::WordStart
        | Assertion::WordEnd
        | Assertion::WordStartHalf
        | Assertion::WordEndHalf => Tests::Words,
        Assertion::LastLine | Assertion::LastLineCrlf => Tests::Nothing,
    }
}

/// What nothing on a side is: an edge of the text, unless that is suppressed.
fn nothing(suppressed: bool) -> Side
    ensures { result ≡ nothing_where suppressed }
{
    if suppressed { Side::Hidden } else { Side::Edge }
}

/// What a character past ASCII is.
fn wide(is_word: bool) -> Side
    ensures { result ≡ wide_of is_word }
{
    if is_word { Side::Word } else { Side::Other }
}

/// What stands before a place, a byte offset.
fn side_before(attempt: &Attempt, place: usize) -> Side
    requires { place ≤ length attempt.now.haystack.now }
    ensures { IsBefore (context_in attempt.now) place result }
{
    match byte_before(attempt.haystack, place) {
        None => nothing(attempt.suppressed.start),
        Some(byte) if byte < 0x80 => Side::of_byte(byte),
        Some(_) => wide(is_word_before(attempt.haystack, attempt.code.meaning, place)),
    }
}

/// What stands after a place, a byte offset.
fn side_after(attempt: &Attempt, place: usize) -> Side
    requires { place ≤ length attempt.now.haystack.now }
    ensures { IsAfter (context_in attempt.now) place result }
{
    match byte_at(attempt.haystack, place) {
        None => nothing(attempt.suppressed.end),
        Some(byte) if byte < 0x80 => Side::of_byte(byte),
        Some(_) => wide(is_word_after(attempt.haystack, attempt.code.meaning, place)),
    }
}

/// Whether an assertion holds between two sides.
pub fn holds_between(before: Side, after: Side, assertion: Assertion) -> bool
    ensures { result ≡ holds_between before after assertion }
{
    match assertion {
        Assertion::TextStart => before.is_edge(),
        Assertion::TextEnd => after.is_edge(),
        Assertion::LineStart => before.is_nothing() || before.is_feed(),
        Assertion::LineEnd => after.is_nothing() || after.is_feed(),
        Assertion::LineStartCrlf => {
            before.is_nothing() || before.is_feed() || before.is_return() && !after.is_feed()
        }
        Assertion::LineEndCrlf => {
            after.is_nothing() || after.is_return() || after.is_feed() && !before.is_return()
        }
        Assertion::LastLine | Assertion::LastLineCrlf => false,
        Assertion::WordBoundary => before.is_word() != after.is_word(),
        Assertion::NotWordBoundary => before.is_word() == after.is_word(),
        Assertion::WordStart => !before.is_word() && after.is_word(),
        Assertion::WordEnd => before.is_word() && !after.is_word(),
        Assertion::WordStartHalf => !before.is_word(),
        Assertion::WordEndHalf => !after.is_word(),
    }
}
