//! Classes of ASCII characters, each of which one character stands for.

ghost use Rattle.std.specs.Prelude.{◌≡◌, ◌*◌, ◌<◌, ◌≤◌, ℕ, IfSome, Some, length, slice_get};
ghost use Rattle.fancy_alphabet.specs.Sides.{seen_as, side_of, sides_of};

use crate::side::{Side, Tests};
use crate::sight::Sight;
use fancy_meaning::reading::Reading;
use std::alloc::Global;

/// Classes of ASCII characters, by numbers, and what is told apart of the sides of a place. A table has a column for each class
/// and side.
#[derive(Drop)]
pub struct Classes {
    /// Which sides of a place are told apart.
    pub tests: Tests,
    /// The number of the class of each character, if it has one: its column among those of what stands before it.
    pub columns: Vec<u8>,
    /// The character that stands for each class.
    pub members: Vec<u8>,
    /// How many columns there are.
    pub width: usize,
    ghost ascii: { length columns.items ≤ 128 },
    ghost few: { length members.items ≤ 128 },
    ghost known: { (byte class : ℕ) → slice_get columns.items byte ≡ Some class
        → class < length members.items },
    ghost wide: { width ≡ sides_of tests * length members.items },
}

impl Classes {
    ghost use Rattle.std.specs.Prelude.{[]};
    ghost use Rattle.fancy_alphabet.specs.Classes.{IsColumn, first_of, member_for, row_start, sight_for};

    /// No character has a class, and all sides are told apart.
    pub fn new(alloc: Global) -> Classes
        ensures tests { result.tests ≡ Tests.All }
        ensures columns { result.columns.items ≡ [] }
        ensures members { result.members.items ≡ [] }
    {
        Classes {
            tests: Tests::All,
            columns: Vec::new(alloc),
            members: Vec::new(alloc),
            width: 0,
        }
    }

    /// How many classes there are.
    #[inline(always)]
    pub fn len(&self) -> usize
        ensures { result ≡ length self.now.members.items }
    {
        self.members.len()
    }

    /// The column of a character, if it has one.
    #[inline(always)]
    pub fn column(&self, byte: u8) -> Option<u8>
        ensures { result ≡ slice_get self.now.columns.items byte }
    {
        self.columns.get(byte as usize).copied()
    }

    /// The first column of a side that is told apart.
    pub fn first(&self, side: Side) -> usize
        ensures { result ≡ first_of self.now side }
    {
        side.number() * self.members.len()
    }

    /// Where the columns begin of a row of the table, after a side that is told apart.
    #[inline(always)]
    pub fn start(&self, row: usize, side: Side) -> u32
        requires { row < 65_536 }
        ensures { result ≡ row_start self.now row side }
    {
        let start = row * self.width;
        let first = self.first(side);
        (start + first) as u32
    }

    /// The character that stands for one: itself where it has no class.
    pub fn member(&self, byte: u8) -> u8
        ensures { result ≡ member_for self.now byte }
    {
        match self.column(byte) {
            None => byte,
            Some(column) => self.members[column as usize],
        }
    }

    /// What is told apart of an ASCII character beside a place.
    pub fn side(&self, byte: u8) -> Side
        ensures { result ≡ seen_as self.now.tests (side_of byte) }
    {
        self.tests.sees(Side::of_byte(byte))
    }

    /// What stands for an ASCII character, with what is told apart of what stands before it.
    pub fn sight(&self, before: Side, byte: u8) -> Sight
        ensures { result ≡ sight_for self.now before byte }
    {
        let member = self.member(byte);
        Sight {
            before,
            after: self.side(member),
            reading: Some(Reading {
                code: member as u32,
                width: 1,
            }),
        }
    }

    /// The column of what is seen, if that is a character that stands for its class.
    pub fn column_of(&self, sight: Sight) -> Option<usize>
        ensures { IfSome result (λ column. IsColumn self.now sight column) }
    {
        let byte = sight.ascii()?;
        let column = self.column(byte)?;
        if self.member(byte) != byte || sight.after != self.side(byte) {
            return None;
        }
        if sight.before.number() >= self.tests.sides() {
            return None;
        }
        Some(self.first(sight.before) + column as usize)
    }
}
