//! Which members of a pattern set may begin at a position, by the bytes there.
//!
//! A set does not try each of its patterns at each position. With the set a table is made that has, for each byte, the members
//! that may begin right before it, and those that may begin at the end of the searched range. Further tables have for each byte the
//! members that may begin one to five places before it. Only the members are tried that are in the table of each place, so a
//! position where none is costs four look-ups: the last two are made where some are left. Of easy members alone the further tables
//! tell something: a hard one may be refused by an attempt that finds nothing, and is tried wherever its first byte stands.
//!
//! The tables take no memory beside their own, whatever the set's size: they have one bit for each of 128 groups of neighbours. Up to
//! 128 members each have a group of their own.

ghost use Rattle.std.specs.Prelude.{◌≡◌, ◌≤◌, ◌<◌, ◌+◌, ◌*◌, ◌^◌, ◌/◌, ◌==◌, ◌&&◌, ◌||◌, ◌↔◌, ℕ, List, IfSome, IsTrue, MatchOption, false, true, length, slice_get, slice_index, take};
ghost use Rattle.fancy_core.specs.declared.regex.Regex.{Regex};

use fancy_core::regex::Regex;
use fancy_core::starts::may_hold;
use fancy_input::lines::byte_at;

/// Groups of members, by their numbers.
#[derive(Clone, Copy)]
pub(crate) struct Groups {
    bits: u128,
}

impl Groups {
    ghost use Rattle.fancy_regex.specs.Candidates.{has_group, NoGroupFrom, IsNextGroup, HoldAll, HoldAhead, HoldAllAt, HoldOnly, AreHolders};

    fn none() -> Groups
        ensures { (g : ℕ) → has_group result g ≡ false }
    {
        Groups { bits: 0 }
    }

    /// These groups and one more.
    fn with(self, group: usize) -> Groups
        requires { group < 128 }
        ensures { (g : ℕ) → has_group result g ≡ (has_group self g || (g == group)) }
    {
        Groups {
            bits: self.bits | 1 << group,
        }
    }

    /// The groups of the members that may start right before this byte, or with `None` at the end of the searched range.
    fn of_starters(members: &[Regex], width: usize, next: Option<u8>) -> Groups
        requires some { 0 < width }
        requires sized { length members.now ≤ 128 * width }
        ensures all { HoldAll width members.now next result }
        ensures only { HoldOnly width members.now next result }
    {
        let mut groups = Groups::none();
        for (index, member) in members.iter().enumerate() {
            if member.may_start_before(next) {
                groups = groups.with(index / width);
            }
        }
        groups
    }

    /// The groups of the members that may start so many places before this byte.
    fn of_holders(members: &[Regex], width: usize, place: usize, byte: u8) -> Groups
        requires some { 0 < width }
        requires sized { length members.now ≤ 128 * width }
        ensures { HoldAhead width members.now place byte result }
    {
        let mut groups = Groups::none();
        for (index, member) in members.iter().enumerate() {
            if may_hold(member, place, byte) {
                groups = groups.with(index / width);
            }
        }
        groups
    }

    /// For each byte, the groups of the members that may start so many places before it.
    fn holders(members: &[Regex], width: usize, place: usize) -> [Groups; 256]
        requires some { 0 < width }
        requires sized { length members.now ≤ 128 * width }
        ensures { AreHolders width members.now place result }
    {
        let mut by_byte = [Groups::none(); 256];
        for byte in 0..256u32 {
            by_byte[byte as usize] = Groups::of_holders(members, width, place, byte as u8);
        }
        by_byte
    }

    /// These groups without those that have no place in the table for this byte. With `None` all stay.
    fn narrowed(self, by_byte: &[Groups; 256], next: Option<u8>) -> Groups
        ensures held { (width : ℕ) (members : List Regex) (searched : List ℕ) (p place : ℕ)
            → next ≡ slice_get searched (p + place) → AreHolders width members place by_byte.now
            → HoldAllAt width members searched p self
            → HoldAllAt width members searched p result }
        ensures only { (g : ℕ) → has_group result g ≡ true → has_group self g ≡ true }
    {
        match next {
            None => self,
            Some(byte) => Groups {
                bits: self.bits & by_byte[byte as usize].bits,
            },
        }
    }

    pub(crate) fn is_empty(self) -> bool
        ensures { IsTrue result ↔ NoGroupFrom self 0 }
    {
        self.bits == 0
    }

    /// The first group from a number on, where none past the first 64 is there. It is the same with fewer instructions.
    #[inline(always)]
    fn first_low(self, from: usize) -> Option<usize>
        requires low { self.bits < 2 ^ 64 }
        ensures { MatchOption result (NoGroupFrom self from) (IsNextGroup self from) }
    {
        if from >= 64 {
            return None;
        }
        let rest = self.bits as u64 >> from;
        if rest == 0 {
            return None;
        }
        Some(from + rest.trailing_zeros() as usize)
    }

    /// The first group from a number on.
    #[inline(always)]
    pub(crate) fn first_from(self, from: usize) -> Option<usize>
        ensures { MatchOption result (NoGroupFrom self from) (IsNextGroup self from) }
    {
        if self.bits >> 64 == 0 {
            return self.first_low(from);
        }
        if from >= 128 {
            return None;
        }
        let rest = self.bits >> from;
        if rest == 0 {
            return None;
        }
        Some(from + rest.trailing_zeros() as usize)
    }
}

/// The members of a set that may begin right before each byte, and at the end of the searched range.
#[derive(Drop)]
pub(crate) struct Candidates {
    by_byte: [Groups; 256],
    at_end: Groups,
    // those that may begin one place before each byte, and so on
    second: [Groups; 256],
    third: [Groups; 256],
    fourth: [Groups; 256],
    fifth: [Groups; 256],
    sixth: [Groups; 256],
    /// How many members a group has.
    pub(crate) width: usize,
    ghost some: { 0 < width },
    ghost fits: { width ≤ 144115188075855872 },
}

impl Candidates {
    ghost use Rattle.fancy_regex.specs.Candidates.{groups_before, has_group, AreCandidatesOf, AreOfStarters, HoldAllAt, HoldNoOthers, NoMemberBetween, IsNextMember, TellStarters};

    /// Of these members, at most 128 of which have a group of their own.
    pub(crate) fn new(members: &[Regex]) -> Candidates
        ensures all { AreCandidatesOf members.now result }
        ensures only { HoldNoOthers members.now result }
        ensures told { TellStarters members.now result }
        ensures alone { length members.now ≤ 128 → result.width ≡ 1 }
    {
        let width = members.len().saturating_sub(1) / 128 + 1;
        let at_end = Groups::of_starters(members, width, None);
        let mut by_byte = [at_end; 256];
        for byte in 0..256u32 {
            by_byte[byte as usize] = Groups::of_starters(members, width, Some(byte as u8));
        }
        Candidates {
            by_byte,
            at_end,
            second: Groups::holders(members, width, 1),
            third: Groups::holders(members, width, 2),
            fourth: Groups::holders(members, width, 3),
            fifth: Groups::holders(members, width, 4),
            sixth: Groups::holders(members, width, 5),
            width,
        }
    }

    /// The groups of the members that may begin right before this byte, or with `None` at the end of the searched range.
    fn before(&self, next: Option<u8>) -> Groups
        ensures groups { result ≡ groups_before self.now next }
        ensures byte { IfSome next (λ b. b < 256) }
    {
        match next {
            Some(byte) => self.by_byte[byte as usize],
            None => self.at_end,
        }
    }

    /// The groups of the members that may begin right before these four bytes, as far as there are so many.
    #[inline(always)]
    fn ahead_of(
        &self,
        first: Option<u8>,
        second: Option<u8>,
        third: Option<u8>,
        fourth: Option<u8>,
    ) -> Groups
        ensures held { (members : List Regex) (searched : List ℕ) (p : ℕ)
            → first ≡ slice_get searched p → second ≡ slice_get searched (p + 1)
            → third ≡ slice_get searched (p + 2) → fourth ≡ slice_get searched (p + 3)
            → AreCandidatesOf members self.now
            → HoldAllAt self.now.width members searched p result }
        ensures only { (members : List Regex) → TellStarters members self.now
            → self.now.width ≡ 1 → AreOfStarters members first result }
    {
        self.before(first)
            .narrowed(&self.second, second)
            .narrowed(&self.third, third)
            .narrowed(&self.fourth, fourth)
    }

    /// The groups of the members that may begin at a position, by the bytes from there to the end of the searched range.
    pub(crate) fn at(&self, haystack: &[u8], range_end: usize, position: usize) -> Groups
        requires inside { range_end ≤ length haystack.now }
        requires ends { position ≤ range_end }
        ensures bytes { (k : ℕ) → slice_index haystack.now k < 256 }
        ensures held { (members : List Regex) → AreCandidatesOf members self.now
            → HoldAllAt self.now.width members (take range_end haystack.now) position result }
        ensures only { (members : List Regex) → TellStarters members self.now
            → self.now.width ≡ 1
            → AreOfStarters members (slice_get (take range_end haystack.now) position) result }
    {
        let searched = &haystack[..range_end];
        if position + 3 < searched.len() {
            return self.ahead_of(
                Some(searched[position]),
                Some(searched[position + 1]),
                Some(searched[position + 2]),
                Some(searched[position + 3]),
            );
        }
        self.ahead_of(
            byte_at(searched, position),
            byte_at(searched, position + 1),
            byte_at(searched, position + 2),
            byte_at(searched, position + 3),
        )
    }

    /// Those of the groups whose members may begin at a position by the fifth and the sixth byte from there on too.
    #[inline(always)]
    pub(crate) fn further(
        &self,
        groups: Groups,
        haystack: &[u8],
        range_end: usize,
        position: usize,
    ) -> Groups
        requires inside { range_end ≤ length haystack.now }
        requires ends { position ≤ range_end }
        ensures held { (members : List Regex) → AreCandidatesOf members self.now
            → HoldAllAt self.now.width members (take range_end haystack.now) position groups
            → HoldAllAt self.now.width members (take range_end haystack.now) position result }
        ensures only { (g : ℕ) → has_group result g ≡ true → has_group groups g ≡ true }
    {
        let searched = &haystack[..range_end];
        groups
            .narrowed(&self.fifth, byte_at(searched, position + 4))
            .narrowed(&self.sixth, byte_at(searched, position + 5))
    }

    /// The first member in one of the groups with an index from the one on and below `count`.
    pub(crate) fn next_member(&self, groups: Groups, from: usize, count: usize) -> Option<usize>
        ensures { MatchOption result (NoMemberBetween self.now.width groups from count)
            (IsNextMember self.now.width groups from count) }
    {
        let Some(group) = groups.first_from(from / self.width) else {
            return None;
        };
        let index = from.max(group * self.width);
        if index < count { Some(index) } else { None }
    }
}
