//! Which of some rows of byte sets may stand at a place, by a table, and the scan for the places where one may.

ghost use Rattle.std.specs.Prelude.{◌≡◌, ℕ, ◌+◌, ◌<◌, ◌≤◌, true, List, length, IfOk, IfSome, MatchOption, slice_index};
ghost use Rattle.fancy_prefilter.specs.Keys.{AreBelow, IsAmong, RiseBetween, class_of, keys};
ghost use Rattle.fancy_prefilter.specs.KeyTables.{HasAt, MayStand, NoneMayStand, MissesNoRow};
ghost use Rattle.fancy_prefilter.specs.LastKeys.{AreLast};

use crate::key_table::{
    KeyTable, WIDTH, class_of, entries_of, is_sound, key_at, members_of, mixed, starts_of, width_of,
};
use fancy_bytes::byte_set::ByteSet;
use std::alloc::{AllocError, Global};

/// The numbers of a key: those of `members` from the one place on and before the other.
#[derive(Clone, Copy, PartialEq, Eq, Debug)]
pub struct Numbers {
    /// The place of the first.
    pub from: usize,
    /// The place after the last.
    pub to: usize,
}

/// The keys of the bytes that were read last: of one, of two and of three.
#[derive(Clone, Copy)]
struct LastKeys {
    one: usize,
    two: usize,
    three: usize,
}

/// Those of the three bytes at a place.
#[inline]
fn last_keys(haystack: &[u8], place: usize) -> LastKeys
    requires { place + 3 ≤ length haystack.now }
    ensures are { AreLast result.one result.two result.three haystack.now place }
    ensures one { result.one < keys }
    ensures two { result.two < keys }
    ensures three { result.three < keys }
{
    LastKeys {
        one: key_at(haystack, place + 2, 1),
        two: key_at(haystack, place + 1, 2),
        three: key_at(haystack, place, 3),
    }
}

/// Those after one more byte of this class.
#[inline]
fn keys_after(last: LastKeys, class: usize) -> LastKeys
    requires one { last.one < keys }
    requires two { last.two < keys }
    requires class { class < 129 }
    ensures are { (haystack : List ℕ) (p : ℕ) → class_of (slice_index haystack (p + 3)) ≡ class
        → AreLast last.one last.two last.three haystack p → AreLast result.one result.two result.three haystack (p + 1) }
    ensures one { result.one < keys }
    ensures two { result.two < keys }
    ensures three { result.three < keys }
{
    LastKeys {
        one: mixed(0, class),
        two: mixed(last.one, class),
        three: mixed(last.two, class),
    }
}

impl KeyTable {
    /// For these rows. `None` where there is none, where one has no set, or where the table would be too large, since too many bytes may
    /// stand first. It is refused where memory runs out.
    pub fn new(alloc: Global, rows: &[Vec<ByteSet>]) -> Result<Option<KeyTable>, AllocError>
        ensures tells { IfOk result (λ o. IfSome o (λ t. MissesNoRow t rows.now)) }
        ensures below { IfOk result (λ o. IfSome o (λ t. AreBelow t.members.items (length rows.now))) }
    {
        let width = width_of(rows);
        if width == 0 {
            return Ok(None);
        }
        let entries = entries_of(alloc, rows, width)?;
        let starts = starts_of(alloc, &entries)?;
        let members = members_of(alloc, &entries, &starts)?;
        if !is_sound(&starts, &members, rows, width) {
            return Ok(None);
        }
        Ok(Some(KeyTable {
            width,
            starts,
            members,
        }))
    }

    /// The numbers of the rows that may stand in the window at a place, before the end.
    pub fn numbers_at(&self, haystack: &[u8], place: usize, end: usize) -> Numbers
        requires within { end ≤ length haystack.now }
        ensures all { (number : ℕ) → MayStand self.now haystack.now end place number
            → IsAmong self.now.members.items result.from result.to number }
        ensures rise { RiseBetween self.now.members.items result.from result.to }
        ensures inside { result.to ≤ length self.now.members.items }
    {
        if place > end || self.width > end - place {
            return Numbers { from: 0, to: 0 };
        }
        let key = key_at(haystack, place, self.width);
        Numbers {
            from: self.starts[key] as usize,
            to: (self.starts[key + 1] as usize).min(self.members.len()),
        }
    }

    /// Whether the key has no number.
    #[inline]
    fn is_free(&self, key: usize) -> bool
        requires { key < keys }
        ensures { result ≡ true → (number : ℕ) → ¬ HasAt self.now key number }
    {
        self.starts[key] >= self.starts[key + 1]
    }

    /// Whether no row may stand in the window at a place.
    #[inline]
    fn is_bare(&self, haystack: &[u8], place: usize) -> bool
        requires { place + self.now.width ≤ length haystack.now }
        ensures { result ≡ true → (end : ℕ) → NoneMayStand self.now haystack.now end place }
    {
        let key = key_at(haystack, place, self.width);
        self.is_free(key)
    }

    /// The number at a place among them.
    pub fn number(&self, i: usize) -> usize
        requires { i < length self.now.members.items }
        ensures { result ≡ slice_index self.now.members.items i }
    {
        self.members[i] as usize
    }

    /// `next_seen` by keys of any width, each of which is made anew.
    fn next_by_windows(&self, haystack: &[u8], from: usize, end: usize) -> Option<usize>
        requires within { end ≤ length haystack.now }
        ensures { MatchOption result ((k : ℕ) → from ≤ k → NoneMayStand self.now haystack.now end k)
            (λ p. (from ≤ p) × (p < end) × ((k : ℕ) → from ≤ k → k < p → NoneMayStand self.now haystack.now end k)) }
    {
        let mut place = from;
        while place < end && self.width <= end - place {
            if !self.is_bare(haystack, place) {
                return Some(place);
            }
            place += 1;
        }
        None
    }

    /// `next_seen` by keys of four bytes, each of which is made from that of the three bytes before it.
    fn next_by_last_keys(&self, haystack: &[u8], from: usize, end: usize) -> Option<usize>
        requires width { self.now.width ≡ 4 }
        requires room { from + 4 ≤ end }
        requires within { end ≤ length haystack.now }
        ensures { MatchOption result ((k : ℕ) → from ≤ k → NoneMayStand self.now haystack.now end k)
            (λ p. (from ≤ p) × (p < end) × ((k : ℕ) → from ≤ k → k < p → NoneMayStand self.now haystack.now end k)) }
    {
        let mut last = last_keys(haystack, from);
        for place in from..end - 3 {
            let class = class_of(haystack[place + 3]);
            if !self.is_free(mixed(last.three, class)) {
                return Some(place);
            }
            last = keys_after(last, class);
        }
        None
    }

    /// `next_seen` by keys of three bytes, each of which is made from that of the two bytes before it.
    fn next_by_last_two(&self, haystack: &[u8], from: usize, end: usize) -> Option<usize>
        requires width { self.now.width ≡ 3 }
        requires room { from + 3 ≤ end }
        requires within { end ≤ length haystack.now }
        ensures { MatchOption result ((k : ℕ) → from ≤ k → NoneMayStand self.now haystack.now end k)
            (λ p. (from ≤ p) × (p < end) × ((k : ℕ) → from ≤ k → k < p → NoneMayStand self.now haystack.now end k)) }
    {
        let mut one = key_at(haystack, from + 1, 1);
        let mut two = key_at(haystack, from, 2);
        for place in from..end - 2 {
            let class = class_of(haystack[place + 2]);
            if !self.is_free(mixed(two, class)) {
                return Some(place);
            }
            two = mixed(one, class);
            one = mixed(0, class);
        }
        None
    }

    /// The first place, from the one on, where a row may stand, before the end.
    pub fn next_seen(&self, haystack: &[u8], from: usize, end: usize) -> Option<usize>
        requires within { end ≤ length haystack.now }
        ensures { MatchOption result ((k : ℕ) → from ≤ k → NoneMayStand self.now haystack.now end k)
            (λ p. (from ≤ p) × (p < end) × ((k : ℕ) → from ≤ k → k < p → NoneMayStand self.now haystack.now end k)) }
    {
        if from >= end || self.width > end - from {
            return None;
        }
        match self.width {
            3 => self.next_by_last_two(haystack, from, end),
            WIDTH => self.next_by_last_keys(haystack, from, end),
            _ => self.next_by_windows(haystack, from, end),
        }
    }
}
