//! The scan for the text that each match begins with.

ghost use Rattle.std.specs.Prelude.{◌≡◌, ℕ, ◌+◌, ◌<◌, ◌≤◌, List, false, length, slice_index, IfOk, IfSome, MatchOption};
ghost use Rattle.fancy_tree.specs.Pattern.{pattern_of};
ghost use Rattle.memchr.specs.Pairs.{IsPairFinderOf};
ghost use Rattle.fancy_bytes.specs.Openings.{opening, StandsBefore, NoneStandsBefore};

use fancy_bytes::opening::opening_text;
use fancy_tree::tree::{Meaning, Tree};
use memchr::arch::all::{is_prefix, packedpair};
use memchr::memmem;
use std::alloc::{AllocError, Global};
use std::marker::Model;

// So many places are compared where the two rarest bytes of a text stand and not the text. After that the text is searched for by
// means that a haystack cannot make slow, but that are made ready for each search anew.
const FALSE_PLACES: usize = 32;

/// A text that is scanned for, with its two rarest bytes, by which that is done.
#[derive(Drop)]
pub struct Literal {
    text: Vec<u8>,
    rarest: packedpair::Finder,
}

impl Model for Literal {
    ghost Value = { List ℕ };

    ghost view = { λ l. l.text.items };

    ghost invariant = { λ l. IsPairFinderOf l.rarest l.text.items };
}

impl Literal {
    /// Whether this byte may stand at a place of the text. At a place past the text any byte may.
    pub fn may_hold(&self, place: usize, byte: u8) -> bool
        ensures { result ≡ false → (haystack : List ℕ) (end p : ℕ) → slice_index haystack (p + place) ≡ byte
            → ¬ StandsBefore haystack end self.now p }
    {
        place >= self.text.len() || self.text[place] == byte
    }

    /// The first place, from the one on, where the text stands before the end. The first place of all is looked at by itself, since
    /// most searches of a list begin where the text stands.
    pub fn next_seen(&self, haystack: &[u8], from: usize, end: usize) -> Option<usize>
        requires ordered { from ≤ end }
        requires within { end ≤ length haystack.now }
        ensures passed { IfSome result (λ p. from ≤ p) }
        ensures none { MatchOption result (NoneStandsBefore haystack.now end self.now from (end + 1))
            (NoneStandsBefore haystack.now end self.now from) }
    {
        let mut place = from;
        'places: for _ in 0..FALSE_PLACES {
            if is_prefix(&haystack[place..end], &self.text) {
                return Some(place);
            }
            match self.next_place(haystack, place, end) {
                None => return None,
                Some(next) => place = next,
            }
        }
        match memmem::find(&haystack[place..end], &self.text) {
            None => None,
            Some(passed) => Some(place + passed),
        }
    }

    /// The first place past one where the text does not stand, at which it may.
    fn next_place(&self, haystack: &[u8], place: usize, end: usize) -> Option<usize>
        requires ordered { place ≤ end }
        requires within { end ≤ length haystack.now }
        requires unseen { ¬ StandsBefore haystack.now end self.now place }
        ensures passed { IfSome result (λ p. (place < p) × (p ≤ end)) }
        ensures none { MatchOption result (NoneStandsBefore haystack.now end self.now place (end + 1))
            (NoneStandsBefore haystack.now end self.now place) }
    {
        if place == end {
            return None;
        }
        let from = place + 1;
        match self.rarest.find_prefilter(&haystack[from..end]) {
            None => None,
            Some(passed) => Some(from + passed),
        }
    }
}

/// The text of two bytes or more that whatever the pattern matches begins with, if there is one. It is
/// refused where memory runs out.
pub fn opening_literal(
    alloc: Global,
    tree: &Tree,
    meaning: Meaning,
) -> Result<Option<Literal>, AllocError>
    ensures { IfOk result (λ o. IfSome o (λ text. text ≡ opening meaning (pattern_of tree.now))) }
{
    let text = opening_text(alloc, tree, meaning)?;
    match packedpair::Finder::new(&text) {
        None => Ok(None),
        Some(rarest) => Ok(Some(Literal { text, rarest })),
    }
}
