//! What tells where matches may begin.

ghost use Rattle.std.specs.Prelude.{◌≡◌, None, false, IfOk, IfSome};
ghost use Rattle.fancy_tree.specs.Pattern.{pattern_of};
ghost use Rattle.fancy_bytes.specs.Firsts.{AreStartBytes};
ghost use Rattle.fancy_bytes.specs.Openings.{opening};
ghost use Rattle.fancy_prefilter.specs.Prefilters.{branches_in, is_at_starts, text_in, window_in};
ghost use Rattle.fancy_prefilter.specs.Regions.{IsReach};

use crate::branches::Branches;
use crate::literal::{Literal, opening_literal};
use crate::reach::Reach;
use crate::scan::{Scan, start_scan};
use crate::window::Window;
use fancy_bytes::byte_set::ByteSet;
use fancy_bytes::rows;
use fancy_tree::tree::{Meaning, Tree};
use std::alloc::{AllocError, Global};

/// What each match opens with, besides its first byte.
#[derive(Drop)]
pub enum Opening {
    /// That is not told.
    Untold,
    /// This text, of two bytes or more.
    Text(Literal),
    /// A byte of each of these sets, at its first places.
    Window(Window),
    /// The same, where the sets tell too little to be scanned for, or each match starts with one byte that texts have seldom.
    Sets(Vec<ByteSet>),
    /// One of these alternatives: there are many, and their first bytes tell them apart.
    Words(Branches),
}

impl Opening {
    ghost use Rattle.fancy_prefilter.specs.NextOpening.{IsRuledOut};

    /// Whether a match may begin so many places, 0 or more, before this byte. Where nothing is told of the place, it may.
    ///
    /// ```text
    /// opening.may_hold(1, b'b')    // of the text `abc` true
    /// opening.may_hold(1, b'c')    // false
    /// opening.may_hold(3, b'c')    // true: the text has three bytes
    /// ```
    pub fn may_hold(&self, place: usize, byte: u8) -> bool
        ensures { result ≡ false → IsRuledOut self.now place byte }
    {
        match self {
            Opening::Untold | Opening::Words(_) => true,
            Opening::Text(text) => text.may_hold(place, byte),
            Opening::Window(window) => window.may_hold(place, byte),
            Opening::Sets(sets) => rows::may_hold(sets, place, byte),
        }
    }
}

/// Where each match starts, as far as an assertion that it begins with tells.
#[derive(Drop)]
pub enum Anchor {
    /// Anywhere.
    Anywhere,
    /// At the text's start.
    AtStart,
    /// At the text's start or after a line feed: the scan for line feeds.
    AtLines(Scan),
    /// At the boundary of a word: the scan for bytes that are no ASCII word characters.
    AtWords(Scan),
}

/// What tells where matches may begin.
#[derive(Drop)]
pub struct Prefilter {
    /// The bytes that a match starts with. `None` where it may start anywhere.
    pub starts: Option<Scan>,
    /// Where each match starts: anywhere, at the text's start, at the starts of lines, or at the boundaries of words.
    pub anchor: Anchor,
    /// What each match opens with.
    pub opening: Opening,
    /// What each match goes on to, a text or the end of the text.
    pub region: Option<Reach>,
}

/// The text that whatever the pattern matches opens with, if there is one of two bytes or more. It is refused where memory
/// runs out.
fn text_opening(alloc: Global, tree: &Tree, meaning: Meaning) -> Result<Opening, AllocError>
    ensures text { IfOk result (λ o. IfSome (text_in o) (λ text. text ≡ opening meaning (pattern_of tree.now))) }
    ensures window { IfOk result (λ o. window_in o ≡ None) }
    ensures branches { IfOk result (λ o. branches_in o ≡ None) }
{
    match opening_literal(alloc, tree, meaning)? {
        None => Ok(Opening::Untold),
        Some(literal) => Ok(Opening::Text(literal)),
    }
}

/// Whether a byte stands every few bytes in texts that have it at all, so that a scan for it alone stops too often: line feeds, blanks,
/// small letters but for j, q and z, and what begins a character of Greek or of a script after it.
fn stands_often(byte: u8) -> bool {
    matches!(byte, b'\n' | b' ' | b'a'..=b'i' | b'k'..=b'p' | b'r'..=b'y' | 0xCE..=0xED)
}

impl Prefilter {
    /// What a pattern tells of where its matches begin. It is refused where memory runs out.
    pub fn new(alloc: Global, tree: &Tree, meaning: Meaning) -> Result<Prefilter, AllocError>
        ensures starts { IfOk result (λ f. AreStartBytes meaning (pattern_of tree.now) f.starts) }
        ensures anchor { IfOk result (λ f. f.anchor ≡ Anchor.Anywhere) }
        ensures text { IfOk result (λ f. IfSome (text_in f.opening) (λ text. text ≡ opening meaning (pattern_of tree.now))) }
        ensures window { IfOk result (λ f. window_in f.opening ≡ None) }
        ensures branches { IfOk result (λ f. branches_in f.opening ≡ None) }
        ensures region { IfOk result (λ f. IfSome f.region (IsReach meaning (pattern_of tree.now))) }
    {
        let starts = start_scan(tree, meaning);
        let opening = text_opening(alloc, tree, meaning)?;
        let region = Reach::new(alloc, tree, meaning)?;
        Ok(Prefilter {
            starts,
            anchor: Anchor::Anywhere,
            opening,
            region,
        })
    }

    /// Whether each match starts at the text's start.
    pub fn only_at_start(&self) -> bool {
        matches!(self.anchor, Anchor::AtStart)
    }

    /// Whether each match starts at the text's start or at the start of a line.
    #[inline(always)]
    pub fn only_at_starts(&self) -> bool
        ensures { result ≡ is_at_starts self.now.anchor }
    {
        matches!(self.anchor, Anchor::AtStart | Anchor::AtLines(_))
    }

    /// Whether it is told where each match starts.
    pub fn is_anchored(&self) -> bool {
        !matches!(self.anchor, Anchor::Anywhere)
    }

    /// Whether each match opens with a text that is told.
    pub fn has_text(&self) -> bool {
        matches!(self.opening, Opening::Text(_))
    }

    /// Whether a text or a window that each match opens with is scanned for.
    #[inline(always)]
    pub fn scans_for_opening(&self) -> bool {
        matches!(self.opening, Opening::Text(_) | Opening::Window(_))
    }

    /// Whether more than the bytes that matches start with tells where they begin: what they open with is scanned for, or they start at the
    /// start of the text or of a line alone. Boundaries of words are met too often.
    #[inline(always)]
    pub fn passes_far(&self) -> bool {
        self.only_at_starts() || self.scans_for_opening()
    }

    /// Whether it tells little of where matches begin: nothing that they go on to, and nothing that they open with is scanned for, and they
    /// start not with one byte that texts have seldom, or at the text's start alone.
    pub fn tells_little(&self) -> bool {
        let has_words = matches!(self.opening, Opening::Words(_));
        if self.scans_for_opening() || has_words || self.only_at_start() {
            return false;
        }
        self.region.is_none() && !self.starts_seldom()
    }

    /// Whether each match starts with one byte that texts have seldom.
    pub fn starts_seldom(&self) -> bool {
        let Some(scan) = &self.starts else {
            return false;
        };
        match scan.only() {
            None => false,
            Some(byte) => !stands_often(byte),
        }
    }
}
