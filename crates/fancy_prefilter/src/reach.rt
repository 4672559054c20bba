//! What every match goes on to: a text or a row of sets that it has in it, or the end of the text.

ghost use Rattle.std.specs.Prelude.{◌≡◌, ◌<◌, ℕ, false, IfOk, IfSome};
ghost use Rattle.fancy_tree.specs.Pattern.{pattern_of};
ghost use Rattle.fancy_bytes.specs.Reads.{item_starts};
ghost use Rattle.fancy_bytes.specs.Sets.{member};
ghost use Rattle.fancy_prefilter.specs.Regions.{IsTarget};

use crate::letters::share;
use crate::window::Window;
use fancy_bytes::byte_set::ByteSet;
use fancy_bytes::opening::opening_text;
use fancy_bytes::reads::add_item_starts;
use fancy_required::ends::ends_text;
use fancy_required::seldom::stands_seldom;
use fancy_required::told::{Detail, Told, row_at, text_of, told_of};
use fancy_tree::tree::{Meaning, Tree};
use std::alloc::{AllocError, Global};

/// A row is of so many sets at most.
const LONGEST: usize = 8;

/// A row that stands at so many of a million places is met too often.
const OFTEN: usize = 5_000;

/// A row that stands at fewer is looked for in short texts too.
const RARE: usize = 500;

/// A row of sets, of which a byte of each stands in every match, one after another.
#[derive(Drop)]
pub struct Row {
    /// The sets, made ready for scans.
    pub window: Window,
    /// Whether texts have it so seldom that it is worth to look for it in short ones too.
    pub is_rare: bool,
}

/// What every match goes on to.
#[derive(Drop)]
pub enum Target {
    /// This text, of a byte or more, which it has in it.
    Text(Vec<u8>),
    /// A byte of each set of this row, one after another, which it has in it.
    Row(Row),
    /// The end of the text.
    TextEnd,
}

/// What every match goes on to, and the bytes that it may have.
#[derive(Drop)]
pub struct Reach {
    /// What it goes on to.
    pub target: Target,
    /// The bytes with which items of the pattern begin.
    reads: ByteSet,
}

/// At how many of a million places of English text a row stands that is told from a number on. A single set makes no row.
fn row_share(told: &[Told], from: usize) -> usize {
    let mut shared = 1_000_000usize;
    let mut len = 0usize;
    for i in from..told.len().min(from.saturating_add(LONGEST)) {
        let Some(set) = told[i].set() else {
            break;
        };
        shared = shared.saturating_mul(share(&set)) / 1000;
        len = len.saturating_add(1);
    }
    if len < 2 { 1_000_000 } else { shared }
}

/// The rarest row of what is told: from which number on it is, and at how many of a million places it stands. It begins after a gap, since
/// what stands before all of these is told where matches open. None where texts have all of them often.
fn rarest_row(told: &[Told]) -> Option<(usize, usize)> {
    let mut rarest = None;
    let mut least = OFTEN;
    for i in 1..told.len() {
        let Told::Gap = told[i - 1] else {
            continue;
        };
        let shared = row_share(told, i);
        if shared < least {
            least = shared;
            rarest = Some((i, shared));
        }
    }
    rarest
}

impl Row {
    ghost use Rattle.fancy_prefilter.specs.Regions.{IsRow};

    /// The rarest row that the pattern tells. None where no row is seldom. It is refused where memory runs out.
    fn rarest(alloc: Global, tree: &Tree, meaning: Meaning) -> Result<Option<Row>, AllocError>
        ensures { IfOk result (λ o. IfSome o (IsRow meaning (pattern_of tree.now))) }
    {
        let told = told_of(alloc, tree, meaning, Detail::Sets)?;
        let Some((from, shared)) = rarest_row(&told) else {
            return Ok(None);
        };
        let sets = row_at(alloc, &told, from, LONGEST)?;
        match Window::new(alloc, sets)? {
            None => Ok(None),
            Some(window) => Ok(Some(Row {
                window,
                is_rare: shared < RARE,
            })),
        }
    }
}

impl Target {
    /// The end of the text, where each match ends there; else the longest text that the pattern tells, if texts have it seldom. None where
    /// each match begins with a text of two bytes or more, which is scanned for anyway. It is refused where memory runs out.
    fn new(alloc: Global, tree: &Tree, meaning: Meaning) -> Result<Option<Target>, AllocError>
        ensures { IfOk result (λ o. IfSome o (IsTarget meaning (pattern_of tree.now))) }
    {
        if ends_text(tree) {
            return Ok(Some(Target::TextEnd));
        }
        let opening = opening_text(alloc, tree, meaning)?;
        if opening.len() >= 2 {
            return Ok(None);
        }
        let told = told_of(alloc, tree, meaning, Detail::Bytes)?;
        let text = text_of(alloc, &told)?;
        if text.len() <= opening.len() || !stands_seldom(&text) {
            return Ok(None);
        }
        Ok(Some(Target::Text(text)))
    }
}

/// The bytes with which items of a pattern begin.
fn reads_of(tree: &Tree, meaning: Meaning) -> ByteSet
    ensures { (b : ℕ) → b < 256 → member result b ≡ false
        → item_starts meaning (pattern_of tree.now) b ≡ false }
{
    let mut reads = ByteSet::new();
    add_item_starts(tree, meaning, &mut reads);
    reads
}

impl Reach {
    ghost use Rattle.fancy_prefilter.specs.Regions.{IsReach};

    /// What the pattern tells of it. None where that is little. It is refused where memory runs out.
    pub fn new(alloc: Global, tree: &Tree, meaning: Meaning) -> Result<Option<Reach>, AllocError>
        ensures { IfOk result (λ o. IfSome o (IsReach meaning (pattern_of tree.now))) }
    {
        let Some(target) = Target::new(alloc, tree, meaning)? else {
            return Ok(None);
        };
        let reads = reads_of(tree, meaning);
        Ok(Some(Reach { target, reads }))
    }

    /// The same by the rarest row of sets that the pattern tells.
    pub fn by_row(alloc: Global, tree: &Tree, meaning: Meaning) -> Result<Option<Reach>, AllocError>
        ensures { IfOk result (λ o. IfSome o (IsReach meaning (pattern_of tree.now))) }
    {
        let Some(row) = Row::rarest(alloc, tree, meaning)? else {
            return Ok(None);
        };
        let reads = reads_of(tree, meaning);
        Ok(Some(Reach {
            target: Target::Row(row),
            reads,
        }))
    }

    /// Whether a match may have the byte in it. One that is not ASCII may be within a character.
    pub fn may_have(&self, byte: u8) -> bool
        ensures ascii { result ≡ false → byte < 128 }
        ensures apart { result ≡ false → member self.now.reads byte ≡ false }
    {
        byte >= 0x80 || self.reads.contains(byte)
    }
}
