//! Which ways of a choice are to be gone at a place, by the byte that stands there.

ghost use Rattle.fancy_bytes.specs.Sets.{member};
ghost use Rattle.fancy_prefilter.specs.Chosen.{ChosenBy};

use fancy_bytes::byte_set::ByteSet;

/// The ways of a choice that are to be gone at a place.
#[derive(Clone, Copy, PartialEq, Eq, Debug)]
pub enum Choice {
    /// Both, the first one first.
    Both,
    /// The first one alone: the second one has no outcome.
    First,
    /// The second one alone: the first one has no outcome.
    Second,
}

/// A loop of one item: a choice of which one way reads the item, and leads back to the choice.
#[derive(Drop)]
pub struct ItemLoop {
    /// The instruction that reads the item.
    pub item: usize,
    /// The bytes that are such an item alone, and with which the other way does not begin.
    pub bytes: ByteSet,
}

/// The bytes that the two ways of a choice may begin with: all bytes, where it is not told which.
#[derive(Drop)]
pub struct Beginnings {
    /// Those of the way that is preferred.
    pub first: ByteSet,
    /// Those of the other.
    pub second: ByteSet,
    /// The loop of one item that the choice goes round, if it does.
    pub item_loop: Option<ItemLoop>,
}

impl Beginnings {
    /// Which ways are to be gone where this byte stands. Where neither may be, it is the first one.
    #[inline(always)]
    pub fn choice(&self, byte: u8) -> Choice
        ensures { ChosenBy result (member self.now.first byte) (member self.now.second byte) }
    {
        if !self.second.contains(byte) {
            return Choice::First;
        }
        if !self.first.contains(byte) {
            return Choice::Second;
        }
        Choice::Both
    }

    /// Whether they leave a way out for some byte.
    pub fn are_telling(&self) -> bool {
        self.first.len() < 256 || self.second.len() < 256
    }
}
