//! The members of a set, one after the other.

ghost use Rattle.std.specs.Prelude.{◌≡◌};
ghost use Rattle.std.specs.Iterator.{YieldsFirst, item_count};
ghost use Rattle.fancy_bytes.specs.Sets.{all_members};
ghost use Rattle.fancy_bytes.specs.Iterations.{members_left};

use crate::byte_set::ByteSet;

/// The members of a set in ascending order; made by [`ByteSet::iter`].
#[derive(Drop)]
pub struct Members<'s> {
    set: &'s ByteSet,
    // the least byte that may still come
    next: u16,
}

impl<'s> Iterator for Members<'s> {
    type Item = u8;

    ghost next_gives = { YieldsFirst members_left };

    ghost remaining = { item_count members_left };

    fn next(&mut self) -> Option<u8> {
        while self.next < 256 {
            let byte = self.next as u8;
            self.next += 1;
            if self.set.contains(byte) {
                return Some(byte);
            }
        }
        None
    }
}

impl ByteSet {
    /// The members in ascending order.
    pub fn iter<'s>(&'s self) -> Members<'s>
        ensures { members_left result ≡ all_members self.now }
    {
        Members { set: self, next: 0 }
    }
}
