//! What searches find out, kept from one to the next.

ghost use Rattle.std.specs.Prelude.{◌≡◌, [], None, slice_index_or};
ghost use Rattle.fancy_runner.specs.Groups.{groups_in};

use crate::table::Table;
use crate::threads::Threads;
use fancy_input::last_lines::LastLines;
use fancy_input::span::Span;
use std::alloc::Global;
use std::mem;

/// What the searches of one haystack by one code found out, up to one end: which pairs they marked, and what they read of the
/// line ends that close the haystack.
#[derive(Drop)]
pub struct Notes {
    pub(crate) table: Table,
    pub(crate) last_lines: LastLines,
}

impl Notes {
    /// It has no memory yet, which the searches take.
    pub fn new(alloc: Global) -> Notes {
        Notes {
            table: Table::new(alloc),
            last_lines: LastLines::new(b""),
        }
    }
}

/// What searches work in, reused from one to the next, with the groups of the last match.
#[derive(Drop)]
pub struct Cache {
    pub(crate) threads: Threads,
    /// What the last search found out.
    pub(crate) notes: Notes,
}

impl Cache {
    /// It has no memory yet, which the searches take, and holds no group.
    pub fn new(alloc: Global) -> Cache
        ensures { groups_in result ≡ [] }
    {
        Cache {
            threads: Threads::new(alloc),
            notes: Notes::new(alloc),
        }
    }

    /// Has the searches to come work with these notes, and gives those of the searches before. The groups stay.
    pub fn swap_notes(&mut self, notes: &mut Notes)
        ensures given { self.new ≡ record self.old { notes = notes.old } }
        ensures taken { notes.new ≡ self.old.notes }
    {
        mem::swap(&mut self.notes, notes);
    }

    /// Where the group with this number stands in what the search before found, in byte offsets. `None` where the group
    /// took no part, or there is none with this number. After a search that found nothing the answer means nothing.
    pub fn group(&self, number: usize) -> Option<Span>
        ensures { result ≡ slice_index_or (groups_in self.now) number None }
    {
        self.threads.slot(number).span
    }
}

/// A table that is kept from one search to the next.
#[derive(Clone, Copy, PartialEq, Eq)]
pub struct KeptTable {
    /// Where it begins, as a byte offset.
    pub base: usize,
    /// No pair that is marked at this place or later gives an outcome that is accepted. After a match this is the place after its
    /// end, since the pairs on the way to it are marked.
    pub from: usize,
}

impl KeptTable {
    ghost use Rattle.fancy_runner.specs.KeptTable.{base_of};

    /// Where the table of a search begins that starts at `first`: where the one begins that is kept, or else there.
    pub(crate) fn base(kept: Option<KeptTable>, first: usize) -> usize
        ensures { result ≡ base_of kept first }
    {
        match kept {
            Some(kept) => kept.base,
            None => first,
        }
    }
}
