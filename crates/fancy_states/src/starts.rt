//! Where the ways of a search began that wait.

ghost use Rattle.std.specs.Prelude.{◌≡◌, [], IfSome, OnOk, length, replicate, slice_index};
ghost use Rattle.fancy_states.specs.Search.{begun_if};
ghost use Rattle.fancy_states.specs.Starts.{found_after, starts_from};

use crate::cells::Cell;
use fancy_input::span::Span;
use std::alloc::{AllocError, Global};
use std::mem;

/// Where each way began that waits, in byte offsets, in the order of the ways.
#[derive(Drop)]
pub struct Starts {
    /// Those of the ways that wait.
    pub waiting: Vec<usize>,
    /// Memory that the next step takes over.
    spare: Vec<usize>,
}

impl Starts {
    /// No way waits.
    pub fn new(alloc: Global) -> Starts
        ensures { result.waiting.items ≡ [] }
    {
        Starts {
            waiting: Vec::new(alloc),
            spare: Vec::new(alloc),
        }
    }

    /// So many ways wait, and all of them began at one place, a byte offset.
    pub fn fill(&mut self, ways: usize, start: usize) -> Result<(), AllocError>
        ensures { OnOk result (self.new.waiting.items ≡ replicate ways start) }
    {
        self.waiting.clear();
        self.waiting.resize(ways, start)?;
        Ok(())
    }

    /// Where the way with this number began.
    #[inline(always)]
    fn of(&self, way: usize) -> usize
        ensures { result ≡ slice_index self.now.waiting.items way }
    {
        match self.waiting.get(way) {
            None => 0,
            Some(start) => *start,
        }
    }

    /// Goes on to ways that come from those with these numbers.
    #[inline(always)]
    fn follow(&mut self, came: &[usize]) -> Result<(), AllocError>
        ensures { OnOk result
            (self.new.waiting.items ≡ starts_from self.old.waiting.items came.now) }
    {
        self.spare.clear();
        for way in came {
            let start = self.of(*way);
            self.spare.push(start)?;
        }
        mem::swap(&mut self.waiting, &mut self.spare);
        Ok(())
    }

    /// Takes a step at a place, a byte offset, where one more way begins unless something was found. A match that ends there hides what
    /// was found before.
    #[inline(always)]
    pub fn step(
        &mut self,
        cell: &Cell,
        place: usize,
        found: &mut Option<Span>,
    ) -> Result<(), AllocError>
        ensures starts { OnOk result (self.new.waiting.items ≡ starts_from
            (begun_if found.old self.old.waiting.items place) cell.now.came.items) }
        ensures found { OnOk result (found.new ≡ found_after found.old
            (begun_if found.old self.old.waiting.items place) cell.now.matched place) }
    {
        if found.is_none() {
            self.waiting.push(place)?;
        }
        if let Some(way) = cell.matched {
            *found = Some(Span {
                start: self.of(way),
                end: place,
            });
        }
        self.follow(&cell.came)
    }

    /// Where all ways began that wait, if that is one place; `place` where none waits.
    pub fn shared(&self, place: usize) -> Option<usize>
        ensures { IfSome result (λ s. self.now.waiting.items
            ≡ replicate (length self.now.waiting.items) s) }
    {
        let start = match self.waiting.get(0) {
            None => place,
            Some(first) => *first,
        };
        if self.waiting.iter().all(|other| *other == start) {
            Some(start)
        } else {
            None
        }
    }
}
