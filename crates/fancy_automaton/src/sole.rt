//! A search whose ways that wait all began at one place.

ghost use Rattle.std.specs.Prelude.{◌≡◌, ◌<◌, ◌≤◌, [], None, is_some, length, true};
ghost use Rattle.fancy_code.specs.Attempt.{may_end_in};
ghost use Rattle.fancy_states.specs.Cells.{HasRows, HoldsFor, ways_at};
ghost use Rattle.fancy_states.specs.Search.{Going, IsFollowed};
ghost use Rattle.fancy_states.specs.Starts.{match_from};
ghost use Rattle.fancy_automaton.specs.Sole.{IsSole};

use crate::hop::{Stand, row_start};
use fancy_code::attempt::Attempt;
use fancy_input::span::Span;
use fancy_states::cells::Cells;
use fancy_states::rows::Target;

/// A match that begins and ends there, if it ends.
#[inline(always)]
pub(crate) fn span_from(start: usize, end: Option<usize>) -> Option<Span>
    ensures { result ≡ match_from start end }
{
    match end {
        None => None,
        Some(end) => Some(Span { start, end }),
    }
}

/// A search whose ways that wait all began at one place, and so did the match that was found, if one was.
#[derive(Clone, Copy)]
pub struct Sole {
    /// Where it stands.
    pub stand: Stand,
    /// Where they began, a byte offset.
    pub start: usize,
    /// Where the match ends, a byte offset.
    pub end: Option<usize>,
}

impl Sole {
    /// At a place where no way waits, and nothing was found.
    #[inline(always)]
    pub(crate) fn new(attempt: &Attempt, cells: &Cells, rows: Target, place: usize) -> Sole
        requires followed { IsFollowed attempt.now }
        requires kept { HoldsFor cells.now attempt.now.code.now }
        requires rows { HasRows cells.now.rows.lists.items rows.next rows.begun []
            attempt.now.code.now.start }
        requires going { Going attempt.now [] [] None place place }
        requires good { may_end_in attempt.now place ≡ true }
        requires within { place ≤ attempt.now.last }
        ensures sole { IsSole attempt.now cells.now result }
        ensures place { result.stand.place ≡ place }
        ensures nothing { result.end ≡ None }
    {
        Sole {
            stand: Stand {
                place,
                next: rows.next,
                begun: rows.begun,
                opened: row_start(attempt, cells, place, rows.begun),
            },
            start: place,
            end: None,
        }
    }

    /// Whether the search is over: a match was found, and no way waits.
    pub(crate) fn is_over(self, cells: &Cells) -> bool
        requires { self.stand.next < length cells.now.rows.lists.items }
        ensures found { result ≡ true → is_some self.end ≡ true }
        ensures over { result ≡ true → ways_at cells.now.rows.lists.items self.stand.next ≡ [] }
    {
        self.end.is_some() && cells.rows.lists[self.stand.next].len() == 0
    }

    /// Whether nothing was found, and no way waits.
    pub(crate) fn is_idle(self, cells: &Cells) -> bool
        requires { self.stand.next < length cells.now.rows.lists.items }
        ensures nothing { result ≡ true → self.end ≡ None }
        ensures idle { result ≡ true → ways_at cells.now.rows.lists.items self.stand.next ≡ [] }
    {
        self.end.is_none() && cells.rows.lists[self.stand.next].len() == 0
    }
}
