//! The groups of a match, as a search left them in its cache.

ghost use Rattle.std.specs.Prelude.{◌≡◌, ◌<◌, ◌∷◌, Some, IfOk, length};
ghost use Rattle.fancy_search.specs.Groups.{spans_held, spans_of, span_at};
ghost use Rattle.fancy_search.specs.Cached.{found_at, found_span};
ghost use Rattle.fancy_search.specs.Programs.{program_groups};

use crate::cache::Cache;
use crate::program::Program;
use fancy_code::found::Found;
use fancy_input::span::Span;
use std::alloc::{AllocError, Global};

/// The spans of the groups of a match, in byte offsets. A match without groups takes no memory.
#[derive(Drop)]
pub struct GroupSpans {
    /// Of group 0, the match itself.
    whole: Span,
    /// Of group 1 and those after it, in the order of their numbers. `None` where a group took no part.
    others: Vec<Option<Span>>,
}

impl GroupSpans {
    /// How many groups there are, with group 0, the match.
    #[tactic(auto, unfolding(crate::specs::Groups::spans_held))]
    pub fn len(&self) -> usize
        ensures { result ≡ length (spans_held self.now) }
    {
        self.others.len() + 1
    }

    /// The span of the group with this number. `None` where it took no part, and past the last group.
    #[tactic(auto, unfolding(crate::specs::Groups::spans_held))]
    pub fn at(&self, number: usize) -> Option<Span>
        ensures { result ≡ span_at (spans_held self.now) number }
    {
        if number == 0 {
            return Some(self.whole);
        }
        if number <= self.others.len() {
            self.others[number - 1]
        } else {
            None
        }
    }
}

/// The spans of the groups of what a search with the program found, in byte offsets.
#[inline(always)]
#[tactic(auto, unfolding(crate::specs::Groups::spans_held))]
pub fn groups_found(
    alloc: Global,
    program: &Program,
    found: Found,
    cache: &Cache,
) -> std::result::Result<GroupSpans, AllocError>
    ensures { IfOk result (λ groups.
        spans_held groups ≡ spans_of (program_groups program.now) (found_at found cache.now)) }
{
    let count = program.group_count();
    let whole = Span {
        start: found.start,
        end: found.end,
    };
    if count > 1 {
        let others = others_found(alloc, count, cache)?;
        return Ok(GroupSpans { whole, others });
    }
    Ok(GroupSpans {
        whole,
        others: Vec::new(alloc),
    })
}

/// The spans of groups past group 0, of `count` groups in all. It is a call of its own, since most patterns have group 0 alone.
#[inline(never)]
fn others_found(
    alloc: Global,
    count: usize,
    cache: &Cache,
) -> std::result::Result<Vec<Option<Span>>, AllocError>
    requires some { 0 < count }
    ensures { IfOk result (λ others. (found : Found)
        → Some (found_span found) ∷ others.items ≡ spans_of count (found_at found cache.now)) }
{
    let mut others = Vec::with_capacity(alloc, count - 1)?;
    for number in 1..count {
        others.push(cache.group(number))?;
    }
    Ok(others)
}
