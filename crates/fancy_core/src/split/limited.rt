//! The first pieces of a text between matches.

ghost use Rattle.std.specs.Prelude.{◌≡◌, true};
ghost use Rattle.std.specs.Iterator.{at_most};
ghost use Rattle.fancy_core.specs.Regexes.{options_in};
ghost use Rattle.fancy_search.specs.Searching.{Suits};

use crate::regex::Regex;
use crate::split::Split;
use fancy_tree::error::Result;

/// The pieces of a text between the matches in it, as [`Split`] has them, up to a limit.
///
/// The last piece that the limit allows is the rest, and no search is made for it. An item that is an error uses one of
/// the limit. Made by [`Regex::splitn`].
#[derive(Drop)]
pub struct SplitN<'r, 't> {
    split: Split<'r, 't>,
    // how many items may still come
    limit: usize,
}

impl Regex {
    ghost use Rattle.fancy_core.specs.Splits.{at_start, progress, searches, split_regex, split_in, pieces_allowed};

    /// The pieces of a text between the matches in it, at most `limit` of them: the last of so many is the rest. For the
    /// limit 0 there is none.
    ///
    /// ```text
    /// Regex::new(alloc, ",")?.splitn("1,2,3", 2)  // "1", "2,3"
    /// Regex::new(alloc, ",")?.splitn("1,2,3", 1)  // "1,2,3"
    /// ```
    pub fn splitn<'r, 't>(&'r self, text: &'t str, limit: usize) -> SplitN<'r, 't>
        requires suits { Suits (options_in self.now) true text.now }
        ensures progress { progress (split_in result) ≡ at_start self.now text.now }
        ensures limit { pieces_allowed result ≡ limit }
        ensures searches { searches (split_in result) ≡ true }
        ensures regex { split_regex (split_in result) ≡ self.now }
    {
        SplitN {
            split: self.split(text),
            limit,
        }
    }
}

impl<'r, 't> Iterator for SplitN<'r, 't> {
    ghost use Rattle.fancy_core.specs.Splits.{IsNextOfFirst, pieces_allowed};

    type Item = Result<&'t str>;

    ghost next_gives = { IsNextOfFirst };

    ghost remaining = { λ s. at_most (pieces_allowed s) };

    fn next(&mut self) -> Option<Result<&'t str>> {
        if self.limit == 0 {
            return None;
        }
        self.limit -= 1;
        if self.split.ended {
            None
        } else if self.limit == 0 {
            Some(Ok(self.split.rest()))
        } else {
            self.split.next()
        }
    }
}
