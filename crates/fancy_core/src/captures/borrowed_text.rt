//! Texts of groups in text that is lent as a `&str`.

ghost use Rattle.std.specs.Prelude.{IsSome, chars};
ghost use Rattle.fancy_core.specs.Captures.{spans_in, searched_in, span_by_name};
ghost use Rattle.fancy_search.specs.Groups.{IsPart, span_at};

use crate::captures::Captures;

impl<'r, 't> Captures<'r, &'t str> {
    /// The text of the group with this number, which took part: [`Captures::get`] finds it.
    ///
    /// ```text
    /// let regex = Regex::new(alloc, "(a)(b)?")?;
    /// let captures = regex.captures("xa")?;  // Some
    /// captures.text(1)  // "a"
    /// captures.text(2)  // is not proved: group 2 took no part, as `get(2)` tells
    /// ```
    pub fn text(&self, number: usize) -> &'t str
        requires taken { IsSome (span_at (spans_in self.now) number) }
        ensures { IsPart (searched_in self.now).now (span_at (spans_in self.now) number) result.now }
    {
        match self.get(number) {
            Some(found) => found.as_str(),
            None => unreachable!(),
        }
    }

    /// The text of the last group in the pattern with this name, which took part: [`Captures::name`] finds it.
    ///
    /// ```text
    /// let regex = Regex::new(alloc, "(?<n>a)(?<n>b)")?;
    /// let captures = regex.captures("ab")?;  // Some
    /// captures.text_of("n")  // "b"
    /// ```
    pub fn text_of(&self, name: &str) -> &'t str
        requires taken { IsSome (span_by_name self.now (chars name.now)) }
        ensures { IsPart (searched_in self.now).now (span_by_name self.now (chars name.now))
            result.now }
    {
        match self.name(name) {
            Some(found) => found.as_str(),
            None => unreachable!(),
        }
    }
}
