//! The text of a match in text that is lent as a `&String`.

ghost use Rattle.std.specs.Prelude.{string_bytes};
ghost use Rattle.fancy_search.specs.Groups.{IsPart};
ghost use Rattle.fancy_core.specs.Captures.{searched_in};
ghost use Rattle.fancy_regex.specs.SetMatches.{captures_of, match_span};

use crate::set::matched::RegexSetMatch;

impl<'r, 't> RegexSetMatch<'r, &'t String> {
    /// The text of the match.
    pub fn as_str(&self) -> &'t str
        ensures { IsPart (string_bytes (searched_in (captures_of self.now)).now)
            (match_span self.now) result.now }
    {
        self.captures().text(0)
    }
}
