//! The text of a token of text that is lent as a `&str`.

ghost use Rattle.fancy_search.specs.Groups.{IsPart};
ghost use Rattle.fancy_core.specs.Captures.{searched_in};
ghost use Rattle.fancy_regex.specs.TokenLists.{token_captures, token_span};

use crate::tokens::token::Token;

impl<'r, 't> Token<'r, &'t str> {
    /// The text of the token.
    pub fn as_str(&self) -> &'t str
        ensures { IsPart (searched_in (token_captures self.now)).now (token_span self.now)
            result.now }
    {
        self.found.as_str()
    }
}
