//! What a pattern finds in a text.

ghost use Rattle.fancy_regex.specs.Regexes.{options_in};
ghost use Rattle.fancy_regex.specs.Searching.{Suits};
ghost use Rattle.loft_texts.specs.Contents.{bytes_of, is_text};

use fancy_regex::{CaptureMatches, Error, MatchBytes, Matches, Regex, RegexInput};
use loft_texts::Content;

/// A list that is let go of by hand, so that no function that makes one proves it once more.
pub(crate) struct Held<I: Drop> {
    pub(crate) list: I,
}

impl<I: Drop> Drop for Held<I> {
    fn drop(self) {
        let Held { list: _ } = self;
    }
}

/// A pattern, and what it is to search: text, unless a match might cut its characters.
#[derive(Clone, Copy)]
pub(crate) struct Search<'s> {
    pub(crate) regex: &'s Regex,
    pub(crate) content: Content<'s>,
    ghost suits: { Suits (options_in regex.now) (is_text content) (bytes_of content) },
}

impl<'s> Search<'s> {
    /// Searches by this pattern. Text that it may not search is searched as bytes.
    pub(crate) fn new(regex: &'s Regex, content: Content<'s>) -> Search<'s> {
        if regex.can_search(&RegexInput::new(content)) {
            return Search { regex, content };
        }
        let content = Content::Bytes(content.bytes());
        Search { regex, content }
    }

    /// The first match.
    pub(crate) fn first(self) -> Result<Option<MatchBytes<'s>>, Error> {
        self.regex.find(self.content)
    }

    /// All matches.
    pub(crate) fn matches(self) -> Held<Matches<'s, Content<'s>>> {
        Held {
            list: self.regex.find_iter(self.content),
        }
    }

    /// All matches with their groups.
    pub(crate) fn captures(self) -> Held<CaptureMatches<'s, Content<'s>>> {
        Held {
            list: self.regex.captures_iter(self.content),
        }
    }
}
