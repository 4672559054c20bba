//! Texts with their matches replaced.

ghost use Rattle.std.specs.Cow.{IsBorrowedStr};
ghost use Rattle.std.specs.Prelude.{◌↔◌, ◌≡◌, [], IfOk, true};
ghost use Rattle.fancy_regex.specs.Regexes.{options_in};
ghost use Rattle.fancy_regex.specs.Replacing.{ReplacesBy, all_matches, with_template, with_text};
ghost use Rattle.fancy_regex.specs.Searching.{Suits};

use crate::patterns::Pattern;
use crate::search::Search;
use fancy_regex::{ByteSet, CaptureMatches, Captures, Error, Expander, NoExpand, Regex, Step};
use loft_texts::{Content, Fault};
use loft_words::Replacement;
use std::alloc::{AllocError, Global};
use std::borrow::CowStr;

/// Replaces the matches of a pattern.
#[derive(Clone, Copy)]
pub(crate) struct Rewrite<'r> {
    alloc: Global,
    pattern: &'r Pattern,
    by: Replacement<'r>,
}

/// The text with its matches replaced by what a template gives; borrowed where nothing matches.
fn by_template<'t>(
    regex: &Regex,
    text: &'t str,
    limit: usize,
    template: &str,
) -> Result<CowStr<'t>, Error>
    requires suits { Suits (options_in regex.now) true text.now }
    ensures text { ReplacesBy (with_template (λ s. s.now) regex.now text.now limit) template.entry result }
    ensures borrowed { IfOk result (λ t. IsBorrowedStr t ↔ (all_matches regex.now text.now ≡ [])) }
{
    regex.replacen(text, limit, template)
}

/// The text with its matches replaced by a text as it is; borrowed where nothing matches.
fn by_text<'t>(
    regex: &Regex,
    text: &'t str,
    limit: usize,
    with: NoExpand<'_>,
) -> Result<CowStr<'t>, Error>
    requires suits { Suits (options_in regex.now) true text.now }
    ensures text { ReplacesBy (with_text (λ s. s.0.now) regex.now text.now limit) with.entry result }
    ensures borrowed { IfOk result (λ t. IsBorrowedStr t ↔ (all_matches regex.now text.now ≡ [])) }
{
    regex.replacen(text, limit, with)
}

/// Appends what one step of a template gives for a match in bytes.
fn push_step(
    to: &mut Vec<u8>,
    step: Step<'_>,
    captures: &Captures<'_, Content<'_>>,
) -> Result<(), AllocError> {
    let group = match step {
        Step::Literal(c) => {
            let mut buffer = [0u8; 4];
            return to.extend_from_slice(c.encode_utf8(&mut buffer).as_bytes());
        }
        Step::Name(name) => match captures.name(name) {
            Some(group) => Some(group),
            None => name
                .parse::<usize>()
                .ok()
                .and_then(|number| captures.get(number)),
        },
        Step::Number(number) => captures.get(number),
        Step::Error => None,
    };
    match group {
        Some(group) => to.extend_from_slice(group.as_bytes()),
        None => Ok(()),
    }
}

impl<'r> Rewrite<'r> {
    /// Replaces the matches of the pattern. A template that names no group of it is refused.
    pub(crate) fn new(
        alloc: Global,
        pattern: &'r Pattern,
        by: Replacement<'r>,
    ) -> Result<Rewrite<'r>, Error> {
        if !by.literal {
            Expander::default().check(by.with, &pattern.regex)?;
        }
        Ok(Rewrite { alloc, pattern, by })
    }

    /// The bytes all of which each line with a match has, where lines are passed over.
    pub(crate) fn required(&self) -> Option<&'r ByteSet> {
        self.pattern.required.as_ref()
    }

    /// Appends what replaces a match in bytes.
    fn push_replacement(
        &self,
        to: &mut Vec<u8>,
        captures: &Captures<'_, Content<'_>>,
    ) -> Result<(), AllocError> {
        if self.by.literal {
            return to.extend_from_slice(self.by.with.as_bytes());
        }
        for step in Expander::default().steps(self.by.with) {
            push_step(to, step, captures)?;
        }
        Ok(())
    }

    /// Appends what stands from a place on up to a match in bytes, and what replaces it. Where the match ends.
    fn push_match(
        &self,
        to: &mut Vec<u8>,
        bytes: &[u8],
        at: usize,
        captures: &Captures<'_, Content<'_>>,
    ) -> Result<usize, AllocError> {
        let Some(found) = captures.get(0) else {
            return Ok(at);
        };
        to.extend_from_slice(bytes.get(at..found.start()).unwrap_or(b""))?;
        self.push_replacement(to, captures)?;
        Ok(found.end())
    }

    /// Appends bytes with the matches of a list replaced. How many were.
    fn push_bytes(
        &self,
        to: &mut Vec<u8>,
        bytes: &[u8],
        matches: &mut CaptureMatches<'_, Content<'_>>,
    ) -> Result<usize, Fault> {
        let mut at = 0;
        let mut count = 0usize;
        for captures in matches {
            at = self.push_match(to, bytes, at, &captures?)?;
            count = count.saturating_add(1);
            if count == self.by.limit {
                break;
            }
        }
        to.extend_from_slice(bytes.get(at..).unwrap_or(b""))?;
        Ok(count)
    }

    /// Bytes that are no text with their matches replaced; none where nothing matches.
    fn bytes(&self, search: Search<'_>, bytes: &[u8]) -> Result<Option<Vec<u8>>, Fault> {
        let mut to = Vec::new(self.alloc);
        let mut matches = search.captures();
        let count = self.push_bytes(&mut to, bytes, &mut matches.list)?;
        Ok((count > 0).then_some(to))
    }

    /// The content with its matches replaced; none where nothing matches.
    pub(crate) fn rewrite(&self, content: Content<'_>) -> Result<Option<Vec<u8>>, Fault> {
        let search = self.pattern.search(content);
        let text = match search.content {
            Content::Text(text) => text,
            Content::Bytes(bytes) => return self.bytes(search, bytes),
        };
        let replaced = if self.by.literal {
            by_text(search.regex, text, self.by.limit, NoExpand(self.by.with))?
        } else {
            by_template(search.regex, text, self.by.limit, self.by.with)?
        };
        match replaced {
            CowStr::Borrowed(_) => Ok(None),
            CowStr::Owned(text) => Ok(Some(text.into_bytes())),
        }
    }
}
