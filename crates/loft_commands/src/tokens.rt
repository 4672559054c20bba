//! The tokens of whole files, by the patterns of a list of rules.

use fancy_regex::{Error, RegexInput, RegexSet, RuntimeError, Token};
use loft_texts::{
    Fault, Part, Rule, Text, TextWork, character_width, write_highlighted, write_token,
};
use std::io::{self, Write};

/// Writes the tokens of texts.
#[derive(Drop)]
pub(crate) struct Tokens<'r> {
    /// The rules of the kinds.
    rules: &'r [Rule],
    /// Their patterns, in their order.
    set: &'r RegexSet,
    /// Whether the text is written in colours, and not the tokens one by one.
    highlight: bool,
    found: bool,
}

/// The part of a text that a token is.
fn part_of(token: &Token<'_, &[u8]>) -> Part {
    Part {
        kind: Some(token.pattern()),
        start: token.start(),
        end: token.end(),
    }
}

/// The part of the next token of a list; none where the text ends, or no pattern gives a token.
fn next_part(tokens: &mut fancy_regex::Tokens<'_, &[u8]>) -> Result<Option<Part>, Fault> {
    match tokens.next() {
        Some(Ok(token)) => Ok(Some(part_of(&token))),
        Some(Err(Error::RuntimeError(RuntimeError::Unmatched(_)))) => Ok(None),
        Some(Err(error)) => Err(Fault::Search(error)),
        None => Ok(None),
    }
}

impl<'r> Tokens<'r> {
    /// Writes tokens by these rules, whose patterns are those of the set.
    pub(crate) fn new(rules: &'r [Rule], set: &'r RegexSet, highlight: bool) -> Tokens<'r> {
        Tokens {
            rules,
            set,
            highlight,
            found: false,
        }
    }

    /// The name of a kind.
    fn name(&self, kind: Option<usize>) -> &'r str {
        match kind {
            Some(kind) => self.rules.get(kind).map_or("", |rule| rule.name.as_str()),
            None => "unmatched",
        }
    }

    /// Writes a part of the text.
    fn write_part<W: Write>(&self, text: &Text<'_>, part: Part, out: &mut W) -> io::Result<()> {
        let bytes = text.bytes().get(part.start..part.end).unwrap_or(b"");
        if self.highlight {
            return write_highlighted(part.kind, bytes, out);
        }
        if bytes.is_empty() {
            return Ok(());
        }
        write_token(self.name(part.kind), part, bytes, out)
    }

    /// Writes tokens from a place on, up to where there is none. Where that is.
    fn write_row<W: Write>(
        &self,
        text: &Text<'_>,
        start: usize,
        out: &mut W,
    ) -> Result<usize, Fault> {
        let input = RegexInput::new(text.bytes()).from_pos(start);
        let mut tokens = self.set.tokens(input);
        self.write_tokens(text, start, &mut tokens, out)
    }

    /// Writes the tokens of a list that starts at a place. Where the last one ends.
    fn write_tokens<W: Write>(
        &self,
        text: &Text<'_>,
        start: usize,
        tokens: &mut fancy_regex::Tokens<'_, &[u8]>,
        out: &mut W,
    ) -> Result<usize, Fault> {
        let mut end = start;
        for _ in start..=text.bytes().len() {
            let Some(part) = next_part(tokens)? else {
                return Ok(end);
            };
            self.write_part(text, part, out)?;
            end = part.end;
        }
        Ok(end)
    }

    /// Whether a token starts at a place.
    fn has_token(&self, text: &Text<'_>, at: usize) -> Result<bool, Fault> {
        let mut tokens = self.set.tokens(RegexInput::new(text.bytes()).from_pos(at));
        next_part(&mut tokens).map(|part| part.is_some())
    }

    /// The next place after one without a token at which one starts; the end, where there is none.
    fn past_unmatched(&self, text: &Text<'_>, start: usize) -> Result<usize, Fault> {
        let mut at = start;
        for _ in start..text.bytes().len() {
            at = at.saturating_add(character_width(text.bytes(), at));
            if at >= text.bytes().len() || self.has_token(text, at)? {
                return Ok(at.min(text.bytes().len()));
            }
        }
        Ok(text.bytes().len())
    }
}

impl TextWork for Tokens<'_> {
    fn text<W: Write>(&mut self, text: &Text<'_>, out: &mut W) -> Result<(), Fault> {
        let mut at = 0;
        for _ in 0..=text.bytes().len() {
            let end = self.write_row(text, at, out)?;
            self.found = self.found || end > at;
            if end >= text.bytes().len() {
                return Ok(());
            }
            at = self.past_unmatched(text, end)?;
            let part = Part {
                kind: None,
                start: end,
                end: at,
            };
            self.write_part(text, part, out)?;
        }
        Ok(())
    }

    fn found(&self) -> bool {
        self.found
    }
}
