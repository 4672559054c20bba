//! The pieces between matches.

use crate::patterns::Pattern;
use fancy_regex::Matches;
use loft_texts::{Content, Fault, Text, TextWork};
use std::io::{self, Write};

/// Splits texts at matches.
#[derive(Drop)]
pub(crate) struct Split<'r> {
    pattern: &'r Pattern,
    /// What ends each piece.
    terminator: u8,
    found: bool,
}

impl<'r> Split<'r> {
    /// Splits at the matches of this pattern.
    pub(crate) fn new(pattern: &'r Pattern, terminator: u8) -> Split<'r> {
        Split {
            pattern,
            terminator,
            found: false,
        }
    }
}

impl Split<'_> {
    /// Writes a piece, and what ends it.
    fn write_piece<W: Write>(&self, piece: &[u8], out: &mut W) -> io::Result<()> {
        out.write_all(piece)?;
        out.write_all(&[self.terminator])
    }

    /// Writes the pieces before the last match. Where that ends.
    fn write_pieces<W: Write>(&self, text: &Text<'_>, out: &mut W) -> Result<usize, Fault> {
        let mut matches = self.pattern.search(text.content).matches();
        self.write_each_piece(text.bytes(), &mut matches.list, out)
    }

    /// Writes the pieces before the last match of a list. Where that ends.
    fn write_each_piece<W: Write>(
        &self,
        text: &[u8],
        matches: &mut Matches<'_, Content<'_>>,
        out: &mut W,
    ) -> Result<usize, Fault> {
        let mut at = 0;
        for found in matches {
            let found = found?;
            self.write_piece(text.get(at..found.start()).unwrap_or(b""), out)?;
            at = found.end();
        }
        Ok(at)
    }
}

impl TextWork for Split<'_> {
    fn text<W: Write>(&mut self, text: &Text<'_>, out: &mut W) -> Result<(), Fault> {
        let at = self.write_pieces(text, out)?;
        self.found = true;
        self.write_piece(text.bytes().get(at..).unwrap_or(b""), out)?;
        Ok(())
    }

    fn found(&self) -> bool {
        self.found
    }
}
