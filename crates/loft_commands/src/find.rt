//! Texts that match, and their matches.

use crate::json::write_json;
use crate::patterns::Pattern;
use fancy_regex::{ByteSet, CaptureMatches, Captures, MatchBytes, Matches};
use loft_texts::{Content, Fault, MatchWriter, Text, TextWork, write_rest, write_up_to};
use loft_words::Report;
use std::io::{self, Write};

/// Finds texts that match.
#[derive(Drop)]
pub(crate) struct Find<'r> {
    pattern: &'r Pattern,
    report: Report,
    writer: MatchWriter,
    found: bool,
    /// How many texts of the file matched so far.
    count: u64,
}

/// Writes a text up to the end of the last match of a list, which are in colour. Where that is.
fn write_up_to_each<W: Write>(
    text: &[u8],
    matches: &mut Matches<'_, Content<'_>>,
    out: &mut W,
) -> Result<usize, Fault> {
    let mut at = 0;
    for found in matches {
        at = write_up_to(text, at, found?, out)?;
    }
    Ok(at)
}

impl<'r> Find<'r> {
    /// Finds by this pattern.
    pub(crate) fn new(pattern: &'r Pattern, report: Report, colours: bool) -> Find<'r> {
        Find {
            pattern,
            report,
            writer: MatchWriter { colours },
            found: false,
            count: 0,
        }
    }

    /// Writes the text with its place, its matches in colour.
    fn write_text<W: Write>(
        &self,
        text: &Text<'_>,
        first: MatchBytes<'_>,
        out: &mut W,
    ) -> Result<(), Fault> {
        self.writer.write_place(text, first.start(), out)?;
        let at = if self.writer.colours {
            self.write_coloured(text, out)?
        } else {
            0
        };
        write_rest(text.bytes(), at, out)?;
        Ok(())
    }

    /// Writes a text up to the end of its last match, its matches in colour. Where that is.
    fn write_coloured<W: Write>(&self, text: &Text<'_>, out: &mut W) -> Result<usize, Fault> {
        let mut matches = self.pattern.search(text.content).matches();
        write_up_to_each(text.bytes(), &mut matches.list, out)
    }

    /// Writes each match of the text: alone, or of a whole file with its place and its lines.
    fn write_matches<W: Write>(&self, text: &Text<'_>, out: &mut W) -> Result<(), Fault> {
        let mut matches = self.pattern.search(text.content).matches();
        self.write_each_match(text, &mut matches.list, out)
    }

    /// Writes the matches of a list.
    fn write_each_match<W: Write>(
        &self,
        text: &Text<'_>,
        matches: &mut Matches<'_, Content<'_>>,
        out: &mut W,
    ) -> Result<(), Fault> {
        for found in matches {
            self.write_match(text, found?, out)?;
        }
        Ok(())
    }

    /// Writes a match: alone, or with its place and its lines.
    fn write_match<W: Write>(
        &self,
        text: &Text<'_>,
        found: MatchBytes<'_>,
        out: &mut W,
    ) -> io::Result<()> {
        if let Report::Lines = self.report {
            return self.writer.write_part(text, found, out);
        }
        self.writer.write_match(found, out)
    }

    /// Writes each match of the text with its groups.
    fn write_groups<W: Write>(&self, text: &Text<'_>, out: &mut W) -> Result<(), Fault> {
        let mut matches = self.pattern.search(text.content).captures();
        self.write_each_captures(text, &mut matches.list, out)
    }

    /// Writes the matches of a list with their groups.
    fn write_each_captures<W: Write>(
        &self,
        text: &Text<'_>,
        matches: &mut CaptureMatches<'_, Content<'_>>,
        out: &mut W,
    ) -> Result<(), Fault> {
        for captures in matches {
            self.write_captures(text, &captures?, out)?;
        }
        Ok(())
    }

    /// Writes a match with its groups: as JSON, or a line for each group that took part.
    fn write_captures<W: Write>(
        &self,
        text: &Text<'_>,
        captures: &Captures<'_, Content<'_>>,
        out: &mut W,
    ) -> io::Result<()> {
        if let Report::Json = self.report {
            return write_json(text, captures, out);
        }
        for number in 0..captures.len() {
            if let Some(group) = captures.get(number) {
                self.writer.write_group(text, number, group, out)?;
            }
        }
        Ok(())
    }
}

impl TextWork for Find<'_> {
    fn text<W: Write>(&mut self, text: &Text<'_>, out: &mut W) -> Result<(), Fault> {
        let Some(first) = self.pattern.search(text.content).first()? else {
            return Ok(());
        };
        self.found = true;
        self.count = self.count.saturating_add(1);
        match self.report {
            Report::Lines if !text.is_whole() => self.write_text(text, first, out),
            Report::Lines | Report::Matches => self.write_matches(text, out),
            Report::Groups | Report::Json => self.write_groups(text, out),
            Report::Counts | Report::Names => Ok(()),
        }
    }

    fn required(&self) -> Option<&ByteSet> {
        self.pattern.required.as_ref()
    }

    fn is_done(&self) -> bool {
        matches!(self.report, Report::Names) && self.count > 0
    }

    fn end<W: Write>(&mut self, file: &str, out: &mut W) -> Result<(), Fault> {
        match self.report {
            Report::Counts => writeln!(out, "{file}:{}", self.count)?,
            Report::Names if self.count > 0 => writeln!(out, "{file}")?,
            _ => {}
        }
        self.count = 0;
        Ok(())
    }

    fn found(&self) -> bool {
        self.found
    }
}
