//! Where the rules of a list match.

use crate::search::Search;
use fancy_regex::{Matches, Regex};
use loft_texts::{Content, Fault, Rule, Severity, Text, TextWork};
use std::io::{self, Write};

/// Checks texts by rules.
#[derive(Drop)]
pub(crate) struct Check<'r> {
    rules: &'r [Rule],
    /// The patterns of the rules, in their order.
    patterns: &'r [Regex],
    /// Whether a rule whose severity is an error matched.
    failed: bool,
}

impl<'r> Check<'r> {
    /// Checks by these rules, whose patterns are these.
    pub(crate) fn new(rules: &'r [Rule], patterns: &'r [Regex]) -> Check<'r> {
        Check {
            rules,
            patterns,
            failed: false,
        }
    }
}

/// Writes that a rule matches at a byte of a text.
fn write_place<W: Write>(rule: &Rule, text: &Text<'_>, at: usize, out: &mut W) -> io::Result<()> {
    let place = text.place(at);
    let (line, column) = (place.line, place.column);
    writeln!(
        out,
        "{}:{line}:{column}: {}: {}",
        text.file, rule.name, rule.message
    )
}

/// Writes where the matches of a rule start. Whether there are any.
fn write_places<W: Write>(
    rule: &Rule,
    text: &Text<'_>,
    matches: &mut Matches<'_, Content<'_>>,
    out: &mut W,
) -> Result<bool, Fault> {
    let mut any = false;
    for found in matches {
        write_place(rule, text, found?.start(), out)?;
        any = true;
    }
    Ok(any)
}

/// Writes where a rule matches in a text. Whether it does.
fn write_matches<W: Write>(
    rule: &Rule,
    pattern: &Regex,
    text: &Text<'_>,
    out: &mut W,
) -> Result<bool, Fault> {
    let mut matches = Search::new(pattern, text.content).matches();
    write_places(rule, text, &mut matches.list, out)
}

impl TextWork for Check<'_> {
    fn text<W: Write>(&mut self, text: &Text<'_>, out: &mut W) -> Result<(), Fault> {
        for (rule, pattern) in self.rules.iter().zip(self.patterns) {
            if write_matches(rule, pattern, text, out)?
                && matches!(rule.severity, Severity::Error)
            {
                self.failed = true;
            }
        }
        Ok(())
    }

    fn found(&self) -> bool {
        !self.failed
    }
}
