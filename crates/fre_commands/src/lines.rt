//! The lines that commands write.

use fancy_regex::Match;
use std::io;

/// Writes the text as a line.
pub(crate) fn write_line<W: io::Write>(text: &str, out: &mut W) -> io::Result<()> {
    writeln!(out, "{text}")
}

/// Writes a line `start..end text`.
pub(crate) fn write_span<W: io::Write>(
    (start, end): (usize, usize),
    text: &str,
    out: &mut W,
) -> io::Result<()> {
    writeln!(out, "{start}..{end} {text}")
}

/// Writes a line `number start..end text`.
pub(crate) fn write_numbered<W: io::Write>(
    number: usize,
    span: (usize, usize),
    text: &str,
    out: &mut W,
) -> io::Result<()> {
    write!(out, "{number} ")?;
    write_span(span, text, out)
}

/// Writes a line for the group with this number, `number none` where it took no part.
pub(crate) fn write_group<W: io::Write>(
    number: usize,
    group: Option<Match<'_>>,
    out: &mut W,
) -> io::Result<()> {
    match group {
        Some(group) => write_numbered(number, (group.start(), group.end()), group.as_str(), out),
        None => writeln!(out, "{number} none"),
    }
}

/// Writes a line for the place where no pattern gives a token.
pub(crate) fn write_unmatched<W: io::Write>(place: usize, out: &mut W) -> io::Result<()> {
    writeln!(out, "unmatched {place}")
}
