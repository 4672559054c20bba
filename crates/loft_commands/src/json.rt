//! Matches as lines of JSON.

use fancy_regex::Captures;
use loft_texts::{Content, Text, write_json_group, write_json_place};
use std::io::{self, Write};

/// Writes the groups of a match.
fn write_groups<W: Write>(
    text: &Text<'_>,
    captures: &Captures<'_, Content<'_>>,
    out: &mut W,
) -> io::Result<()> {
    out.write_all(b",\"groups\":[")?;
    for number in 0..captures.len() {
        if number > 0 {
            out.write_all(b",")?;
        }
        write_json_group(text, captures.get(number), out)?;
    }
    out.write_all(b"]")
}

/// Writes a match with its groups as a line.
pub(crate) fn write_json<W: Write>(
    text: &Text<'_>,
    captures: &Captures<'_, Content<'_>>,
    out: &mut W,
) -> io::Result<()> {
    let start = match captures.get(0) {
        Some(found) => found.start(),
        None => 0,
    };
    write_json_place(text, start, out)?;
    write_groups(text, captures, out)?;
    out.write_all(b"}\n")
}
