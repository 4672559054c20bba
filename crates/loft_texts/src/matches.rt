//! How matches are written, with their places and with the lines that they are in.

use crate::paint::{Colour, write_painted};
use crate::text::Text;
use fancy_input::bytes::MatchBytes;
use memchr::{memchr, memrchr};
use std::io::{self, Write};

/// Writes matches, in colour where that is wanted.
#[derive(Clone, Copy)]
pub struct MatchWriter {
    pub colours: bool,
}

/// The bytes of a text from one place to another; nothing where it has no such part.
fn part(text: &[u8], start: usize, end: usize) -> &[u8] {
    text.get(start..end).unwrap_or(b"")
}

/// What stands after the last line feed.
fn last_line(text: &[u8]) -> &[u8] {
    match memrchr(b'\n', text) {
        Some(feed) => &text[feed + 1..],
        None => text,
    }
}

/// What stands before the first line feed.
fn first_line(text: &[u8]) -> &[u8] {
    match memchr(b'\n', text) {
        Some(feed) => &text[..feed],
        None => text,
    }
}

/// Writes a text from a place on up to the end of a match, which is in colour. Where that is.
pub fn write_up_to<W: Write>(
    text: &[u8],
    at: usize,
    found: MatchBytes<'_>,
    out: &mut W,
) -> io::Result<usize> {
    out.write_all(part(text, at, found.start()))?;
    write_painted(true, Colour::MATCH, found.as_bytes(), out)?;
    Ok(found.end())
}

/// Writes bytes as a line.
fn write_line<W: Write>(bytes: &[u8], out: &mut W) -> io::Result<()> {
    out.write_all(bytes)?;
    out.write_all(b"\n")
}

/// Writes what a text has from a place on, as a line.
pub fn write_rest<W: Write>(text: &[u8], at: usize, out: &mut W) -> io::Result<()> {
    write_line(part(text, at, text.len()), out)
}

impl MatchWriter {
    /// Writes the file's name, the line and the column of a byte of the text.
    pub fn write_place<W: Write>(self, text: &Text<'_>, at: usize, out: &mut W) -> io::Result<()> {
        let place = text.place(at);
        write_painted(self.colours, Colour::FILE, text.file.as_bytes(), out)?;
        write!(out, ":{}:{}:", place.line, place.column)
    }

    /// Writes a match alone, as a line.
    pub fn write_match<W: Write>(self, found: MatchBytes<'_>, out: &mut W) -> io::Result<()> {
        write_painted(self.colours, Colour::MATCH, found.as_bytes(), out)?;
        out.write_all(b"\n")
    }

    /// Writes the place of a match, and the lines that it is in.
    pub fn write_part<W: Write>(
        self,
        text: &Text<'_>,
        found: MatchBytes<'_>,
        out: &mut W,
    ) -> io::Result<()> {
        self.write_place(text, found.start(), out)?;
        out.write_all(last_line(part(text.bytes(), 0, found.start())))?;
        write_painted(self.colours, Colour::MATCH, found.as_bytes(), out)?;
        write_line(
            first_line(part(text.bytes(), found.end(), text.bytes().len())),
            out,
        )
    }

    /// Writes the place, the number and the text of a group.
    pub fn write_group<W: Write>(
        self,
        text: &Text<'_>,
        number: usize,
        group: MatchBytes<'_>,
        out: &mut W,
    ) -> io::Result<()> {
        self.write_place(text, group.start(), out)?;
        write!(out, "{number}=")?;
        write_painted(self.colours, Colour::MATCH, group.as_bytes(), out)?;
        out.write_all(b"\n")
    }
}
