//! Parts of a text by their kinds.

use crate::content::Content;
use crate::paint::{Colour, write_painted};
use std::io::{self, Write};

/// A part of a text with its kind; none where no pattern gave a token.
#[derive(Clone, Copy)]
pub struct Part {
    pub kind: Option<usize>,
    pub start: usize,
    pub end: usize,
}

/// Writes a text with a backslash before what would end the line, and before a backslash.
fn write_in_line<W: Write>(bytes: &[u8], out: &mut W) -> io::Result<()> {
    for piece in bytes.split_inclusive(|byte| matches!(byte, b'\n' | b'\r' | b'\\')) {
        write_piece(piece, out)?;
    }
    Ok(())
}

/// Writes a text in which at most the last byte wants a backslash.
fn write_piece<W: Write>(piece: &[u8], out: &mut W) -> io::Result<()> {
    let (rest, end): (&[u8], &[u8]) = match piece {
        [rest @ .., b'\n'] => (rest, b"\\n"),
        [rest @ .., b'\r'] => (rest, b"\\r"),
        [rest @ .., b'\\'] => (rest, b"\\\\"),
        rest => (rest, b""),
    };
    out.write_all(rest)?;
    out.write_all(end)
}

/// Writes a text in the colour of its kind, as it is where it has none.
pub fn write_highlighted<W: Write>(
    kind: Option<usize>,
    bytes: &[u8],
    out: &mut W,
) -> io::Result<()> {
    match kind {
        Some(kind) => write_painted(true, Colour::of_kind(kind), bytes, out),
        None => out.write_all(bytes),
    }
}

/// Writes a line of a token: its kind, its place and its text.
pub fn write_token<W: Write>(kind: &str, part: Part, bytes: &[u8], out: &mut W) -> io::Result<()> {
    write!(out, "{kind} {}..{} ", part.start, part.end)?;
    write_in_line(bytes, out)?;
    out.write_all(b"\n")
}

/// How many bytes the character takes that begins at a place, a byte that is in none being one.
pub fn character_width(text: &[u8], at: usize) -> usize {
    let rest = text.get(at..).unwrap_or(b"");
    for width in 1..=4 {
        let Some(bytes) = rest.get(..width) else {
            return 1;
        };
        if let Content::Text(_) = Content::of(bytes) {
            return width;
        }
    }
    1
}
