//! Texts, places and groups as JSON.

use crate::text::Text;
use fancy_input::bytes::MatchBytes;
use std::io::{self, Write};

/// Writes a character of a text in quotation marks.
fn write_character<W: Write>(c: char, out: &mut W) -> io::Result<()> {
    match c {
        '"' => out.write_all(b"\\\""),
        '\\' => out.write_all(b"\\\\"),
        '\n' => out.write_all(b"\\n"),
        '\r' => out.write_all(b"\\r"),
        '\t' => out.write_all(b"\\t"),
        '\0'..='\x1f' => write!(out, "\\u{:04x}", u32::from(c)),
        _ => write!(out, "{c}"),
    }
}

/// Writes bytes as a text in quotation marks, with U+FFFD for each run that is no UTF-8.
fn write_string<W: Write>(bytes: &[u8], out: &mut W) -> io::Result<()> {
    out.write_all(b"\"")?;
    for chunk in bytes.utf8_chunks() {
        for c in chunk.valid().chars() {
            write_character(c, out)?;
        }
        if !chunk.invalid().is_empty() {
            write_character('\u{FFFD}', out)?;
        }
    }
    out.write_all(b"\"")
}

/// Writes a group, or `null` for one that took no part.
pub fn write_json_group<W: Write>(
    text: &Text<'_>,
    group: Option<MatchBytes<'_>>,
    out: &mut W,
) -> io::Result<()> {
    match group {
        Some(group) => write_span(text, group, out),
        None => out.write_all(b"null"),
    }
}

/// Writes the ends and the text of a group.
fn write_span<W: Write>(text: &Text<'_>, group: MatchBytes<'_>, out: &mut W) -> io::Result<()> {
    let (start, end) = (text.offset_of(group.start()), text.offset_of(group.end()));
    write!(out, "{{\"start\":{start},\"end\":{end},\"text\":")?;
    write_string(group.as_bytes(), out)?;
    out.write_all(b"}")
}

/// Writes the start of an object, with the place of a byte of the text.
pub fn write_json_place<W: Write>(text: &Text<'_>, at: usize, out: &mut W) -> io::Result<()> {
    let place = text.place(at);
    out.write_all(b"{\"file\":")?;
    write_string(text.file.as_bytes(), out)?;
    write!(out, ",\"line\":{},\"column\":{}", place.line, place.column)
}
