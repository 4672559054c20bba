//! What is told of a pattern: its groups, and sets of bytes.

use fancy_bytes::byte_set::ByteSet;
use std::io::{self, Write};

/// Writes a byte as a person reads it.
fn write_byte<W: Write>(byte: u8, out: &mut W) -> io::Result<()> {
    match byte {
        b'!'..=b'~' => write!(out, "{}", char::from(byte)),
        _ => write!(out, "\\x{byte:02X}"),
    }
}

/// Writes the bytes of a set, rows of them by their ends.
fn write_bytes<W: Write>(bytes: &ByteSet, out: &mut W) -> io::Result<()> {
    let mut first: Option<u8> = None;
    for byte in 0..=255u8 {
        let next_in = byte < 255 && bytes.contains(byte.saturating_add(1));
        if !bytes.contains(byte) {
            continue;
        }
        if next_in {
            first = Some(first.unwrap_or(byte));
            continue;
        }
        out.write_all(b" ")?;
        if let Some(start) = first {
            write_byte(start, out)?;
            out.write_all(b"-")?;
        }
        write_byte(byte, out)?;
        first = None;
    }
    Ok(())
}

/// Writes the number of a group, and its name where it has one.
pub fn write_group_name<W: Write>(
    number: usize,
    name: Option<&str>,
    out: &mut W,
) -> io::Result<()> {
    match name {
        Some(name) => writeln!(out, "  {number} {name}"),
        None if number == 0 => writeln!(out, "  0 (the whole match)"),
        None => writeln!(out, "  {number}"),
    }
}

/// Writes these bytes after what they are called.
pub fn write_byte_set<W: Write>(
    name: &str,
    bytes: Option<&ByteSet>,
    out: &mut W,
) -> io::Result<()> {
    write!(out, "{name} bytes:")?;
    match bytes {
        Some(bytes) => write_bytes(bytes, out)?,
        None => out.write_all(b" any, or none")?,
    }
    out.write_all(b"\n")
}
