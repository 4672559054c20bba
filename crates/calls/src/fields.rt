//! Texts in hexadecimal, and the marks of an answer.
//!
//! A writer that fails is heeded no further: what is read of it is compared, and is then too short.

use fancy_regex::{Error, Result};
use std::alloc::Global;
use std::io;

fn digit(byte: u8) -> u8 {
    match byte {
        b'0'..=b'9' => byte - b'0',
        b'a'..=b'f' => byte - b'a' + 10,
        _ => 0,
    }
}

/// The bytes that are given in hexadecimal.
fn bytes_of(alloc: Global, word: &str) -> Result<Vec<u8>> {
    let mut bytes = Vec::new(alloc);
    for pair in word.as_bytes().chunks(2) {
        if let [high, low] = pair {
            bytes.push(digit(*high).wrapping_mul(16).wrapping_add(digit(*low)))?;
        }
    }
    Ok(bytes)
}

/// Adds what a part of a word gives: bytes in hexadecimal, so many times where a `*` and a number follow.
fn push_part(bytes: &mut Vec<u8>, alloc: Global, part: &str) -> Result<()> {
    let (word, count) = part.split_once('*').unwrap_or((part, "1"));
    let unit = bytes_of(alloc, word)?;
    for _ in 0..count.parse::<usize>().unwrap_or(0) {
        bytes.extend_from_slice(&unit)?;
    }
    Ok(())
}

/// The bytes that a word gives, part by part.
fn joined(alloc: Global, word: &str) -> Result<Vec<u8>> {
    let mut bytes = Vec::new(alloc);
    for part in word.split('+') {
        push_part(&mut bytes, alloc, part)?;
    }
    Ok(bytes)
}

/// The texts that a word gives, split by commas, as bytes.
pub(crate) fn texts_of(alloc: Global, word: &str) -> Result<Vec<Vec<u8>>> {
    let mut texts = Vec::new(alloc);
    for part in word.split(',') {
        texts.push(joined(alloc, part)?)?;
    }
    Ok(texts)
}

/// The same texts, lent; what is no text is the empty one.
pub(crate) fn lent(alloc: Global, texts: &[Vec<u8>]) -> Result<Vec<&str>> {
    let mut all = Vec::new(alloc);
    for text in texts {
        all.push(str::from_utf8(text).unwrap_or(""))?;
    }
    Ok(all)
}

/// Writes a text as it is. Items are written in such parts.
pub(crate) fn write_text<W: io::Write>(text: &str, out: &mut W) {
    let _ = write!(out, "{text}");
}

/// Writes a number.
pub(crate) fn write_number<W: io::Write>(number: usize, out: &mut W) {
    let _ = write!(out, "{number}");
}

/// Writes a number as an item.
pub(crate) fn write_count<W: io::Write>(count: usize, out: &mut W) {
    write_number(count, out);
    write_text("|", out);
}

/// Writes `true` or `false`.
pub(crate) fn write_bool<W: io::Write>(is_so: bool, out: &mut W) {
    write_text(if is_so { "true" } else { "false" }, out);
}

/// Writes where a match starts and ends.
pub(crate) fn write_span<W: io::Write>((start, end): (usize, usize), out: &mut W) {
    write_number(start, out);
    write_text("..", out);
    write_number(end, out);
}

/// Writes the index of a pattern, and where its match starts and ends.
pub(crate) fn write_indexed<W: io::Write>(index: usize, span: (usize, usize), out: &mut W) {
    write_number(index, out);
    write_text(" ", out);
    write_span(span, out);
}

/// Writes a byte as two digits.
pub(crate) fn write_byte<W: io::Write>(byte: u8, out: &mut W) {
    let _ = write!(out, "{byte:02x}");
}

/// Writes an `x`, and these bytes in hexadecimal.
pub(crate) fn write_bytes<W: io::Write>(bytes: &[u8], out: &mut W) {
    write_text("x", out);
    for byte in bytes {
        write_byte(*byte, out);
    }
}

/// Writes an item: a `!`, and the text of the refusal.
pub(crate) fn write_refusal<W: io::Write>(error: &Error, out: &mut W) {
    let _ = write!(out, "!{error}|");
}

/// Writes that the calls of the line begin.
pub(crate) fn begin<W: io::Write>(out: &mut W) {
    let _ = write!(out, ">");
    let _ = out.flush();
}

/// Writes that they have ended.
pub(crate) fn end<W: io::Write>(out: &mut W) {
    let _ = write!(out, "<");
    let _ = out.flush();
}
