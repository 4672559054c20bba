//! Which bytes and which characters a set has as members.

use crate::cases::Asked;
use crate::fields::{write_bytes, write_refusal, write_text};
use crate::searches::cannot;
use fancy_regex::{Error, Regex, RegexInput};
use std::alloc::Global;
use std::io;

/// Writes the bytes of a member where they have a match.
fn tell<W: io::Write>(regex: &Regex, member: &[u8], out: &mut W) {
    let input = RegexInput::new(member);
    if !regex.can_search(&input) {
        return cannot(out);
    }
    match regex.find_input(input) {
        Ok(Some(_)) => write_bytes(member, out),
        Ok(None) => {}
        Err(error) => write_refusal(&error, out),
    }
}

/// Writes the bytes that have a match, each alone.
pub(crate) fn bytes<W: io::Write>(regex: &Regex, out: &mut W) {
    for byte in 0..=255u8 {
        tell(regex, &[byte], out);
    }
    write_text("|", out);
}

/// Writes the bytes of a character where they have a match.
fn character<W: io::Write>(alloc: Global, regex: &Regex, c: char, out: &mut W) {
    let mut text = String::new(alloc);
    match text.push(c) {
        Ok(()) => tell(regex, text.as_str().as_bytes(), out),
        Err(_) => write_refusal(&Error::Memory, out),
    }
}

/// Writes the characters of the text that have a match as bytes, each alone.
pub(crate) fn characters<W: io::Write>(regex: &Regex, asked: Asked<'_>, out: &mut W) {
    for c in asked.text.chars() {
        character(asked.alloc, regex, c, out);
    }
    write_text("|", out);
}
