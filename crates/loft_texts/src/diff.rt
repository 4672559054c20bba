//! What changes in a file, as a unified diff.

use crate::text::{Text, wide};
use std::io::{self, Write};

/// The changes of a file that were written so far.
#[derive(Drop)]
pub struct Diff {
    /// Whether a part of the file was shown.
    shown: bool,
    /// How many lines the new file has more than the old one so far.
    added: i64,
}

/// Whether a line ends with this byte.
fn ends_line(byte: &u8) -> bool {
    *byte == b'\n'
}

/// How many lines the bytes have, with one that no line feed ends.
fn lines(bytes: &[u8]) -> u64 {
    wide(bytes.split_inclusive(ends_line).count())
}

/// Writes lines with a mark before each.
fn write_lines<W: Write>(mark: &[u8], bytes: &[u8], out: &mut W) -> io::Result<()> {
    for line in bytes.split_inclusive(ends_line) {
        out.write_all(mark)?;
        out.write_all(line)?;
        if !line.ends_with(b"\n") {
            out.write_all(b"\n\\ No newline at end of file\n")?;
        }
    }
    Ok(())
}

/// Writes the names of a file before and after a change.
fn write_names<W: Write>(file: &str, out: &mut W) -> io::Result<()> {
    writeln!(out, "--- {file}")?;
    writeln!(out, "+++ {file}")
}

/// Writes which lines change: the first one's number and how many they are, before and after.
fn write_places<W: Write>(old: (u64, u64), new: (u64, u64), out: &mut W) -> io::Result<()> {
    writeln!(out, "@@ -{},{} +{},{} @@", old.0, old.1, new.0, new.1)
}

/// How many bytes of whole lines both begin with.
fn common_lines(one: &[u8], other: &[u8]) -> usize {
    let mut common = 0usize;
    let mut others = other.split_inclusive(ends_line);
    for line in one.split_inclusive(ends_line) {
        if others.next() != Some(line) {
            return common;
        }
        common = common.saturating_add(line.len());
    }
    common
}

/// The bytes from a place on.
fn after(bytes: &[u8], at: usize) -> &[u8] {
    bytes.get(at..).unwrap_or(b"")
}

/// The bytes before a place.
fn until(bytes: &[u8], at: usize) -> &[u8] {
    bytes.get(..at).unwrap_or(b"")
}

impl Diff {
    /// Nothing of a file was written.
    pub fn new() -> Diff {
        Diff {
            shown: false,
            added: 0,
        }
    }

    /// Writes the part of a file that changes.
    pub fn write_part<W: Write>(
        &mut self,
        text: &Text<'_>,
        old: &[u8],
        new: &[u8],
        out: &mut W,
    ) -> io::Result<()> {
        if !self.shown {
            write_names(text.file, out)?;
            self.shown = true;
        }
        let kept = common_lines(old, new);
        let passed = lines(until(text.bytes(), kept));
        let line = text.line.saturating_add(passed);
        self.write_change(line, after(old, kept), after(new, kept), out)
    }

    /// Writes old lines, the first of which has this number, and the new ones in their place.
    fn write_change<W: Write>(
        &mut self,
        line: u64,
        old: &[u8],
        new: &[u8],
        out: &mut W,
    ) -> io::Result<()> {
        let (removed, added) = (lines(old), lines(new));
        let new_line = line.saturating_add_signed(self.added);
        write_places((line, removed), (new_line, added), out)?;
        write_lines(b"-", old, out)?;
        write_lines(b"+", new, out)?;
        self.added = self
            .added
            .saturating_add_unsigned(added)
            .saturating_sub_unsigned(removed);
        Ok(())
    }
}
