//! Texts with their matches replaced, to the output and into memory.

use crate::rewrite::Rewrite;
use fancy_regex::ByteSet;
use loft_texts::{Fault, Text, TextWork};
use std::io::{self, Write};

/// Writes texts with their matches replaced.
#[derive(Drop)]
pub(crate) struct Replace<'r> {
    rewrite: Rewrite<'r>,
    found: bool,
}

/// Writes what a text was replaced by, or the text itself, with the line feed that ends it.
fn write_replaced<W: Write>(
    text: &Text<'_>,
    replaced: &Option<Vec<u8>>,
    out: &mut W,
) -> io::Result<()> {
    out.write_all(match replaced {
        Some(bytes) => bytes.as_slice(),
        None => text.bytes(),
    })?;
    out.write_all(text.end)
}

impl<'r> Replace<'r> {
    /// Replaces in this way.
    pub(crate) fn new(rewrite: Rewrite<'r>) -> Replace<'r> {
        Replace {
            rewrite,
            found: false,
        }
    }
}

impl TextWork for Replace<'_> {
    fn text<W: Write>(&mut self, text: &Text<'_>, out: &mut W) -> Result<(), Fault> {
        let replaced = self.rewrite.rewrite(text.content)?;
        self.found = self.found || replaced.is_some();
        write_replaced(text, &replaced, out)?;
        Ok(())
    }

    fn required(&self) -> Option<&ByteSet> {
        self.rewrite.required()
    }

    fn pass<W: Write>(&mut self, lines: &[u8], out: &mut W) -> Result<(), Fault> {
        out.write_all(lines)?;
        Ok(())
    }

    fn found(&self) -> bool {
        self.found
    }
}

/// Gathers a file with its matches replaced.
#[derive(Drop)]
pub(crate) struct Gather<'r> {
    replace: Replace<'r>,
    /// What was gathered.
    pub(crate) bytes: Vec<u8>,
}

impl<'r> Gather<'r> {
    /// Replaces in this way, into this memory.
    pub(crate) fn new(rewrite: Rewrite<'r>, bytes: Vec<u8>) -> Gather<'r> {
        Gather {
            replace: Replace::new(rewrite),
            bytes,
        }
    }
}

impl TextWork for Gather<'_> {
    fn text<W: Write>(&mut self, text: &Text<'_>, _out: &mut W) -> Result<(), Fault> {
        self.replace.text(text, &mut self.bytes)
    }

    fn required(&self) -> Option<&ByteSet> {
        self.replace.required()
    }

    fn pass<W: Write>(&mut self, lines: &[u8], _out: &mut W) -> Result<(), Fault> {
        self.replace.pass(lines, &mut self.bytes)
    }

    fn found(&self) -> bool {
        self.replace.found
    }
}
