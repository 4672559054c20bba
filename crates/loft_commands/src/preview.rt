//! What a replacement would change, as a unified diff.

use crate::rewrite::Rewrite;
use fancy_regex::ByteSet;
use loft_texts::{Diff, Fault, Text, TextWork};
use std::alloc::{AllocError, Global};
use std::io::Write;

/// Writes what would change.
#[derive(Drop)]
pub(crate) struct Preview<'r> {
    alloc: Global,
    rewrite: Rewrite<'r>,
    found: bool,
    /// What was written of the file.
    diff: Diff,
}

/// A text with the line feed that ends it.
fn with_end(alloc: Global, text: &Text<'_>) -> Result<Vec<u8>, AllocError> {
    let mut bytes = Vec::from_slice(alloc, text.bytes())?;
    bytes.extend_from_slice(text.end)?;
    Ok(bytes)
}

impl<'r> Preview<'r> {
    /// Shows what is replaced in this way.
    pub(crate) fn new(alloc: Global, rewrite: Rewrite<'r>) -> Preview<'r> {
        Preview {
            alloc,
            rewrite,
            found: false,
            diff: Diff::new(),
        }
    }

    /// Writes what changes where this takes the place of a text.
    fn write_new<W: Write>(
        &mut self,
        text: &Text<'_>,
        new: &mut Vec<u8>,
        out: &mut W,
    ) -> Result<(), Fault> {
        let old = with_end(self.alloc, text)?;
        new.extend_from_slice(text.end)?;
        self.diff.write_part(text, &old, new, out)?;
        Ok(())
    }
}

impl TextWork for Preview<'_> {
    fn text<W: Write>(&mut self, text: &Text<'_>, out: &mut W) -> Result<(), Fault> {
        let Some(mut new) = self.rewrite.rewrite(text.content)? else {
            return Ok(());
        };
        self.found = true;
        if new.as_slice() == text.bytes() {
            return Ok(());
        }
        self.write_new(text, &mut new, out)
    }

    fn required(&self) -> Option<&ByteSet> {
        self.rewrite.required()
    }

    fn end<W: Write>(&mut self, _file: &str, _out: &mut W) -> Result<(), Fault> {
        self.diff = Diff::new();
        Ok(())
    }

    fn found(&self) -> bool {
        self.found
    }
}
