//! What is searched at once: a line, or a whole file.

use crate::content::Content;
use fancy_lines::LineIndex;

/// A text, and where it stands.
#[derive(Clone, Copy)]
pub struct Text<'t> {
    /// The name of its file.
    pub file: &'t str,
    /// The number of its first line in the file, from 1 on.
    pub line: u64,
    /// Where it starts in the file, in bytes.
    pub offset: u64,
    /// What it has, without the line feed that ends it.
    pub content: Content<'t>,
    /// The line feed that ends it, or nothing.
    pub end: &'t [u8],
    /// Its lines, where it is a whole file.
    pub lines: Option<&'t LineIndex<'t>>,
}

/// A place in a file for people: line and column, both from 1 on, the column in characters.
#[derive(Clone, Copy)]
pub struct Place {
    pub line: u64,
    pub column: u64,
}

/// A number as 64 bits have it.
pub fn wide(number: usize) -> u64 {
    number as u64
}

/// How many characters begin in the bytes, each byte but 80 to BF being the first of one.
fn characters(bytes: &[u8]) -> usize {
    bytes
        .iter()
        .filter(|byte| !matches!(byte, 0x80..=0xBF))
        .count()
}

impl<'t> Text<'t> {
    /// Its bytes, without the line feed that ends it.
    pub fn bytes(&self) -> &'t [u8] {
        self.content.bytes()
    }

    /// The place of a byte of the text.
    pub fn place(&self, at: usize) -> Place {
        let found = match self.lines {
            Some(lines) => lines.line_column_in_characters(at),
            None => None,
        };
        let (line, column) = match found {
            Some(found) => (found.line, found.column),
            None => (
                0,
                characters(self.bytes().get(..at).unwrap_or(self.bytes())),
            ),
        };
        Place {
            line: self.line.saturating_add(wide(line)),
            column: wide(column).saturating_add(1),
        }
    }

    /// Where a byte of the text is in the file.
    pub fn offset_of(&self, at: usize) -> u64 {
        self.offset.saturating_add(wide(at))
    }

    /// Whether it is a whole file, and not a line.
    pub fn is_whole(&self) -> bool {
        self.lines.is_some()
    }
}
