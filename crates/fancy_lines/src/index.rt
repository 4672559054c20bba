//! The index of the lines of a text.

ghost use Rattle.std.specs.Prelude.{◌≡◌, ◌≤◌, ℕ, length, take, drop, leb, IfSome, IfOk, None, vec_len};
ghost use Rattle.fancy_lines.specs.LineColumns.{IsAt, starts_after, start_at, breaks, begins_character, characters, line_before, IsAtCharacter};

use std::alloc::{AllocError, Global};

/// A place in a text by line and column, both counted from 0.
#[derive(Clone, Copy, PartialEq, Eq, Debug)]
pub struct LineColumn {
    /// How many line feeds are before the place.
    pub line: usize,
    /// How far the place is from the start of its line.
    pub column: usize,
}

/// The lines of a text. A line ends with its line feed, which is in it; what follows the last one is a line too, perhaps an
/// empty one. Made in time in proportion to the text; a question takes time in proportion to the logarithm of the lines.
#[derive(Drop)]
pub struct LineIndex<'t> {
    text: &'t [u8],
    /// Where each line but the first starts.
    starts: Vec<usize>,
    pub ghost whole: { starts.items ≡ starts_after 0 text.now },
}

/// Where each line but the first starts.
fn starts_of(alloc: Global, text: &[u8]) -> Result<Vec<usize>, AllocError>
    ensures { IfOk result (λ starts. starts.items ≡ starts_after 0 text.now) }
{
    let mut starts = Vec::new(alloc);
    for at in 0..text.len() {
        if text[at] == b'\n' {
            starts.push(at + 1)?;
        }
    }
    Ok(starts)
}

/// Whether a byte begins a character: none of 80 to BF does.
fn begins_character(byte: u8) -> bool
    ensures { result ≡ begins_character byte }
{
    byte < 0x80 || byte >= 0xC0
}

/// How many characters begin in the bytes.
fn characters_in(bytes: &[u8]) -> usize
    ensures { result ≡ characters bytes.now }
{
    bytes.iter().filter(|byte| begins_character(**byte)).count()
}

/// Where the character stands that so many begin before; the end where there are no more.
fn after_characters(bytes: &[u8], count: usize) -> usize {
    bytes
        .iter()
        .enumerate()
        .filter(|(_, byte)| begins_character(**byte))
        .nth(count)
        .map_or(bytes.len(), |(at, _)| at)
}

impl<'t> LineIndex<'t> {
    /// Finds the lines of the text.
    pub fn new(alloc: Global, text: &'t [u8]) -> Result<LineIndex<'t>, AllocError>
        ensures { IfOk result (λ index. index.text.now ≡ text.now) }
    {
        let starts = starts_of(alloc, text)?;
        Ok(LineIndex { text, starts })
    }

    /// The text.
    pub fn text(&self) -> &'t [u8]
        ensures { result ≡ self.now.text }
    {
        self.text
    }

    /// How many of the lines but the first start at this offset or before.
    fn starts_up_to(&self, offset: usize) -> usize
        requires { offset ≤ length self.now.text.now }
        ensures bound { result ≤ vec_len self.now.starts }
        ensures value { breaks (take offset self.now.text.now) ≡ result }
    {
        self.starts.as_slice().partition_point(
            |start: &usize| -> bool
                ensures { result ≡ leb start.now offset }
            { *start <= offset },
        )
    }

    /// Where a line starts. There must be such a line.
    fn start_of(&self, line: usize) -> usize
        requires { line ≤ vec_len self.now.starts }
        ensures { result ≡ start_at 0 self.now.starts.items line }
    {
        if line == 0 { 0 } else { self.starts[line - 1] }
    }

    /// The line and the column of a byte offset, the column in bytes. `None` past the end of the text.
    pub fn line_column(&self, offset: usize) -> Option<LineColumn>
        ensures at { IfSome result (λ p. IsAt self.now.text.now offset p.line p.column) }
        ensures none { result ≡ None → offset ≤ length self.now.text.now → ⊥ }
    {
        if offset > self.text.len() {
            return None;
        }
        let line = self.starts_up_to(offset);
        let column = offset - self.start_of(line);
        Some(LineColumn { line, column })
    }

    /// The byte offset of a column of a line, the column in bytes. `None` where the text has no such place.
    pub fn offset(&self, place: LineColumn) -> Option<usize>
        ensures at { IfSome result (λ o. IsAt self.now.text.now o place.line place.column) }
        ensures none { result ≡ None → (o : ℕ) → IsAt self.now.text.now o place.line place.column → ⊥ }
    {
        if place.line > self.starts.len() {
            return None;
        }
        let start = self.start_of(place.line);
        if place.column > self.text.len().saturating_sub(start) {
            return None;
        }
        let offset = start + place.column;
        match self.line_column(offset) {
            Some(found) if found.line == place.line => Some(offset),
            _ => None,
        }
    }

    /// The line and the column of a byte offset, the column in characters: how many begin in the line before it, each byte
    /// but 80 to BF being the first of one. Takes time in proportion to the line, too. `None` past the end of the text.
    pub fn line_column_in_characters(&self, offset: usize) -> Option<LineColumn>
        ensures at { IfSome result (λ p. IsAtCharacter self.now.text.now offset p.line p.column) }
        ensures none { result ≡ None → offset ≤ length self.now.text.now → ⊥ }
    {
        let found = self.line_column(offset)?;
        let column = characters_in(&self.text[offset - found.column..offset]);
        Some(LineColumn {
            line: found.line,
            column,
        })
    }

    /// The byte offset of a column of a line, the column in characters, where a character begins or the text ends. `None` where
    /// the text has no such place. Takes time in proportion to what follows the line's start, too.
    pub fn offset_in_characters(&self, place: LineColumn) -> Option<usize>
        ensures { IfSome result (λ o. IsAtCharacter self.now.text.now o place.line place.column) }
    {
        let start = self.offset(LineColumn {
            line: place.line,
            column: 0,
        })?;
        let offset = start.checked_add(after_characters(self.text.get(start..)?, place.column))?;
        let found = self.line_column_in_characters(offset)?;
        (found.line == place.line && found.column == place.column).then_some(offset)
    }
}
