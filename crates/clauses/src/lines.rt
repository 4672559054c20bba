//! Lines and columns, and explanations of errors.

ghost use Rattle.std.specs.Prelude.{◌≡◌, ◌≤◌, IfErr, IfOk, IfSome, None, OnOk, length, ℕ};
ghost use Rattle.fancy_regex.specs.Errors.{error_name};
ghost use Rattle.fancy_regex.specs.Explained.{Explains, line_of_fault};
ghost use Rattle.fancy_regex.specs.LineColumns.{IsAt, IsAtCharacter, line_after, line_before};
ghost use Rattle.fancy_regex.specs.Writers.{IsFault};

use fancy_regex::{Error, Explain, LineColumn, LineIndex, Writer, line_at};
use std::alloc::{AllocError, Global};
use std::io;

/// An index is of the text that it was made of.
pub fn index<'t>(alloc: Global, text: &'t [u8]) -> Result<LineIndex<'t>, AllocError>
    ensures { IfOk result (λ index. index.text.now ≡ text.now) }
{
    LineIndex::new(alloc, text)
}

/// The line and the column of an offset, in bytes.
pub fn line_column(index: &LineIndex<'_>, offset: usize) -> Option<LineColumn>
    ensures at { IfSome result (λ p. IsAt index.now.text.now offset p.line p.column) }
    ensures none { result ≡ None → offset ≤ length index.now.text.now → ⊥ }
{
    index.line_column(offset)
}

/// The offset of a column of a line, in bytes.
pub fn offset(index: &LineIndex<'_>, place: LineColumn) -> Option<usize>
    ensures at { IfSome result (λ o. IsAt index.now.text.now o place.line place.column) }
    ensures none { result ≡ None → (o : ℕ) → IsAt index.now.text.now o place.line place.column → ⊥ }
{
    index.offset(place)
}

/// The line and the column of an offset, in characters.
pub fn line_column_in_characters(index: &LineIndex<'_>, offset: usize) -> Option<LineColumn>
    ensures at { IfSome result (λ p. IsAtCharacter index.now.text.now offset p.line p.column) }
    ensures none { result ≡ None → offset ≤ length index.now.text.now → ⊥ }
{
    index.line_column_in_characters(offset)
}

/// The offset of a column of a line, in characters.
pub fn offset_in_characters(index: &LineIndex<'_>, place: LineColumn) -> Option<usize>
    ensures { IfSome result (λ o. IsAtCharacter index.now.text.now o place.line place.column) }
{
    index.offset_in_characters(place)
}

/// The line that an offset is in, cut there.
pub fn line(text: &[u8], offset: usize) -> (&[u8], &[u8])
    requires { offset ≤ length text.now }
    ensures before { result.0.now ≡ line_before text.now offset }
    ensures after { result.1.now ≡ line_after text.now offset }
{
    line_at(text, offset)
}

/// An explanation begins with the name of the kind, has the line of the fault in it, and fails by its writer alone.
pub fn explanation<W: Writer>(error: &Error, pattern: &str, writer: &mut W) -> io::Result<()>
    ensures ok { OnOk result (Explains W.contents writer.old (error_name error.now)
        (line_of_fault error.now pattern.now) writer.new) }
    ensures fault { IfErr result (λ fault. IsFault W.answers fault writer.new) }
{
    error.explain(pattern, writer)
}
