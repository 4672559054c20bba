//! What an explanation says.

ghost use Rattle.std.specs.Prelude.{OnOk, IfErr, [], length, min};
ghost use Rattle.fancy_tree.specs.Errors.{error_name, parse_error_name};
ghost use Rattle.fancy_lines.specs.LineColumns.{line_of};
ghost use Rattle.fancy_template.specs.Writers.{IsFault};
ghost use Rattle.fancy_explain.specs.Explained.{Explains, WritesText, line_of_fault};

use crate::class_fault::fault_of_class;
use crate::columns::column_after;
use crate::hints;
use crate::writing::{write_blanks, write_number, write_text};
use fancy_lines::line_at;
use fancy_template::write::{Writer, write_whole};
use fancy_tree::error::{CompileError, Error, ParseErrorKind, RuntimeError};
use std::io;

/// How far the pattern's line is from the left margin.
const INDENT: usize = 4;

/// Errors that explain themselves to who writes patterns.
pub trait Explain {
    /// Writes what is wrong, the line of the pattern with a caret under the fault, and what to do. The pattern is the text that
    /// was refused.
    fn explain<W: Writer>(&self, pattern: &str, writer: &mut W) -> io::Result<()>;
}

impl Explain for Error {
    /// Writes what is wrong, the line of the pattern with a caret under the fault, and what to do. The pattern is the text that
    /// was refused.
    ///
    /// The caret stands under the fault by the columns of a terminal, with stops of tabs eight columns apart. An error that tells
    /// no place shows no line. It takes no memory but its writer's, and fails only where the writer does.
    ///
    /// ```text
    /// InvalidClass at 1:2: the range ends before it begins
    ///     [b-a]
    ///      ^
    /// hint: write the lesser end first
    /// ```
    fn explain<W: Writer>(&self, pattern: &str, writer: &mut W) -> io::Result<()>
        ensures ok { OnOk result (Explains W.contents writer.old (error_name self.now) (line_of_fault self.now pattern.now) writer.new) }
        ensures fault { IfErr result (λ fault. IsFault W.answers fault writer.new) }
    {
        match self {
            Error::ParseError(place, kind) => explain_at(pattern, *place, *kind, writer),
            _ => explain_whole(self, writer),
        }
    }
}

/// Explains an error that tells no place.
fn explain_whole<W: Writer>(error: &Error, writer: &mut W) -> io::Result<()>
    ensures ok { OnOk result (Explains W.contents writer.old (error_name error.now) ([]) writer.new) }
    ensures fault { IfErr result (λ fault. IsFault W.answers fault writer.new) }
{
    write_whole(writer, error.name().as_bytes())?;
    write_text(writer, ": ")?;
    write_text(writer, hints::message(error))?;
    write_subject(error, writer)?;
    write_hint(hints::hint(error), writer)
}

/// Writes the group, or the position, that an error is about.
fn write_subject<W: Writer>(error: &Error, writer: &mut W) -> io::Result<()>
    ensures ok { OnOk result (WritesText W.contents writer.old writer.new) }
    ensures fault { IfErr result (λ fault. IsFault W.answers fault writer.new) }
{
    match error {
        Error::CompileError(CompileError::InvalidBackref(number))
        | Error::RuntimeError(RuntimeError::Unmatched(number)) => {
            write_text(writer, " ")?;
            write_number(writer, *number)
        }
        Error::CompileError(CompileError::InvalidGroupNameBackref(name)) => {
            write_text(writer, " ")?;
            write_text(writer, name.as_str())
        }
        _ => Ok(()),
    }
}

fn write_hint<W: Writer>(hint: &str, writer: &mut W) -> io::Result<()>
    ensures ok { OnOk result (WritesText W.contents writer.old writer.new) }
    ensures fault { IfErr result (λ fault. IsFault W.answers fault writer.new) }
{
    write_text(writer, "\nhint: ")?;
    write_text(writer, hint)?;
    write_text(writer, "\n")
}

/// What is wrong, and what to do, for a fault with this text from it on.
fn message_and_hint(kind: ParseErrorKind, rest: &str) -> (&'static str, &'static str) {
    match kind {
        ParseErrorKind::InvalidClass => {
            let fault = fault_of_class(rest);
            (fault.message(), fault.hint())
        }
        _ => (hints::parse_message(kind), hints::parse_hint(kind)),
    }
}

/// Writes ` at line:column: ` and what is wrong, both counted from 1, the column in characters.
fn write_place<W: Writer>(
    pattern: &str,
    place: usize,
    before: &str,
    message: &str,
    writer: &mut W,
) -> io::Result<()>
    ensures ok { OnOk result (WritesText W.contents writer.old writer.new) }
    ensures fault { IfErr result (λ fault. IsFault W.answers fault writer.new) }
{
    let passed = pattern.get(..place).unwrap_or("");
    let feeds = passed.bytes().filter(|byte| *byte == b'\n').count();
    write_text(writer, " at ")?;
    write_number(writer, feeds.saturating_add(1))?;
    write_text(writer, ":")?;
    write_number(writer, before.chars().count().saturating_add(1))?;
    write_text(writer, ": ")?;
    write_text(writer, message)?;
    write_text(writer, "\n")?;
    write_blanks(writer, INDENT)
}

/// Writes the caret below a column.
fn write_caret<W: Writer>(before: &str, writer: &mut W) -> io::Result<()>
    ensures ok { OnOk result (WritesText W.contents writer.old writer.new) }
    ensures fault { IfErr result (λ fault. IsFault W.answers fault writer.new) }
{
    write_text(writer, "\n")?;
    write_blanks(writer, column_after(before, INDENT))?;
    write_text(writer, "^")
}

/// Explains an error at a place.
fn explain_at<W: Writer>(
    pattern: &str,
    place: usize,
    kind: ParseErrorKind,
    writer: &mut W,
) -> io::Result<()>
    ensures ok { OnOk result (Explains W.contents writer.old (parse_error_name kind) (line_of pattern.now (min place (length pattern.now))) writer.new) }
    ensures fault { IfErr result (λ fault. IsFault W.answers fault writer.new) }
{
    let place = place.min(pattern.len());
    let (before, after) = line_at(pattern.as_bytes(), place);
    let shown = std::str::from_utf8(before).unwrap_or("");
    let (message, hint) = message_and_hint(kind, pattern.get(place..).unwrap_or(""));
    write_whole(writer, kind.name().as_bytes())?;
    write_place(pattern, place, shown, message, writer)?;
    write_whole(writer, before)?;
    write_whole(writer, after)?;
    write_caret(shown, writer)?;
    write_hint(hint, writer)
}
