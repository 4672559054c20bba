//! Texts that are written one after another.

ghost use Rattle.std.specs.Prelude.{OnOk, IfErr};
ghost use Rattle.fancy_template.specs.Writers.{IsFault};
ghost use Rattle.fancy_explain.specs.Explained.{WritesText};

use fancy_template::write::{Writer, write_whole};
use itoa::Buffer;
use std::io;

/// Blanks, to be written a part at a time.
const BLANKS: &[u8] = b"                                                                ";

/// Writes a text.
pub(crate) fn write_text<W: Writer>(writer: &mut W, text: &str) -> io::Result<()>
    ensures ok { OnOk result (WritesText W.contents writer.old writer.new) }
    ensures fault { IfErr result (λ fault. IsFault W.answers fault writer.new) }
{
    write_whole(writer, text.as_bytes())
}

/// Writes a number.
pub(crate) fn write_number<W: Writer>(writer: &mut W, number: usize) -> io::Result<()>
    ensures ok { OnOk result (WritesText W.contents writer.old writer.new) }
    ensures fault { IfErr result (λ fault. IsFault W.answers fault writer.new) }
{
    let mut digits = Buffer::new();
    write_text(writer, digits.format(number))
}

/// Writes so many blanks.
pub(crate) fn write_blanks<W: Writer>(writer: &mut W, count: usize) -> io::Result<()>
    ensures ok { OnOk result (WritesText W.contents writer.old writer.new) }
    ensures fault { IfErr result (λ fault. IsFault W.answers fault writer.new) }
{
    for _ in 0..count / BLANKS.len() {
        write_whole(writer, BLANKS)?;
    }
    write_whole(writer, &BLANKS[..count % BLANKS.len()])
}
