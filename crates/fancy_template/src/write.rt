//! Writing to any writer.

ghost use Rattle.std.specs.Prelude.{⊤, ℕ, List, [], ◌∷◌, Option, Result, IfErr, OnOk, OnErr};
ghost use Rattle.std.specs.Io.{WritesAtMost};
ghost use Rattle.std.specs.Io.KnownBytes.{WriteAppends};
ghost use Rattle.std.specs.declared.io.Error.{Error as Fault};
ghost use Rattle.fancy_template.specs.Appended.{Writes, WritesPart};
ghost use Rattle.fancy_template.specs.Writers.{Writing, IsFault};

use std::io;
use std::io::ErrorKind;

/// What takes bytes. Each `io::Write` does.
///
/// It has a relation of what its calls may answer, so that clauses can say whose fault a refused writing is.
pub trait Writer {
    // The bytes that it holds, where they are known.
    ghost contents: { Self → Option (List ℕ) };

    // What a call may answer: the state that the writer was in, the bytes, the answer, and the state that it is in then.
    ghost answers: { Self → List ℕ → Result ℕ Fault → Self → Type 0 };

    /// Takes a beginning of the bytes, and says how many.
    fn write_some(&mut self, bytes: &[u8]) -> io::Result<usize>
        ensures bound { WritesAtMost result bytes.now }
        ensures bytes { WriteAppends (contents self.old) (contents self.new) result bytes.now }
        ensures answer { answers self.old bytes.now result self.new };
}

impl<W: io::Write> Writer for W {
    ghost contents = { W.contents };

    // `io::Write` says of the answers of its calls no more than what was taken
    ghost answers = { λ _ _ _ _. ⊤ };

    fn write_some(&mut self, bytes: &[u8]) -> io::Result<usize> {
        self.write(bytes)
    }
}

/// Writes all of a text, in as many writes as the writer wants.
///
/// A write that is refused ends it with the writer's error, and one that takes no byte with `ErrorKind::WriteZero`.
/// What the writer has taken by then is a beginning of the text, and not all of it. No write is tried again.
pub fn write_whole<W: Writer>(writer: &mut W, text: &[u8]) -> io::Result<()>
    ensures ok { OnOk result (Writes W.contents writer.old text.now writer.new) }
    ensures err { OnErr result (WritesPart W.contents writer.old text.now writer.new) }
    ensures fault { IfErr result (λ fault. IsFault W.answers fault writer.new) }
    ensures calls { Writing W.answers writer.old (text.now ∷ []) result writer.new }
{
    let mut at = 0;
    while at < text.len() {
        let (_, rest) = text.split_at(at);
        let count = writer.write_some(rest)?;
        if count == 0 {
            return Err(ErrorKind::WriteZero.into());
        }
        at += count;
    }
    Ok(())
}
