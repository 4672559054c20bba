//! Files and standard input, by lines or whole.

use crate::console::Console;
use crate::content::Content;
use crate::fault::Fault;
use crate::lines::{Reading, line_start};
use crate::text::Text;
use fancy_bytes::byte_set::ByteSet;
use fancy_lines::LineIndex;
use std::alloc::Global;
use std::fs::File;
use std::io::{BufRead, BufReader, Input, Read, Write};
use std::rt::Files;
use std::time::Clock;

/// What is done with the texts of files.
pub trait TextWork {
    /// Does its work with one text.
    fn text<W: Write>(&mut self, text: &Text<'_>, out: &mut W) -> Result<(), Fault>;

    /// The bytes all of which each line has that is to be seen; none where each line is.
    fn required(&self) -> Option<&ByteSet> {
        None
    }

    /// Takes lines of which each lacks one of these bytes.
    fn pass<W: Write>(&mut self, _lines: &[u8], _out: &mut W) -> Result<(), Fault> {
        Ok(())
    }

    /// Whether nothing more of the file is wanted.
    fn is_done(&self) -> bool {
        false
    }

    /// Does what is left after the last text of a file.
    fn end<W: Write>(&mut self, _file: &str, _out: &mut W) -> Result<(), Fault> {
        Ok(())
    }

    /// Whether something was found.
    fn found(&self) -> bool;
}

/// How many bytes are read at once.
const READ_AT_ONCE: usize = 65_536;

/// Whether a name means standard input.
pub fn is_standard_input(file: &str) -> bool {
    file == "-"
}

/// All bytes of a reader.
fn read_whole<B: Read + Drop>(alloc: Global, reader: B) -> Result<Vec<u8>, Fault> {
    let mut bytes = Vec::new(alloc);
    let mut reader = BufReader::with_capacity(alloc, READ_AT_ONCE, reader).map_err(Fault::Input)?;
    reader.read_to_end(&mut bytes).map_err(Fault::Input)?;
    Ok(bytes)
}

/// All bytes of a file, or of standard input.
pub fn read_all<R: Files + Input + AllocGlobal>(rt: &R, file: &str) -> Result<Vec<u8>, Fault> {
    if is_standard_input(file) {
        return read_whole(rt.alloc(), rt.reader());
    }
    let opened = File::open(rt, file).map_err(Fault::Input)?;
    read_whole(rt.alloc(), opened)
}

/// Hands each line of the file to the work, or the whole file.
pub fn each_text<R: Files + Input + Clock + AllocGlobal, V: TextWork, W: Write, X: Write>(
    rt: &R,
    file: &str,
    work: &mut V,
    console: &mut Console<'_, W, X>,
) -> Result<(), Fault> {
    if console.whole {
        let bytes = read_all(rt, file)?;
        whole_text(rt.alloc(), file, &bytes, work, console)?;
    } else if is_standard_input(file) {
        each_line(rt, rt.reader(), file, work, console)?;
    } else {
        let opened = File::open(rt, file).map_err(Fault::Input)?;
        each_line(rt, opened, file, work, console)?;
    }
    work.end(file, console.out)
}

/// Hands a whole file to the work.
fn whole_text<V: TextWork, W: Write, X: Write>(
    alloc: Global,
    file: &str,
    bytes: &[u8],
    work: &mut V,
    console: &mut Console<'_, W, X>,
) -> Result<(), Fault> {
    let lines = LineIndex::new(alloc, bytes)?;
    let text = text_of_file(file, bytes, &lines);
    work.text(&text, console.out)
}

/// A whole file as a text.
fn text_of_file<'t>(file: &'t str, bytes: &'t [u8], lines: &'t LineIndex<'t>) -> Text<'t> {
    let lines = Some(lines);
    Text {
        file,
        line: 1,
        offset: 0,
        content: Content::of(bytes),
        end: b"",
        lines,
    }
}

/// Hands each line of a reader to the work. Lines that were read whole are not copied.
fn each_line<R: Clock + AllocGlobal, B: Read + Drop, V: TextWork, W: Write, X: Write>(
    rt: &R,
    reader: B,
    file: &str,
    work: &mut V,
    console: &mut Console<'_, W, X>,
) -> Result<(), Fault> {
    let alloc = rt.alloc();
    let mut reader = BufReader::with_capacity(alloc, READ_AT_ONCE, reader).map_err(Fault::Input)?;
    let mut line = Vec::new(alloc);
    read_lines(rt, &mut reader, &mut line, file, work, console)
}

/// Hands each line of a buffered reader to the work, by way of `line` those that it has only in part.
fn read_lines<R: Clock, B: Read, V: TextWork, W: Write, X: Write>(
    rt: &R,
    reader: &mut BufReader<B>,
    line: &mut Vec<u8>,
    file: &str,
    work: &mut V,
    console: &mut Console<'_, W, X>,
) -> Result<(), Fault> {
    let mut reading = Reading::new(file);
    for turn in 0..u64::MAX {
        line.clear();
        let taken = reader.read_until(b'\n', line).map_err(Fault::Input)?;
        if taken == 0 || work.is_done() {
            return Ok(());
        }
        if turn == 0 {
            reading.look_for(work.required(), reader.buffer());
        }
        reading.hand_on(line, work, console.out)?;
        let ahead = reader.buffer();
        let whole = line_start(ahead, ahead.len());
        reading.hand_on(&ahead[..whole], work, console.out)?;
        reader.consume(whole);
        console.tell_progress(rt, file, reading.offset);
    }
    Ok(())
}
