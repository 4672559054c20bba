//! The lines of what was read, of which some are passed over.

ghost use Rattle.std.specs.Prelude.{◌≡◌, ◌≤◌, ◌++◌, length};
ghost use Rattle.loft_texts.specs.Contents.{bytes_of};

use crate::content::Content;
use crate::fault::Fault;
use crate::inputs::TextWork;
use crate::text::{Text, wide};
use fancy_bytes::byte_set::ByteSet;
use memchr::{memchr, memchr_iter, memrchr};
use std::io::Write;

/// How far a file was read, line by line.
#[derive(Drop)]
pub(crate) struct Reading<'f> {
    file: &'f str,
    /// The number of the next line, from 1 on.
    line: u64,
    /// Where it starts, in bytes.
    pub(crate) offset: u64,
    /// A byte that each line has which the work is to see.
    mark: Option<u8>,
}

/// What a block of lines begins with.
#[derive(Clone, Copy)]
struct Cut<'b> {
    /// Lines that are passed over.
    passed: Content<'b>,
    /// The line after them, with its line feed.
    line: Content<'b>,
    /// What follows.
    rest: Content<'b>,
}

/// Where the line starts that ends at a place or goes on there.
pub(crate) fn line_start(bytes: &[u8], at: usize) -> usize
    requires { at ≤ length bytes.now }
    ensures { result ≤ at }
{
    match memrchr(b'\n', &bytes[..at]) {
        Some(feed) => feed + 1,
        None => 0,
    }
}

/// How long the first line is, with its line feed.
fn line_length(bytes: &[u8]) -> usize
    ensures { result ≤ length bytes.now }
{
    match memchr(b'\n', bytes) {
        Some(feed) => feed + 1,
        None => bytes.len(),
    }
}

/// Where a byte stands first, or else the end; the start where there is no byte to look for.
fn mark_place(bytes: &[u8], mark: Option<u8>) -> usize
    ensures { result ≤ length bytes.now }
{
    let Some(mark) = mark else {
        return 0;
    };
    match memchr(mark, bytes) {
        Some(place) => place,
        None => bytes.len(),
    }
}

/// Cuts off the lines before the first one with a mark, and that line.
fn cut_off<'b>(block: Content<'b>, mark: Option<u8>) -> Cut<'b>
    ensures whole { bytes_of result.passed ++ (bytes_of result.line ++ bytes_of result.rest)
        ≡ bytes_of block.entry }
{
    let bytes = block.bytes();
    let (passed, rest) = block.split_at(line_start(bytes, mark_place(bytes, mark)));
    let (line, rest) = rest.split_at(line_length(rest.bytes()));
    Cut { passed, line, rest }
}

/// How often a byte stands in a text.
fn count_of(byte: u8, text: &[u8]) -> usize {
    let mut count = 0usize;
    for _ in memchr_iter(byte, text) {
        count = count.saturating_add(1);
    }
    count
}

/// The byte of a set that stands least often in a text; none of an empty set.
fn rarest(set: &ByteSet, text: &[u8]) -> Option<u8> {
    let mut rarest = None;
    let mut least = usize::MAX;
    for byte in set.iter() {
        let count = count_of(byte, text);
        if rarest.is_none() || count < least {
            rarest = Some(byte);
            least = count;
        }
    }
    rarest
}

/// A line as a text: what is before its line feed, and that line feed.
fn text_of_line<'t>(file: &'t str, line: u64, offset: u64, content: Content<'t>) -> Text<'t>
    ensures whole { bytes_of result.content ++ result.end.now ≡ bytes_of content.entry }
{
    let bytes = content.bytes();
    let length = match bytes.last() {
        Some(b'\n') => bytes.len() - 1,
        _ => bytes.len(),
    };
    let (content, end) = content.split_at(length);
    Text {
        file,
        line,
        offset,
        content,
        end: end.bytes(),
        lines: None,
    }
}

impl<'f> Reading<'f> {
    /// The start of a file.
    pub(crate) fn new(file: &'f str) -> Reading<'f> {
        Reading {
            file,
            line: 1,
            offset: 0,
            mark: None,
        }
    }

    /// Passes over the lines that lack a byte of a set, if it is told one: the byte that stands least
    /// often in a text.
    pub(crate) fn look_for(&mut self, required: Option<&ByteSet>, text: &[u8]) {
        if let Some(required) = required {
            self.mark = rarest(required, text);
        }
    }

    /// Goes on past so many lines, which have these bytes.
    fn advance(&mut self, lines: usize, bytes: &[u8]) {
        self.line = self.line.saturating_add(wide(lines));
        self.offset = self.offset.saturating_add(wide(bytes.len()));
    }

    /// Hands lines to the work, until no more are wanted.
    pub(crate) fn hand_on<V: TextWork, W: Write>(
        &mut self,
        lines: &[u8],
        work: &mut V,
        out: &mut W,
    ) -> Result<(), Fault> {
        let mut rest = Content::of(lines);
        for _ in lines {
            if work.is_done() {
                return Ok(());
            }
            let cut = cut_off(rest, self.mark);
            let passed = cut.passed.bytes();
            work.pass(passed, out)?;
            self.advance(count_of(b'\n', passed), passed);
            if cut.line.bytes().is_empty() {
                return Ok(());
            }
            let line = cut.line.as_text_if_it_is();
            work.text(&text_of_line(self.file, self.line, self.offset, line), out)?;
            self.advance(1, line.bytes());
            rest = cut.rest;
        }
        Ok(())
    }
}
