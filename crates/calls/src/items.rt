//! What calls answer, as items.

ghost use Rattle.std.specs.Iterator.{IsFinite};

use crate::fields::{
    write_bool, write_byte, write_bytes, write_indexed, write_number, write_refusal, write_span,
    write_text,
};
use fancy_regex::{
    ByteSet, Captures, Input, Match, MatchBytes, Regex, RegexSet, RegexSetMatch, Result, Token,
};
use std::alloc::Global;
use std::borrow::CowStr;
use std::io;

/// What an item tells.
pub(crate) trait Item {
    /// Writes what the item tells, without the `|` after it.
    fn tell<W: io::Write>(&self, out: &mut W);
}

/// Writes what a call answers as an item.
pub(crate) fn write_item<T: Item + Drop, W: io::Write>(answer: Result<T>, out: &mut W) {
    match answer {
        Ok(item) => {
            item.tell(out);
            write_text("|", out);
        }
        Err(error) => write_refusal(&error, out),
    }
}

/// Writes the items of a list, those after a refusal too.
pub(crate) fn write_all<T: Item + Drop, I: Iterator<Item = Result<T>> + Drop, W: io::Write>(
    items: I,
    out: &mut W,
)
    requires can { I.can_next items }
    requires ends { IsFinite (I.remaining items) }
{
    for item in items {
        write_item(item, out);
    }
}

impl Item for () {
    fn tell<W: io::Write>(&self, out: &mut W) {
        write_text("fits", out);
    }
}

impl Item for bool {
    fn tell<W: io::Write>(&self, out: &mut W) {
        write_bool(*self, out);
    }
}

impl Item for &str {
    fn tell<W: io::Write>(&self, out: &mut W) {
        write_bytes(self.as_bytes(), out);
    }
}

impl Item for String {
    fn tell<W: io::Write>(&self, out: &mut W) {
        write_bytes(self.as_str().as_bytes(), out);
    }
}

impl Item for CowStr<'_, Global> {
    fn tell<W: io::Write>(&self, out: &mut W) {
        write_bytes(self.as_str().as_bytes(), out);
    }
}

impl<T: Item> Item for Option<T> {
    fn tell<W: io::Write>(&self, out: &mut W) {
        match self {
            Some(item) => item.tell(out),
            None => write_text("none", out),
        }
    }
}

impl Item for Match<'_> {
    fn tell<W: io::Write>(&self, out: &mut W) {
        write_span((self.start(), self.end()), out);
    }
}

impl Item for MatchBytes<'_> {
    fn tell<W: io::Write>(&self, out: &mut W) {
        write_span((self.start(), self.end()), out);
    }
}

/// Tells the groups, with a comma after each.
impl<M: Item, S: Input<Match = M>> Item for Captures<'_, S> {
    fn tell<W: io::Write>(&self, out: &mut W) {
        for group in self.iter() {
            group.tell(out);
            write_text(",", out);
        }
    }
}

impl Item for RegexSetMatch<'_, &str> {
    fn tell<W: io::Write>(&self, out: &mut W) {
        write_indexed(self.pattern(), (self.start(), self.end()), out);
    }
}

impl Item for Token<'_, &str> {
    fn tell<W: io::Write>(&self, out: &mut W) {
        write_indexed(self.pattern(), (self.start(), self.end()), out);
    }
}

/// Tells what is known of a regex without a search.
impl Item for Regex {
    fn tell<W: io::Write>(&self, out: &mut W) {
        write_number(self.captures_len(), out);
        write_text(" groups, easy ", out);
        write_bool(self.is_easy(), out);
        write_text(", ", out);
        write_bytes(self.as_str().as_bytes(), out);
    }
}

impl Item for RegexSet {
    fn tell<W: io::Write>(&self, out: &mut W) {
        write_number(self.len(), out);
        write_text(" patterns", out);
    }
}

impl Item for ByteSet {
    fn tell<W: io::Write>(&self, out: &mut W) {
        write_number(self.len(), out);
        write_text(" bytes", out);
        for byte in self.iter() {
            write_text(" ", out);
            write_byte(byte, out);
        }
    }
}
