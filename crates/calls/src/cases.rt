//! The words of a line, and what is made ready before the calls.

use crate::builds::{Nothing, regex_of, set_of};
use crate::fields::{begin, end, lent, texts_of};
use crate::sets::from_regexes;
use fancy_regex::{BytesMode, Input, RegexInput, RegexOptionsBuilder, Result};
use std::alloc::Global;
use std::io;

/// The words of a line, read.
#[derive(Clone, Copy)]
pub(crate) struct Asked<'a> {
    pub(crate) alloc: Global,
    pub(crate) call: &'a str,
    pub(crate) letters: &'a str,
    pub(crate) number: usize,
    pub(crate) text: &'a str,
    /// The text as bytes, which may be none.
    pub(crate) bytes: &'a [u8],
    pub(crate) template: &'a str,
    pub(crate) patterns: &'a [&'a str],
}

impl<'a> Asked<'a> {
    /// The first pattern, and the empty one where there is none.
    pub(crate) fn pattern(&self) -> &'a str {
        match self.patterns {
            [first, ..] => *first,
            [] => "",
        }
    }

    /// The options of the line.
    pub(crate) fn options(&self) -> RegexOptionsBuilder {
        options_of(self.letters)
    }

    /// The text from the byte offset of the line on, as its letters say.
    pub(crate) fn input(&self) -> RegexInput<&'a str> {
        input_of(self.text, self.letters).from_pos(self.number)
    }

    /// The same of its bytes.
    pub(crate) fn input_of_bytes(&self) -> RegexInput<&'a [u8]> {
        input_of(self.bytes, self.letters).from_pos(self.number)
    }
}

/// The haystack, within the range that the letters of a line give, and with their settings.
fn input_of<S: Input>(haystack: S, letters: &str) -> RegexInput<S> {
    let length = haystack.len();
    let end = number_after(letters, 'T').unwrap_or(length).min(length);
    let start = number_after(letters, 'F').unwrap_or(0).min(end);
    RegexInput::new(haystack)
        .range(start..end)
        .anchored(letters.contains('A'))
        .start_text(!letters.contains('H'))
        .end_text(!letters.contains('Z'))
        .continue_from_previous_match_end(!letters.contains('G'))
}

/// What calls are made of.
pub(crate) trait Ask {
    /// Makes the calls of the line, and writes what each answers.
    fn ask<W: io::Write>(&self, asked: Asked<'_>, out: &mut W);
}

/// The words of a line; those that it has not are empty.
fn words_of(line: &str) -> [&str; 4] {
    let mut words = [""; 4];
    let mut left = line.split(' ');
    for i in 0..4 {
        if let Some(word) = left.next() {
            words[i] = word;
        }
    }
    words
}

/// The options whose letters stand in the word, and its limits, where it has any.
pub(crate) fn options_of(letters: &str) -> RegexOptionsBuilder {
    let mut options = RegexOptionsBuilder::new();
    options
        .case_insensitive(letters.contains('i'))
        .multi_line(letters.contains('m'))
        .dot_matches_new_line(letters.contains('s'))
        .ignore_whitespace(letters.contains('x'))
        .crlf(letters.contains('R'))
        .unicode_mode(!letters.contains('U'))
        .ignore_numbered_groups_when_named_groups_exist(letters.contains('N'))
        .allow_input_assertion_overrides(letters.contains('O'))
        .find_not_empty(letters.contains('E'))
        .leftmost_longest(letters.contains('L'))
        .seek(letters.contains('S'))
        .bytes_mode(mode_of(letters));
    if let Some(limit) = number_after(letters, 'B') {
        options.backtrack_limit(limit);
    }
    if let Some(limit) = number_after(letters, 'K') {
        options.stack_limit(limit);
    }
    if let Some(limit) = number_after(letters, 'W') {
        options.step_limit(limit);
    }
    if let Some(size) = number_after(letters, 'P') {
        options.max_prog_size(size);
    }
    options
}

/// The number that a letter of the word stands before: after `B` it is 2 in `S,B2`.
pub(crate) fn number_after(letters: &str, letter: char) -> Option<usize> {
    for part in letters.split(',') {
        if let Some(number) = part.strip_prefix(letter) {
            return number.parse::<usize>().ok();
        }
    }
    None
}

fn mode_of(letters: &str) -> BytesMode {
    if letters.contains('a') {
        return BytesMode::Ascii;
    }
    if letters.contains('b') {
        return BytesMode::UnicodeBytes;
    }
    BytesMode::Unicode
}

/// Answers a line. A refusal before the calls is the answer.
pub(crate) fn answer<W: io::Write>(alloc: Global, line: &str, out: &mut W) -> Result<()> {
    let words = words_of(line);
    let texts = texts_of(alloc, words[3])?;
    answer_words(alloc, words, &texts, out)
}

/// Answers a line with these words, the last of which is split and read as texts.
fn answer_words<W: io::Write>(
    alloc: Global,
    [call, letters, number, _]: [&str; 4],
    texts: &[Vec<u8>],
    out: &mut W,
) -> Result<()> {
    let [bytes, ..] = texts else {
        return Ok(());
    };
    let lent = lent(alloc, texts)?;
    let [text, template, patterns @ ..] = lent.as_slice() else {
        return Ok(());
    };
    let asked = Asked {
        alloc,
        call,
        letters,
        number: number.parse::<usize>().unwrap_or(0),
        text: *text,
        bytes: bytes.as_slice(),
        template: *template,
        patterns,
    };
    answer_read(asked, out)
}

/// Answers a line that is read, by what its calls are made of.
fn answer_read<W: io::Write>(asked: Asked<'_>, out: &mut W) -> Result<()> {
    match asked.call {
        "build"
        | "build_again"
        | "bytes"
        | "escape"
        | "set"
        | "explain"
        | "explain_tokens"
        | "find_with" => twice(Ok(Nothing), asked, out),
        "in_set" | "groups_in_set" | "tokens" | "tell_set" => twice(set_of(asked), asked, out),
        "set_of_regexes" => from_regexes(asked, out),
        "expand" | "read" | "write" => answer_by_captures(asked, out),
        _ => twice(regex_of(asked), asked, out),
    }
}

/// Makes the calls twice.
fn twice<A: Ask + Drop, W: io::Write>(
    made: Result<A>,
    asked: Asked<'_>,
    out: &mut W,
) -> Result<()> {
    let subject = made?;
    begin(out);
    subject.ask(asked, out);
    end(out);
    subject.ask(asked, out);
    Ok(())
}

/// Answers a line whose first match is found before the calls; without one there is no answer.
fn answer_by_captures<W: io::Write>(asked: Asked<'_>, out: &mut W) -> Result<()> {
    let regex = regex_of(asked)?;
    let input = RegexInput::new(asked.text);
    if !regex.can_search(&input) {
        return Ok(());
    }
    match regex.captures_input(input)? {
        Some(captures) => twice(Ok(captures), asked, out),
        None => Ok(()),
    }
}
