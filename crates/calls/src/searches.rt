//! Calls of a regex.

use crate::builds::regex_from;
use crate::cases::{Ask, Asked};
use crate::fields::{write_bytes, write_count, write_number, write_refusal, write_text};
use crate::items::{Item, write_all, write_item};
use crate::members::{bytes, characters};
use crate::parts;
use crate::parts::is_within;
use crate::templates::{check, replace, replace_by};
use fancy_regex::{Regex, RegexInput, Replacer, SearchCache, Work};
use std::io;

impl Ask for Regex {
    fn ask<W: io::Write>(&self, asked: Asked<'_>, out: &mut W) {
        match asked.call {
            "find" => find(self, asked, out),
            "find_from" => find_from(self, asked, out),
            "captures" => capture(self, asked, out),
            "names" => names(self, out),
            "split" => split(self, asked, out),
            "splitn" => splitn(self, asked, out),
            "replace" => replace(self, asked, out),
            "replace_by" => replace_by(self, asked, out),
            "check" => check(self, asked, out),
            "code" => write_count(self.code_len(), out),
            "bytes_in" => bytes(self, out),
            "characters_in" => characters(self, asked, out),
            "tell" => tell(self, asked, out),
            _ => search(self, asked, out),
        }
    }
}

/// Makes a call that takes an input, of text or of bytes.
fn search<W: io::Write>(regex: &Regex, asked: Asked<'_>, out: &mut W) {
    if asked.letters.contains('Y') {
        parts::ask(regex, asked, asked.input_of_bytes(), out);
    } else {
        parts::ask(regex, asked, asked.input(), out);
    }
}

/// Writes that an input cannot be searched.
pub(crate) fn cannot<W: io::Write>(out: &mut W) {
    write_text("?cannot|", out);
}

/// The first match in the whole text, by each call that takes a text.
fn find<W: io::Write>(regex: &Regex, asked: Asked<'_>, out: &mut W) {
    if !regex.can_search(&RegexInput::new(asked.text)) {
        return cannot(out);
    }
    write_item(regex.is_match(asked.text), out);
    write_item(regex.find(asked.text), out);
}

/// The first match from the byte offset of the line on, by the calls that take an input, with its counts.
fn find_from<W: io::Write>(regex: &Regex, asked: Asked<'_>, out: &mut W) {
    let input = RegexInput::new(asked.text).from_pos(asked.number);
    if !regex.can_search(&input) {
        return cannot(out);
    }
    write_item(regex.is_match_input(input.again()), out);
    write_item(regex.find_input(input.again()), out);
    write_item(regex.find_from_pos(asked.text, asked.number), out);
    let mut work = Work::new();
    write_item(regex.find_input_counted(input, &mut work), out);
    write_text("within ", out);
    write_item(Ok(is_within(regex, &work, asked.text.len())), out);
}

/// The groups of the first match in the whole text, and of the first from the byte offset of the line on.
fn capture<W: io::Write>(regex: &Regex, asked: Asked<'_>, out: &mut W) {
    let input = RegexInput::new(asked.text).from_pos(asked.number);
    if !regex.can_search(&input) {
        return cannot(out);
    }
    write_item(regex.captures(asked.text), out);
    write_item(regex.captures_from_pos(asked.text, asked.number), out);
    write_item(regex.captures_input(input), out);
}

/// The first match by each pattern of the line from its byte offset on, and its groups: all in one cache.
pub(crate) fn find_with<W: io::Write>(asked: Asked<'_>, out: &mut W) {
    let mut cache = SearchCache::new(asked.alloc);
    for pattern in asked.patterns {
        match regex_from(*pattern, asked) {
            Ok(regex) => find_in_cache(&regex, &mut cache, asked, out),
            Err(error) => write_refusal(&error, out),
        }
    }
}

/// The first match from the byte offset of the line on, and its groups, in this cache.
fn find_in_cache<W: io::Write>(
    regex: &Regex,
    cache: &mut SearchCache,
    asked: Asked<'_>,
    out: &mut W,
) {
    let input = asked.input();
    if !regex.can_search(&input) {
        return cannot(out);
    }
    write_item(regex.find_input_with(cache, input.again()), out);
    write_item(regex.captures_input_with(cache, input), out);
}

/// The names of the groups.
fn names<W: io::Write>(regex: &Regex, out: &mut W) {
    match regex.capture_names() {
        Ok(names) => {
            for name in names {
                write_item(Ok(name), out);
            }
        }
        Err(error) => write_refusal(&error, out),
    }
}

/// The pieces of the text.
fn split<W: io::Write>(regex: &Regex, asked: Asked<'_>, out: &mut W) {
    if !regex.can_search(&RegexInput::new(asked.text)) {
        return cannot(out);
    }
    write_all(regex.split(asked.text), out);
}

/// So many pieces of the text as the line says.
fn splitn<W: io::Write>(regex: &Regex, asked: Asked<'_>, out: &mut W) {
    if !regex.can_search(&RegexInput::new(asked.text)) {
        return cannot(out);
    }
    write_all(regex.splitn(asked.text, asked.number), out);
}

/// What a regex tells without a search, options that are set, iterators that are made and not asked, and the one text of a
/// template: none of it takes memory.
fn tell<W: io::Write>(regex: &Regex, asked: Asked<'_>, out: &mut W) {
    let input = RegexInput::new(asked.text).anchored(true).start_text(false);
    if !regex.can_search(&input) {
        return cannot(out);
    }
    let _ = asked.options();
    regex.tell(out);
    let next = asked.text.as_bytes().first().copied();
    write_text("|", out);
    write_item(Ok(regex.may_start_before(next)), out);
    write_item(Ok(regex.may_start_before(None)), out);
    let items = regex.captures_iter_input(input.again());
    write_bytes(items.text().as_bytes(), out);
    let matches = regex.find_iter(asked.text);
    write_text("|", out);
    write_number(matches.input().start(), out);
    write_text("|", out);
    let mut template = asked.template;
    write_item(Ok(template.no_expansion()), out);
}
