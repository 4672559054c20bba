//! Calls of pattern sets.

ghost use Rattle.std.specs.Iterator.{IsFinite};

use crate::cases::{Ask, Asked};
use crate::fields::{begin, end, write_count, write_number, write_refusal, write_text};
use crate::items::{Item, write_all, write_item};
use crate::searches::cannot;
use fancy_regex::{Regex, RegexInput, RegexSet, RegexSetMatch, RegexSetMatchesAt, Result};
use std::io;

impl Ask for RegexSet {
    fn ask<W: io::Write>(&self, asked: Asked<'_>, out: &mut W) {
        match asked.call {
            "in_set" | "groups_in_set" => search(self, asked, out),
            "tokens" => tokens(self, asked, out),
            _ => tell(self, asked, out),
        }
    }
}

/// Writes a place as an item.
fn write_place<W: io::Write>(place: usize, out: &mut W) {
    write_text("at ", out);
    write_count(place, out);
}

/// The regexes of patterns, with the default options.
fn regexes_of(asked: Asked<'_>) -> Result<Vec<Regex>> {
    let mut regexes = Vec::new(asked.alloc);
    for pattern in asked.patterns {
        regexes.push(Regex::new(asked.alloc, *pattern)?)?;
    }
    Ok(regexes)
}

/// Makes a set of regexes that are there, for which no memory is taken.
pub(crate) fn from_regexes<W: io::Write>(asked: Asked<'_>, out: &mut W) -> Result<()> {
    let members = regexes_of(asked)?;
    begin(out);
    let set = RegexSet::from_regexes(members);
    let can = set.can_search(&RegexInput::new(asked.text));
    write_count(set.len(), out);
    write_item(Ok(set.is_empty()), out);
    write_item(Ok(can), out);
    end(out);
    Ok(())
}

/// A match of a set that is told with its groups.
#[derive(Drop)]
struct Grouped<'h>(RegexSetMatch<'h, &'h str>);

impl Item for Grouped<'_> {
    fn tell<W: io::Write>(&self, out: &mut W) {
        write_number(self.0.pattern(), out);
        write_text(" ", out);
        self.0.captures().tell(out);
    }
}

/// Writes the matches of a list with their groups.
fn write_grouped<'h, I, W>(matches: I, out: &mut W)
where
    I: Iterator<Item = Result<RegexSetMatch<'h, &'h str>>> + Drop,
    W: io::Write,
    requires can { I.can_next matches }
    requires ends { IsFinite (I.remaining matches) }
{
    for found in matches {
        write_item(found.map(Grouped), out);
    }
}

/// Writes the matches of a set, with their groups where the line asks for these.
fn write_matches<W: io::Write>(
    matches: RegexSetMatchesAt<'_, &str>,
    asked: Asked<'_>,
    out: &mut W,
) {
    if asked.call == "in_set" {
        write_all(matches, out);
    } else {
        write_grouped(matches, out);
    }
}

/// The matches of the set from the byte offset of the line on, after the position that they are tried at.
fn search<W: io::Write>(set: &RegexSet, asked: Asked<'_>, out: &mut W) {
    let input = asked.input();
    if !set.can_search(&input) {
        return cannot(out);
    }
    match set.find_input(input) {
        Ok(Some(matches)) => {
            write_place(matches.start(), out);
            write_matches(matches, asked, out);
        }
        Ok(None) => write_text("none|", out),
        Err(error) => write_refusal(&error, out),
    }
}

/// The tokens from the byte offset of the line on, and where their list has ended.
fn tokens<W: io::Write>(set: &RegexSet, asked: Asked<'_>, out: &mut W) {
    let input = asked.input();
    if !set.can_search(&input) {
        return cannot(out);
    }
    let mut tokens = set.tokens(input);
    for token in tokens.by_ref() {
        write_item(token, out);
    }
    write_place(tokens.place(), out);
}

/// What a set tells without a search, and a list of tokens that is made and not asked: none of it takes memory.
fn tell<W: io::Write>(set: &RegexSet, asked: Asked<'_>, out: &mut W) {
    let input = asked.input();
    if !set.can_search(&input) {
        return cannot(out);
    }
    let tokens = set.tokens(input);
    write_item(Ok(set.is_empty()), out);
    write_count(tokens.regex_set().len(), out);
    write_count(tokens.haystack().len(), out);
    write_count(tokens.place(), out);
}
