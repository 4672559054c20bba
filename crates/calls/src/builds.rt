//! What is made of patterns, and the calls that make it.

use crate::cases::{Ask, Asked, number_after, options_of};
use crate::explanations::explain;
use crate::items::write_item;
use crate::searches::find_with;
use fancy_regex::{Expander, Regex, RegexBuilder, RegexSet, Result, escape};
use std::io;

/// What the calls that take no regex are made of.
#[derive(Drop)]
pub(crate) struct Nothing;

impl Ask for Nothing {
    fn ask<W: io::Write>(&self, asked: Asked<'_>, out: &mut W) {
        match asked.call {
            "build" => build(asked, out),
            "build_again" => build_again(asked, out),
            "bytes" => bytes(asked, out),
            "escape" => escaped(asked, out),
            "explain" | "explain_tokens" => explain(asked, out),
            "find_with" => find_with(asked, out),
            _ => sets(asked, out),
        }
    }
}

/// The pattern of the line as a regex, under the options of the line.
pub(crate) fn regex_of(asked: Asked<'_>) -> Result<Regex> {
    regex_from(asked.pattern(), asked)
}

/// A pattern as a regex, under the options of the line.
pub(crate) fn regex_from(pattern: &str, asked: Asked<'_>) -> Result<Regex> {
    let pattern = String::from_str(asked.alloc, pattern)?;
    asked.options().build(pattern)
}

/// The patterns of the line as a set, under the options of the line, or each under its own, where a `;` stands between them.
pub(crate) fn set_of(asked: Asked<'_>) -> Result<RegexSet> {
    if asked.letters.contains(';') {
        return set_of_members(asked);
    }
    RegexSet::new_with_options(asked.alloc, asked.patterns, &asked.options())
}

/// The set of the patterns of the line, each under its own options.
fn set_of_members(asked: Asked<'_>) -> Result<RegexSet> {
    let mut letters = asked.letters.split(';');
    let mut members = Vec::new(asked.alloc);
    for pattern in asked.patterns {
        let options = options_of(letters.next().unwrap_or(""));
        let pattern = String::from_str(asked.alloc, *pattern)?;
        members.push(options.build(pattern)?)?;
    }
    Ok(RegexSet::from_regexes(members))
}

fn by_text(asked: Asked<'_>) -> Result<Regex> {
    let pattern = String::from_str(asked.alloc, asked.pattern())?;
    Regex::try_from(pattern)
}

/// Reads the pattern by each call that takes it: by those of the default options, and under the options of the line.
fn build<W: io::Write>(asked: Asked<'_>, out: &mut W) {
    write_item(Regex::new(asked.alloc, asked.pattern()), out);
    write_item(by_text(asked), out);
    write_item(regex_of(asked), out);
}

/// A builder with the pattern of the line, and the limit of its code where the line has one.
fn builder_of(asked: Asked<'_>) -> Result<RegexBuilder> {
    let mut builder = RegexBuilder::new(asked.alloc, asked.pattern())?;
    if let Some(size) = number_after(asked.letters, 'P') {
        builder.max_prog_size(size);
    }
    Ok(builder)
}

fn by_builder(asked: Asked<'_>) -> Result<Regex> {
    let builder = builder_of(asked)?;
    builder.build()
}

/// The text of the line as the pattern of a builder, in the place of the line's pattern.
fn by_builder_again(asked: Asked<'_>) -> Result<Regex> {
    let text = String::from_str(asked.alloc, asked.text)?;
    let mut builder = builder_of(asked)?;
    builder.pattern(text).build()
}

fn build_again<W: io::Write>(asked: Asked<'_>, out: &mut W) {
    write_item(by_builder(asked), out);
    write_item(by_builder_again(asked), out);
}

/// The bytes that matches start with, and those that every haystack with a match has.
fn bytes<W: io::Write>(asked: Asked<'_>, out: &mut W) {
    let options = asked.options();
    write_item(options.start_bytes(asked.alloc, asked.pattern()), out);
    write_item(options.required_bytes(asked.alloc, asked.pattern()), out);
}

/// The text of the line as a pattern for itself, and as a template for itself in both forms.
fn escaped<W: io::Write>(asked: Asked<'_>, out: &mut W) {
    write_item(escape(asked.alloc, asked.text), out);
    write_item(Expander::default().escape(asked.alloc, asked.text), out);
    write_item(Expander::python().escape(asked.alloc, asked.text), out);
}

/// Reads the patterns as a set, with the default options and under those of the line.
fn sets<W: io::Write>(asked: Asked<'_>, out: &mut W) {
    write_item(RegexSet::new(asked.alloc, asked.patterns), out);
    write_item(set_of(asked), out);
}
