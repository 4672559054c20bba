//! Templates, and texts whose matches are replaced.

use crate::cases::{Ask, Asked};
use crate::fields::{write_bytes, write_number, write_refusal, write_text};
use crate::items::{Item, write_item};
use crate::searches::cannot;
use fancy_regex::{
    Captures, Error, Expander, NoExpand, Regex, RegexInput, ReplaceFn, Replacer, Result,
};
use std::alloc::Global;
use std::io;

impl Ask for Captures<'_, &str> {
    fn ask<W: io::Write>(&self, asked: Asked<'_>, out: &mut W) {
        match asked.call {
            "expand" => expand(self, asked, out),
            "write" => write(self, asked, out),
            _ => read(self, out),
        }
    }
}

/// The text with matches replaced by the template: the first ones, so many as the line says, the first, and all; and so many by
/// it as a plain text.
pub(crate) fn replace<W: io::Write>(regex: &Regex, asked: Asked<'_>, out: &mut W) {
    if !regex.can_search(&RegexInput::new(asked.text)) {
        return cannot(out);
    }
    let (text, limit, template) = (asked.text, asked.number, asked.template);
    write_item(regex.replacen(text, limit, template), out);
    write_item(regex.replace(text, template), out);
    write_item(regex.try_replacen(text, limit, NoExpand(template)), out);
    write_item(regex.replace_all(text, template), out);
}

/// The text of the last group between `<` and `>`, or the two alone where it took no part.
fn marked(alloc: Global, captures: &Captures<'_, &str>) -> Result<String> {
    let text = last_text(captures);
    Ok(format!(in alloc; "<{text}>")?)
}

/// The text of the last group, and the empty one where it took no part.
fn last_text<'t>(captures: &Captures<'_, &'t str>) -> &'t str {
    match captures.get(captures.len().wrapping_sub(1)) {
        Some(group) => group.as_str(),
        None => "",
    }
}

/// The text with matches replaced by a function: so many as the line says, where it is lent, and then all.
pub(crate) fn replace_by<W: io::Write>(regex: &Regex, asked: Asked<'_>, out: &mut W) {
    if !regex.can_search(&RegexInput::new(asked.text)) {
        return cannot(out);
    }
    let alloc = asked.alloc;
    let mut mark = ReplaceFn::new(|captures: &Captures<'_, &str>| marked(alloc, captures));
    write_item(
        regex.try_replacen_by(asked.text, asked.number, &mut mark),
        out,
    );
    write_item(regex.replace_all(asked.text, mark), out);
}

/// Whether the template, in both forms, refers to groups that there are.
pub(crate) fn check<W: io::Write>(regex: &Regex, asked: Asked<'_>, out: &mut W) {
    write_item(Expander::default().check(asked.template, regex), out);
    write_item(Expander::python().check(asked.template, regex), out);
}

/// Python's expander where the number of the line is 1, and else the default one.
fn expander_of(asked: Asked<'_>) -> Expander {
    match asked.number {
        1 => Expander::python(),
        _ => Expander::default(),
    }
}

/// A call that appends what a template expands to.
#[derive(Clone, Copy)]
enum Appends {
    Expander,
    Captures,
    Template,
}

/// What the template expands to, alone and after a `t`, by each call that takes memory for it.
fn expand<W: io::Write>(captures: &Captures<'_, &str>, asked: Asked<'_>, out: &mut W) {
    write_item(expander_of(asked).expansion(asked.template, captures), out);
    append(captures, asked, Appends::Expander, out);
    append(captures, asked, Appends::Captures, out);
    append(captures, asked, Appends::Template, out);
    append_bytes(captures, asked, out);
}

/// Writes what a target has after a call: with the refusal before it, if there is one.
fn write_target<W: io::Write>(answer: Result<()>, target: &[u8], out: &mut W) {
    if let Err(error) = answer {
        let _ = write!(out, "!{error} left ");
    }
    write_bytes(target, out);
    write_text("|", out);
}

fn append<W: io::Write>(
    captures: &Captures<'_, &str>,
    asked: Asked<'_>,
    appends: Appends,
    out: &mut W,
) {
    match String::from_str(asked.alloc, "t") {
        Ok(mut target) => {
            let answer = append_to(&mut target, captures, asked, appends);
            write_target(answer, target.as_str().as_bytes(), out);
        }
        Err(_) => write_refusal(&Error::Memory, out),
    }
}

/// Appends to the target what the template expands to.
fn append_to(
    target: &mut String,
    captures: &Captures<'_, &str>,
    asked: Asked<'_>,
    appends: Appends,
) -> Result<()> {
    let mut template = asked.template;
    match appends {
        Appends::Expander => expander_of(asked).append_expansion(target, template, captures),
        Appends::Captures => captures.expand(template, target),
        Appends::Template => template.replace_append(captures, target),
    }
}

fn append_bytes<W: io::Write>(captures: &Captures<'_, &str>, asked: Asked<'_>, out: &mut W) {
    let mut target = Vec::new(asked.alloc);
    let Ok(()) = target.push(b't') else {
        return write_refusal(&Error::Memory, out);
    };
    let answer = expander_of(asked).write_expansion_vec(&mut target, asked.template, captures);
    write_target(answer, &target, out);
}

/// Writes as it stands what the template expands to, for which no memory is taken.
fn write<W: io::Write>(captures: &Captures<'_, &str>, asked: Asked<'_>, out: &mut W) {
    let _ = Expander::default().write_expansion(out, asked.template, captures);
    write_text("|", out);
}

/// What is read of the groups of a match: no reader takes memory.
fn read<W: io::Write>(captures: &Captures<'_, &str>, out: &mut W) {
    write_number(captures.len(), out);
    write_text(" groups|", out);
    write_item(Ok(captures.name("n")), out);
    write_item(Ok(captures.get(captures.len())), out);
    captures.tell(out);
    write_text("|", out);
    write_bytes(captures.input_as_bytes(), out);
    write_text("|", out);
}
