//! How a pattern is read.

use fancy_regex::{Regex, RegexOptionsBuilder};
use loft_texts::{Fault, first_hard_form, write_byte_set, write_group_name};
use std::alloc::Global;
use std::io::{self, Write};

/// Writes the groups with their names.
fn write_groups<W: Write>(regex: &Regex, out: &mut W) -> Result<(), Fault> {
    writeln!(out, "groups: {}", regex.captures_len())?;
    let mut number = 0usize;
    for name in regex.capture_names()? {
        write_group_name(number, name, out)?;
        number = number.saturating_add(1);
    }
    Ok(())
}

/// Writes whether the pattern is easy, and why it is not.
fn write_kind<W: Write>(regex: &Regex, pattern: &str, out: &mut W) -> io::Result<()> {
    if regex.is_easy() {
        return writeln!(
            out,
            "kind: easy (a search takes at most the code's length times the searched bytes plus one steps)"
        );
    }
    match first_hard_form(pattern) {
        Some((at, name)) => writeln!(out, "kind: hard (for the {name} at byte {at})"),
        None => writeln!(out, "kind: hard (by an option)"),
    }
}

/// Writes whether the pattern is easy, and how long its code is.
fn write_code<W: Write>(regex: &Regex, pattern: &str, out: &mut W) -> io::Result<()> {
    write_kind(regex, pattern, out)?;
    writeln!(out, "code: {} instructions", regex.code_len())
}

/// Writes with which bytes a match may start, and which are in each match.
fn write_needs<W: Write>(
    alloc: Global,
    pattern: &str,
    options: &RegexOptionsBuilder,
    out: &mut W,
) -> Result<(), Fault> {
    let start = options.start_bytes(alloc, pattern)?;
    write_byte_set("start", start.as_ref(), out)?;
    let required = options.required_bytes(alloc, pattern)?;
    write_byte_set("required", Some(&required), out)?;
    Ok(())
}

/// Writes how a pattern is read, which these options have made of its text.
pub(crate) fn write_explained<W: Write>(
    alloc: Global,
    regex: &Regex,
    options: &RegexOptionsBuilder,
    out: &mut W,
) -> Result<(), Fault> {
    let pattern = regex.as_str();
    writeln!(out, "pattern: {pattern}")?;
    write_groups(regex, out)?;
    write_code(regex, pattern, out)?;
    write_needs(alloc, pattern, options, out)
}
