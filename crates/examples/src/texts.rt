//! The functions that the README and the guide show, on groups, lists, pieces, replacement and templates. `tools/readme.py`
//! compares these pages with them.

use fancy_regex::{Captures, Expander, Regex, RegexInput, ReplaceFn, Replacer, Result};
use std::alloc::Global;
use std::borrow::CowStr;
use std::fs;
use std::rt::Files;

/// The year and the month of the first date in the text.
fn year_and_month<'t>(alloc: Global, text: &'t str) -> Result<Option<(&'t str, &'t str)>> {
    let date = Regex::new(alloc, r"(?<year>\d{4})-(?<month>\d\d)")?;
    let Some(captures) = date.captures(text)? else {
        return Ok(None);
    };
    match (captures.name("year"), captures.get(2)) {
        (Some(year), Some(month)) => Ok(Some((year.as_str(), month.as_str()))),
        _ => Ok(None),
    }
}

/// The numbers in the text, in order.
fn numbers<'t>(alloc: Global, text: &'t str) -> Result<Vec<&'t str>> {
    let number = Regex::new(alloc, r"\d+")?;
    let mut numbers = Vec::new(alloc);
    for found in number.find_iter(text) {
        numbers.push(found?.as_str())?;
    }
    Ok(numbers)
}

/// Whether the line has a match. What options the regex has is not known here, so it is asked first.
fn matches_line(regex: &Regex, line: &str) -> Result<bool> {
    let input = RegexInput::new(line);
    if !regex.can_search(&input) {
        return Ok(false);
    }
    regex.is_match_input(input)
}

/// How many lines of the text have a match.
fn lines_with(regex: &Regex, text: &str) -> Result<usize> {
    let mut count = 0usize;
    for line in text.lines() {
        if matches_line(regex, line)? {
            count = count.wrapping_add(1);
        }
    }
    Ok(count)
}

/// How many lines of the file have a date; `None` where the file cannot be read as text.
fn dates_in_file<R: Files + AllocGlobal>(rt: &R, path: &str) -> Result<Option<usize>> {
    let Ok(text) = fs::read_to_string(rt, path) else {
        return Ok(None);
    };
    let date = Regex::new(rt.alloc(), r"\d{4}-\d\d-\d\d")?;
    Ok(Some(lines_with(&date, text.as_str())?))
}

/// The fields of the line, without the blanks around its commas.
fn fields<'t>(alloc: Global, line: &'t str) -> Result<Vec<&'t str>> {
    let comma = Regex::new(alloc, r"\s*,\s*")?;
    comma.split(line).try_collect(alloc)
}

/// The text with the day first in each date.
fn day_first<'t>(alloc: Global, text: &'t str) -> Result<CowStr<'t, Global>> {
    let date = Regex::new(alloc, r"(\d{4})-(\d\d)-(\d\d)")?;
    date.replace_all(text, "$3.$2.$1")
}

/// The text with a number before each line, from 1 on.
fn with_line_numbers<'t>(alloc: Global, text: &'t str) -> Result<CowStr<'t, Global>> {
    let line = Regex::new(alloc, "(?m)^")?;
    let mut count = 0u32;
    let mut numbering = ReplaceFn::new(|_captures: &Captures<'_, &str>| {
        count = count.wrapping_add(1);
        Ok(format!(in alloc; "{count} ")?)
    });
    line.replace_all(text, numbering.by_ref())
}

/// Fails where the template names a group that a date does not have.
fn check_template(alloc: Global, template: &str) -> Result<()> {
    let date = Regex::new(alloc, r"(?<year>\d{4})-(?<month>\d\d)")?;
    Expander::default().check(template, &date)
}

/// Prints what functions find in texts.
fn show_parts(rt: &(impl Print + AllocGlobal)) -> anyhow::Result<()> {
    let date = year_and_month(rt.alloc(), "on 2026-11")?;
    println!(rt; "a date: {date:?}")?;
    let numbers = numbers(rt.alloc(), "3 and 14")?;
    println!(rt; "numbers: {numbers:?}")?;
    let fields = fields(rt.alloc(), "a , b,c")?;
    println!(rt; "fields: {fields:?}")?;
    Ok(())
}

/// Prints what functions make of texts.
fn show_replaced(rt: &(impl Print + AllocGlobal)) -> anyhow::Result<()> {
    let dated = day_first(rt.alloc(), "on 2026-11-24")?;
    println!(rt; "the day first: {}", dated.as_str())?;
    let numbered = with_line_numbers(rt.alloc(), "a\nb")?;
    println!(rt; "numbers of lines: {:?}", numbered.as_str())?;
    Ok(())
}

/// Prints whether templates fit a date.
fn show_templates(rt: &(impl Print + AllocGlobal)) -> anyhow::Result<()> {
    for template in ["${month}.$year", "$day"] {
        let fits = check_template(rt.alloc(), template).is_ok();
        println!(rt; "{template} fits: {fits}")?;
    }
    Ok(())
}

/// Prints how many lines of a text and of files have a date. The second file cannot be read.
fn show_lines(rt: &(impl Print + Files + AllocGlobal)) -> anyhow::Result<()> {
    let date = Regex::new(rt.alloc(), r"\d{4}-\d\d-\d\d")?;
    let count = lines_with(&date, "on 2026-11-24\nno\n2026-11-25")?;
    println!(rt; "lines with a date: {count}")?;
    for path in ["/dev/null", "/dev/null/none"] {
        let count = dates_in_file(rt, path)?;
        println!(rt; "in {path}: {count:?}")?;
    }
    Ok(())
}

/// Prints what each function answers.
pub(crate) fn show(rt: &(impl Print + Files + AllocGlobal)) -> anyhow::Result<()> {
    show_parts(rt)?;
    show_replaced(rt)?;
    show_templates(rt)?;
    show_lines(rt)
}
