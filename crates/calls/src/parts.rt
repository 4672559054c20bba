//! Searches and lists of an input, which is text or bytes, or a part of them.

ghost use Rattle.fancy_regex.specs.Regexes.{options_in};
ghost use Rattle.fancy_regex.specs.Searches.{CanSearchInput};

use crate::cases::Asked;
use crate::fields::{write_bytes, write_count, write_refusal, write_text};
use crate::items::{Item, write_all, write_item};
use crate::searches::cannot;
use fancy_regex::{Captures, Input, Matches, Regex, RegexInput, Result, Work};
use std::io;

/// Makes the calls of the line that take an input.
pub(crate) fn ask<M: Item + Drop, S: Input<Match = M>, W: io::Write>(
    regex: &Regex,
    asked: Asked<'_>,
    input: RegexInput<S>,
    out: &mut W,
) {
    if !regex.can_search(&input) {
        return cannot(out);
    }
    match asked.call {
        "matches" => write_all(regex.find_iter_input(input), out),
        "capture_matches" => write_all(regex.captures_iter_input(input), out),
        "list" => list(regex, input, out),
        "walk" => walk(regex.find_iter_input(input), out),
        "work" => work(regex, asked, input, out),
        "find_in" => find(regex, input, out),
        _ => count(regex, asked, input, out),
    }
}

/// Whether the counts are within the bounds of a regex that searches so many bytes.
pub(crate) fn is_within(regex: &Regex, work: &Work, length: usize) -> bool {
    let bound = regex.code_len().saturating_mul(length.saturating_add(1));
    work.returns() <= 1_000_000 && (!regex.is_easy() || work.steps() <= bound)
}

/// The first match, by the calls that take an input, with its counts.
pub(crate) fn find<M: Item + Drop, S: Input<Match = M>, W: io::Write>(
    regex: &Regex,
    input: RegexInput<S>,
    out: &mut W,
)
    requires searched { CanSearchInput S.text S.bytes (options_in regex.now) input }
{
    let length = input.haystack().len();
    write_item(regex.is_match_input(input.again()), out);
    write_item(regex.find_input(input.again()), out);
    let mut work = Work::new();
    write_item(regex.find_input_counted(input, &mut work), out);
    write_text("within ", out);
    write_item(Ok(is_within(regex, &work, length)), out);
}

/// The first match, and what is counted, where the line asks for it the steps too. Another search was counted before.
fn count<M: Item + Drop, S: Input<Match = M>, W: io::Write>(
    regex: &Regex,
    asked: Asked<'_>,
    input: RegexInput<S>,
    out: &mut W,
)
    requires searched { CanSearchInput S.text S.bytes (options_in regex.now) input }
{
    let mut work = Work::new();
    let _ = regex.find_input_counted(input.again(), &mut work);
    write_item(regex.find_input_counted(input, &mut work), out);
    if asked.call == "steps" {
        write_count(work.steps(), out);
    }
    write_count(work.returns(), out);
    write_item(Ok(work.returns() <= work.steps()), out);
}

/// The first match, the units that are gone over within steps, and whether there is more work. Then the same search where all of
/// that work is allowed, less, half of it, and none.
fn work<M: Item + Drop, S: Input<Match = M>, W: io::Write>(
    regex: &Regex,
    asked: Asked<'_>,
    input: RegexInput<S>,
    out: &mut W,
)
    requires searched { CanSearchInput S.text S.bytes (options_in regex.now) input }
{
    let mut work = Work::new();
    write_item(regex.find_input_counted(input.again(), &mut work), out);
    write_count(work.units(), out);
    let all = work.work();
    write_item(Ok(all > work.units()), out);
    for limit in [all, all.saturating_sub(1), all / 2, 0] {
        work_within(asked, input.again(), limit, out);
    }
}

/// The pattern of the line, where searches may do so much work.
fn limited(asked: Asked<'_>, limit: usize) -> Result<Regex> {
    let pattern = String::from_str(asked.alloc, asked.pattern())?;
    let mut options = asked.options();
    options.step_limit(limit).build(pattern)
}

/// The first match under a limit of work, and whether all of that work is done.
fn work_within<M: Item + Drop, S: Input<Match = M>, W: io::Write>(
    asked: Asked<'_>,
    input: RegexInput<S>,
    limit: usize,
    out: &mut W,
) {
    match limited(asked, limit) {
        Ok(regex) => find_with_work(&regex, input, limit, out),
        Err(error) => write_refusal(&error, out),
    }
}

fn find_with_work<M: Item + Drop, S: Input<Match = M>, W: io::Write>(
    regex: &Regex,
    input: RegexInput<S>,
    limit: usize,
    out: &mut W,
) {
    if !regex.can_search(&input) {
        return cannot(out);
    }
    let mut work = Work::new();
    write_item(regex.find_input_counted(input, &mut work), out);
    write_item(Ok(work.work() == limit), out);
}

/// What a list tells of what it searches, its matches, and where those start and end that come with their groups.
fn list<M: Item + Drop, S: Input<Match = M>, W: io::Write>(
    regex: &Regex,
    input: RegexInput<S>,
    out: &mut W,
)
    requires searched { CanSearchInput S.text S.bytes (options_in regex.now) input }
{
    let mut matches = regex.find_iter_input(input.again());
    write_told(matches.regex(), matches.text(), out);
    for found in matches.by_ref() {
        write_item(found, out);
    }
    write_item(Ok(matches.next().is_none()), out);
    let items = regex.captures_iter_input(input);
    write_told(items.regex(), items.text(), out);
    write_count(items.input().start(), out);
    for found in items {
        write_whole(found, out);
    }
}

/// Writes the pattern and the haystack that a list tells.
fn write_told<S: Input, W: io::Write>(regex: &Regex, haystack: S, out: &mut W) {
    write_item(Ok(regex.as_str()), out);
    write_bytes(haystack.as_bytes(), out);
    write_text("|", out);
}

/// Writes where a match starts and ends that comes with its groups.
fn write_whole<M: Item + Drop, S: Input<Match = M>, W: io::Write>(
    found: Result<Captures<'_, S>>,
    out: &mut W,
) {
    match found {
        Ok(captures) => write_item(Ok(captures.get(0)), out),
        Err(error) => write_refusal(&error, out),
    }
}

/// The matches of a list one by one, and before each and at the end where the next search starts; and that the list stays ended.
fn walk<M: Item + Drop, S: Input<Match = M>, W: io::Write>(
    mut matches: Matches<'_, S>,
    out: &mut W,
) {
    for _ in 0..matches.text().len().saturating_add(3) {
        write_count(matches.input().start(), out);
        match matches.next() {
            Some(found) => write_item(found, out),
            None => write_text("end|", out),
        }
    }
}
