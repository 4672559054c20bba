//! What each command does.

use crate::check::Check;
use crate::explain::write_explained;
use crate::find::Find;
use crate::in_place::replace_in_place;
use crate::patterns::{Pattern, library_options, pattern_of, read_pattern, read_patterns};
use crate::preview::Preview;
use crate::replace::Replace;
use crate::rewrite::Rewrite;
use crate::split::Split;
use crate::tokens::Tokens;
use fancy_regex::{Regex, RegexSet};
use loft_texts::{Console, Fault, Outcome, Rule, read_all, read_rules};
use loft_words::{Command, PatternWork, Replacement, RulesWork, Task, Way, write_manual};
use std::alloc::Global;
use std::io::{Input, Write};
use std::rt::Files;
use std::time::Clock;

/// Something was found, and there was no fault.
const FOUND: Outcome = Outcome {
    found: true,
    faulted: false,
};

/// Does what a command asks for.
pub(crate) fn outcome_of<R: Files + Input + Clock + AllocGlobal, W: Write, X: Write>(
    rt: &R,
    command: &Command<'_>,
    console: &mut Console<'_, W, X>,
) -> Result<Outcome, Fault> {
    match command.task {
        Task::ByPattern { pattern, work } => by_pattern(rt, command, pattern, work, console),
        Task::ByRules { list, work } => by_rules(rt, command, list, work, console),
        Task::Explain { pattern } => explain(rt.alloc(), command, pattern, console.out),
        Task::Manual => {
            write_manual(console.out)?;
            Ok(FOUND)
        }
    }
}

/// Writes how a pattern is read.
fn explain<W: Write>(
    alloc: Global,
    command: &Command<'_>,
    pattern: &str,
    out: &mut W,
) -> Result<Outcome, Fault> {
    let options = library_options(&command.options);
    let regex = read_pattern(alloc, pattern, &options)?;
    write_explained(alloc, &regex, &options, out)?;
    Ok(FOUND)
}

/// Does the work of a command with a pattern.
fn by_pattern<R: Files + Input + Clock + AllocGlobal, W: Write, X: Write>(
    rt: &R,
    command: &Command<'_>,
    pattern: &str,
    work: PatternWork<'_>,
    console: &mut Console<'_, W, X>,
) -> Result<Outcome, Fault> {
    let pattern = pattern_of(rt.alloc(), pattern, &command.options)?;
    search(rt, &command.files, work, &pattern, console)
}

/// Does work with a pattern on each file.
fn search<R: Files + Input + Clock + AllocGlobal, W: Write, X: Write>(
    rt: &R,
    files: &[&str],
    work: PatternWork<'_>,
    pattern: &Pattern,
    console: &mut Console<'_, W, X>,
) -> Result<Outcome, Fault> {
    match work {
        PatternWork::Find { report, colours } => {
            let colours = colours.are_wanted(console.terminals.output);
            let mut find = Find::new(pattern, report, colours);
            console.each_file(rt, files, &mut find)
        }
        PatternWork::Split { terminator } => {
            let mut split = Split::new(pattern, terminator);
            console.each_file(rt, files, &mut split)
        }
        PatternWork::Replace { by, way } => {
            let rewrite = Rewrite::new(rt.alloc(), pattern, by)?;
            replace(rt, files, rewrite, way, console)
        }
    }
}

/// Replaces matches in each file.
fn replace<R: Files + Input + Clock + AllocGlobal, W: Write, X: Write>(
    rt: &R,
    files: &[&str],
    rewrite: Rewrite<'_>,
    way: Way,
    console: &mut Console<'_, W, X>,
) -> Result<Outcome, Fault> {
    match way {
        Way::Print => {
            let mut replace = Replace::new(rewrite);
            console.each_file(rt, files, &mut replace)
        }
        Way::Preview => {
            let mut preview = Preview::new(rt.alloc(), rewrite);
            console.each_file(rt, files, &mut preview)
        }
        Way::InPlace => Ok(replace_in_place(rt, files, rewrite, console)),
    }
}

/// Does the work of a command with a list of rules.
fn by_rules<R: Files + Input + Clock + AllocGlobal, W: Write, X: Write>(
    rt: &R,
    command: &Command<'_>,
    list: &str,
    work: RulesWork,
    console: &mut Console<'_, W, X>,
) -> Result<Outcome, Fault> {
    let text = read_all(rt, list)?;
    let rules = read_rules(rt.alloc(), &text)?;
    apply(rt, command, &rules, work, console)
}

/// Does work with rules on each file.
fn apply<R: Files + Input + Clock + AllocGlobal, W: Write, X: Write>(
    rt: &R,
    command: &Command<'_>,
    rules: &[Rule],
    work: RulesWork,
    console: &mut Console<'_, W, X>,
) -> Result<Outcome, Fault> {
    let patterns = read_patterns(rt.alloc(), rules, &library_options(&command.options))?;
    match work {
        RulesWork::Check => check(rt, &command.files, rules, patterns, console),
        RulesWork::Tokens => tokens(rt, &command.files, rules, patterns, false, console),
        RulesWork::Highlight => tokens(rt, &command.files, rules, patterns, true, console),
    }
}

/// Writes where the rules match in each file.
fn check<R: Files + Input + Clock + AllocGlobal, W: Write, X: Write>(
    rt: &R,
    files: &[&str],
    rules: &[Rule],
    patterns: Vec<Regex>,
    console: &mut Console<'_, W, X>,
) -> Result<Outcome, Fault> {
    let mut check = Check::new(rules, &patterns);
    console.each_file(rt, files, &mut check)
}

/// Writes the tokens of each file.
fn tokens<R: Files + Input + Clock + AllocGlobal, W: Write, X: Write>(
    rt: &R,
    files: &[&str],
    rules: &[Rule],
    patterns: Vec<Regex>,
    highlight: bool,
    console: &mut Console<'_, W, X>,
) -> Result<Outcome, Fault> {
    let set = RegexSet::from_regexes(patterns);
    let mut tokens = Tokens::new(rules, &set, highlight);
    console.each_file(rt, files, &mut tokens)
}
