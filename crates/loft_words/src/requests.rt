//! What the words of a command line ask for.

use crate::asked::{
    Colours, Command, PatternOptions, PatternWork, Replacement, Report, RulesWork, Task, Way,
};
use crate::program::program;
use crate::words::{Verb, verb_of};
use clap::{ArgMatches, Error};
use std::alloc::{AllocError, Global};

/// What the words of a command line ask for.
#[derive(Drop)]
pub enum Request<'w> {
    /// A command.
    Do(Command<'w>),
    /// A text to be shown: help, or the version.
    Show(String),
    /// The words are refused, as this text tells.
    Refuse(String),
}

/// Reads the words of a command line, the program's name first.
pub fn read_words<'w>(alloc: Global, words: &'w [String]) -> Result<Request<'w>, AllocError> {
    let program = program(alloc)?;
    match program.try_get_matches_from(words) {
        Ok(matches) => read_matches(alloc, &matches),
        Err(error) => answer(alloc, &error),
    }
}

/// The text of help, or of a fault in the words.
fn answer<'w>(alloc: Global, error: &Error) -> Result<Request<'w>, AllocError> {
    let text = format!(in alloc; "{error}")?;
    Ok(if error.use_stderr() {
        Request::Refuse(text)
    } else {
        Request::Show(text)
    })
}

/// What the command among the words does, and its own words.
fn subcommand<'m, 'w>(matches: &'m ArgMatches<'w>) -> Option<(Verb, &'m ArgMatches<'w>)> {
    let (name, matches) = matches.subcommand()?;
    Some((verb_of(name)?, matches))
}

/// The command that was met among the words.
fn read_matches<'w>(alloc: Global, matches: &ArgMatches<'w>) -> Result<Request<'w>, AllocError> {
    let Some((verb, matches)) = subcommand(matches) else {
        return Ok(Request::Refuse(String::from_str(alloc, "error: a command is wanted\n")?));
    };
    Ok(Request::Do(command_of(alloc, verb, matches)?))
}

/// A command with the words that were met for it.
fn command_of<'w>(
    alloc: Global,
    verb: Verb,
    matches: &ArgMatches<'w>,
) -> Result<Command<'w>, AllocError> {
    let files = files_of(alloc, matches)?;
    Ok(Command {
        task: task_of(verb, matches),
        options: options_of(matches),
        whole: matches.get_flag("multiline") || matches!(verb, Verb::Tokens),
        files,
    })
}

/// The names of files among the words; `-` alone, where there is none.
fn files_of<'w>(alloc: Global, matches: &ArgMatches<'w>) -> Result<Vec<&'w str>, AllocError> {
    let mut files = Vec::new(alloc);
    if let Some(names) = matches.get_strs("FILE") {
        files.extend_from_slice(names)?;
    }
    if files.is_empty() {
        files.push("-")?;
    }
    Ok(files)
}

/// The text of a word that is there, as each command's own words are.
fn word_of<'w>(matches: &ArgMatches<'w>, name: &str) -> &'w str {
    matches.get_str(name).unwrap_or("")
}

/// What a command does with the words that were met.
fn task_of<'w>(verb: Verb, matches: &ArgMatches<'w>) -> Task<'w> {
    match verb {
        Verb::Find => by_pattern(matches, find_of(matches)),
        Verb::Replace => by_pattern(matches, replace_of(matches)),
        Verb::Split => by_pattern(matches, split_of(matches)),
        Verb::Tokens => by_rules(matches, tokens_of(matches)),
        Verb::Check => by_rules(matches, RulesWork::Check),
        Verb::Explain => Task::Explain {
            pattern: word_of(matches, "PATTERN"),
        },
        Verb::Manual => Task::Manual,
    }
}

/// This work, with the pattern among the words.
fn by_pattern<'w>(matches: &ArgMatches<'w>, work: PatternWork<'w>) -> Task<'w> {
    Task::ByPattern {
        pattern: word_of(matches, "PATTERN"),
        work,
    }
}

/// This work, with the list of rules among the words.
fn by_rules<'w>(matches: &ArgMatches<'w>, work: RulesWork) -> Task<'w> {
    Task::ByRules {
        list: word_of(matches, "rules"),
        work,
    }
}

/// The work of `find`.
fn find_of<'w>(matches: &ArgMatches<'w>) -> PatternWork<'w> {
    PatternWork::Find {
        report: report_of(matches),
        colours: colours_of(matches),
    }
}

/// The work of `split`.
fn split_of<'w>(matches: &ArgMatches<'w>) -> PatternWork<'w> {
    let terminator = if matches.get_flag("null") { 0 } else { b'\n' };
    PatternWork::Split { terminator }
}

/// The work of `tokens`.
fn tokens_of(matches: &ArgMatches<'_>) -> RulesWork {
    if matches.get_flag("highlight") {
        RulesWork::Highlight
    } else {
        RulesWork::Tokens
    }
}

/// What `find` writes of a text that matches.
fn report_of(matches: &ArgMatches<'_>) -> Report {
    if matches.get_flag("json") {
        Report::Json
    } else if matches.get_flag("files-with-matches") {
        Report::Names
    } else if matches.get_flag("count") {
        Report::Counts
    } else if matches.get_flag("groups") {
        Report::Groups
    } else if matches.get_flag("only-matching") {
        Report::Matches
    } else {
        Report::Lines
    }
}

/// When `find` colours matches.
fn colours_of(matches: &ArgMatches<'_>) -> Colours {
    match matches.get_str("color") {
        Some("always") => Colours::Always,
        Some("never") => Colours::Never,
        _ => Colours::Auto,
    }
}

/// The work of `replace`.
fn replace_of<'w>(matches: &ArgMatches<'w>) -> PatternWork<'w> {
    let by = Replacement {
        with: word_of(matches, "REPLACEMENT"),
        literal: matches.get_flag("literal"),
        limit: matches.get_one::<usize>("limit").unwrap_or(0),
    };
    PatternWork::Replace {
        by,
        way: way_of(matches),
    }
}

/// Where replaced texts go.
fn way_of(matches: &ArgMatches<'_>) -> Way {
    if matches.get_flag("preview") {
        Way::Preview
    } else if matches.get_flag("in-place") {
        Way::InPlace
    } else {
        Way::Print
    }
}

/// How patterns are read.
fn options_of(matches: &ArgMatches<'_>) -> PatternOptions {
    PatternOptions {
        ignore_case: matches.get_flag("ignore-case"),
        line_anchors: matches.get_flag("line-anchors"),
        dot_all: matches.get_flag("dot-all"),
        extended: matches.get_flag("extended"),
        crlf: matches.get_flag("crlf"),
        ascii: matches.get_flag("ascii"),
        longest: matches.get_flag("longest"),
        seek: matches.get_flag("seek"),
        backtrack_limit: matches.get_one::<usize>("backtrack-limit"),
        step_limit: matches.get_one::<usize>("step-limit"),
    }
}
