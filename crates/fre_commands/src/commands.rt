//! What each command does.

ghost use Rattle.std.specs.Prelude.{◌≤◌};

use crate::fault::Fault;
use crate::lines::{write_group, write_line, write_numbered, write_span, write_unmatched};
use fancy_regex::{
    Captures, Error, Match, Regex, RegexInput, RegexSet, RegexSetMatchesAt, RuntimeError, Split,
    Token, Tokens,
};
use std::alloc::Global;
use std::borrow::CowStr;
use std::io;

/// Runs the command that `words`, those after the program's name, spell, and returns the program's status:
/// 0 where something was found or split, 1 where nothing was found, 2 where the command was refused.
pub fn run<W: io::Write, X: io::Write>(
    alloc: Global,
    words: &[String],
    out: &mut W,
    err: &mut X,
) -> u8
    ensures { result ≤ 2 }
{
    match command(alloc, words, out) {
        Ok(true) => 0,
        Ok(false) => 1,
        Err(fault) => {
            let _ = writeln!(err, "error: {}", fault.name());
            2
        }
    }
}

/// Whether the command found something. A split always does, since it has a piece, and so does a replacement.
fn command<W: io::Write>(alloc: Global, words: &[String], out: &mut W) -> Result<bool, Fault> {
    match words {
        [command, pattern, text] if command.as_str() == "find" => {
            find(alloc, pattern.as_str(), text.as_str(), out)
        }
        [command, pattern, text] if command.as_str() == "captures" => {
            captures(alloc, pattern.as_str(), text.as_str(), out)
        }
        [command, pattern, text] if command.as_str() == "split" => {
            split(alloc, pattern.as_str(), text.as_str(), out)
        }
        [command, pattern, text, template] if command.as_str() == "replace" => {
            let template = template.as_str();
            replace(alloc, pattern.as_str(), text.as_str(), template, out)
        }
        [command, text, patterns @ ..] if command.as_str() == "set" => {
            set(alloc, text.as_str(), patterns, out)
        }
        [command, text, patterns @ ..] if command.as_str() == "tokens" => {
            tokens(alloc, text.as_str(), patterns, out)
        }
        _ => Err(Fault::Usage),
    }
}

fn find<W: io::Write>(
    alloc: Global,
    pattern: &str,
    text: &str,
    out: &mut W,
) -> Result<bool, Fault> {
    let Some(found) = first_match(alloc, pattern, text)? else {
        return Ok(false);
    };
    write_span((found.start(), found.end()), found.as_str(), out)?;
    Ok(true)
}

fn first_match<'t>(
    alloc: Global,
    pattern: &str,
    text: &'t str,
) -> Result<Option<Match<'t>>, Error> {
    let regex = Regex::new(alloc, pattern)?;
    regex.find(text)
}

fn captures<W: io::Write>(
    alloc: Global,
    pattern: &str,
    text: &str,
    out: &mut W,
) -> Result<bool, Fault> {
    let regex = Regex::new(alloc, pattern)?;
    let captures = regex.captures(text)?;
    write_captures(captures, out)
}

/// Writes a line for each group, if there is a match.
fn write_captures<W: io::Write>(
    captures: Option<Captures<'_, &str>>,
    out: &mut W,
) -> Result<bool, Fault> {
    let Some(captures) = captures else {
        return Ok(false);
    };
    for number in 0..captures.len() {
        write_group(number, captures.get(number), out)?;
    }
    Ok(true)
}

fn split<W: io::Write>(
    alloc: Global,
    pattern: &str,
    text: &str,
    out: &mut W,
) -> Result<bool, Fault> {
    let regex = Regex::new(alloc, pattern)?;
    write_pieces(&mut regex.split(text), out)
}

/// Writes a line for each piece. The list is lent, so that no way out of the loop drops it.
fn write_pieces<W: io::Write>(pieces: &mut Split<'_, '_>, out: &mut W) -> Result<bool, Fault> {
    for piece in pieces {
        write_line(piece?, out)?;
    }
    Ok(true)
}

fn replace<W: io::Write>(
    alloc: Global,
    pattern: &str,
    text: &str,
    template: &str,
    out: &mut W,
) -> Result<bool, Fault> {
    let replaced = replaced(alloc, pattern, text, template)?;
    write_line(replaced.as_str(), out)?;
    Ok(true)
}

fn replaced<'t>(
    alloc: Global,
    pattern: &str,
    text: &'t str,
    template: &str,
) -> Result<CowStr<'t>, Error> {
    let regex = Regex::new(alloc, pattern)?;
    regex.replace_all(text, template)
}

fn set<W: io::Write>(
    alloc: Global,
    text: &str,
    patterns: &[String],
    out: &mut W,
) -> Result<bool, Fault> {
    let patterns = texts_of(alloc, patterns)?;
    let set = RegexSet::new(alloc, &patterns)?;
    let input = RegexInput::new(text);
    let matches = set.find_input(input)?;
    write_matches(matches, out)
}

/// Writes a line for each pattern that matches, if one does.
fn write_matches<W: io::Write>(
    matches: Option<RegexSetMatchesAt<'_, &str>>,
    out: &mut W,
) -> Result<bool, Fault> {
    match matches {
        Some(mut matches) => write_each_match(&mut matches, out),
        None => Ok(false),
    }
}

/// Writes a line for each match of a list.
fn write_each_match<W: io::Write>(
    matches: &mut RegexSetMatchesAt<'_, &str>,
    out: &mut W,
) -> Result<bool, Fault> {
    for found in matches {
        let found = found?;
        let span = (found.start(), found.end());
        write_numbered(found.pattern(), span, found.as_str(), out)?;
    }
    Ok(true)
}

fn tokens<W: io::Write>(
    alloc: Global,
    text: &str,
    patterns: &[String],
    out: &mut W,
) -> Result<bool, Fault> {
    let patterns = texts_of(alloc, patterns)?;
    let set = RegexSet::new(alloc, &patterns)?;
    let input = RegexInput::new(text);
    write_tokens(&mut set.tokens(input), out)
}

/// Writes a line for each token, and one for the place where no pattern gives one, if there is such a place.
fn write_tokens<W: io::Write>(tokens: &mut Tokens<'_, &str>, out: &mut W) -> Result<bool, Fault> {
    for token in tokens {
        match token {
            Ok(token) => write_token(&token, out)?,
            Err(Error::RuntimeError(RuntimeError::Unmatched(place))) => {
                write_unmatched(place, out)?;
                return Ok(false);
            }
            Err(error) => return Err(Fault::Refused(error)),
        }
    }
    Ok(true)
}

fn write_token<W: io::Write>(token: &Token<'_, &str>, out: &mut W) -> io::Result<()> {
    let span = (token.start(), token.end());
    write_numbered(token.pattern(), span, token.as_str(), out)
}

/// The texts of words.
fn texts_of(alloc: Global, words: &[String]) -> Result<Vec<&str>, Error> {
    let mut texts = Vec::new(alloc);
    for word in words {
        texts.push(word.as_str())?;
    }
    Ok(texts)
}
