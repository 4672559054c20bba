//! Highlights a source: each kind of token has its mark, `kind:text`.

use anyhow::Result;
use fancy_regex::{Error, RegexInput, RegexSet, RuntimeError};
use std::alloc::Global;
use std::fs;
use std::rt::Files;

/// The names of the kinds, in the order of the patterns.
const KINDS: [&str; 6] = ["keyword", "name", "number", "string", "comment", "other"];

/// Keywords, names, numbers, strings, comments, and any other character. A word that is a keyword and a name is a keyword,
/// since that comes first.
fn kinds(alloc: Global) -> fancy_regex::Result<RegexSet> {
    let patterns = [
        "fn|let|if|else|return",
        r"[A-Za-z_]\w*",
        r"\d+(?:\.\d+)?",
        r#""(?:[^"\\]|\\.)*""#,
        "//.*",
        r"\S",
    ];
    RegexSet::new(alloc, &patterns)
}

/// Prints the tokens of a line, with a mark before each. Where no pattern matches, as at a blank, the line is printed as it is.
fn highlight(rt: &impl Print, kinds: &RegexSet, line: &str) -> Result<()> {
    let mut at = 0usize;
    for _ in 0..=line.len() {
        let input = RegexInput::new(line).from_pos(at);
        if !kinds.can_search(&input) {
            return Ok(());
        }
        for token in kinds.tokens(input) {
            match token {
                Ok(token) => {
                    let kind = KINDS.get(token.pattern()).unwrap_or(&"other");
                    print!(rt; "[{kind}:{}]", token.as_str())?;
                    at = token.end();
                }
                Err(Error::RuntimeError(RuntimeError::Unmatched(_))) => {}
                Err(error) => return Err(error.into()),
            }
        }
        let Some(next) = line.get(at..).and_then(|rest| rest.chars().next()) else {
            println!(rt; "")?;
            return Ok(());
        };
        print!(rt; "{next}")?;
        at = at.saturating_add(next.len_utf8());
    }
    Ok(())
}

/// Highlights the lines of a file.
pub(crate) fn highlight_file(rt: &(impl Print + Files + AllocGlobal), path: &str) -> Result<()> {
    let source = fs::read_to_string(rt, path)?;
    let kinds = kinds(rt.alloc())?;
    for line in source.as_str().lines() {
        highlight(rt, &kinds, line)?;
    }
    Ok(())
}
