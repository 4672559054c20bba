//! Patterns under the options of a command.

use crate::search::Search;
use fancy_regex::{ByteSet, BytesMode, Error, Regex, RegexOptionsBuilder};
use loft_texts::{Content, Fault, Rule};
use loft_words::PatternOptions;
use std::alloc::Global;

/// A pattern, and the lines that it need not search.
#[derive(Drop)]
pub(crate) struct Pattern {
    pub(crate) regex: Regex,
    /// The bytes that each line has in which it matches; none where a search of a line without them may be refused.
    pub(crate) required: Option<ByteSet>,
}

impl Pattern {
    /// The search of a text for it.
    pub(crate) fn search<'s>(&'s self, content: Content<'s>) -> Search<'s> {
        Search::new(&self.regex, content)
    }
}

/// The options of a command, as the library takes them.
pub(crate) fn library_options(chosen: &PatternOptions) -> RegexOptionsBuilder {
    let mut options = RegexOptionsBuilder::new();
    options.case_insensitive(chosen.ignore_case);
    options.multi_line(chosen.line_anchors);
    options.dot_matches_new_line(chosen.dot_all);
    options.ignore_whitespace(chosen.extended);
    options.crlf(chosen.crlf);
    options.leftmost_longest(chosen.longest);
    options.seek(chosen.seek);
    if chosen.ascii {
        options.bytes_mode(BytesMode::Ascii);
    }
    if let Some(limit) = chosen.backtrack_limit {
        options.backtrack_limit(limit);
    }
    if let Some(limit) = chosen.step_limit {
        options.step_limit(limit);
    }
    options
}

/// Reads a pattern.
pub(crate) fn read_pattern(
    alloc: Global,
    pattern: &str,
    options: &RegexOptionsBuilder,
) -> Result<Regex, Error> {
    let pattern = String::from_str(alloc, pattern)?;
    options.build(pattern)
}

/// Whether each search of a text that lacks a byte which the pattern requires finds nothing, and is not given up.
fn finds_nothing_without(regex: &Regex, chosen: &PatternOptions) -> bool {
    if regex.is_easy() {
        chosen.step_limit.is_none()
    } else {
        chosen.seek
    }
}

/// Reads the pattern of a command.
pub(crate) fn pattern_of(
    alloc: Global,
    pattern: &str,
    chosen: &PatternOptions,
) -> Result<Pattern, Error> {
    let options = library_options(chosen);
    let required = options.required_bytes(alloc, pattern)?;
    let regex = read_pattern(alloc, pattern, &options)?;
    let passes = finds_nothing_without(&regex, chosen);
    Ok(Pattern {
        regex,
        required: passes.then_some(required),
    })
}

/// Reads the patterns of rules.
pub(crate) fn read_patterns(
    alloc: Global,
    rules: &[Rule],
    options: &RegexOptionsBuilder,
) -> Result<Vec<Regex>, Fault> {
    let mut patterns = Vec::new(alloc);
    let mut number = 0u64;
    for rule in rules {
        number = number.saturating_add(1);
        match read_pattern(alloc, rule.pattern.as_str(), options) {
            Ok(pattern) => patterns.push(pattern)?,
            Err(error) => return Err(Fault::RulePattern(number, error)),
        }
    }
    Ok(patterns)
}
