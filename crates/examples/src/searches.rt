//! The functions that the README and the guide show, on searches, options and refusals. `tools/readme.py` compares these pages
//! with them.

use fancy_regex::{
    BytesMode, Error, Regex, RegexInput, RegexOptionsBuilder, RegexSet, Result, RuntimeError,
};
use std::alloc::Global;

/// Where the first match of the pattern starts and ends.
fn first_match(alloc: Global, text: &str) -> Result<Option<(usize, usize)>> {
    let regex = Regex::new(alloc, "a|ab")?;
    match regex.find(text)? {
        Some(found) => Ok(Some((found.start(), found.end()))),
        None => Ok(None),
    }
}

/// The number that begins at this byte of the text, if one does. The regex is one for numbers, as `\d+`.
fn number_at<'t>(number: &Regex, text: &'t str, place: usize) -> Result<Option<&'t str>> {
    let input = RegexInput::new(text).from_pos(place).anchored(true);
    if !number.can_search(&input) {
        return Ok(None);
    }
    match number.find_input(input)? {
        Some(found) => Ok(Some(found.as_str())),
        None => Ok(None),
    }
}

/// How long the header of a file is: two marks, and all up to a zero byte.
fn header_len(alloc: Global, file: &[u8]) -> Result<Option<usize>> {
    let pattern = String::from_str(alloc, r"\A\xFF\xD8[^\x00]*\x00")?;
    let header = RegexOptionsBuilder::new()
        .bytes_mode(BytesMode::Ascii)
        .build(pattern)?;
    match header.find(file)? {
        Some(found) => Ok(Some(found.end())),
        None => Ok(None),
    }
}

/// Whether a line of the text is the word "stop", in any case.
fn says_stop(alloc: Global, text: &str) -> Result<bool> {
    let pattern = String::from_str(alloc, "^stop$")?;
    let mut options = RegexOptionsBuilder::new();
    options.multi_line(true).case_insensitive(true);
    let stop = options.build(pattern)?;
    stop.is_match(text)
}

/// Whether the text has a word twice in a row; `None` where the search would take more than 1,000 returns.
fn has_a_word_twice(alloc: Global, text: &str) -> Result<Option<bool>> {
    let pattern = String::from_str(alloc, r"\b(\w+) \1\b")?;
    let twice = RegexOptionsBuilder::new()
        .backtrack_limit(1000)
        .build(pattern)?;
    match twice.is_match(text) {
        Ok(found) => Ok(Some(found)),
        Err(Error::RuntimeError(RuntimeError::BacktrackLimitExceeded)) => Ok(None),
        Err(error) => Err(error),
    }
}

/// The byte of the pattern at which a fault was found, if it has one.
fn place_of_fault(alloc: Global, pattern: &str) -> Result<Option<usize>> {
    match Regex::new(alloc, pattern) {
        Ok(_) => Ok(None),
        Err(Error::ParseError(place, _kind)) => Ok(Some(place)),
        Err(error) => Err(error),
    }
}

/// Blanks, numbers and words, of the kinds 0, 1 and 2.
fn kinds_of_tokens(alloc: Global) -> Result<RegexSet> {
    RegexSet::new(alloc, &[r"\s+", r"\d+", r"\w+"])
}

/// Which kind of token the text begins with, and how many bytes it takes.
fn first_token(kinds: &RegexSet, text: &str) -> Result<Option<(usize, usize)>> {
    let input = RegexInput::new(text).anchored(true);
    if !kinds.can_search(&input) {
        return Ok(None);
    }
    let Some(mut matches) = kinds.find_input(input)? else {
        return Ok(None);
    };
    let first = matches.next().transpose()?;
    Ok(first.map(|found| (found.pattern(), found.end())))
}

/// The tokens of a small language: keywords 0, names 1, numbers 2, strings 3, operators 4, brackets and separators 5, comments 6
/// and blanks 7.
fn lexer(alloc: Global) -> Result<RegexSet> {
    let kinds = [
        "let|if|else|while",
        r"[A-Za-z_]\w*",
        r"\d+(?:\.\d+)?",
        r#""(?:[^"\\]|\\.)*""#,
        "[-+*/<>=!]=?",
        "[(){};,]",
        "//.*",
        r"\s+",
    ];
    RegexSet::new(alloc, &kinds)
}

/// The tokens of a line, each with its kind and its text.
fn tokens_of_line<'t>(
    alloc: Global,
    lexer: &RegexSet,
    line: &'t str,
) -> Result<Vec<(usize, &'t str)>> {
    let input = RegexInput::new(line);
    let mut tokens = Vec::new(alloc);
    if !lexer.can_search(&input) {
        return Ok(tokens);
    }
    for token in lexer.tokens(input) {
        let token = token?;
        tokens.push((token.pattern(), token.as_str()))?;
    }
    Ok(tokens)
}

/// Prints what functions find in texts.
fn show_searches(rt: &(impl Print + AllocGlobal)) -> anyhow::Result<()> {
    let alloc = rt.alloc();
    let found = first_match(alloc, "xab")?;
    println!(rt; "a match: {found:?}")?;
    let length = header_len(alloc, b"\xFF\xD8ab\x00c")?;
    println!(rt; "a header: {length:?}")?;
    let stops = says_stop(alloc, "go\nStop\n")?;
    println!(rt; "a stop: {stops}")?;
    let twice = has_a_word_twice(alloc, "mirror mirror on the wall")?;
    println!(rt; "a word twice: {twice:?}")?;
    let place = place_of_fault(alloc, "(?:a")?;
    println!(rt; "a fault: {place:?}")?;
    Ok(())
}

/// Prints the numbers at two places of a text.
fn show_numbers(rt: &impl Print, number: &Regex) -> anyhow::Result<()> {
    for place in [3, 2] {
        let found = number_at(number, "on 2026", place)?;
        println!(rt; "a number at {place}: {found:?}")?;
    }
    Ok(())
}

/// Prints the kind and the length of the token that a text begins with.
fn show_token(rt: &impl Print, kinds: &RegexSet) -> anyhow::Result<()> {
    let token = first_token(kinds, "42 is")?;
    println!(rt; "a token: {token:?}")?;
    Ok(())
}

/// Prints the tokens of a line, or why it has none.
fn show_tokens(
    rt: &impl Print,
    line: &str,
    tokens: Result<Vec<(usize, &str)>>,
) -> anyhow::Result<()> {
    match tokens {
        Ok(tokens) => println!(rt; "{line}: {tokens:?}")?,
        Err(error) => println!(rt; "{line}: {error}")?,
    }
    Ok(())
}

/// Prints the tokens of two lines, the second of which has none at its third byte.
fn show_lines(rt: &(impl Print + AllocGlobal), lexer: &RegexSet) -> anyhow::Result<()> {
    for line in ["let x = 2.5; // half", "x ? y"] {
        show_tokens(rt, line, tokens_of_line(rt.alloc(), lexer, line))?;
    }
    Ok(())
}

/// Prints what each function answers.
pub(crate) fn show(rt: &(impl Print + AllocGlobal)) -> anyhow::Result<()> {
    show_searches(rt)?;
    show_numbers(rt, &Regex::new(rt.alloc(), r"\d+")?)?;
    show_token(rt, &kinds_of_tokens(rt.alloc())?)?;
    show_lines(rt, &lexer(rt.alloc())?)
}
