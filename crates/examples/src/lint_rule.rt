//! A lint rule: a word that stands twice in a row, told with its line and column.

use anyhow::Result;
use fancy_regex::{LineIndex, Regex};
use std::fs;
use std::rt::Files;

/// Prints where a word stands twice in a row. How many places there are.
fn check(rt: &(impl Print + AllocGlobal), text: &[u8]) -> Result<usize> {
    let twice = Regex::new(rt.alloc(), r"(?i)\b(\w+)\s+\1\b")?;
    let lines = LineIndex::new(rt.alloc(), text)?;
    let mut count = 0usize;
    for found in twice.find_iter(text) {
        let start = found?.start();
        if let Some(place) = lines.line_column_in_characters(start) {
            let (line, column) = (place.line.saturating_add(1), place.column.saturating_add(1));
            println!(rt; "{line}:{column}: a word stands twice")?;
        }
        count = count.saturating_add(1);
    }
    Ok(count)
}

/// Checks a file. How many places there are.
pub(crate) fn check_file(rt: &(impl Print + Files + AllocGlobal), path: &str) -> Result<usize> {
    let text = fs::read_to_string(rt, path)?;
    check(rt, text.as_str().as_bytes())
}
