//! Cuts texts as the tokeniser of a language model does before it merges bytes: by the pattern of GPT-2. Prints the pieces of
//! each line with a bar between them.

use anyhow::Result;
use fancy_regex::Regex;
use std::fs;
use std::rt::Files;

/// Contractions, words, numbers and other characters, each with a blank before it if there is one, and blanks.
const PIECES: &str = r"'s|'t|'re|'ve|'m|'ll|'d| ?\p{L}+| ?\p{N}+| ?[^\s\p{L}\p{N}]+|\s+(?!\S)|\s+";

/// Prints the pieces of a line.
fn print_pieces(rt: &(impl Print + AllocGlobal), line: &str) -> Result<()> {
    let pieces = Regex::new(rt.alloc(), PIECES)?;
    for piece in pieces.find_iter(line) {
        print!(rt; "{}|", piece?.as_str())?;
    }
    println!(rt; "")?;
    Ok(())
}

/// Prints the pieces of each line of a file.
pub(crate) fn cut_file(rt: &(impl Print + Files + AllocGlobal), path: &str) -> Result<()> {
    let text = fs::read_to_string(rt, path)?;
    for line in text.as_str().lines() {
        print_pieces(rt, line)?;
    }
    Ok(())
}
